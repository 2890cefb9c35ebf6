// One walk over an expression: if it keeps the limits, whether its names are known and rightly counted, where it ends, and its string of
// symbols, as far as there is room for it. No instance has brought the expression.
ghost use Rattle.std.specs.Prelude.{◌≡◌, ◌+◌, ◌-◌, ◌<◌};
ghost use Rattle.context.specs.Parts.{part};
ghost use Rattle.resolve.specs.Walk.{word_count};
ghost use Rattle.tokens.specs.Expr.{expr_at, several};
ghost use Rattle.tables.specs.Serves.{Serves};
ghost use Rattle.query_strings.specs.Reads.{Joins, Reads, ReadsAll, ReadsArgument, ReadsHead, Stands, Unwritten};

use crate::steps::{after_token, join, over};
use crate::{Read, TokenHead};
use limits::Limits;
use resolve::steps::{bound_in, nothing, number_of};
use rows::RowColumn;
use skimming::{Args, ContextAt, Spot, bound_inside, skim_expr};
use spelling::heads::{head, is_written, passed};
use spelling::walk::{close_argument, open_argument};
use spelling::{ChainDepth, Rest};
use store::Store;
use tables::names::look;
use tables::token::{arguments_in, token_in};
use tokens::Token;

// An argument, and then the others.
fn joined(a: Read, b: Read) -> Read
    ensures { Joins a.looked b.looked result.looked × (result.to ≡ b.to) }
{
    let to = b.to;
    let looked = join(a.looked, b.looked);
    Read { looked, to }
}

// Where nothing is to be written.
fn read_unwritten(
    s: &[u8],
    column: &RowColumn,
    tables: &[u8],
    store: &Store,
    p: ContextAt,
    e: Spot,
    to: usize,
) -> Option<Read>
    requires { Serves store.now tables.now p.from p.end × (e.bound + e.nest < word_count) }
    ensures { Unwritten store.now.names store.now.facts (part store.now.contexts p.from (p.end - p.from)) p.params e.bound (expr_at e.nest s.now e.at) to result }
{
    let looked = skim_expr(s, column, tables, store, p, e)?;
    Some(Read { looked, to })
}

// A token looked up, and its first symbols.
fn read_head(
    tables: &[u8],
    store: &Store,
    numbers: &[u16],
    shapes: &[u32],
    out: &mut [u8],
    p: ContextAt,
    t: Token,
    q: usize,
) -> TokenHead
    requires { Serves store.now tables.now p.from p.end }
    ensures { ReadsHead store.now.names store.now.facts (part store.now.contexts p.from (p.end - p.from)) store.now.declared numbers.now shapes.now t out.old q out.new result }
{
    let l = look(store, tables, p.from, p.end, t);
    let site = ChainDepth { level: 0, outer: 0 };
    let r = number_of(l);
    let rest = head(store, numbers, shapes, out, t, r, site, q);
    TokenHead { look: l, rest }
}

// The expression at a place; its string is written from q on.
#[cycle(read_args_read_argument_read_expr_read_token)]
pub fn read_expr(
    s: &[u8],
    column: &RowColumn,
    tables: &[u8],
    store: &Store,
    numbers: &[u16],
    shapes: &[u32],
    out: &mut [u8],
    p: ContextAt,
    e: Spot,
    q: usize,
) -> Option<Read>
    requires { Serves store.now tables.now p.from p.end × (e.bound + e.nest < word_count) }
    ensures { Reads store.now.names store.now.facts (part store.now.contexts p.from (p.end - p.from)) store.now.declared numbers.now shapes.now p.params e.bound (expr_at e.nest s.now e.at) out.old q out.new result }
{
    if out.len() < q {
        return read_unwritten(s, column, tables, store, p, e, q);
    }
    let at = e.at;
    if e.nest == 0 {
        return None;
    }
    let t = token_in(s, column, at)?;
    let k = arguments_in(column, t);
    if (Limits::ARITY as u8) < k {
        return None;
    }
    read_token(
        s, column, tables, store, numbers, shapes, out, p, e, q, t, k,
    )
}

// A token over its k arguments.
#[cycle(read_args_read_argument_read_expr_read_token)]
fn read_token(
    s: &[u8],
    column: &RowColumn,
    tables: &[u8],
    store: &Store,
    numbers: &[u16],
    shapes: &[u32],
    out: &mut [u8],
    p: ContextAt,
    e: Spot,
    q: usize,
    t: Token,
    k: u8,
) -> Option<Read>
    requires { Serves store.now tables.now p.from p.end × (e.bound + e.nest < word_count) × Stands s.now e.at e.nest t k }
    ensures { Reads store.now.names store.now.facts (part store.now.contexts p.from (p.end - p.from)) store.now.declared numbers.now shapes.now p.params e.bound (expr_at e.nest s.now e.at) out.old q out.new result }
{
    let h = read_head(tables, store, numbers, shapes, out, p, t, q);
    let start = after_token(s, e.at, t);
    let last = bound_inside(column, t, e.bound);
    let l = h.look;
    let rest = h.rest;
    let g = Args {
        at: start,
        count: k,
        nest: e.nest - 1,
        around: e.bound,
        within: last,
    };
    let a = read_args(s, column, tables, store, numbers, shapes, out, p, g, rest)?;
    let to = a.to;
    let looked = over(Some(t), l, p.params, e.bound, a.looked);
    Some(Read { looked, to })
}

// Arguments; what is left to be written of them is written.
#[cycle(read_args_read_argument_read_expr_read_token)]
fn read_args(
    s: &[u8],
    column: &RowColumn,
    tables: &[u8],
    store: &Store,
    numbers: &[u16],
    shapes: &[u32],
    out: &mut [u8],
    p: ContextAt,
    g: Args,
    rest: Rest,
) -> Option<Read>
    requires { Serves store.now tables.now p.from p.end × (g.around + g.nest < word_count) × (g.within + g.nest < word_count) }
    ensures { ReadsAll store.now.names store.now.facts (part store.now.contexts p.from (p.end - p.from)) store.now.declared numbers.now shapes.now p.params g.around g.within (several (expr_at g.nest s.now) g.at g.count) g.count rest out.old out.new result }
{
    let k = g.count;
    if k == 0 {
        return Some(Read {
            looked: nothing(g.at),
            to: rest.to,
        });
    }
    let bound = bound_in(k, g.around, g.within);
    let e = Spot {
        at: g.at,
        nest: g.nest,
        bound,
    };
    let a = read_argument(
        s, column, tables, store, numbers, shapes, out, p, e, k, rest,
    )?;
    let left = passed(rest, a.to);
    let others = Args {
        at: a.looked.next,
        count: k - 1,
        nest: g.nest,
        around: g.around,
        within: g.within,
    };
    let b = read_args(
        s, column, tables, store, numbers, shapes, out, p, others, left,
    )?;
    Some(joined(a, b))
}

// The first of k arguments.
#[cycle(read_args_read_argument_read_expr_read_token)]
fn read_argument(
    s: &[u8],
    column: &RowColumn,
    tables: &[u8],
    store: &Store,
    numbers: &[u16],
    shapes: &[u32],
    out: &mut [u8],
    p: ContextAt,
    e: Spot,
    k: u8,
    rest: Rest,
) -> Option<Read>
    requires { Serves store.now tables.now p.from p.end × (e.bound + e.nest < word_count) }
    ensures { ReadsArgument store.now.names store.now.facts (part store.now.contexts p.from (p.end - p.from)) store.now.declared numbers.now shapes.now p.params e.bound (expr_at e.nest s.now e.at) k rest out.old out.new result }
{
    if is_written(rest) {
        let q = open_argument(out, rest, k);
        let a = read_expr(s, column, tables, store, numbers, shapes, out, p, e, q)?;
        let looked = a.looked;
        let to = close_argument(out, rest, k, a.to);
        return Some(Read { looked, to });
    }
    read_unwritten(s, column, tables, store, p, e, rest.to)
}
