// A query's expression, "of any length", read once: whether it keeps the limits, whether its names are known and rightly counted, and its string of
// symbols.
#![tactic(auto)]

pub mod steps;
pub mod walk;

ghost use Rattle.std.specs.Prelude.{◌≡◌, None, Some, ◌^◌, ◌-◌, ◌<◌, ◌≤◌, cond, leb, length};
ghost use Rattle.limits.specs.Limits.{max_modules};
ghost use Rattle.context.specs.Parts.{part};
ghost use Rattle.context.specs.Entries.{context_codes, word_count};
ghost use Rattle.tables.specs.Serves.{Serves};
ghost use Rattle.query_strings.specs.Read.{QueryRead};

use crate::walk::read_expr;
use levels::names::identity;
use limits::Limits;
use resolve::{Look, Looked};
use rows::RowColumn;
use skimming::{ContextAt, Spot};
use spelling::{Rest, names_fit};
use store::Store;
use tables::{Long, Tables};

// Of an expression that keeps the limits: whether its names are known and rightly counted, and the position after it; and its string's length,
// if there was room for it.
#[derive(Clone, Copy)]
pub struct Queried {
    pub looked: Looked,
    pub len: Option<usize>,
}

// What a token was resolved to, and what is left to be written of its arguments.
#[derive(Clone, Copy)]
pub struct TokenHead {
    pub look: Option<Look>,
    pub rest: Rest,
}

// Of an expression that keeps the limits: whether its names are known and rightly counted, the position after it and the position after its
// string.
#[derive(Clone, Copy)]
pub struct Read {
    pub looked: Looked,
    pub to: usize,
}

// A length for which there is room.
fn fitting(len: usize, room: usize) -> Option<usize>
    ensures { result ≡ cond (leb len room) (Some len) None }
{
    if len <= room { Some(len) } else { None }
}

// The expression that the bytes begin with, by tables or none.
fn read_with(
    expr: &[u8],
    tables: &[u8],
    store: &Store,
    shapes: &[u32],
    p: ContextAt,
    out: &mut [u8],
) -> Option<Queried>
    requires { Serves store.now tables.now p.from p.end }
    ensures { QueryRead expr.now store.now.names store.now.facts (part store.now.contexts p.from (p.end - p.from)) store.now.declared shapes.now p.params out.new (length out.old) result }
{
    names_fit(store);
    let column = RowColumn::new();
    let mut own = [0u16; Limits::DEFINITIONS];
    identity(&mut own);
    let e = Spot {
        at: 0,
        nest: Limits::NESTING,
        bound: 0,
    };
    let a = read_expr(expr, &column, tables, store, &own, shapes, out, p, e, 0)?;
    let looked = a.looked;
    let len = fitting(a.to, out.len());
    Some(Queried { looked, len })
}

// The same with no tables, which costs less where the expression is short.
fn read_short(
    expr: &[u8],
    store: &Store,
    shapes: &[u32],
    p: ContextAt,
    out: &mut [u8],
) -> Option<Queried>
    requires { p.from < 2 ^ 32 }
    ensures { QueryRead expr.now store.now.names store.now.facts (part store.now.contexts p.from (p.end - p.from)) store.now.declared shapes.now p.params out.new (length out.old) result }
{
    read_with(expr, &expr[..0], store, shapes, p, out)
}

// The same with the tables filled.
fn read_long(
    expr: &[u8],
    store: &Store,
    shapes: &[u32],
    p: ContextAt,
    out: &mut [u8],
) -> Option<Queried>
    requires { (p.from < 2 ^ 32) × (p.from ≤ p.end) × (p.end - p.from < word_count) }
    ensures { QueryRead expr.now store.now.names store.now.facts (part store.now.contexts p.from (p.end - p.from)) store.now.declared shapes.now p.params out.new (length out.old) result }
{
    let mut tables = [0u8; Tables::BYTES];
    tables::fill(store, &mut tables, p.from, p.end);
    read_with(expr, &tables, store, shapes, p, out)
}

// The expression that the bytes begin with, its names looked up in the context of module m.
pub fn query_string(
    expr: &[u8],
    store: &Store,
    shapes: &[u32],
    m: usize,
    params: usize,
    out: &mut [u8],
) -> Option<Queried>
    requires { m ≤ max_modules }
    ensures { QueryRead expr.now store.now.names store.now.facts (context_codes store.now.contexts store.now.heads m) store.now.declared shapes.now params out.new (length out.old) result }
{
    let from = m * Limits::CONTEXT;
    let count = store.head_at(Limits::PLACES + m) as usize;
    let p = ContextAt {
        from,
        end: from + count,
        params,
    };
    if expr.len() < Long::BYTES {
        read_short(expr, store, shapes, p, out)
    } else {
        read_long(expr, store, shapes, p, out)
    }
}
