// The walk over a text where it stands in the file; `refs` says what each of its names was resolved to.
ghost use Rattle.std.specs.Prelude.{◌≡◌, ◌&&◌, ◌<◌, ◌≤◌, eqb};
ghost use Rattle.limits.specs.Limits.{max_arity};
ghost use Rattle.tokens.specs.Expr.{expr_at, several};
ghost use Rattle.unfolding.specs.InWorld.{by_refs};
ghost use Rattle.spelling.specs.Parts.{is_written, Opened, Closed};
ghost use Rattle.spelling.specs.Written.{shape_in, declarations_in, place_of, Wrote, AllWrote, ArgumentWrote};

use crate::heads::{head, is_written, passed};
use crate::put::put_byte;
use crate::{ChainDepth, Ends, Rest};
use context::lists::number_at;
use store::{Lent, Store};

// Whether the first of k arguments is the last and inside a binder.
fn is_inside(rest: Rest, k: u8) -> bool
    ensures { result ≡ rest.binds && eqb k 1 }
{
    if rest.binds {
        return k == 1;
    }
    false
}

// Before the first of k arguments: its bracket, if it has one. Where it is not written no room is left, so that nothing is put for it.
pub fn open_argument(out: &mut [u8], rest: Rest, k: u8) -> usize
    ensures { Opened (is_written rest.all rest.mask) (rest.binds && eqb k 1) out.old rest.to out.new result }
{
    if is_written(rest) {
        if is_inside(rest, k) {
            return put_byte(out, rest.to, 11);
        }
        return rest.to;
    }
    out.len() + 1
}

// After it: the position from which on the others are written.
pub fn close_argument(out: &mut [u8], rest: Rest, k: u8, to: usize) -> usize
    ensures { Closed (is_written rest.all rest.mask) (rest.binds && eqb k 1) rest.to out.old to out.new result }
{
    if is_written(rest) {
        if is_inside(rest, k) {
            return put_byte(out, to, 12);
        }
        return to;
    }
    rest.to
}

// The string of the expression at a position is written from q on. Where no expression stands there that nests within `nest`, nothing is said.
#[cycle(write_args_write_argument_write_expr)]
pub fn write_expr(
    s: &[u8],
    refs: &[u16; Lent::REFS],
    store: &Store,
    numbers: &[u16],
    shapes: &[u32],
    out: &mut [u8],
    at: usize,
    nest: usize,
    site: ChainDepth,
    q: usize,
) -> Ends
    requires { (site.level < 16) × (site.outer ≤ max_arity) }
    ensures { Wrote (by_refs refs.now) (shape_in shapes.now) (declarations_in store.now.names store.now.declared) (place_of site.level site.outer numbers.now) (expr_at nest s.now at) out.old q out.new result.to result.next }
{
    if nest == 0 {
        return Ends { next: at, to: q };
    }
    let Some(t) = tokens::token_at(s, at) else {
        return Ends { next: at, to: q };
    };
    let r = number_at(refs, at);
    let rest = head(store, numbers, shapes, out, t, r, site, q);
    let start = at + tokens::width(t);
    let k = tokens::arguments(t);
    write_args(
        s,
        refs,
        store,
        numbers,
        shapes,
        out,
        start,
        k,
        nest - 1,
        site,
        rest,
    )
}

// What is left to be written of k arguments from a position on.
#[cycle(write_args_write_argument_write_expr)]
fn write_args(
    s: &[u8],
    refs: &[u16; Lent::REFS],
    store: &Store,
    numbers: &[u16],
    shapes: &[u32],
    out: &mut [u8],
    at: usize,
    k: u8,
    nest: usize,
    site: ChainDepth,
    rest: Rest,
) -> Ends
    requires { (site.level < 16) × (site.outer ≤ max_arity) }
    ensures { AllWrote (by_refs refs.now) (shape_in shapes.now) (declarations_in store.now.names store.now.declared) (place_of site.level site.outer numbers.now) (several (expr_at nest s.now) at k) k rest.all rest.mask rest.binds out.old rest.to out.new result.to result.next }
{
    if k == 0 {
        return Ends {
            next: at,
            to: rest.to,
        };
    }
    let a = write_argument(
        s, refs, store, numbers, shapes, out, at, k, nest, site, rest,
    );
    let left = passed(rest, a.to);
    write_args(
        s,
        refs,
        store,
        numbers,
        shapes,
        out,
        a.next,
        k - 1,
        nest,
        site,
        left,
    )
}

// The first of k arguments.
#[cycle(write_args_write_argument_write_expr)]
fn write_argument(
    s: &[u8],
    refs: &[u16; Lent::REFS],
    store: &Store,
    numbers: &[u16],
    shapes: &[u32],
    out: &mut [u8],
    at: usize,
    k: u8,
    nest: usize,
    site: ChainDepth,
    rest: Rest,
) -> Ends
    requires { (site.level < 16) × (site.outer ≤ max_arity) }
    ensures { ArgumentWrote (by_refs refs.now) (shape_in shapes.now) (declarations_in store.now.names store.now.declared) (place_of site.level site.outer numbers.now) (expr_at nest s.now at) k rest.all rest.mask rest.binds out.old rest.to out.new result.to result.next }
{
    let q = open_argument(out, rest, k);
    let a = write_expr(s, refs, store, numbers, shapes, out, at, nest, site, q);
    let to = close_argument(out, rest, k, a.to);
    Ends { next: a.next, to }
}
