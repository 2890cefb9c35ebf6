// From a text of the file to its string of symbols: what each name was resolved to, and how the text is brought, are given by tables.
#![tactic(auto)]

pub mod heads;
pub mod put;
pub mod walk;

ghost use Rattle.std.specs.Prelude.{◌<◌, ◌≤◌, leb, length};
ghost use Rattle.limits.specs.Limits.{max_arity};
ghost use Rattle.spelling.specs.Strings.{ImpliedString, NumbersFit, TextString};

use crate::heads::{leads, named};
use crate::walk::write_expr;
use limits::Limits;
use store::{Lent, Store};

// How a text is brought: how many instances have been entered, and how many parameters they have.
#[derive(Clone, Copy)]
pub struct ChainDepth {
    pub level: usize,
    pub outer: usize,
}

// What is left to be written of a token's arguments: from which position on; all, or those whose bits are set; and whether the last is
// bracketed.
// `all` beside `mask`, not an Option: the mask moves on with each argument whether all are written or not.
#[derive(Clone, Copy)]
pub struct Rest {
    pub to: usize,
    pub all: bool,
    pub mask: u64,
    pub binds: bool,
}

// Where an expression ends, and where its string does.
#[derive(Clone, Copy)]
pub struct Ends {
    pub next: usize,
    pub to: usize,
}

fn nothing() {}

// The numbers of a slice fit, as a function that calls another is told.
fn numbers_fit(s: &[u16])
    ensures { NumbersFit s.now }
{
    nothing();
}

// So the names do: an array of a fixed size tells nothing of its numbers.
pub fn names_fit(store: &Store)
    ensures { NumbersFit store.now.names }
{
    numbers_fit(store.names());
}

// The string of the text at a position, which was brought through `level` instances that have `outer` parameters: its length, also where there
// is no room for it.
pub fn text_string(
    s: &[u8],
    refs: &[u16; Lent::REFS],
    store: &Store,
    numbers: &[u16],
    shapes: &[u32],
    at: usize,
    level: usize,
    outer: usize,
    out: &mut [u8],
) -> usize
    requires { (level < 16) × (outer ≤ max_arity) }
    ensures { TextString s.now refs.now store.now.names store.now.declared numbers.now shapes.now at level outer out.new (length out.old) (leb result (length out.old)) result }
{
    names_fit(store);
    let site = ChainDepth { level, outer };
    let a = write_expr(
        s,
        refs,
        store,
        numbers,
        shapes,
        out,
        at,
        Limits::NESTING,
        site,
        0,
    );
    a.to
}

// The same of what a name was resolved to, r, at k parameters after the instances' and p more.
pub fn implied_string(
    store: &Store,
    numbers: &[u16],
    shapes: &[u32],
    r: u16,
    level: usize,
    outer: usize,
    p: usize,
    k: usize,
    out: &mut [u8],
) -> usize
    requires { (level < 16) × (outer ≤ max_arity) × (p ≤ max_arity) × (k ≤ max_arity) }
    ensures { ImpliedString store.now.names store.now.declared numbers.now shapes.now r level outer p k out.new (length out.old) (leb result (length out.old)) result }
{
    names_fit(store);
    let site = ChainDepth { level, outer };
    let rest = named(store, numbers, shapes, out, r as usize, k as u8, site, 0);
    let a = leads(out, outer + p, k, rest);
    a.to
}
