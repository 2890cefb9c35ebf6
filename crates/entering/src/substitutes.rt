// What stands for each declaration of the module instanced, in the world of the INSTANCE field.
ghost use Rattle.std.specs.Prelude.{◌≡◌, ◌+◌, ◌≤◌, ◌<◌};
ghost use Rattle.limits.specs.Limits.{max_declarations, max_modules};
ghost use Rattle.context.specs.Entries.{context_codes};
ghost use Rattle.context.specs.Lookup.{as_code};
ghost use Rattle.entering.specs.Substitutes.{Added, Fitting, Stands, StandsAt, Substituted, around, of_kind, same_declared};

use crate::implied::{arguments_of, implied_form, implied_ref};
use crate::sharing::{copy_form, first_same};
use crate::written::find_substitution;
use context::lookup::find_declaration;
use limits::Limits;
use store::{Lent, Store};

// An INSTANCE field: the instances' parameters around it, its own, the module that it stands in, where its substitutions begin, and how
// many there are.
#[derive(Clone, Copy)]
pub struct Site {
    pub outer: usize,
    pub params: usize,
    pub owner: usize,
    pub start: usize,
    pub count: usize,
}

impl Site {
    // The link of a field keeps the number of its module above the count of its substitutions, which takes 8 bits.
    pub const OWNER_SHIFT: u16 = 256;
}

// The form of what stands for the declaration o.
pub fn substitute_form(
    s: &[u8],
    refs: &[u16],
    numbers: &[u16],
    words: &[u64; Lent::WORDS],
    store: &Store,
    site: Site,
    o: u16,
) -> u64
    requires { Fitting site }
    ensures { Stands (around s.now refs.now numbers.now words.now store.now.names store.now.facts store.now.contexts store.now.heads) site o result }
{
    let name = store.name_at(o as usize);
    let outer = site.outer;
    match find_substitution(s, site.start, site.count, name) {
        Some(at) => levels::text_form(s, refs, numbers, words, at, outer),
        None => {
            let r = implied_ref(store, site.owner, name);
            let k = arguments_of(store.kind_at(o as usize));
            implied_form(numbers, words, r, outer, site.params, k)
        }
    }
}

// The form at d of what stands for the declaration o.
fn put_substitute(
    s: &[u8],
    refs: &[u16],
    numbers: &[u16],
    words: &[u64; Lent::WORDS],
    store: &Store,
    site: Site,
    o: u16,
    d: usize,
    next: &mut [u64; Limits::DECLARATIONS],
)
    requires { Fitting site × (d < max_declarations) }
    ensures { StandsAt (around s.now refs.now numbers.now words.now store.now.names store.now.facts store.now.contexts store.now.heads) site o d next.old next.new }
{
    let f = substitute_form(s, refs, numbers, words, store, site, o);
    next[d] = f;
}

// o if it has the kind of e.
fn of_kind(store: &Store, e: u16, o: u16) -> Option<u16>
    ensures { result ≡ as_code (of_kind store.now.facts e o) }
{
    let k = store.kind_at(o as usize);
    if k == store.kind_at(e as usize) {
        return Some(o);
    }
    None
}

// The declaration in the context of module q that has the name and the kind of e.
fn same_declared(store: &Store, q: usize, e: u16) -> Option<u16>
    requires { q ≤ max_modules }
    ensures { result ≡ as_code (same_declared store.now.names store.now.facts (context_codes store.now.contexts store.now.heads q) e) }
{
    let name = store.name_at(e as usize);
    let from = q * Limits::CONTEXT;
    let count = store.head_at(Limits::PLACES + q) as usize;
    of_kind(store, e, find_declaration(store, from, from + count, name)?)
}

// The form at d of what stands for the declaration of module q that has the name and the kind of e, if there is one.
fn enter_substitute(
    s: &[u8],
    refs: &[u16],
    numbers: &[u16],
    words: &[u64; Lent::WORDS],
    store: &Store,
    site: Site,
    q: usize,
    e: u16,
    d: usize,
    next: &mut [u64; Limits::DECLARATIONS],
)
    requires { Fitting site × (q ≤ max_modules) × (d < max_declarations) }
    ensures { Added (around s.now refs.now numbers.now words.now store.now.names store.now.facts store.now.contexts store.now.heads) site (context_codes store.now.contexts store.now.heads q) e d next.old next.new }
{
    if let Some(o) = same_declared(store, q, e) {
        put_substitute(s, refs, numbers, words, store, site, o, d, next);
    }
}

// Declaration d after those before it: the form of the first of its kind and name, which is there already, or else its own.
fn enter_next(
    s: &[u8],
    refs: &[u16],
    numbers: &[u16],
    words: &[u64; Lent::WORDS],
    store: &Store,
    site: Site,
    q: usize,
    d: usize,
    next: &mut [u64; Limits::DECLARATIONS],
)
    requires { Fitting site × (q ≤ max_modules) × (d < max_declarations) × Substituted (around s.now refs.now numbers.now words.now store.now.names store.now.facts store.now.contexts store.now.heads) site (context_codes store.now.contexts store.now.heads q) store.now.declared d next.old next.old }
    ensures { Substituted (around s.now refs.now numbers.now words.now store.now.names store.now.facts store.now.contexts store.now.heads) site (context_codes store.now.contexts store.now.heads q) store.now.declared (d + 1) next.old next.new }
{
    let i = first_same(store, d);
    if i < d {
        copy_form(next, i, d);
        return;
    }
    let e = store.declared_at(d);
    enter_substitute(s, refs, numbers, words, store, site, q, e, d, next);
}

// The forms of what stands for the declarations of module q, in a table of their own: by number, among the first n declarations of the
// file, whose codes are given.
pub fn enter_substitutes(
    s: &[u8],
    refs: &[u16],
    numbers: &[u16],
    words: &[u64; Lent::WORDS],
    store: &Store,
    n: usize,
    site: Site,
    q: usize,
    next: &mut [u64; Limits::DECLARATIONS],
)
    requires { Fitting site × (q ≤ max_modules) × (n ≤ max_declarations) }
    ensures { Substituted (around s.now refs.now numbers.now words.now store.now.names store.now.facts store.now.contexts store.now.heads) site (context_codes store.now.contexts store.now.heads q) store.now.declared n next.old next.new }
{
    for d in 0..n {
        enter_next(s, refs, numbers, words, store, site, q, d, next);
    }
}
