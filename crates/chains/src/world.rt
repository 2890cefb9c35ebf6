// The walk along the chain of a definition, and the form of its text at the end.
ghost use Rattle.std.specs.Prelude.{true, ◌≡◌, ◌≤◌, ◌<◌, ◌*◌};
ghost use Rattle.limits.specs.Limits.{max_arity, max_declarations, max_definitions};
ghost use Rattle.store.specs.Store.{first_at, link_at, source_at};
ghost use Rattle.context.specs.Entries.{word_count};
ghost use Rattle.chains.specs.Walk.{LinkEntered, code_at, outer_after, step_fits};
ghost use Rattle.chains.specs.Results.{Itselves, WorldForm};

use crate::link::{enter_link, link_fits};
use context::Kinds;
use levels::names::identity;
use limits::Limits;
use store::{Lent, Store};

// The code of the INSTANCE field that brought a definition.
pub fn code_of(store: &Store, cur: usize) -> usize
    requires { (cur < max_definitions) × (0 < link_at store.now.facts cur) }
    ensures { (result ≡ code_at store.now.facts cur) × (result ≤ 2 * word_count) }
{
    Limits::DEFINITIONS + (store.link_at(cur) as usize - 1)
}

// The definition that it was brought from.
pub fn source_of(store: &Store, cur: usize) -> usize
    requires { cur < max_definitions }
    ensures { result ≡ source_at store.now.facts cur }
{
    store.source_at(cur) as usize
}

// Where its text begins.
pub fn text_of(store: &Store, cur: usize) -> usize
    requires { cur < max_definitions }
    ensures { result ≡ first_at store.now.facts cur }
{
    store.first_at(cur) as usize
}

// Whether it was brought, from one below it and by a field within the limits.
pub fn step_fits(store: &Store, outer: usize, cur: usize) -> bool
    requires { (outer ≤ max_arity) × (cur < max_definitions) }
    ensures { result ≡ step_fits store.now.facts outer cur }
{
    if store.link_at(cur) == 0 {
        return false;
    }
    if source_of(store, cur) < cur {
        return link_fits(store, outer, code_of(store, cur));
    }
    false
}

// The parameters around what that instance brought.
pub fn outer_after(store: &Store, outer: usize, cur: usize) -> usize
    requires { (outer ≤ max_arity) × (cur < max_definitions) × (step_fits store.now.facts outer cur ≡ true) }
    ensures { result ≡ outer_after store.now.facts outer cur }
{
    let kind = store.kind_at(code_of(store, cur));
    outer + ((kind - Kinds::INSTANCE) as usize)
}

// One instance further in.
fn enter_step(
    file: &[u8],
    refs: &[u16],
    store: &Store,
    n: usize,
    numbers: &mut [u16; Limits::DEFINITIONS],
    inner: &mut [u64; Lent::WORDS],
    outer: usize,
    cur: usize,
)
    requires { (n ≤ max_declarations) × (outer ≤ max_arity) × (cur < max_definitions) × (step_fits store.now.facts outer cur ≡ true) }
    ensures { LinkEntered file.now refs.now store.now store.now.declared n outer (code_at store.now.facts cur) numbers.old numbers.new inner.old inner.new }
{
    let o = code_of(store, cur);
    enter_link(file, refs, store, n, numbers, inner, outer, o);
}

// The form of the original's text at the end of the chain of definition d.
fn walk_chain(
    file: &[u8],
    refs: &[u16],
    store: &Store,
    n: usize,
    numbers: &mut [u16; Limits::DEFINITIONS],
    inner: &mut [u64; Lent::WORDS],
    d: usize,
) -> u64
    requires { Itselves numbers.old × (n ≤ max_declarations) × (d < max_definitions) }
    ensures { WorldForm file.now refs.now inner.old store.now store.now.declared n d result }
{
    let mut outer: usize = 0;
    let mut cur = d;
    while step_fits(store, outer, cur) {
        enter_step(file, refs, store, n, numbers, inner, outer, cur);
        outer = outer_after(store, outer, cur);
        cur = source_of(store, cur);
    }
    levels::text_form(file, refs, numbers, inner, text_of(store, cur), outer)
}

// The form of definition d, by the forms of those below it and of the declarations.
pub fn world_form(
    file: &[u8],
    refs: &[u16],
    words: &[u64; Lent::WORDS],
    store: &Store,
    n: usize,
    d: usize,
) -> u64
    requires { (n ≤ max_declarations) × (d < max_definitions) }
    ensures { WorldForm file.now refs.now words.now store.now store.now.declared n d result }
{
    let mut numbers = [0u16; Limits::DEFINITIONS];
    let mut inner = [0u64; Lent::WORDS];
    identity(&mut numbers);
    inner.copy_from_slice(words);
    walk_chain(file, refs, store, n, &mut numbers, &mut inner, d)
}
