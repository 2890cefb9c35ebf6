// One link of a chain.
ghost use Rattle.std.specs.Prelude.{true, ◌≡◌, ◌≤◌, ◌*◌};
ghost use Rattle.limits.specs.Limits.{max_arity, max_declarations, max_definitions, max_modules};
ghost use Rattle.store.specs.Store.{first_at, via_at};
ghost use Rattle.context.specs.Entries.{context_codes, instance_kind, order_of, word_count};
ghost use Rattle.entering.specs.Substitutes.{Substituted, around};
ghost use Rattle.entering.specs.Numbering.{Entered};
ghost use Rattle.chains.specs.Walk.{LinkEntered, NumbersEntered, SiteMade, columns_fit, link_fits, site_by, site_of};

use context::Kinds;
use entering::numbering::enter_numbers;
use entering::replacing::replace;
use entering::substitutes::{Site, enter_substitutes};
use limits::Limits;
use store::{Lent, Store};

// Whether an INSTANCE field's numbers are within the limits, with so many parameters around it.
fn columns_fit(outer: usize, kind: u16, first: u16, via: u16, link: u16) -> bool
    requires { outer ≤ max_arity }
    ensures { result ≡ columns_fit outer kind first via link }
{
    if kind < Kinds::INSTANCE {
        return false;
    }
    if Limits::ARITY < outer + ((kind - Kinds::INSTANCE) as usize) {
        return false;
    }
    if Limits::DEFINITIONS < first as usize {
        return false;
    }
    if Limits::MODULES < via as usize {
        return false;
    }
    if Limits::MODULES < (link / Site::OWNER_SHIFT) as usize {
        return false;
    }
    true
}

// The same of the field of code o.
pub fn link_fits(store: &Store, outer: usize, o: usize) -> bool
    requires { (outer ≤ max_arity) × (o ≤ 2 * word_count) }
    ensures { result ≡ link_fits store.now.facts outer o }
{
    let kind = store.kind_at(o);
    let first = store.first_at(o);
    let via = store.via_at(o);
    let link = store.link_at(o);
    columns_fit(outer, kind, first, via, link)
}

// The field as `entering` takes it.
fn site_by(outer: usize, kind: u16, source: u16, link: u16) -> Site
    requires { instance_kind ≤ kind }
    ensures { result ≡ site_by outer kind source link }
{
    Site {
        outer,
        params: (kind - Kinds::INSTANCE) as usize,
        owner: (link / Site::OWNER_SHIFT) as usize,
        start: source as usize,
        count: (link % Site::OWNER_SHIFT) as usize,
    }
}

pub fn site_of(store: &Store, outer: usize, o: usize) -> Site
    requires { (outer ≤ max_arity) × (o ≤ 2 * word_count) × (link_fits store.now.facts outer o ≡ true) }
    ensures { SiteMade store.now.facts outer o result }
{
    let kind = store.kind_at(o);
    let source = store.source_at(o);
    let link = store.link_at(o);
    site_by(outer, kind, source, link)
}

// The number of the module that the field instances.
fn module_of(store: &Store, outer: usize, o: usize) -> usize
    requires { (o ≤ 2 * word_count) × (link_fits store.now.facts outer o ≡ true) }
    ensures { (result ≡ via_at store.now.facts o) × (result ≤ max_modules) }
{
    store.via_at(o) as usize
}

fn first_of(store: &Store, outer: usize, o: usize) -> usize
    requires { (o ≤ 2 * word_count) × (link_fits store.now.facts outer o ≡ true) }
    ensures { (result ≡ first_at store.now.facts o) × (result ≤ max_definitions) }
{
    store.first_at(o) as usize
}

// What stands for the declarations of the module instanced.
fn link_substitutes(
    file: &[u8],
    refs: &[u16],
    numbers: &[u16],
    inner: &[u64; Lent::WORDS],
    store: &Store,
    n: usize,
    outer: usize,
    o: usize,
    next: &mut [u64; Limits::DECLARATIONS],
)
    requires { (n ≤ max_declarations) × (outer ≤ max_arity) × (o ≤ 2 * word_count) × (link_fits store.now.facts outer o ≡ true) }
    ensures { Substituted (around file.now refs.now numbers.now inner.now store.now.names store.now.facts store.now.contexts store.now.heads) (site_of store.now.facts outer o) (context_codes store.now.contexts store.now.heads (via_at store.now.facts o)) store.now.declared n next.old next.new }
{
    let site = site_of(store, outer, o);
    let q = module_of(store, outer, o);
    enter_substitutes(file, refs, numbers, inner, store, n, site, q, next);
}

// Which definition of the world each of its definitions is.
fn link_numbers(
    store: &Store,
    numbers: &[u16],
    outer: usize,
    o: usize,
    after: &mut [u16; Limits::DEFINITIONS],
)
    requires { (o ≤ 2 * word_count) × (link_fits store.now.facts outer o ≡ true) }
    ensures { Entered (order_of store.now.orders store.now.heads (via_at store.now.facts o)) (first_at store.now.facts o) numbers.now after.old after.new }
{
    let q = module_of(store, outer, o);
    let first = first_of(store, outer, o);
    enter_numbers(store, q, first, numbers, after);
}

// The same in place.
pub fn enter_link_numbers(
    store: &Store,
    numbers: &mut [u16; Limits::DEFINITIONS],
    outer: usize,
    o: usize,
)
    requires { (o ≤ 2 * word_count) × (link_fits store.now.facts outer o ≡ true) }
    ensures { NumbersEntered store.now.facts store.now.orders store.now.heads o numbers.old numbers.new }
{
    let mut after = [0u16; Limits::DEFINITIONS];
    link_numbers(store, numbers, outer, o, &mut after);
    numbers.copy_from_slice(&after);
}

// The tables of the world of the field become those of the world one instance further in.
pub fn enter_link(
    file: &[u8],
    refs: &[u16],
    store: &Store,
    n: usize,
    numbers: &mut [u16; Limits::DEFINITIONS],
    inner: &mut [u64; Lent::WORDS],
    outer: usize,
    o: usize,
)
    requires { (n ≤ max_declarations) × (outer ≤ max_arity) × (o ≤ 2 * word_count) × (link_fits store.now.facts outer o ≡ true) }
    ensures { LinkEntered file.now refs.now store.now store.now.declared n outer o numbers.old numbers.new inner.old inner.new }
{
    let mut next = [0u64; Limits::DECLARATIONS];
    link_substitutes(file, refs, numbers, inner, store, n, outer, o, &mut next);
    enter_link_numbers(store, numbers, outer, o);
    replace(inner, &next);
}
