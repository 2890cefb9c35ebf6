// The strings of what calls along a chain stand for.
ghost use Rattle.std.specs.Prelude.{◌≡◌, ◌≤◌, ◌<◌, get_or, leb, length};
ghost use Rattle.limits.specs.Limits.{max_arity, max_definitions, max_modules};
ghost use Rattle.entering.specs.Substitutes.{Fitting};
ghost use Rattle.callees.specs.Results.{Clamped, LinkString, OwnString, StandInString, SubstituteString};

use crate::chain::Chain;
use chains::link::site_of;
use chains::world::{code_of, step_fits, text_of};
use context::lists::number_at;
use entering::implied::{arguments_of, implied_ref};
use entering::substitutes::Site;
use entering::written::find_substitution;
use limits::Limits;
use spelling::{implied_string, text_string};
use store::{Lent, Store};

// A number of an array, at most the bound given.
fn at_most(xs: &[u16], i: usize, bound: usize) -> usize
    ensures { Clamped bound (get_or xs.now i 0) result }
{
    let x = number_at(xs, i) as usize;
    if x <= bound { x } else { bound }
}

// The string of definition D's text, D being the definition whose chain the arrays hold, k links long.
pub fn own_string(
    file: &[u8],
    refs: &[u16; Lent::REFS],
    store: &Store,
    chain: &Chain,
    shapes: &[u32],
    k: usize,
    out: &mut [u8],
) -> usize
    requires { k < max_modules }
    ensures { OwnString file.now refs.now store.now chain.now.numbers chain.now.currents chain.now.outers shapes.now k out.new (length out.old) (leb result (length out.old)) result }
{
    let cur = at_most(&chain.currents, k, Limits::DEFINITIONS - 1);
    let outer = at_most(&chain.outers, k, Limits::ARITY);
    let at = text_of(store, cur);
    let a = Limits::DEFINITIONS * k;
    let e = a + Limits::DEFINITIONS;
    text_string(
        file,
        refs,
        store,
        &chain.numbers[a..e],
        shapes,
        at,
        k,
        outer,
        out,
    )
}

// The string of what is written for declaration e at an INSTANCE field, or of what its name means there.
fn substitute_string(
    file: &[u8],
    refs: &[u16; Lent::REFS],
    store: &Store,
    row: &[u16],
    shapes: &[u32],
    site: Site,
    level: usize,
    e: usize,
    out: &mut [u8],
) -> usize
    requires { Fitting site × (level < max_modules) }
    ensures { SubstituteString file.now refs.now store.now row.now shapes.now site level e out.new (length out.old) (leb result (length out.old)) result }
{
    let o = store.declared_at(e) as usize;
    let name = store.name_at(o);
    let outer = site.outer;
    match find_substitution(file, site.start, site.count, name) {
        Some(at) => text_string(file, refs, store, row, shapes, at, level, outer, out),
        None => {
            let r = implied_ref(store, site.owner, name);
            let k = arguments_of(store.kind_at(o));
            implied_string(store, row, shapes, r, level, outer, site.params, k, out)
        }
    }
}

// The same at the INSTANCE field that brought definition cur, with `outer` parameters around it.
fn link_string(
    file: &[u8],
    refs: &[u16; Lent::REFS],
    store: &Store,
    row: &[u16],
    shapes: &[u32],
    cur: usize,
    outer: usize,
    level: usize,
    e: usize,
    out: &mut [u8],
) -> usize
    requires { (cur < max_definitions) × (outer ≤ max_arity) × (level < max_modules) }
    ensures { LinkString file.now refs.now store.now row.now shapes.now cur outer level e out.new (length out.old) (leb result (length out.old)) result }
{
    if step_fits(store, outer, cur) {
        let o = code_of(store, cur);
        let site = site_of(store, outer, o);
        return substitute_string(file, refs, store, row, shapes, site, level, e, out);
    }
    0
}

// The string of what stands for declaration e one level further in than l.
pub fn standin_string(
    file: &[u8],
    refs: &[u16; Lent::REFS],
    store: &Store,
    chain: &Chain,
    shapes: &[u32],
    l: usize,
    e: usize,
    out: &mut [u8],
) -> usize
    requires { l < max_modules }
    ensures { StandInString file.now refs.now store.now chain.now.numbers chain.now.currents chain.now.outers shapes.now l e out.new (length out.old) (leb result (length out.old)) result }
{
    let cur = at_most(&chain.currents, l, Limits::DEFINITIONS - 1);
    let outer = at_most(&chain.outers, l, Limits::ARITY);
    let a = Limits::DEFINITIONS * l;
    let z = a + Limits::DEFINITIONS;
    link_string(
        file,
        refs,
        store,
        &chain.numbers[a..z],
        shapes,
        cur,
        outer,
        l,
        e,
        out,
    )
}
