// An INSTANCE field whose names are right: the causes that are left, and what it adds if none of them holds.
ghost use Rattle.std.specs.Prelude.{◌≡◌, ◌+◌, ◌-◌, ◌*◌, ◌≤◌, get_or};
ghost use Rattle.limits.specs.Limits.{max_declarations, max_definitions};
ghost use Rattle.store.specs.Store.{order_slot};
ghost use Rattle.chains.specs.Results.{BroughtForms};
ghost use Rattle.context.specs.Entries.{after_definitions};
ghost use Rattle.instancing.specs.Bringing.{instancing};
ghost use Rattle.standing.specs.Shown.{owner_shift};
ghost use Rattle.judge_instance.specs.Brought.{Bringable, FieldBrought, FieldLawful};

use crate::lawful::later_cause;
use chains::brought::brought_forms;
use context::Counts;
use entering::substitutes::Site;
use instance_names::Instance;
use instancing::add_instance;
use judge_plain::{Judged, Phase, refused};
use store::{Lent, Store};

// Adds the field, of module q.
fn add_field(
    store: &mut Store,
    words: &[u64; Lent::WORDS],
    c: Counts,
    f: Instance,
    q: usize,
) -> Counts
    requires { Bringable store.old words.now c f.params q f.at }
    ensures { (result ≡ after_definitions (get_or store.old.heads (order_slot q) 0) c) × (store.new ≡ instancing c f.name f.params q f.at (f.count + owner_shift * c.modules) store.old) }
{
    let written = (f.count as u16) + Site::OWNER_SHIFT * (c.modules as u16);
    add_instance(store, c, f.name, f.params as u16, q, f.at as u16, written)
}

// The forms of the definitions that came between two counts.
fn forms_between(
    file: &[u8],
    refs: &[u16; Lent::REFS],
    words: &mut [u64; Lent::WORDS],
    store: &Store,
    c: Counts,
    after: Counts,
)
    requires { (c.declarations ≤ max_declarations) × (c.definitions ≤ after.definitions) × (after.definitions ≤ max_definitions) }
    ensures { BroughtForms file.now refs.now store.now store.now.declared c.declarations c.definitions (after.definitions - c.definitions) words.old words.new }
{
    let first = c.definitions;
    let count = after.definitions - first;
    brought_forms(file, refs, words, store, c.declarations, first, count);
}

// Adds the field, of module q, and works out the forms of what it brings.
pub fn bring_field(
    file: &[u8],
    store: &mut Store,
    refs: &[u16; Lent::REFS],
    words: &mut [u64; Lent::WORDS],
    c: Counts,
    f: Instance,
    q: usize,
) -> Judged
    requires { Bringable store.old words.old c f.params q f.at }
    ensures { FieldBrought file.now refs.now store.old store.new c f.name f.params q f.count f.at words.old words.new result }
{
    let after = add_field(store, words, c, f, q);
    forms_between(file, refs, words, store, c, after);
    Judged {
        cause: 0,
        phase: Phase::Inside,
        counts: after,
    }
}

// Judges what comes after the names, and brings the field, of module q, if it is lawful.
pub fn lawful_field(
    file: &[u8],
    store: &mut Store,
    refs: &[u16; Lent::REFS],
    words: &mut [u64; Lent::WORDS],
    phase: Phase,
    c: Counts,
    f: Instance,
    q: usize,
) -> Judged
    requires { Bringable store.old words.old c f.params q f.at }
    ensures { FieldLawful file.now refs.now store.old store.new c phase f.name f.params q f.count f.at words.old words.new result }
{
    let site = Site {
        outer: 0,
        params: f.params as usize,
        owner: c.modules,
        start: f.at,
        count: f.count as usize,
    };
    if let Err(cause) = later_cause(file, refs, words, store, site, q) {
        return refused(cause.number(), phase, c);
    }
    bring_field(file, store, refs, words, c, f, q)
}
