// INSTANCE: the field whole. All its causes are judged before anything is added.
#![tactic(auto)]

pub mod adding;
pub mod constancy;
pub mod lawful;

ghost use Rattle.fields.specs.declared.Parts.TheVariants.{Instance as InstanceParts};
ghost use Rattle.standing.specs.Standing.{Judging, Underway};

use crate::adding::lawful_field;
use context::Counts;
use context::lookup::find_module;
use instance_names::{Instance, instance_cause};
use judge_plain::{Judged, Phase, refused};
use store::{Lent, Store};

// An INSTANCE field.
pub fn instance_field(
    file: &[u8],
    store: &mut Store,
    refs: &mut [u16; Lent::REFS],
    words: &mut [u64; Lent::WORDS],
    phase: Phase,
    c: Counts,
    f: Instance,
) -> Judged
    requires { Underway file.now store.old c phase refs.old words.old (InstanceParts f.name f.params f.source f.count f.at) }
    ensures { Judging file.now (InstanceParts f.name f.params f.source f.count f.at) store.old store.new c phase result refs.old refs.new words.old words.new }
{
    if let Err(cause) = instance_cause(file, store, refs, phase, c, f) {
        return refused(cause.number(), phase, c);
    }
    let q = find_module(store, c.modules, f.source);
    lawful_field(file, store, refs, words, phase, c, f, q)
}
