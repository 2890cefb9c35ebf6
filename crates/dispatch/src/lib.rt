// One field, judged by its own judge.
#![tactic(auto)]

ghost use Rattle.standing.specs.Standing.{Judging, Underway};

use context::Counts;
use declaring::{constant_stands, variable_stands};
use fields::Parts;
use instance_names::Instance;
use judge_instance::instance_field;
use judge_plain::extending::extends_field;
use judge_plain::modules::{end_field, module_field};
use judge_plain::{Cause, Judged, NameList, Phase, refused};
use judge_texts::definitions::{Defines, definition_field};
use judge_texts::formulas::{assume_field, theorem_field};
use store::{Lent, Store};

// Judges one field, and adds it if no cause holds.
pub fn judge_field(
    file: &[u8],
    store: &mut Store,
    refs: &mut [u16; Lent::REFS],
    words: &mut [u64; Lent::WORDS],
    parts: Parts,
    phase: Phase,
    c: Counts,
) -> Judged
    requires { Underway file.now store.old c phase refs.old words.old parts }
    ensures { Judging file.now parts store.old store.new c phase result refs.old refs.new words.old words.new }
{
    match parts {
        Parts::Module(n) => module_field(store, phase, c, n),
        Parts::Extends(at, k) => extends_field(
            file,
            NameList { at: at, count: k },
            store,
            phase,
            c,
        ),
        Parts::Constant(n, k) => constant_stands(store, words, phase, c, k as u16, n),
        Parts::Variable(n) => variable_stands(store, words, phase, c, n),
        Parts::Definition(n, k, at, l) => definition_field(
            file,
            store,
            refs,
            words,
            phase,
            c,
            Defines {
                name: n,
                params: k,
                at: at,
                len: l,
            },
        ),
        Parts::Instance(n, k, m, i, at) => instance_field(
            file,
            store,
            refs,
            words,
            phase,
            c,
            Instance {
                name: n,
                params: k,
                source: m,
                count: i,
                at: at,
            },
        ),
        Parts::EndModule => end_field(store, phase, c),
        Parts::Assume(at, _) => assume_field(file, store, refs, words, phase, c, at),
        Parts::Theorem(at, _) => theorem_field(file, store, refs, words, phase, c, at),
        Parts::Cut => refused(Cause::Malformed.number(), phase, c),
        Parts::EndOfFile => refused(Cause::Malformed.number(), phase, c),
    }
}
