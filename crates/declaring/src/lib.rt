// CONSTANT and VARIABLE fields with all tables kept: the store, and the forms of the declarations.
#![tactic(auto)]

ghost use Rattle.std.specs.Prelude.{List, ℕ};
ghost use Rattle.fields.specs.declared.Parts.TheVariants.{Constant, Variable};
ghost use Rattle.standing.specs.Standing.{Judging, Roomy};

use context::{Counts, Kinds};
use entering::empty::put_itself;
use judge_plain::declarations::{constant_field, variable_field};
use judge_plain::{Judged, Phase};
use store::{Lent, Store};

// Judges a CONSTANT field, and adds it if no cause holds.
pub fn constant_stands(
    store: &mut Store,
    words: &mut [u64; Lent::WORDS],
    phase: Phase,
    c: Counts,
    arity: u16,
    name: u16,
) -> Judged
    requires { Roomy store.old c }
    ensures { (file refs : List ℕ) → Judging file (Constant name arity) store.old store.new c phase result refs refs words.old words.new }
{
    let r = constant_field(store, phase, c, arity, name);
    if r.cause != 0 {
        return r;
    }
    put_itself(arity, words, c.declarations);
    r
}

// Judges a VARIABLE field, and adds it if no cause holds.
pub fn variable_stands(
    store: &mut Store,
    words: &mut [u64; Lent::WORDS],
    phase: Phase,
    c: Counts,
    name: u16,
) -> Judged
    requires { Roomy store.old c }
    ensures { (file refs : List ℕ) → Judging file (Variable name) store.old store.new c phase result refs refs words.old words.new }
{
    let r = variable_field(store, phase, c, name);
    if r.cause != 0 {
        return r;
    }
    put_itself(Kinds::VARIABLE, words, c.declarations);
    r
}
