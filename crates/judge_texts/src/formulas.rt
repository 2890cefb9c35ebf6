// ASSUME and THEOREM fields.
ghost use Rattle.std.specs.Prelude.{◌≡◌, ℕ, ◌≤◌, ◌<◌};
ghost use Rattle.limits.specs.Limits.{max_modules};
ghost use Rattle.limits.specs.Sizes.{max_fields};
ghost use Rattle.context.specs.Entries.{after_field, context_codes};
ghost use Rattle.fields.specs.declared.Parts.TheVariants.{Assume, Theorem};
ghost use Rattle.judge_plain.specs.Causes.{answer, found_number};
ghost use Rattle.judge_plain.specs.declared.Phase.TheVariants.{Inside};
ghost use Rattle.standing.specs.Standing.{Judging};
ghost use Rattle.judge_texts.specs.Texts.{Formula, formula_cause, last_cause};

use crate::{Text, read_text, text_cause};
use context::Counts;
use judge_plain::{Cause, Judged, Phase, out_of_order, refused};
use store::{Lent, Store};
use tokens::limit_at;

// A formula: its field's tag, whether its level must be 0, and where it stands.
// `strict` is a fact of the field: its tag and its place stand whether it holds or not.
#[derive(Clone, Copy)]
pub struct Stated {
    pub tag: u8,
    pub strict: bool,
    pub at: usize,
}

// Causes 4 and 5 of a formula.
pub fn formula_cause(file: &[u8], phase: Phase, tag: u8, at: usize) -> Result<(), Cause>
    ensures { found_number result ≡ formula_cause phase tag file.now at }
{
    if out_of_order(phase, tag) {
        return Err(Cause::OutOfOrder);
    }
    if limit_at(file, at).is_none() {
        return Err(Cause::LimitPassed);
    }
    Ok(())
}

// The causes of its text; where it must be constant, 13 is that its level is not 0.
pub fn last_cause(strict: bool, t: Text) -> Result<(), Cause>
    ensures { found_number result ≡ last_cause strict t }
{
    text_cause(t)?;
    if strict {
        if t.level != 0 {
            return Err(Cause::AssumptionNotConstant);
        }
    }
    Ok(())
}

// A formula adds a field only.
fn answered(found: Result<(), Cause>, phase: Phase, c: Counts) -> Judged
    requires { c.fields < max_fields }
    ensures { result ≡ answer (found_number found) phase c Inside (after_field c) }
{
    if let Err(cause) = found {
        return refused(cause.number(), phase, c);
    }
    Judged {
        cause: 0,
        phase: Phase::Inside,
        counts: c.after_field(),
    }
}

// Judges a formula.
pub fn formula_field(
    file: &[u8],
    store: &Store,
    refs: &mut [u16; Lent::REFS],
    words: &[u64; Lent::WORDS],
    phase: Phase,
    c: Counts,
    f: Stated,
) -> Judged
    requires { (c.modules ≤ max_modules) × (c.fields < max_fields) }
    ensures { Formula store.now.names store.now.facts (context_codes store.now.contexts store.now.heads c.modules) file.now words.now refs.old refs.new phase c f.tag f.strict f.at result }
{
    let at = f.at;
    if let Err(cause) = formula_cause(file, phase, f.tag, at) {
        return refused(cause.number(), phase, c);
    }
    let m = c.modules;
    let t = read_text(file, store, refs, words, at, m, 0);
    answered(last_cause(f.strict, t), phase, c)
}

// Judges an ASSUME field, whose formula stands at a position.
pub fn assume_field(
    file: &[u8],
    store: &Store,
    refs: &mut [u16; Lent::REFS],
    words: &[u64; Lent::WORDS],
    phase: Phase,
    c: Counts,
    at: usize,
) -> Judged
    requires { (c.modules ≤ max_modules) × (c.fields < max_fields) }
    ensures { (len : ℕ) → Judging file.now (Assume at len) store.now store.now c phase result refs.old refs.new words.now words.now }
{
    let f = Stated {
        tag: 8,
        strict: true,
        at,
    };
    formula_field(file, store, refs, words, phase, c, f)
}

// Judges a THEOREM field.
pub fn theorem_field(
    file: &[u8],
    store: &Store,
    refs: &mut [u16; Lent::REFS],
    words: &[u64; Lent::WORDS],
    phase: Phase,
    c: Counts,
    at: usize,
) -> Judged
    requires { (c.modules ≤ max_modules) × (c.fields < max_fields) }
    ensures { (len : ℕ) → Judging file.now (Theorem at len) store.now store.now c phase result refs.old refs.new words.now words.now }
{
    let f = Stated {
        tag: 9,
        strict: false,
        at,
    };
    formula_field(file, store, refs, words, phase, c, f)
}
