// Fields with one expression: definition, ASSUME, THEOREM. Each is judged as the rules judge it, and added if no cause holds.
#![tactic(auto)]

pub mod definitions;
pub mod formulas;

ghost use Rattle.std.specs.Prelude.{◌≡◌, ◌≤◌};
ghost use Rattle.limits.specs.Limits.{max_modules};
ghost use Rattle.context.specs.Entries.{context_codes};
ghost use Rattle.levels.specs.Tables.{names_of};
ghost use Rattle.levels.specs.Walk.{TextForm};
ghost use Rattle.judge_plain.specs.Causes.{found_number};
ghost use Rattle.standing.specs.Standing.{itselves};
ghost use Rattle.judge_texts.specs.Texts.{Texted, text_cause};

use forms::levels::level_at_zero;
use judge_plain::Cause;
use levels::names::identity;
use levels::text_form;
use limits::Limits;
use resolve::walk::look_at;
use store::{Lent, Store};

// What a text comes to: the position after it; whether something in it is unknown (cause 9), or an argument count wrong (cause 10); its level
// with parameters at 0; its form.
// Both may hold, beside a position that stands in any case: causes 9 and 10, each a value of its own.
#[derive(Clone, Copy)]
pub struct Text {
    pub next: usize,
    pub unknown: bool,
    pub miscounted: bool,
    pub level: u8,
    pub form: u64,
}

// The form of a text of the module that is open: every definition is itself, no instance is around it.
pub fn own_form(file: &[u8], refs: &[u16; Lent::REFS], words: &[u64; Lent::WORDS], at: usize) -> u64
    ensures { TextForm (names_of refs.now itselves words.now 0) file.now at result }
{
    let mut numbers = [0u16; Limits::DEFINITIONS];
    identity(&mut numbers);
    text_form(file, refs, &numbers, words, at, 0)
}

// Reads the text at a position, which keeps the limits, in the context of module m, with so many parameters.
pub fn read_text(
    file: &[u8],
    store: &Store,
    refs: &mut [u16; Lent::REFS],
    words: &[u64; Lent::WORDS],
    at: usize,
    m: usize,
    params: usize,
) -> Text
    requires { m ≤ max_modules }
    ensures { Texted store.now.names store.now.facts (context_codes store.now.contexts store.now.heads m) file.now words.now params at refs.old refs.new result }
{
    let k = look_at(file, store, refs, at, m, params);
    let form = own_form(file, refs, words, at);
    Text {
        next: k.next,
        unknown: k.unknown,
        miscounted: k.miscounted,
        level: level_at_zero(form),
        form: form,
    }
}

// The first of the causes 9, 10 and 12 that holds of a text.
pub fn text_cause(t: Text) -> Result<(), Cause>
    ensures { found_number result ≡ text_cause t }
{
    if t.unknown {
        return Err(Cause::NameUnknown);
    }
    if t.miscounted {
        return Err(Cause::Miscounted);
    }
    if t.level == 4 {
        return Err(Cause::IllLevelled);
    }
    Ok(())
}
