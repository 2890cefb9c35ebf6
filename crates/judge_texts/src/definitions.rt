// Definition fields.
ghost use Rattle.std.specs.Prelude.{◌≡◌, ◌+◌, ◌≤◌, ◌<◌};
ghost use Rattle.limits.specs.Limits.{file_bytes, max_definitions, max_modules};
ghost use Rattle.context.specs.Entries.{after_definitions};
ghost use Rattle.fields.specs.declared.Parts.TheVariants.{Definition};
ghost use Rattle.forms.specs.Forms.{stored as stored_form};
ghost use Rattle.judge_plain.specs.Causes.{found_number, judged};
ghost use Rattle.judge_plain.specs.declared.Phase.TheVariants.{Inside};
ghost use Rattle.standing.specs.Standing.{Judging, Roomy};
ghost use Rattle.judge_texts.specs.Texts.{Defining, Finished, Stored, definition_cause};

use crate::{Text, read_text, text_cause};
use context::Counts;
use context::adding::add_definition;
use context::lookup::find_entry;
use judge_plain::{Cause, Judged, Phase, out_of_order, refused};
use limits::Limits;
use store::{Lent, Store};
use tokens::limit_at;

// What a definition field says: its name, its parameter count, where its text stands and how long that is.
#[derive(Clone, Copy)]
pub struct Defines {
    pub name: u16,
    pub params: u8,
    pub at: usize,
    pub len: usize,
}

// Causes 4, 5 and 8 of a definition.
pub fn definition_cause(
    file: &[u8],
    store: &Store,
    phase: Phase,
    c: Counts,
    d: Defines,
) -> Result<(), Cause>
    requires { c.modules ≤ max_modules }
    ensures { found_number result ≡ definition_cause phase c store.now.names store.now.contexts store.now.heads file.now d.name d.params d.at }
{
    if out_of_order(phase, 5) {
        return Err(Cause::OutOfOrder);
    }
    if Limits::DEFINITIONS <= c.definitions {
        return Err(Cause::LimitPassed);
    }
    if Limits::ARITY < d.params as usize {
        return Err(Cause::LimitPassed);
    }
    if limit_at(file, d.at).is_none() {
        return Err(Cause::LimitPassed);
    }
    if find_entry(store, c.modules, d.name).is_some() {
        return Err(Cause::NameTaken);
    }
    Ok(())
}

// Adds a lawful definition, whose form is given.
pub fn add_text(
    store: &mut Store,
    words: &mut [u64; Lent::WORDS],
    c: Counts,
    d: Defines,
    form: u64,
) -> Judged
    requires { Roomy store.old c × (c.definitions < max_definitions) × (d.at + d.len ≤ file_bytes) }
    ensures { (result ≡ judged 0 Inside (after_definitions 1 c)) × Stored store.old store.new c d.name d.params d.at d.len × (words.new ≡ stored_form words.old c.definitions form) }
{
    let number = c.definitions;
    let counts = add_definition(store, c, d.name, d.params as u16, d.at as u16, d.len as u16);
    words[number] = form;
    Judged {
        cause: 0,
        phase: Phase::Inside,
        counts: counts,
    }
}

// Judges a definition by its text, which was read, and adds it if no cause holds.
pub fn finish_definition(
    store: &mut Store,
    words: &mut [u64; Lent::WORDS],
    phase: Phase,
    c: Counts,
    d: Defines,
    t: Text,
) -> Judged
    requires { Roomy store.old c × (c.definitions < max_definitions) × (d.at + d.len ≤ file_bytes) }
    ensures { Finished store.old store.new words.old words.new phase c d.name d.params d.at d.len t result }
{
    if let Err(cause) = text_cause(t) {
        return refused(cause.number(), phase, c);
    }
    add_text(store, words, c, d, t.form)
}

// Judges a definition of which only its text is left to judge.
pub fn define_text(
    file: &[u8],
    store: &mut Store,
    refs: &mut [u16; Lent::REFS],
    words: &mut [u64; Lent::WORDS],
    phase: Phase,
    c: Counts,
    d: Defines,
) -> Judged
    requires { Roomy store.old c × (d.at + d.len ≤ file_bytes) × (definition_cause phase c store.old.names store.old.contexts store.old.heads file.now d.name d.params d.at ≡ 0) }
    ensures { Defining store.old store.new file.now words.old words.new refs.old refs.new phase c d.name d.params d.at d.len result }
{
    let m = c.modules;
    let n = d.params as usize;
    let t = read_text(file, store, refs, words, d.at, m, n);
    finish_definition(store, words, phase, c, d, t)
}

// Judges a definition field, and adds it if no cause holds.
pub fn definition_field(
    file: &[u8],
    store: &mut Store,
    refs: &mut [u16; Lent::REFS],
    words: &mut [u64; Lent::WORDS],
    phase: Phase,
    c: Counts,
    d: Defines,
) -> Judged
    requires { Roomy store.old c × (d.at + d.len ≤ file_bytes) }
    ensures { Judging file.now (Definition d.name d.params d.at d.len) store.old store.new c phase result refs.old refs.new words.old words.new }
{
    if let Err(cause) = definition_cause(file, store, phase, c, d) {
        return refused(cause.number(), phase, c);
    }
    define_text(file, store, refs, words, phase, c, d)
}
