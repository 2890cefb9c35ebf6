// CONSTANT and VARIABLE fields.
ghost use Rattle.std.specs.Prelude.{◌≡◌, ◌≤◌, ◌<◌, get_or};
ghost use Rattle.limits.specs.Limits.{max_modules};
ghost use Rattle.limits.specs.Sizes.{context_length, max_fields};
ghost use Rattle.context.specs.Entries.{after_declaration, declaring, variable_kind};
ghost use Rattle.store.specs.Store.{context_slot};
ghost use Rattle.judge_plain.specs.declared.Phase.TheVariants.{Inside};
ghost use Rattle.judge_plain.specs.Causes.{answer, declaration_cause, found_number, kept};

use crate::{Cause, Judged, Phase, out_of_order, refused};
use context::adding::add_declaration;
use context::lookup::find_entry;
use context::{Counts, Kinds};
use limits::Limits;
use store::Store;

// The first cause of a field of that tag which declares a name with so many arguments.
pub fn declaration_cause(
    store: &Store,
    phase: Phase,
    c: Counts,
    tag: u8,
    arity: u16,
    name: u16,
) -> Result<(), Cause>
    requires { c.modules ≤ max_modules }
    ensures { found_number result ≡ declaration_cause phase c store.now tag arity name }
{
    if out_of_order(phase, tag) {
        return Err(Cause::OutOfOrder);
    }
    if Limits::DECLARATIONS <= c.declarations {
        return Err(Cause::LimitPassed);
    }
    if Limits::ARITY < arity as usize {
        return Err(Cause::LimitPassed);
    }
    if find_entry(store, c.modules, name).is_some() {
        return Err(Cause::NameTaken);
    }
    Ok(())
}

// Judges a field of that tag which declares a name with so many arguments, and adds it, of the kind given, if no cause holds.
pub fn declare(
    store: &mut Store,
    phase: Phase,
    c: Counts,
    tag: u8,
    arity: u16,
    kind: u16,
    name: u16,
) -> Judged
    requires { (c.modules ≤ max_modules) × (c.fields < max_fields) × (get_or store.old.heads (context_slot c.modules) 0 < context_length) }
    ensures { (result ≡ answer (declaration_cause phase c store.old tag arity name) phase c Inside (after_declaration c)) × (store.new ≡ kept (declaration_cause phase c store.old tag arity name) store.old (declaring store.old c kind name)) }
{
    if let Err(cause) = declaration_cause(store, phase, c, tag, arity, name) {
        return refused(cause.number(), phase, c);
    }
    let counts = add_declaration(store, c, kind, name);
    Judged {
        cause: 0,
        phase: Phase::Inside,
        counts: counts,
    }
}

// Judges a CONSTANT field, and adds it if no cause holds.
pub fn constant_field(store: &mut Store, phase: Phase, c: Counts, arity: u16, name: u16) -> Judged
    requires { (c.modules ≤ max_modules) × (c.fields < max_fields) × (get_or store.old.heads (context_slot c.modules) 0 < context_length) }
    ensures { (result ≡ answer (declaration_cause phase c store.old 3 arity name) phase c Inside (after_declaration c)) × (store.new ≡ kept (declaration_cause phase c store.old 3 arity name) store.old (declaring store.old c arity name)) }
{
    declare(store, phase, c, 3, arity, arity, name)
}

// Judges a VARIABLE field, and adds it if no cause holds.
pub fn variable_field(store: &mut Store, phase: Phase, c: Counts, name: u16) -> Judged
    requires { (c.modules ≤ max_modules) × (c.fields < max_fields) × (get_or store.old.heads (context_slot c.modules) 0 < context_length) }
    ensures { (result ≡ answer (declaration_cause phase c store.old 4 0 name) phase c Inside (after_declaration c)) × (store.new ≡ kept (declaration_cause phase c store.old 4 0 name) store.old (declaring store.old c variable_kind name)) }
{
    declare(store, phase, c, 4, 0, Kinds::VARIABLE, name)
}
