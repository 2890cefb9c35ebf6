// The module field and the end of a module.
ghost use Rattle.std.specs.Prelude.{◌≡◌, ◌+◌, ◌≤◌, ◌<◌};
ghost use Rattle.limits.specs.Limits.{max_modules};
ghost use Rattle.limits.specs.Sizes.{max_fields};
ghost use Rattle.context.specs.Entries.{after_end, after_field, begun};
ghost use Rattle.judge_plain.specs.declared.Phase.TheVariants.{Begun, Outside};
ghost use Rattle.judge_plain.specs.Causes.{answer, end_cause, found_number, kept, module_cause};

use crate::{Cause, Judged, Phase, out_of_order, refused};
use context::Counts;
use context::adding::{add_module, end_module};
use context::lookup::find_module;
use limits::Limits;
use store::Store;

// The first cause of a module field of that name.
pub fn module_cause(store: &Store, phase: Phase, modules: usize, name: u16) -> Result<(), Cause>
    ensures { found_number result ≡ module_cause phase modules store.now.heads name }
{
    if out_of_order(phase, 1) {
        return Err(Cause::OutOfOrder);
    }
    if Limits::MODULES <= modules {
        return Err(Cause::LimitPassed);
    }
    if find_module(store, modules, name) < modules {
        return Err(Cause::ModuleNameUsed);
    }
    Ok(())
}

// The first cause of an end of module.
pub fn end_cause(phase: Phase) -> Result<(), Cause>
    ensures { found_number result ≡ end_cause phase }
{
    if out_of_order(phase, 7) {
        return Err(Cause::OutOfOrder);
    }
    Ok(())
}

// Judges a module field, and adds it if no cause holds.
pub fn module_field(store: &mut Store, phase: Phase, c: Counts, name: u16) -> Judged
    requires { (c.modules ≤ max_modules) × (c.fields < max_fields) }
    ensures { (result ≡ answer (module_cause phase c.modules store.old.heads name) phase c Begun (after_field c)) × (store.new ≡ kept (module_cause phase c.modules store.old.heads name) store.old (begun store.old c.modules name)) }
{
    if let Err(cause) = module_cause(store, phase, c.modules, name) {
        return refused(cause.number(), phase, c);
    }
    let counts = add_module(store, c, name);
    Judged {
        cause: 0,
        phase: Phase::Begun,
        counts: counts,
    }
}

// Judges an end of module, and adds it if no cause holds. In a module fewer than all modules are ended.
pub fn end_field(store: &mut Store, phase: Phase, c: Counts) -> Judged
    requires { (c.modules ≤ max_modules) × (c.fields < max_fields) × (end_cause phase ≡ 0 → c.modules < max_modules) }
    ensures { (result ≡ answer (end_cause phase) phase c Outside (after_end c)) × (store.new ≡ kept (end_cause phase) store.old (begun store.old (c.modules + 1) 0)) }
{
    if let Err(cause) = end_cause(phase) {
        return refused(cause.number(), phase, c);
    }
    let counts = end_module(store, c);
    Judged {
        cause: 0,
        phase: Phase::Outside,
        counts: counts,
    }
}
