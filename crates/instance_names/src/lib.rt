// Causes 4, 5, 7, 8, 9, 10 and 11 of an INSTANCE field, in their order, the names of its substitutions noted. specs/Sites.antt and
// specs/Causes.antt say what by position and over the store; specs/Names.antt what that is by the rules.
#![tactic(auto)]

pub mod clashes;
pub mod implied;
pub mod limits_kept;
pub mod names;
pub mod written;

ghost use Rattle.std.specs.Prelude.{◌||◌, List, ◌≡◌, ℕ, ◌≤◌, ◌<◌};
ghost use Rattle.limits.specs.Limits.{max_definitions, max_modules};
ghost use Rattle.judge_plain.specs.Causes.{found_number};
ghost use Rattle.instance_names.specs.Causes.{first_causes, first_number, site, NameCauses};
ghost use Rattle.context.specs.Entries.{context_codes};
ghost use Rattle.instance_names.specs.Sites.{miscounted_among, repeated_from, undeclared_in, unknown_among};
ghost use Rattle.instance_names.specs.Names.{NamesJudged};

use clashes::clashes;
use context::Counts;
use context::lookup::find_module;
use implied::{implied_miscounted, implied_unknown};
use judge_plain::{Cause, Phase, out_of_order};
use limits_kept::over_limits;
use names::{Flags, look_substitutions};
use store::{Lent, Store};
use written::{repeated_name, undeclared_name};

// An INSTANCE field: its name or 0, how many parameters it has, the name of the module instanced, how many substitutions are written and from
// where on.
#[derive(Clone, Copy)]
pub struct Instance {
    pub name: u16,
    pub params: u8,
    pub source: u16,
    pub count: u8,
    pub at: usize,
}

// An INSTANCE field in its place: its parameters, how many substitutions it writes and from where on, the number of the module instanced
// (that of the open module if it is not ended earlier), and how many modules are ended.
#[derive(Clone, Copy)]
pub struct Site {
    pub params: u8,
    pub count: u8,
    pub at: usize,
    pub source: usize,
    pub modules: usize,
}

// The field in its place, so many modules being ended.
fn site_of(store: &Store, modules: usize, f: Instance) -> Site
    ensures { (result ≡ site store.now.heads modules f.params f.source f.count f.at) × (result.modules ≡ modules) }
{
    let q = find_module(store, modules, f.source);
    Site {
        params: f.params,
        count: f.count,
        at: f.at,
        source: q,
        modules: modules,
    }
}

// Causes 4, 5, 7, 8.
fn first_cause(
    file: &[u8],
    store: &Store,
    phase: Phase,
    definitions: usize,
    x: Site,
    name: u16,
) -> Result<(), Cause>
    requires { (x.modules ≤ max_modules) × (definitions ≤ max_definitions) }
    ensures { found_number result ≡ first_number (first_causes file.now store.now.names store.now.facts store.now.contexts store.now.orders store.now.heads phase definitions x name) }
{
    if out_of_order(phase, 6) {
        return Err(Cause::OutOfOrder);
    }
    if over_limits(file, store, x, definitions) {
        return Err(Cause::LimitPassed);
    }
    if x.modules <= x.source {
        return Err(Cause::ModuleNotEnded);
    }
    if clashes(store, x, name) {
        return Err(Cause::NameTaken);
    }
    Ok(())
}

// Cause 9: in an expression written, or of a name that stands for itself.
fn is_unknown(file: &[u8], store: &Store, x: Site, l: Flags) -> bool
    requires { (x.modules ≤ max_modules) × (x.source ≤ max_modules) }
    ensures { result ≡ (l.unknown || unknown_among file.now store.now.names store.now.facts store.now.contexts store.now.heads x (context_codes store.now.contexts store.now.heads x.source)) }
{
    l.unknown || implied_unknown(file, store, x)
}

// Cause 10 likewise.
fn is_miscounted(file: &[u8], store: &Store, x: Site, l: Flags) -> bool
    requires { (x.modules ≤ max_modules) × (x.source ≤ max_modules) }
    ensures { result ≡ (l.miscounted || miscounted_among file.now store.now.names store.now.facts store.now.contexts store.now.heads x (context_codes store.now.contexts store.now.heads x.source)) }
{
    l.miscounted || implied_miscounted(file, store, x)
}

// Cause 11: a name that is not declared there, or one substituted twice.
fn is_wrong(file: &[u8], store: &Store, x: Site) -> bool
    requires { x.source ≤ max_modules }
    ensures { result ≡ (undeclared_in file.now store.now.names store.now.facts store.now.contexts store.now.heads x x.count x.at || repeated_from file.now x.count x.at) }
{
    undeclared_name(file, store, x) || repeated_name(file, x.at, x.count)
}

// Causes 9, 10, 11, of a module that is ended, the limits being kept.
fn name_cause(
    file: &[u8],
    store: &Store,
    refs: &mut [u16; Lent::REFS],
    x: Site,
) -> Result<(), Cause>
    requires { (x.modules ≤ max_modules) × (x.source < x.modules) }
    ensures { NameCauses file.now store.now.names store.now.facts store.now.contexts store.now.heads x refs.old refs.new (found_number result) }
{
    let l = look_substitutions(file, store, refs, x);
    if is_unknown(file, store, x, l) {
        return Err(Cause::NameUnknown);
    }
    if is_miscounted(file, store, x, l) {
        return Err(Cause::Miscounted);
    }
    if is_wrong(file, store, x) {
        return Err(Cause::WrongSubstitution);
    }
    Ok(())
}

// The first of the causes 4, 5, 7, 8, 9, 10, 11 of an INSTANCE field.
pub fn instance_cause(
    file: &[u8],
    store: &Store,
    refs: &mut [u16; Lent::REFS],
    phase: Phase,
    c: Counts,
    f: Instance,
) -> Result<(), Cause>
    requires { (c.modules ≤ max_modules) × (c.definitions ≤ max_definitions) }
    ensures { (words : List ℕ) → NamesJudged file.now store.now c phase words f.name f.params f.source f.count f.at (found_number result) refs.old refs.new }
{
    let x = site_of(store, c.modules, f);
    first_cause(file, store, phase, c.definitions, x, f.name)?;
    name_cause(file, store, refs, x)
}
