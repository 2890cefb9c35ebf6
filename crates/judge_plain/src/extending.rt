// EXTENDS fields: the names stand in the file, two bytes each.
ghost use Rattle.std.specs.Prelude.{◌≡◌, ◌+◌, ◌-◌, ◌*◌, ◌≤◌, ◌<◌, length};
ghost use Rattle.limits.specs.Limits.{file_bytes, max_definitions, max_modules};
ghost use Rattle.limits.specs.Sizes.{code_count, max_fields};
ghost use Rattle.tokens.specs.Token.{number_at};
ghost use Rattle.agree.specs.Parts.{names_at};
ghost use Rattle.context.specs.Lookup.{repeated_in};
ghost use Rattle.context.specs.Entries.{codes_of};
ghost use Rattle.judge_plain.specs.Causes.{found_number, joined_answer};
ghost use Rattle.judge_plain.specs.Extending.{Extending, Joinable, Joined, Ready, Startable, extends_cause, missing_in};

use crate::{Cause, Judged, NameList, Phase, out_of_order, refused};
use context::Counts;
use context::extending::{clear, extend};
use context::lookup::{find_module, has_repeated_name};
use limits::Limits;
use store::{Lent, Store};
use tokens::number_at;

// Cause 7: one of the names listed is not that of a module ended.
pub fn has_missing_name(file: &[u8], list: NameList, store: &Store, modules: usize) -> bool
    requires { list.at + 2 * list.count ≤ file_bytes }
    ensures { result ≡ missing_in store.now.heads modules (names_at file.now list.at list.count) }
{
    (0..list.count).any(|i| {
        let name = number_at(file, list.at + 2 * i);
        modules <= find_module(store, modules, name)
    })
}

// Joins the modules listed to the module that is open.
pub fn join_named(
    file: &[u8],
    list: NameList,
    store: &mut Store,
    marks: &mut [u16],
    tally: &mut [u16],
    c: Counts,
)
    requires { Joinable store.old marks.old tally.old c (names_at file.now list.at list.count) × (list.at + 2 * list.count ≤ file_bytes) }
    ensures { Joined store.old store.new c (names_at file.now list.at list.count) }
{
    for i in 0..list.count {
        let q = find_module(store, c.modules, number_at(file, list.at + 2 * i));
        extend(store, marks, tally, c.modules, q);
    }
}

// The same with the open module empty: marks and tally are cleared first.
pub fn join_modules(
    file: &[u8],
    list: NameList,
    store: &mut Store,
    marks: &mut [u16],
    tally: &mut [u16],
    c: Counts,
)
    requires { Startable store.old c (names_at file.now list.at list.count) × (length marks.old ≡ max_definitions + c.fields) × (length tally.old ≡ c.definitions) × (list.at + 2 * list.count ≤ file_bytes) }
    ensures { Joined store.old store.new c (names_at file.now list.at list.count) }
{
    clear(marks);
    clear(tally);
    join_named(file, list, store, marks, tally, c);
}

// The same with marks and tally as long as they may have to be.
pub fn join_all(
    file: &[u8],
    list: NameList,
    store: &mut Store,
    marks: &mut [u16],
    tally: &mut [u16],
    c: Counts,
)
    requires { Startable store.old c (names_at file.now list.at list.count) × (length marks.old ≡ code_count) × (length tally.old ≡ max_definitions) × (list.at + 2 * list.count ≤ file_bytes) × (c.fields < max_fields) × (c.definitions ≤ max_definitions) }
    ensures { Joined store.old store.new c (names_at file.now list.at list.count) }
{
    let codes = Limits::DEFINITIONS + c.fields;
    let numbers = c.definitions;
    join_modules(
        file,
        list,
        store,
        &mut marks[..codes],
        &mut tally[..numbers],
        c,
    );
}

// Cause 8 of the module that is open, the modules named being joined to it; and then what is answered.
pub fn joined_field(store: &Store, phase: Phase, c: Counts) -> Judged
    requires { (c.fields < max_fields) × (c.modules ≤ max_modules) }
    ensures { result ≡ joined_answer (repeated_in store.now.names (codes_of store.now c.modules)) phase c }
{
    if has_repeated_name(store, c.modules) {
        return refused(Cause::NameTaken.number(), phase, c);
    }
    Judged {
        cause: 0,
        phase: Phase::Inside,
        counts: c.after_field(),
    }
}

// The first cause of an EXTENDS field, but for 8.
pub fn extends_cause(
    file: &[u8],
    list: NameList,
    store: &Store,
    phase: Phase,
    modules: usize,
) -> Result<(), Cause>
    requires { list.at + 2 * list.count ≤ file_bytes }
    ensures { found_number result ≡ extends_cause phase modules store.now.heads (names_at file.now list.at list.count) }
{
    if out_of_order(phase, 2) {
        return Err(Cause::OutOfOrder);
    }
    if has_missing_name(file, list, store, modules) {
        return Err(Cause::ModuleNotEnded);
    }
    Ok(())
}

// Joins the modules listed, and then looks at cause 8.
pub fn extend_open(
    file: &[u8],
    list: NameList,
    store: &mut Store,
    phase: Phase,
    c: Counts,
) -> Judged
    requires { Startable store.old c (names_at file.now list.at list.count) × (list.at + 2 * list.count ≤ file_bytes) × (c.fields < max_fields) × (c.modules ≤ max_modules) × (c.definitions ≤ max_definitions) }
    ensures { Joined store.old store.new c (names_at file.now list.at list.count) × (result ≡ joined_answer (repeated_in store.new.names (codes_of store.new c.modules)) phase c) }
{
    let mut marks = [0u16; Lent::MARKS];
    let mut tally = [0u16; Lent::TALLY];
    join_all(file, list, store, &mut marks, &mut tally, c);
    joined_field(store, phase, c)
}

// Judges an EXTENDS field of the names listed, and adds it if no cause holds. On cause 8 the modules are joined too.
pub fn extends_field(
    file: &[u8],
    list: NameList,
    store: &mut Store,
    phase: Phase,
    c: Counts,
) -> Judged
    requires { Ready store.old phase c × (1 ≤ list.count) × (list.at + 2 * list.count ≤ file_bytes) × (c.fields < max_fields) × (c.modules ≤ max_modules) × (c.definitions ≤ max_definitions) }
    ensures { Extending store.old store.new phase c result (number_at file.now list.at) (names_at file.now (list.at + 2) (list.count - 1)) }
{
    if let Err(cause) = extends_cause(file, list, store, phase, c.modules) {
        return refused(cause.number(), phase, c);
    }
    extend_open(file, list, store, phase, c)
}
