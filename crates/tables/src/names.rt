// What a name means in a context, the codes of which stand among the contexts of the store from place `from` on, up to `end`.
ghost use Rattle.std.specs.Prelude.{◌≡◌, ◌+◌, ◌-◌, ◌^◌, ◌≤◌, ◌<◌, length};
ghost use Rattle.context.specs.Lookup.{as_code, brought_in, code_named, operator_in};
ghost use Rattle.context.specs.Parts.{part};
ghost use Rattle.context.specs.Entries.{word_count};
ghost use Rattle.resolve.specs.Look.{brought_ref, code_ref, declared_ref, defined_ref, look_in, operator_ref};
ghost use Rattle.tables.specs.Brought.{Nexted};
ghost use Rattle.tables.specs.Names.{Tabled, Zeroed, code_at, name_bytes, placed};
ghost use Rattle.tables.specs.Serves.{Serves};
ghost use Rattle.tables.specs.Tables.{tables_in};

use crate::Tables;
use crate::brought::find_brought;
use context::Brought;
use context::lists::find_code;
use context::lookup::{brought_at, operator_at};
use limits::Limits;
use resolve::Look;
use resolve::lookup::{of_code, of_operator};
use store::Store;
use tokens::Token;

#[derive(Drop)]
pub struct Names;

impl Names {
    // A name is a 16-bit number.
    pub const COUNT: usize = 65536;

    // How many values a byte has.
    pub const BYTE: u16 = 256;

    // Two bytes for each name.
    pub const BYTES: usize = 2 * Names::COUNT;
}

// "Two-byte numbers are big-endian."
fn put_two(table: &mut [u8], i: usize, place: u16)
    requires { i + 1 < length table.old }
    ensures { table.new ≡ placed table.old i place }
{
    table[i] = (place / Names::BYTE) as u8;
    table[i + 1] = (place % Names::BYTE) as u8;
}

// The table by name, two bytes for each: 1 more than the place, within the context, of the first code of that name. It is filled from the last
// code to the first, so that the first counts.
pub fn fill(store: &Store, table: &mut [u8], from: usize, end: usize)
    requires { (length table.old ≡ name_bytes) × Zeroed table.old × (from ≤ end) × (end - from < word_count) }
    ensures { Tabled store.now.names store.now.contexts from end table.new }
{
    for i in (from..end).rev() {
        let name = store.name_at(store.context_at(i) as usize);
        put_two(table, 2 * (name as usize), (i - from + 1) as u16);
    }
}

// The code that an entry of the table stands for.
fn code_at(store: &Store, from: usize, place: u16) -> Option<u16>
    requires { from < 2 ^ 32 }
    ensures { result ≡ as_code (code_at store.now.contexts from place) }
{
    if place == 0 {
        return None;
    }
    Some(store.context_at(from + (place as usize - 1)))
}

// The first code of a name, by the table if there is one.
fn find(store: &Store, tables: &[u8], from: usize, end: usize, name: u16) -> Option<u16>
    requires { (from < 2 ^ 32) × Tabled store.now.names store.now.contexts from end (tables_in tables.now).places }
    ensures { result ≡ as_code (code_named store.now.names name (part store.now.contexts from (end - from))) }
{
    if tables.len() < Tables::BYTES {
        return find_code(store, from, end, name);
    }
    let place = tokens::number_at(tables, 2 * (name as usize));
    code_at(store, from, place)
}

// What a name means, by the code that was found for it.
fn look_name(store: &Store, x: Option<u16>) -> Option<Look>
    ensures { result ≡ operator_ref store.now.facts (operator_in store.now.facts x) }
{
    of_operator(store, operator_at(store, x?))
}

// I!F, by what I brought.
fn look_brought(
    store: &Store,
    tables: &[u8],
    x: Option<Brought>,
    inst: u16,
    name: u16,
) -> Option<Look>
    requires { Nexted store.now.names (tables_in tables.now).nexts }
    ensures { result ≡ brought_ref store.now.names store.now.facts inst name x }
{
    let b = x?;
    if (b.first as usize) + (b.count as usize) <= Limits::DEFINITIONS {
        of_code(store, find_brought(store, tables, b, inst, name))
    } else {
        None
    }
}

// I!F, by the code that was found for I.
fn look_instance(store: &Store, tables: &[u8], x: Option<u16>, inst: u16, name: u16) -> Option<Look>
    requires { Nexted store.now.names (tables_in tables.now).nexts }
    ensures { result ≡ brought_ref store.now.names store.now.facts inst name (brought_in store.now.facts x) }
{
    look_brought(store, tables, brought_at(store, x?), inst, name)
}

// What a token means in the context.
pub fn look(store: &Store, tables: &[u8], from: usize, end: usize, t: Token) -> Option<Look>
    requires { Serves store.now tables.now from end }
    ensures { result ≡ look_in store.now.names store.now.facts (part store.now.contexts from (end - from)) t }
{
    match t {
        Token::Parameter(_) => None,
        Token::Bound(_) => None,
        Token::Name(n, _) => look_name(store, find(store, tables, from, end, n)),
        Token::InstanceOperator(i, f, _) => look_instance(
            store,
            tables,
            find(store, tables, from, end, i),
            i,
            f,
        ),
        Token::BuiltIn(_) => None,
        Token::Literal(_) => None,
    }
}
