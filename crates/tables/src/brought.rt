// The table of the definitions by name: for a name and a number, the first definition of that name from that number on. By it I!F is found
// among what I brought with no search. Where there are no tables there is a search.
ghost use Rattle.std.specs.Prelude.{◌≡◌, cond, ◌+◌, ◌≤◌, ◌<◌, eqb, get_or, length};
ghost use Rattle.std.proofs.Math.Option.{some};
ghost use Rattle.limits.specs.Limits.{max_definitions};
ghost use Rattle.theory.specs.Lists.{numbers_from};
ghost use Rattle.context.specs.Lookup.{as_code, code_under};
ghost use Rattle.tables.specs.Tables.{table_bytes, tables_in};
ghost use Rattle.tables.specs.Brought.{Nexted, Represented, Rowed, first_from, next_bytes, told_by};

use crate::Tables;
use crate::names::Names;
use context::Brought;
use context::lists::stands_under;
use context::lookup::definition_of_instance;
use limits::Limits;
use store::Store;
use tokens::byte_at;

#[derive(Drop)]
pub struct Nexts;

impl Nexts {
    // where the rows begin, a row for each definition; a byte for each name stands before them
    pub const ROWS: usize = Names::COUNT;

    pub const BYTES: usize = Nexts::ROWS + Limits::DEFINITIONS * Limits::DEFINITIONS;
}

// Under the name of each definition the number of one that has that name.
fn represent(store: &Store, nexts: &mut [u8])
    requires { length nexts.old ≡ next_bytes }
    ensures { Represented store.now.names max_definitions nexts.new }
{
    for g in 0..Limits::DEFINITIONS {
        nexts[store.name_at(g) as usize] = g as u8;
    }
}

// Definition s if it has the name, else the one after it that has.
fn nearest(store: &Store, name: u16, s: usize, after: u8) -> u8
    requires { s < max_definitions }
    ensures { result ≡ cond (eqb name (get_or store.now.names s 0)) s after }
{
    if name == store.name_at(s) {
        s as u8
    } else {
        after
    }
}

// The row of definition r, from its end to its start.
fn fill_row(store: &Store, nexts: &mut [u8], r: usize)
    requires { (length nexts.old ≡ next_bytes) × (r < max_definitions) }
    ensures { Rowed store.now.names nexts.old r 0 nexts.new }
{
    let name = store.name_at(r);
    let row = Nexts::ROWS + Limits::DEFINITIONS * r;
    let mut found: u8 = 0;
    for s in (0..Limits::DEFINITIONS).rev() {
        found = nearest(store, name, s, found);
        nexts[row + s] = found;
    }
}

fn fill_rows(store: &Store, nexts: &mut [u8])
    requires { Represented store.now.names max_definitions nexts.old }
    ensures { Nexted store.now.names nexts.new }
{
    for r in 0..Limits::DEFINITIONS {
        fill_row(store, nexts, r);
    }
}

pub fn fill(store: &Store, nexts: &mut [u8])
    requires { length nexts.old ≡ next_bytes }
    ensures { Nexted store.now.names nexts.new }
{
    represent(store, nexts);
    fill_rows(store, nexts);
}

// Definition g, if it has the name and its number is s or above.
fn told(store: &Store, name: u16, s: usize, g: u8) -> Option<u16>
    ensures { result ≡ as_code (told_by store.now.names name s g) }
{
    let o = g as usize;
    if o < s {
        return None;
    }
    if name == store.name_at(o) {
        Some(g as u16)
    } else {
        None
    }
}

// The first definition of a name from number s on, by the table.
fn next_named(store: &Store, tables: &[u8], name: u16, s: usize) -> Option<u16>
    requires { (s < max_definitions) × (table_bytes ≤ length tables.now) × Nexted store.now.names (tables_in tables.now).nexts }
    ensures { result ≡ as_code (first_from store.now.names name s) }
{
    let r = byte_at(tables, Tables::NEXTS + name as usize) as usize;
    if name != store.name_at(r) {
        return None;
    }
    let g = byte_at(
        tables,
        Tables::NEXTS + (Nexts::ROWS + (Limits::DEFINITIONS * r + s)),
    );
    told(store, name, s, g)
}

// I!F, where the first definition of the name from first on is g. What I brought stands under I, so that no search is made.
fn brought_from(store: &Store, b: Brought, instance: u16, name: u16, g: u16) -> Option<u16>
    requires { (b.first + b.count ≤ max_definitions) × (first_from store.now.names name b.first ≡ some g) }
    ensures { result ≡ as_code (code_under store.now.names store.now.facts «instance» name (numbers_from b.first b.count)) }
{
    if b.first + b.count <= g {
        return None;
    }
    if stands_under(store, g, instance, name) {
        return Some(g);
    }
    definition_of_instance(store, b, instance, name)
}

// I!F: the definition of a name, under the instance, among those that the instance brought.
pub fn find_brought(
    store: &Store,
    tables: &[u8],
    b: Brought,
    instance: u16,
    name: u16,
) -> Option<u16>
    requires { (b.first + b.count ≤ max_definitions) × Nexted store.now.names (tables_in tables.now).nexts }
    ensures { result ≡ as_code (code_under store.now.names store.now.facts «instance» name (numbers_from b.first b.count)) }
{
    if tables.len() < Tables::BYTES {
        return definition_of_instance(store, b, instance, name);
    }
    if b.count == 0 {
        return None;
    }
    let g = next_named(store, tables, name, b.first as usize)?;
    brought_from(store, b, instance, name, g)
}
