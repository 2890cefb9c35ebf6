// What makes a long walk quick: tokens read with the column of rows lent, and names found in two tables by name, one after the other in lent bytes.
// No bytes serve too: then there is a search, which costs less where the walk is short. Nobody else knows where a table stands: contracts speak
// of `tables_in`.
#![tactic(auto)]

pub mod brought;
pub mod names;
pub mod token;

ghost use Rattle.std.specs.Prelude.{◌≡◌, ◌-◌, ◌^◌, ◌≤◌, ◌<◌, length};
ghost use Rattle.context.specs.Entries.{word_count};
ghost use Rattle.tables.specs.Names.{Zeroed};
ghost use Rattle.tables.specs.Serves.{Serves};
ghost use Rattle.tables.specs.Tables.{table_bytes};

use crate::brought::Nexts;
use crate::names::Names;
use store::Store;

#[derive(Drop)]
pub struct Long;

impl Long {
    // From so many bytes of an expression on the tables are worth filling.
    pub const BYTES: usize = 4096;
}

#[derive(Drop)]
pub struct Tables;

impl Tables {
    // Where the second table begins.
    pub const NEXTS: usize = Names::BYTES;

    pub const BYTES: usize = Tables::NEXTS + Nexts::BYTES;
}

// Fills both, for the context whose codes stand from one place to another.
pub fn fill(store: &Store, tables: &mut [u8], from: usize, end: usize)
    requires { (length tables.old ≡ table_bytes) × Zeroed tables.old × (from < 2 ^ 32) × (from ≤ end) × (end - from < word_count) }
    ensures { Serves store.now tables.new from end }
{
    names::fill(store, &mut tables[..Tables::NEXTS], from, end);
    brought::fill(store, &mut tables[Tables::NEXTS..]);
}
