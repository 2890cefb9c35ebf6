// The walk along the chain of a definition: of each level the definition there, the parameters around it, and which definition of the file
// each number of its module is. A chain has fewer links than there are modules.
ghost use Rattle.std.specs.Prelude.{true, ◌≡◌, ◌+◌, ◌*◌, ◌≤◌, ◌<◌, get_or, length, replicate};
ghost use Rattle.limits.specs.Limits.{max_arity, max_definitions, max_modules};
ghost use Rattle.context.specs.Entries.{word_count};
ghost use Rattle.chains.specs.Walk.{link_fits, step_fits};
ghost use Rattle.unfolding.specs.CalleeTerm.{max_links, row_of};
ghost use Rattle.callees.specs.Walk.{ChainEntered, ChainStarted, LevelEntered, RowEntered, RowPut, Sized};

use chains::link::enter_link_numbers;
use chains::world::{code_of, outer_after, source_of, step_fits};
use levels::names::identity;
use limits::Limits;
use store::Store;

// The table of numbers at level l.
fn read_row(numbers: &[u16], l: usize, row: &mut [u16])
    requires { (length numbers.now ≡ max_definitions * max_modules) × (l < max_modules) × (length row.old ≡ max_definitions) }
    ensures { row.new ≡ row_of numbers.now l }
{
    let a = Limits::DEFINITIONS * l;
    let e = a + Limits::DEFINITIONS;
    row.copy_from_slice(&numbers[a..e]);
}

fn put_row(row: &[u16], numbers: &mut [u16], l: usize)
    requires { (length row.now ≡ max_definitions) × (length numbers.old ≡ max_definitions * max_modules) × (l < max_modules) }
    ensures { RowPut numbers.old l row.now numbers.new }
{
    let a = Limits::DEFINITIONS * l;
    let e = a + Limits::DEFINITIONS;
    numbers[a..e].copy_from_slice(row);
}

// The table of numbers at level l + 1: that of level l one instance further in, by the INSTANCE field of code o.
fn enter_row(store: &Store, numbers: &mut [u16], l: usize, outer: usize, o: usize)
    requires { (length numbers.old ≡ max_definitions * max_modules) × (l < max_links) × (o ≤ 2 * word_count) × (link_fits store.now.facts outer o ≡ true) }
    ensures { RowEntered store.now.facts store.now.orders store.now.heads o l numbers.old numbers.new }
{
    let mut row = [0u16; Limits::DEFINITIONS];
    read_row(numbers, l, &mut row);
    enter_link_numbers(store, &mut row, outer, o);
    put_row(&row, numbers, l + 1);
}

// Of each level of a chain the definition there, the parameters around it, and which definition of the file each number of its module is, the
// tables of numbers one after another.
#[derive(Drop)]
pub struct Chain {
    pub numbers: [u16; Chain::NUMBERS],
    pub currents: [u16; Chain::LEVELS],
    pub outers: [u16; Chain::LEVELS],
    pub ghost sized: { Sized numbers currents outers },
}

impl Chain {
    // The levels of a chain, the outermost included.
    pub const LEVELS: usize = Limits::MODULES;

    pub const NUMBERS: usize = Chain::LEVELS * Limits::DEFINITIONS;

    // The room for a chain.
    pub fn room() -> Chain
        ensures { (result.numbers ≡ replicate (max_definitions * max_modules) 0) × (result.currents ≡ replicate max_modules 0) × (result.outers ≡ replicate max_modules 0) }
    {
        Chain {
            numbers: [0; Chain::NUMBERS],
            currents: [0; Chain::LEVELS],
            outers: [0; Chain::LEVELS],
        }
    }

    // One level further in.
    fn enter_level(&mut self, store: &Store, l: usize)
        requires { (l < max_links) × (get_or self.old.currents l 0 < max_definitions) × (get_or self.old.outers l 0 ≤ max_arity) × (step_fits store.now.facts (get_or self.old.outers l 0) (get_or self.old.currents l 0) ≡ true) }
        ensures { LevelEntered store.now.facts store.now.orders store.now.heads l self.old.numbers self.new.numbers self.old.currents self.new.currents self.old.outers self.new.outers }
    {
        let cur = self.currents[l] as usize;
        let outer = self.outers[l] as usize;
        let o = code_of(store, cur);
        enter_row(store, &mut self.numbers, l, outer, o);
        let source = source_of(store, cur);
        let around = outer_after(store, outer, cur);
        self.currents[l + 1] = source as u16;
        self.outers[l + 1] = around as u16;
    }

    // Level 0: definition d itself.
    fn start(&mut self, d: usize)
        requires { d < max_definitions }
        ensures { ChainStarted d self.new.numbers self.new.currents self.new.outers }
    {
        let mut row = [0u16; Limits::DEFINITIONS];
        identity(&mut row);
        put_row(&row, &mut self.numbers, 0);
        self.currents[0] = d as u16;
        self.outers[0] = 0;
    }

    // All levels of the chain of definition d; how many links it has.
    pub fn enter(&mut self, store: &Store, d: usize) -> usize
        requires { d < max_definitions }
        ensures { ChainEntered store.now d result self.new.numbers self.new.currents self.new.outers }
    {
        self.start(d);
        for l in 0..Chain::LEVELS - 1 {
            if !step_fits(store, self.outers[l] as usize, self.currents[l] as usize) {
                return l;
            }
            self.enter_level(store, l);
        }
        Chain::LEVELS - 1
    }
}
