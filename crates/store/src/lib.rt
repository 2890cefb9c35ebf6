// What the fields read so far have added: an array of 16-bit numbers for each role, all of a fixed size.
#![tactic(auto)]

mod reading;
mod writing;

ghost use Rattle.std.specs.Prelude.{◌≡◌};
ghost use Rattle.store.specs.Store.{empty};

use limits::Limits;

// What is kept of a code beside its name: specs/Store.antt has the table.
#[derive(Clone, Copy)]
pub struct Facts {
    pub kind: u16,
    pub first: u16,
    pub count: u16,
    pub via: u16,
    pub source: u16,
    pub link: u16,
}

impl Facts {
    // nothing is kept
    const NONE: Facts = Facts {
        kind: 0,
        first: 0,
        count: 0,
        via: 0,
        source: 0,
        link: 0,
    };
}

// specs/Store.antt says what each array holds.
#[derive(Drop)]
pub struct Store {
    names: [u16; Limits::CODES],
    facts: [Facts; Limits::CODES],
    contexts: [u16; Limits::CONTEXTS],
    orders: [u16; Limits::ORDERS],
    heads: [u16; Limits::HEADS],
    declared: [u16; Limits::DECLARATIONS],
}

impl Store {
    // Nothing was added.
    pub fn empty() -> Store
        ensures { result ≡ empty }
    {
        Store {
            names: [0; Limits::CODES],
            facts: [Facts::NONE; Limits::CODES],
            contexts: [0; Limits::CONTEXTS],
            orders: [0; Limits::ORDERS],
            heads: [0; Limits::HEADS],
            declared: [0; Limits::DECLARATIONS],
        }
    }
}

// The other arrays of a fixed size. A check lends what the names of the file's texts mean, by position, and the form of each definition and of
// each declaration; one EXTENDS field lends its own marks of the codes and of the definitions that it has joined.
#[derive(Drop)]
pub struct Lent;

impl Lent {
    pub const REFS: usize = Limits::FILE_BYTES;

    pub const WORDS: usize = Limits::DEFINITIONS + Limits::DECLARATIONS;

    pub const MARKS: usize = Limits::CODES;

    pub const TALLY: usize = Limits::DEFINITIONS;
}
