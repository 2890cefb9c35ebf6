// What the fields read so far have added: looked up and added to in the store. specs/Entries.antt says what it shows, specs/Holds.antt when that
// is a state of the rules. Contracts speak of lists, by equality; the theorems in proofs/ say what that means for the state.
#![tactic(auto)]

pub mod adding;
pub mod extending;
pub mod lists;
pub mod lookup;

ghost use Rattle.std.specs.Prelude.{◌≡◌, ◌<◌, ◌^◌};
ghost use Rattle.context.specs.Entries.{no_counts, after_field};

// What a name is as an operator: a constant's code and argument count, a variable's code, a definition's number.
#[derive(Clone, Copy)]
pub enum Operator {
    Constant(u16, u16),
    Variable(u16),
    Defined(u16),
}

// What an instance brought: the number of the first definition, and how many.
#[derive(Clone, Copy)]
pub struct Brought {
    pub first: u16,
    pub count: u16,
}

// Kinds above every argument count. Numbers: one word of the store is a CONSTANT's argument count or says what else a code is.
#[derive(Drop)]
pub struct Kinds;

impl Kinds {
    pub const VARIABLE: u16 = 256;

    pub const INSTANCE: u16 = 257;
}

// Fields so far, declarations, modules ended, definitions.
#[derive(Clone, Copy)]
pub struct Counts {
    pub fields: usize,
    pub declarations: usize,
    pub modules: usize,
    pub definitions: usize,
}

impl Counts {
    pub fn none() -> Counts
        ensures { result ≡ no_counts }
    {
        Counts {
            fields: 0,
            declarations: 0,
            modules: 0,
            definitions: 0,
        }
    }

    // A field that adds neither a declaration nor a definition is counted.
    pub fn after_field(self) -> Counts
        requires { self.fields < 2 ^ 32 }
        ensures { result ≡ after_field self }
    {
        Counts {
            fields: self.fields + 1,
            declarations: self.declarations,
            modules: self.modules,
            definitions: self.definitions,
        }
    }
}
