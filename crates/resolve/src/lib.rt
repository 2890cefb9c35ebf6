// Names looked up where they stand: a walk over an expression in the file, or in a query's bytes, that looks every name up in the context of
// a module, notes in a table beside the bytes what it means, and answers causes 9 and 10. specs/ says what by position; proofs/ that it is
// what the rules say.
#![tactic(auto)]

pub mod lookup;
pub mod steps;
pub mod walk;

// What a known name means, as a number, and how many arguments it takes. The number is a definition's, or 256 more than a declaration's.
#[derive(Clone, Copy)]
pub struct Look {
    pub number: u16,
    pub arity: u16,
}

// What a walk asks in: the module whose context it is, how many parameters are known, and how many bound variables.
#[derive(Clone, Copy)]
pub struct Ask {
    pub module: usize,
    pub params: usize,
    pub bound: usize,
}

// The position after an expression; whether a name, parameter or bound index in it is unknown (cause 9); whether an argument count is wrong
// (cause 10).
// Both may hold, beside a position that stands in any case: causes 9 and 10, each a value of its own.
#[derive(Clone, Copy)]
pub struct Looked {
    pub next: usize,
    pub unknown: bool,
    pub miscounted: bool,
}
