// The chain of instances of one definition, in arrays, and the strings of what its calls stand for.
#![tactic(auto)]

pub mod chain;
pub mod strings;
