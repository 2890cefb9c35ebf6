// The expansion query: "Expansion replaces each defined name by its expanded body, arguments put in, bound indices moved so that nothing is
// captured."
#![tactic(auto)]

pub mod output;
pub mod passes;
pub mod query;
