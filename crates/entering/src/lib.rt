// From the tables of a world to those of the world one INSTANCE further in. specs/ says what the tables hold.
#![tactic(auto)]

pub mod empty;
pub mod implied;
pub mod numbering;
pub mod replacing;
pub mod sharing;
pub mod substitutes;
pub mod written;
