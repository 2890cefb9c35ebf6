// The forms of definitions brought through chains of instances: from a definition back to its original text, one INSTANCE field at a time,
// each adding a world inside the ones before it.
#![tactic(auto)]

pub mod brought;
pub mod link;
pub mod world;
