// How an operation refuses.
#![tactic(auto)]

// The number of the cause, as the paper numbers the causes, and the place: the number of the field, where there is one.
#[derive(Clone, Copy)]
pub struct Refusal {
    pub cause: u8,
    pub place: usize,
}
