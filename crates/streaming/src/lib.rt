// One step of a run: a symbol written, a call entered or left, an argument entered or left. What is underway is kept in the table of calls.
#![tactic(auto)]

pub mod here;
pub mod inside;

// Where a run stands: so many bytes written; in the string at p, in a part that ends at e, so many calls standing before p; the call
// entered last, its number plus one; whether its template is being read, at tp; how many brackets are open that templates opened, and how
// many that the string did.
// `inside` beside `tp`, not an Option: `tp` has its bound in every state, so that each contract states it without a case.
#[derive(Clone, Copy)]
pub struct Now {
    pub q: usize,
    pub p: usize,
    pub e: usize,
    pub rank: usize,
    pub top: usize,
    pub inside: bool,
    pub tp: usize,
    pub b: usize,
    pub d: usize,
}

impl Now {
    // The link of a call keeps where its template goes on in its lowest 11 bits and the call around above them.
    pub const PLACES: usize = 2048;

    // From here on there is no place behind the two bytes of an argument.
    pub const LAST: usize = Now::PLACES - 2;

    // As many brackets of templates as 16 bits count.
    pub const BRACKETS: usize = 65536;
}

// What a step comes to: it goes on; or all is written, so many bytes.
#[derive(Clone, Copy)]
pub enum Stepped {
    On(Now),
    Finished(usize),
}

// What ends a run: there is no room for a symbol, or no two bytes for an index; or it cannot be told how it goes on.
#[derive(Clone, Copy, PartialEq, Eq)]
pub enum Fault {
    Short,
    Lost,
}
