// Fields without expressions: module, EXTENDS, CONSTANT, VARIABLE, end of module. Each is judged by the store, and
// added if no cause holds. specs/Causes.antt says what is answered; proofs/ says what that means for the rules' state.
#![tactic(auto)]

pub mod declarations;
pub mod extending;
pub mod modules;

ghost use Rattle.std.specs.Prelude.{◌≡◌};
ghost use Rattle.judge_plain.specs.Causes.{early, number, refusal};

use context::Counts;

// Outside a module, directly after its field, later in it.
#[derive(Clone, Copy)]
pub enum Phase {
    Outside,
    Begun,
    Inside,
}

// Why a field is refused, by the number that a reply gives.
#[derive(Clone, Copy, PartialEq, Eq)]
pub enum Cause {
    Malformed = 3,
    OutOfOrder = 4,
    LimitPassed = 5,
    ModuleNameUsed = 6,
    ModuleNotEnded = 7,
    NameTaken = 8,
    NameUnknown = 9,
    Miscounted = 10,
    WrongSubstitution = 11,
    IllLevelled = 12,
    AssumptionNotConstant = 13,
    SubstituteUnlawful = 14,
    NamedInstance = 16,
    Mixed = 21,
}

impl Cause {
    pub fn number(self) -> u8
        ensures { result ≡ number self }
    {
        self as u8
    }
}

// The first cause of a field, 0 if none holds; the phase and the counts after it. The cause is a number here, since what is promised of every judge
// (specs/Judges, and `Judging` of standing) compares it with the rules' number.
#[derive(Clone, Copy)]
pub struct Judged {
    pub cause: u8,
    pub phase: Phase,
    pub counts: Counts,
}

// The names that an EXTENDS field lists: so many from a position of the file on.
#[derive(Clone, Copy)]
pub struct NameList {
    pub at: usize,
    pub count: usize,
}

// Cause 4: a field of that tag is outside its order.
pub fn out_of_order(phase: Phase, tag: u8) -> bool
    ensures { result ≡ early phase tag }
{
    match phase {
        Phase::Outside => tag != 1,
        Phase::Begun => tag < 2,
        Phase::Inside => tag < 3,
    }
}

// A field is refused: nothing is added. The cause is a number as in `Judged`; the judges give that of the `Cause` that they found.
pub fn refused(cause: u8, phase: Phase, counts: Counts) -> Judged
    ensures { result ≡ refusal cause phase counts }
{
    Judged {
        cause: cause,
        phase: phase,
        counts: counts,
    }
}
