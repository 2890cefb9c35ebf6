// The fields of a file, judged one after another.
ghost use Rattle.std.specs.Prelude.{◌≡◌, ◌≤◌, length};
ghost use Rattle.limits.specs.Limits.{file_bytes};
ghost use Rattle.checker.specs.Settles.{Midway, Settles};
ghost use Rattle.checker.specs.Turned.{Turned, end_reply, turn_of};
ghost use Rattle.tokens.proofs.Writing.{Bytes};
ghost use Rattle.store.specs.Store.{empty};

use context::Counts;
use dispatch::judge_field;
use fields::{Cursor, FieldStep, is_cut, is_end};
use judge_plain::{Judged, Phase};
use refusals::Refusal;
use std::ops::ControlFlow;
use store::{Lent, Store};

// Where the next field stands, and what stands before it.
#[derive(Clone, Copy)]
pub struct Next {
    pub at: Cursor,
    pub phase: Phase,
    pub counts: Counts,
}

// At the end of the file: accepted, or "file ends inside a module".
fn end_reply(phase: Phase, counts: Counts, number: usize) -> Result<Counts, Refusal>
    ensures { result ≡ end_reply phase counts number }
{
    match phase {
        Phase::Outside => Ok(counts),
        Phase::Begun => Err(Refusal {
            cause: 4,
            place: number,
        }),
        Phase::Inside => Err(Refusal {
            cause: 4,
            place: number,
        }),
    }
}

// After a field was judged: refused by its cause, or onward.
fn turn_of(j: Judged, step: FieldStep) -> ControlFlow<Result<Counts, Refusal>, Next>
    ensures { result ≡ turn_of j step }
{
    let cause = j.cause;
    let number = step.number;
    if cause != 0 {
        return ControlFlow::Break(Err(Refusal {
            cause,
            place: number,
        }));
    }
    ControlFlow::Continue(Next {
        at: step.next,
        phase: j.phase,
        counts: j.counts,
    })
}

// The field at the cursor: whether the file is settled by it, and how.
fn judge_next(
    file: &[u8],
    store: &mut Store,
    refs: &mut [u16; Lent::REFS],
    words: &mut [u64; Lent::WORDS],
    at: Cursor,
    phase: Phase,
    c: Counts,
) -> ControlFlow<Result<Counts, Refusal>, Next>
    requires { Midway file.now at store.old c phase refs.old words.old × Bytes file.now × (length file.now ≤ file_bytes) }
    ensures { Turned file.now at store.new refs.new words.new result }
{
    let step = at.read(file);
    let parts = step.parts;
    if is_end(parts) {
        return ControlFlow::Break(end_reply(phase, c, step.number));
    }
    if is_cut(parts) {
        return ControlFlow::Break(Err(Refusal {
            cause: 3,
            place: step.number,
        }));
    }
    let j = judge_field(file, store, refs, words, parts, phase, c);
    turn_of(j, step)
}

// The fields from the first on, in an empty store. On acceptance it and what was counted show the state that the fields lead to.
pub fn judge_fields(
    file: &[u8],
    store: &mut Store,
    refs: &mut [u16; Lent::REFS],
    words: &mut [u64; Lent::WORDS],
) -> Result<Counts, Refusal>
    requires { (store.old ≡ empty) × (length file.now ≤ file_bytes) × Bytes file.now }
    ensures { Settles file.now store.new refs.new words.new result }
{
    let mut at = Cursor::first();
    let mut phase = Phase::Outside;
    let mut c = Counts::none();
    'fields: loop {
        match judge_next(file, store, refs, words, at, phase, c) {
            ControlFlow::Break(judged) => return judged,
            ControlFlow::Continue(next) => {
                at = next.at;
                phase = next.phase;
                c = next.counts;
            }
        }
    }
}
