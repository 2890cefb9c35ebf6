// The reply to a question about a file that was accepted, from the store that shows its state.
ghost use Rattle.std.specs.Prelude.{◌≡◌, ◌≤◌, ◌<◌, length};
ghost use Rattle.limits.specs.Limits.{card_memory_bytes, max_definitions, max_modules};
ghost use Rattle.queries.specs.Question.{level_in};
ghost use Rattle.refusals.specs.Outcomes.{outcome_of};
ghost use Rattle.queries.specs.Replies.{Replies, alike_at, body_at, like_at};

use crate::{Answer, Question};
use asking::level_reply;
use context::Counts;
use limits::Limits;
use refusals::Refusal;
use store::{Lent, Store};

// "when parameter counts and cards agree": whether the cards of two definitions are the same, byte by byte of the filled card memory; byte 0 is
// the count.
fn same_cards(cards: &[u8], a: usize, b: usize) -> bool
    requires { (a < max_definitions) × (b < max_definitions) × (card_memory_bytes ≤ length cards.now) }
    ensures { result ≡ like_at cards.now a b }
{
    for i in 0..Limits::CARD_BYTES {
        if cards[Limits::CARD_BYTES * a + i] != cards[Limits::CARD_BYTES * b + i] {
            return false;
        }
    }
    true
}

// Whether two of n definitions are alike, or cause 17, "no such module or definition".
fn alike_reply(cards: &[u8], n: usize, a: u32, b: u32) -> Result<Answer, Refusal>
    requires { (n ≤ max_definitions) × (card_memory_bytes ≤ length cards.now) }
    ensures { result ≡ alike_at cards.now n a b }
{
    let g = a as usize;
    let h = b as usize;
    if n <= g {
        return Err(Refusal {
            cause: 17,
            place: 0,
        });
    }
    if n <= h {
        return Err(Refusal {
            cause: 17,
            place: 0,
        });
    }
    Ok(Answer::Compared(same_cards(cards, g, h)))
}

fn wide(x: u16) -> usize
    ensures { result ≡ x }
{
    x as usize
}

// Where the body of one of n definitions stands: of a brought one the store keeps where the original's does.
fn body_reply(store: &Store, n: usize, d: u32) -> Result<Answer, Refusal>
    requires { n ≤ max_definitions }
    ensures { result ≡ body_at store.now.facts n d }
{
    let g = d as usize;
    if n <= g {
        return Err(Refusal {
            cause: 17,
            place: 0,
        });
    }
    let start = wide(store.first_at(g));
    let size = wide(store.count_at(g));
    Ok(Answer::Located(start, size))
}

fn of_level(reply: Result<u8, Refusal>) -> Result<Answer, Refusal>
    ensures { level_in result ≡ outcome_of reply }
{
    Ok(Answer::Levelled(reply?))
}

// The reply to a question. The store is that of the file that was checked, which has c of each kind; the card memory is filled.
pub fn reply_to(
    question: Question,
    expr: &[u8],
    levels: &[u8],
    store: &Store,
    words: &[u64; Lent::WORDS],
    cards: &[u8],
    c: Counts,
) -> Result<Answer, Refusal>
    requires { (c.modules ≤ max_modules) × (c.definitions ≤ max_definitions) × (card_memory_bytes ≤ length cards.now) }
    ensures { Replies question store.now words.now cards.now c expr.now levels.now result }
{
    match question {
        Question::Level(m) => of_level(level_reply(expr, levels, m, store, words, c)),
        Question::Alike(a, b) => alike_reply(cards, c.definitions, a, b),
        Question::Body(d) => body_reply(store, c.definitions, d),
    }
}
