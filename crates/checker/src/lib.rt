// The check over a whole file: paper 01's public operation.
#![tactic(auto)]

pub mod judging;

ghost use Rattle.std.specs.Prelude.{false, true, ◌≡◌, ◌≤◌, length};
ghost use Rattle.limits.specs.Limits.{card_memory_bytes, file_bytes};
ghost use Rattle.rules.specs.Bytes.{is_empty};
ghost use Rattle.rules.specs.Run.{file_check};
ghost use Rattle.tokens.proofs.Writing.{Bytes};
ghost use Rattle.checker.specs.Reply.{answer_of};
ghost use Rattle.checker.specs.Settles.{Concludes, Few, Leaves, wrong_size};
ghost use Rattle.store.specs.Store.{empty};

use cards::{clear_cards, fill_cards};
use context::Counts;
use judging::judge_fields;
use limits::Limits;
use refusals::Refusal;
use store::{Lent, Store};

// The lent memory after a file was judged: the cards of an accepted file; else zeros.
fn settle(
    judged: Result<Counts, Refusal>,
    store: &Store,
    words: &[u64; Lent::WORDS],
    cards: &mut [u8],
)
    requires { Few judged × (card_memory_bytes ≤ length cards.old) }
    ensures { Leaves store.now.facts words.now judged cards.old cards.new }
{
    match judged {
        Ok(c) => fill_cards(store, words, c.definitions, cards),
        Err(_) => clear_cards(cards),
    }
}

// A file of lawful size, judged in a store that is empty, and the lent memory after it. On acceptance the store and what was counted show the state
// that the file leads to, for what is asked of it.
pub fn judge_in(
    file: &[u8],
    cards: &mut [u8],
    store: &mut Store,
    refs: &mut [u16; Lent::REFS],
    words: &mut [u64; Lent::WORDS],
) -> Result<Counts, Refusal>
    requires { (card_memory_bytes ≤ length cards.old) × (is_empty file.now ≡ false) × (length file.now ≤ file_bytes) × Bytes file.now × (store.old ≡ empty) }
    ensures { Concludes file.now store.new refs.new words.new result cards.old cards.new }
{
    let judged = judge_fields(file, store, refs, words);
    settle(judged, store, words, cards);
    judged
}

// A file of lawful size.
fn check_fields(file: &[u8], cards: &mut [u8]) -> Result<usize, Refusal>
    requires { (card_memory_bytes ≤ length cards.old) × (is_empty file.now ≡ false) × (length file.now ≤ file_bytes) × Bytes file.now }
    ensures { answer_of result cards.new ≡ file_check file.now cards.old }
{
    let mut store = Store::empty();
    let mut refs = [0u16; Lent::REFS];
    let mut words = [0u64; Lent::WORDS];
    let counts = judge_in(file, cards, &mut store, &mut refs, &mut words)?;
    Ok(counts.definitions)
}

// Refusal 2: the cards are zeroed.
fn refuse_size(file: &[u8], cards: &mut [u8]) -> Result<usize, Refusal>
    requires { (card_memory_bytes ≤ length cards.old) × (wrong_size file.now ≡ true) }
    ensures { answer_of result cards.new ≡ file_check file.now cards.old }
{
    clear_cards(cards);
    Err(Refusal { cause: 2, place: 0 })
}

// "file empty or over its limit"
pub fn wrong_size(file: &[u8]) -> bool
    ensures { result ≡ wrong_size file.now }
{
    if file.len() == 0 {
        return true;
    }
    Limits::FILE_BYTES < file.len()
}

// Checks a file, and fills the lent card memory: the number of definitions.
pub fn check(file: &[u8], cards: &mut [u8]) -> Result<usize, Refusal>
    ensures { answer_of result cards.new ≡ file_check file.now cards.old }
{
    if cards.len() < Limits::CARD_MEMORY_BYTES {
        return Err(Refusal { cause: 1, place: 0 });
    }
    if wrong_size(file) {
        return refuse_size(file, cards);
    }
    check_fields(file, cards)
}
