// The queries of paper 01 as operations: "Each call checks the file afresh and fills the lent card memory."
#![tactic(auto)]

pub mod expansion;
pub mod replies;

ghost use Rattle.std.specs.Prelude.{false, true, ◌≡◌, ◌≤◌, length};
ghost use Rattle.limits.specs.Limits.{card_memory_bytes, file_bytes};
ghost use Rattle.rules.specs.Bytes.{is_empty};
ghost use Rattle.rules.specs.Query.{alike_query, body_query, level_query};
ghost use Rattle.tokens.proofs.Writing.{Bytes};
ghost use Rattle.checker.specs.Reply.{answer};
ghost use Rattle.checker.specs.Settles.{wrong_size};
ghost use Rattle.queries.specs.Question.{Answers, alike_in, body_in, level_in};
ghost use Rattle.refusals.specs.Outcomes.{outcome_of};
ghost use Rattle.store.specs.Store.{empty};

use cards::clear_cards;
use checker::{judge_in, wrong_size};
use limits::Limits;
use refusals::Refusal;
use replies::reply_to;
use store::{Lent, Store};

// What is asked of a file: the level of an expression at the end of the module of that name, the expression and its parameters' levels
// standing beside; whether two definitions are alike; where a definition's body stands. "A definition is given by its number, a module by its name."
#[derive(Clone, Copy)]
pub enum Question {
    Level(u16),
    Alike(u32, u32),
    Body(u32),
}

// The answer to a question: a level; whether the two are alike; the start of the body and its length.
#[derive(Clone, Copy)]
pub enum Answer {
    Levelled(u8),
    Compared(bool),
    Located(usize, usize),
}

// A file of lawful size, judged in a store that is empty, and the question answered from it.
fn ask_in(
    question: Question,
    expr: &[u8],
    levels: &[u8],
    file: &[u8],
    cards: &mut [u8],
    store: &mut Store,
    refs: &mut [u16; Lent::REFS],
    words: &mut [u64; Lent::WORDS],
) -> Result<Answer, Refusal>
    requires { (card_memory_bytes ≤ length cards.old) × (is_empty file.now ≡ false) × (length file.now ≤ file_bytes) × Bytes file.now × (store.old ≡ empty) }
    ensures { Answers question file.now cards.old expr.now levels.now result cards.new }
{
    let counts = judge_in(file, cards, store, refs, words)?;
    reply_to(question, expr, levels, store, words, cards, counts)
}

// A file of lawful size.
fn ask_fields(
    question: Question,
    expr: &[u8],
    levels: &[u8],
    file: &[u8],
    cards: &mut [u8],
) -> Result<Answer, Refusal>
    requires { (card_memory_bytes ≤ length cards.old) × (is_empty file.now ≡ false) × (length file.now ≤ file_bytes) × Bytes file.now }
    ensures { Answers question file.now cards.old expr.now levels.now result cards.new }
{
    let mut store = Store::empty();
    let mut refs = [0u16; Lent::REFS];
    let mut words = [0u64; Lent::WORDS];
    ask_in(
        question, expr, levels, file, cards, &mut store, &mut refs, &mut words,
    )
}

// Refusal 2: the cards are zeroed.
fn refuse_size(
    question: Question,
    expr: &[u8],
    levels: &[u8],
    file: &[u8],
    cards: &mut [u8],
) -> Result<Answer, Refusal>
    requires { (card_memory_bytes ≤ length cards.old) × (wrong_size file.now ≡ true) }
    ensures { Answers question file.now cards.old expr.now levels.now result cards.new }
{
    clear_cards(cards);
    Err(Refusal { cause: 2, place: 0 })
}

// Checks the file, fills the lent card memory, and answers a question.
fn ask(
    question: Question,
    expr: &[u8],
    levels: &[u8],
    file: &[u8],
    cards: &mut [u8],
) -> Result<Answer, Refusal>
    ensures { Answers question file.now cards.old expr.now levels.now result cards.new }
{
    if cards.len() < Limits::CARD_MEMORY_BYTES {
        return Err(Refusal { cause: 1, place: 0 });
    }
    if wrong_size(file) {
        return refuse_size(question, expr, levels, file, cards);
    }
    ask_fields(question, expr, levels, file, cards)
}

// What a reply says to each query. That to another question would say nothing: a refusal by cause 0, which is none.
fn as_level(reply: Result<Answer, Refusal>) -> Result<u8, Refusal>
    ensures { outcome_of result ≡ level_in reply }
{
    let Answer::Levelled(level) = reply? else {
        return Err(Refusal { cause: 0, place: 0 });
    };
    Ok(level)
}

fn as_alike(reply: Result<Answer, Refusal>) -> Result<bool, Refusal>
    ensures { outcome_of result ≡ alike_in reply }
{
    let Answer::Compared(alike) = reply? else {
        return Err(Refusal { cause: 0, place: 0 });
    };
    Ok(alike)
}

fn as_body(reply: Result<Answer, Refusal>) -> Result<(usize, usize), Refusal>
    ensures { outcome_of result ≡ body_in reply }
{
    let Answer::Located(start, size) = reply? else {
        return Err(Refusal { cause: 0, place: 0 });
    };
    Ok((start, size))
}

// "The level of an expression" over 0 to 8 parameters, "a level from 0 to 4 being given for each, at the end of a module"
pub fn level(
    file: &[u8],
    cards: &mut [u8],
    module: u16,
    expr: &[u8],
    levels: &[u8],
) -> Result<u8, Refusal>
    ensures { answer (outcome_of result) cards.new ≡ level_query file.now cards.old «module» levels.now expr.now }
{
    let reply = ask(Question::Level(module), expr, levels, file, cards);
    as_level(reply)
}

// "Two definitions are alike when parameter counts and cards agree."
pub fn alike(file: &[u8], cards: &mut [u8], a: u32, b: u32) -> Result<bool, Refusal>
    ensures { answer (outcome_of result) cards.new ≡ alike_query file.now cards.old a b }
{
    let reply = ask(Question::Alike(a, b), b"", b"", file, cards);
    as_alike(reply)
}

// "The body of a definition, handed back as the part of the file that holds it; for a brought one, the original": its start and its length.
pub fn body(file: &[u8], cards: &mut [u8], d: u32) -> Result<(usize, usize), Refusal>
    ensures { answer (outcome_of result) cards.new ≡ body_query file.now cards.old d }
{
    let reply = ask(Question::Body(d), b"", b"", file, cards);
    as_body(reply)
}
