// "Its expansion, ill-levelled or not, with its length": the file checked afresh, the lent card memory filled, and the output written.
ghost use Rattle.std.specs.Prelude.{false, true, ◌≡◌, ◌≤◌, length};
ghost use Rattle.limits.specs.Limits.{card_memory_bytes, file_bytes};
ghost use Rattle.rules.specs.Bytes.{is_empty};
ghost use Rattle.tokens.proofs.Writing.{Bytes};
ghost use Rattle.checker.specs.Settles.{wrong_size};
ghost use Rattle.queries.specs.Expanding.{Expanding};
ghost use Rattle.store.specs.Store.{empty};

use cards::clear_cards;
use checker::{judge_in, wrong_size};
use expanding::query::expand_reply;
use limits::Limits;
use refusals::Refusal;
use store::{Lent, Store};

// A file of lawful size, judged in a store that is empty, and the expression expanded from it.
fn expand_in(
    expr: &[u8],
    params: u8,
    module: u16,
    file: &[u8],
    cards: &mut [u8],
    store: &mut Store,
    refs: &mut [u16; Lent::REFS],
    words: &mut [u64; Lent::WORDS],
    out: &mut [u8],
) -> Result<usize, Refusal>
    requires { (card_memory_bytes ≤ length cards.old) × (is_empty file.now ≡ false) × (length file.now ≤ file_bytes) × Bytes file.now × (store.old ≡ empty) }
    ensures { Expanding file.now cards.old «module» params expr.now out.old result cards.new out.new }
{
    let counts = judge_in(file, cards, store, refs, words)?;
    expand_reply(expr, params, module, file, refs, store, counts, out)
}

// A file of lawful size.
fn expand_fields(
    expr: &[u8],
    params: u8,
    module: u16,
    file: &[u8],
    cards: &mut [u8],
    out: &mut [u8],
) -> Result<usize, Refusal>
    requires { (card_memory_bytes ≤ length cards.old) × (is_empty file.now ≡ false) × (length file.now ≤ file_bytes) × Bytes file.now }
    ensures { Expanding file.now cards.old «module» params expr.now out.old result cards.new out.new }
{
    let mut store = Store::empty();
    let mut refs = [0u16; Lent::REFS];
    let mut words = [0u64; Lent::WORDS];
    expand_in(
        expr, params, module, file, cards, &mut store, &mut refs, &mut words, out,
    )
}

// Refusal 2: the cards are zeroed, and no output is written.
fn refuse_size(
    expr: &[u8],
    params: u8,
    module: u16,
    file: &[u8],
    cards: &mut [u8],
    out: &mut [u8],
) -> Result<usize, Refusal>
    requires { (card_memory_bytes ≤ length cards.old) × (wrong_size file.now ≡ true) }
    ensures { Expanding file.now cards.old «module» params expr.now out.old result cards.new out.new }
{
    clear_cards(cards);
    Err(Refusal { cause: 2, place: 0 })
}

// The expansion of an expression over so many parameters at the end of the module of that name, written into the output lent: its length.
pub fn expand(
    file: &[u8],
    cards: &mut [u8],
    module: u16,
    expr: &[u8],
    params: u8,
    out: &mut [u8],
) -> Result<usize, Refusal>
    ensures { Expanding file.now cards.old «module» params expr.now out.old result cards.new out.new }
{
    if cards.len() < Limits::CARD_MEMORY_BYTES {
        return Err(Refusal { cause: 1, place: 0 });
    }
    if wrong_size(file) {
        return refuse_size(expr, params, module, file, cards, out);
    }
    expand_fields(expr, params, module, file, cards, out)
}
