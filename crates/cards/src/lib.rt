// The lent card memory: the cards of the definitions, or zeros.
#![tactic(auto)]

ghost use Rattle.std.specs.Prelude.{◌≡◌, ◌≤◌, length, replicate};
ghost use Rattle.limits.specs.Limits.{card_memory_bytes, max_definitions};
ghost use Rattle.rules.specs.Run.{overwrite};
ghost use Rattle.cards.specs.Cards.{cards_of};

use context::lookup::params_at;
use forms::card::fill;
use levels::names::form_at;
use limits::Limits;
use store::{Lent, Store};

// "The card memory .. is zeroed to there": its first 4,096 bytes; "bytes beyond stay".
pub fn clear_cards(cards: &mut [u8])
    requires { card_memory_bytes ≤ length cards.old }
    ensures { cards.new ≡ overwrite (replicate card_memory_bytes 0) cards.old }
{
    cards[..Limits::CARD_MEMORY_BYTES].fill(0);
}

// The card of each of the first n definitions, from the table of forms.
pub fn fill_cards(store: &Store, words: &[u64; Lent::WORDS], n: usize, cards: &mut [u8])
    requires { (n ≤ max_definitions) × (card_memory_bytes ≤ length cards.old) }
    ensures { cards.new ≡ overwrite (cards_of store.now.facts words.now n) cards.old }
{
    for g in 0..n {
        let f = form_at(words, g);
        let k = params_at(store, g);
        fill(f, k, cards, Limits::CARD_BYTES * g);
    }
}
