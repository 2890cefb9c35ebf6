// A definition's card, found from its form.
ghost use Rattle.std.specs.Prelude.{◌≡◌, ◌+◌, ◌^◌, ◌<◌, ◌≤◌, get_or, length};
ghost use Rattle.std.proofs.Math.Seq.{paste};
ghost use Rattle.limits.specs.Limits.{card_bytes, max_arity};
ghost use Rattle.theory.specs.Card.{card_of, pair_bit};
ghost use Rattle.forms.specs.Cards.{Paired, laid_out};
ghost use Rattle.forms.specs.Forms.{level_at};

use crate::levels::level_at_zero;
use crate::probing::{clashes, mask_of, weighs, with_bit};
use limits::Limits;

// "A card becomes 16 bytes": what they hold.
#[derive(Clone, Copy)]
pub struct Card {
    pub params: u8,
    pub base: u8,
    pub weights: u8,
    pub masks: [u8; Limits::ARITY],
    pub pairs: u32,
}

// "Pair bit j(j − 1)/2 + i, for i below j and counting from 0"
fn pair_bit(i: usize, j: usize) -> u32
    requires { (i < j) × (j < max_arity) }
    ensures { (result ≡ pair_bit i j) × (result < 28) }
{
    (j * (j - 1) / 2 + i) as u32
}

// The pair bits of parameter j with each before it, beside those of the parameters before j.
fn add_pairs(form: u64, j: usize, before: u32) -> u32
    requires { (j < max_arity) × (before < 2 ^ pair_bit 0 j) }
    ensures { Paired (level_at form) j before result }
{
    let mut pairs = before;
    for i in 0..j {
        let b = clashes(form, i, j);
        pairs = with_bit(pairs, pair_bit(i, j), b);
    }
    pairs
}

// The card of a form over n parameters.
pub fn card_of(form: u64, n: usize) -> Card
    requires { n ≤ max_arity }
    ensures { laid_out result ≡ card_of n (level_at form) }
{
    let mut masks = [0u8; Limits::ARITY];
    let mut weights: u32 = 0;
    let mut pairs: u32 = 0;
    for i in 0..n {
        masks[i] = mask_of(form, i);
        let b = weighs(form, i);
        weights = with_bit(weights, i as u32, b);
        pairs = add_pairs(form, i, pairs);
    }
    Card {
        params: n as u8,
        base: level_at_zero(form),
        weights: weights as u8,
        masks,
        pairs,
    }
}

// Byte k of a card.
pub fn byte_of(card: Card, k: usize) -> u8
    requires { k < card_bytes }
    ensures { result ≡ get_or (laid_out card) k 0 }
{
    if k == 0 {
        return card.params;
    }
    if k == 1 {
        return card.base;
    }
    if k == 2 {
        return card.weights;
    }
    if k < 11 {
        let masks = card.masks;
        return masks[k - 3];
    }
    if k < 15 {
        let shift = ((14 - k) * 8) as u32;
        return ((card.pairs >> shift) % 256) as u8;
    }
    0
}

// Stores a card from place at of out.
fn put(card: Card, out: &mut [u8], at: usize)
    requires { at + card_bytes ≤ length out.old }
    ensures { out.new ≡ paste out.old at (laid_out card) card_bytes }
{
    for k in 0..Limits::CARD_BYTES {
        out[at + k] = byte_of(card, k);
    }
}

// Stores the card of a form over n parameters from place at of out.
pub fn fill(f: u64, n: usize, out: &mut [u8], at: usize)
    requires { (n ≤ max_arity) × (at + card_bytes ≤ length out.old) }
    ensures { out.new ≡ paste out.old at (card_of n (level_at f)) card_bytes }
{
    put(card_of(f, n), out, at)
}
