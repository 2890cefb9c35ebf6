// The digits of a card.
ghost use Rattle.std.specs.Prelude.{[], ◌∷◌, ◌≡◌, ◌%◌, ◌*◌, ◌+◌, ◌/◌, ◌<◌, ◌≤◌, length};
ghost use Rattle.limits.specs.Limits.{card_bytes, max_arity};
ghost use Rattle.rules.specs.Listing.{hex_digit};
ghost use Rattle.forms.specs.Forms.{level_at};
ghost use Rattle.lines.specs.Text.{card_digits};
ghost use Rattle.lines.specs.Writes.{Writes};

use crate::numbers::put_byte;
use forms::card::{byte_of, card_of};
use limits::Limits;

// A "lower-case hexadecimal" digit.
fn hex_digit(d: u8) -> u8
    requires { d < 16 }
    ensures { result ≡ hex_digit d }
{
    if d < 10 { 48 + d } else { 87 + d }
}

// The two digits of a byte.
fn put_hex(out: &mut [u8], at: usize, b: u8) -> usize
    requires { at + 2 ≤ length out.old }
    ensures { Writes out.old out.new at (hex_digit (b / 16) ∷ hex_digit (b % 16) ∷ []) result }
{
    let high = hex_digit(b / 16);
    let low = hex_digit(b % 16);
    let next = put_byte(out, at, high);
    put_byte(out, next, low)
}

// The digits of the card of f over n parameters, byte after byte.
pub fn put_card(f: u64, n: usize, out: &mut [u8], at: usize) -> usize
    requires { (n ≤ max_arity) × (at + 2 * card_bytes ≤ length out.old) }
    ensures { Writes out.old out.new at (card_digits n (level_at f)) result × (result ≤ at + 2 * card_bytes) }
{
    let card = card_of(f, n);
    let mut next = at;
    for k in 0..Limits::CARD_BYTES {
        let b = byte_of(card, k);
        next = put_hex(out, next, b);
    }
    next
}
