// What a form gives with one or two parameters at a level and the others at 0: what paper 02, L7, has a card found by.
ghost use Rattle.std.specs.Prelude.{◌≡◌, ℕ, ◌^◌, ◌<◌};
ghost use Rattle.limits.specs.Limits.{max_arity};
ghost use Rattle.theory.specs.Card.{clash, clashes, mask_of, raises, takes, weighs};
ghost use Rattle.theory.specs.Level.{verdict};
ghost use Rattle.forms.specs.Labels.{Digit, level_of};
ghost use Rattle.forms.specs.Cards.{WithBit, label_at, probe};
ghost use Rattle.forms.specs.Forms.{level_at};

use crate::level_under;
use crate::levels::{bits_of, level_at_zero, level_of};
use limits::Limits;

// The label of parameter i.
fn label_of(form: u64, i: usize) -> u8
    requires { i < max_arity }
    ensures { Digit (label_at form i) result }
{
    ((form >> ((i as u64) * 3 + 3)) % 8) as u8
}

// The bits of the level with parameter i at l, others at 0.
fn alone(form: u64, i: usize, l: u8) -> u8
    requires { i < max_arity }
    ensures { Digit (probe form i l) result }
{
    let w = label_of(form, i);
    let x = bits_of(l);
    let y = level_under(w, x);
    (form % 8) as u8 | y
}

// "The verdict is whether the level is 4", from the level's bits.
fn verdict(bits: u8) -> bool
    requires { bits < 8 }
    ensures { result ≡ verdict (level_of bits) }
{
    level_of(bits) == 4
}

// "Bit l of a mask is set if the parameter at l, others at 0, is not 4."
fn takes(form: u64, i: usize, l: u8) -> bool
    requires { i < max_arity }
    ensures { (n : ℕ) → i < n → result ≡ takes n (level_at form) i l }
{
    !verdict(alone(form, i, l))
}

// A number below 2ᵏ with bit k set, where b says so.
pub fn with_bit(x: u32, k: u32, b: bool) -> u32
    requires { (k < 32) × (x < 2 ^ k) }
    ensures { WithBit x k b result }
{
    if b { x | 1 << k } else { x }
}

// The mask of parameter i.
pub fn mask_of(form: u64, i: usize) -> u8
    requires { i < max_arity }
    ensures { (n : ℕ) → i < n → result ≡ mask_of n (level_at form) i }
{
    let mut mask: u32 = 0;
    for bit in 0..Limits::LEVELS {
        let b = takes(form, i, bit as u8);
        mask = with_bit(mask, bit as u32, b);
    }
    mask as u8
}

// Whether l is a taken level of parameter i and, others at 0, raises the level.
fn raises(form: u64, i: usize, l: u8) -> bool
    requires { i < max_arity }
    ensures { (n : ℕ) → i < n → result ≡ raises n (level_at form) i l }
{
    let x = alone(form, i, l);
    if verdict(x) {
        return false;
    }
    level_at_zero(form) < level_of(x)
}

// "A weight bit i is set if some taken level of parameter i, others at 0, raises the level."
pub fn weighs(form: u64, i: usize) -> bool
    requires { i < max_arity }
    ensures { (n : ℕ) → i < n → result ≡ weighs n (level_at form) i }
{
    for l in 0..Limits::LEVELS {
        if raises(form, i, l as u8) {
            return true;
        }
    }
    false
}

// Whether parameter i at a and j at b, others at 0, give 4 though each alone does not.
fn clash(form: u64, i: usize, a: u8, j: usize, b: u8) -> bool
    requires { (i < j) × (j < max_arity) }
    ensures { (n : ℕ) → j < n → result ≡ clash n (level_at form) i a j b }
{
    let x = alone(form, i, a);
    let y = alone(form, j, b);
    if verdict(x) {
        return false;
    }
    if verdict(y) {
        return false;
    }
    verdict(x | y)
}

// Whether the pair bit of i and j is set.
pub fn clashes(form: u64, i: usize, j: usize) -> bool
    requires { (i < j) × (j < max_arity) }
    ensures { (n : ℕ) → j < n → result ≡ clashes n (level_at form) i j }
{
    if clash(form, i, 2, j, 3) {
        return true;
    }
    clash(form, i, 3, j, 2)
}
