// The cells of the table of calls that a run keeps: numbers of four bytes, most significant first, in lent bytes.
#![tactic(auto)]

ghost use Rattle.std.specs.Prelude.{◌≡◌, cond, ◌+◌, ◌*◌, ◌/◌, ◌%◌, ◌^◌, ◌<◌, ◌≤◌, max, min, ltb, length};
ghost use Rattle.std.proofs.lemmas.List.Edits.{sets};
ghost use Rattle.symbols.specs.Spell.{max_params};
ghost use Rattle.rewriting.specs.Ends.{places_of};
ghost use Rattle.cells.specs.Table.{Sized};
ghost use Rattle.cells.specs.Words.{four, word_at};

use symbols::Shape;
use tokens::number_at;

// How the table is laid out: each call has `stride` words; the places where its arguments begin, each beginning where the one before it
// ends, then the place where the last of them ends, and two words for a run. A shape speaks of `places` arguments, and there are words for
// `room` calls.
#[derive(Clone, Copy)]
pub struct Layout {
    pub places: usize,
    pub stride: usize,
    pub room: usize,
}

impl Layout {
    // The most calls that there are words for: as many as a rank counts.
    pub const CALLS: usize = Place::RANKS - 1;
}

// A place in the string, and how many calls stand before it, `room` at most.
#[derive(Clone, Copy)]
pub struct Place {
    pub at: usize,
    pub rank: usize,
}

impl Place {
    // A word keeps a rank in its lowest 14 bits and the place above them.
    pub const RANKS: usize = 16384;
}

// The number at place i, bytes past the end taken for 0.
pub fn word(s: &[u8], i: usize) -> usize
    requires { i < 2 ^ 48 }
    ensures { (result ≡ word_at s.now i) × (result < 2 ^ 32) }
{
    let high = number_at(s, 4 * i) as usize;
    let low = number_at(s, 4 * i + 2) as usize;
    high * 65536 + low
}

pub fn put_word(s: &mut [u8], i: usize, v: usize)
    requires { (4 * i + 3 < length s.old) × (v < 2 ^ 32) }
    ensures { s.new ≡ sets s.old (4 * i) (four v) }
{
    s[4 * i] = (v / 16777216) as u8;
    s[4 * i + 1] = (v / 65536 % 256) as u8;
    s[4 * i + 2] = (v / 256 % 256) as u8;
    s[4 * i + 3] = (v % 256) as u8;
}

// How many arguments a shape speaks of: one more than the highest whose bit is set.
fn places_of(h: u32) -> usize
    ensures { (result ≡ places_of h) × (result ≤ max_params) }
{
    let mut rest = h;
    for k in 0..Shape::PARAMS {
        if rest == 0 {
            return k;
        }
        rest = rest / 2;
    }
    Shape::PARAMS
}

// The layout of a table of so many bytes, for calls of shape h.
pub fn layout_of(h: u32, bytes: usize) -> Layout
    requires { bytes < 2 ^ 48 }
    ensures { (result.places ≡ places_of h) × Sized result bytes }
{
    let places = places_of(h);
    let stride = places + 3;
    Layout {
        places,
        stride,
        room: (bytes / 4 / stride).min(Layout::CALLS),
    }
}

pub fn unpack(v: usize) -> Place
    requires { v < 2 ^ 32 }
    ensures { (result.at ≡ v / 16384) × (result.rank ≡ v % 16384) }
{
    Place {
        at: v / Place::RANKS,
        rank: v % Place::RANKS,
    }
}

// One more call, if there are words for it.
pub fn next_rank(rank: usize, room: usize, call: bool) -> usize
    requires { rank < 2 ^ 48 }
    ensures { (result ≡ cond call (cond (ltb rank room) (rank + 1) rank) rank) × (result ≤ max rank room) }
{
    if call && rank < room { rank + 1 } else { rank }
}
