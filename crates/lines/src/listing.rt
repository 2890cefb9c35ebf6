// The listing of the definitions that the store holds, and the line of a refusal.
ghost use Rattle.std.specs.Prelude.{◌++◌, ◌≡◌, ◌+◌, ◌≤◌, ◌<◌, get_or, length};
ghost use Rattle.limits.specs.Limits.{max_definitions};
ghost use Rattle.store.specs.Store.{via_at};
ghost use Rattle.rules.specs.Run.{overwrite};
ghost use Rattle.lines.specs.Text.{heading, line_at, line_room, lines_of, number, refusal_text, refused_word, text_of, text_room};
ghost use Rattle.lines.specs.Writes.{Writes};

use crate::digits::put_card;
use crate::numbers::{put_byte, put_number};
use context::lookup::params_at;
use levels::names::form_at;
use limits::Limits;
use store::{Lent, Store};

const SPACE: u8 = 32;

const LINE_FEED: u8 = 10;

// A definition's number, its instance's name or 0, its name.
fn put_names(store: &Store, g: usize, out: &mut [u8], at: usize) -> usize
    requires { (g < max_definitions) × (at + 18 ≤ length out.old) }
    ensures { Writes out.old out.new at (number g 32 ++ number (via_at store.now.facts g) 32 ++ number (get_or store.now.names g 0) 32) result × (result ≤ at + 18) }
{
    let via = store.via_at(g) as usize;
    let name = store.name_at(g) as usize;
    let next = put_number(out, at, g, SPACE);
    let more = put_number(out, next, via, SPACE);
    put_number(out, more, name, SPACE)
}

// The line of definition g.
fn put_line(store: &Store, words: &[u64; Lent::WORDS], g: usize, out: &mut [u8], at: usize) -> usize
    requires { (g < max_definitions) × (at + line_room ≤ length out.old) }
    ensures { Writes out.old out.new at (line_at store.now.names store.now.facts words.now g) result × (result ≤ at + line_room) }
{
    let k = params_at(store, g);
    let f = form_at(words, g);
    let named = put_names(store, g, out, at);
    let counted = put_number(out, named, k, SPACE);
    let shown = put_card(f, k, out, counted);
    put_byte(out, shown, LINE_FEED)
}

// The first line of n definitions.
fn put_heading(n: usize, out: &mut [u8]) -> usize
    requires { 9 ≤ length out.old }
    ensures { Writes out.old out.new 0 (heading n) result × (result ≤ 9) }
{
    let o = put_byte(out, 0, 111);
    let k = put_byte(out, o, 107);
    let next = put_byte(out, k, SPACE);
    put_number(out, next, n, LINE_FEED)
}

// The lines of the first n definitions, from place at on.
fn put_lines(
    store: &Store,
    words: &[u64; Lent::WORDS],
    n: usize,
    out: &mut [u8],
    at: usize,
) -> usize
    requires { (n ≤ max_definitions) × (at ≤ 9) × (text_room ≤ length out.old) }
    ensures { Writes out.old out.new at (lines_of store.now.names store.now.facts words.now n) result × (result ≤ text_room) }
{
    let mut next = at;
    for g in 0..n {
        next = put_line(store, words, g, out, next);
    }
    next
}

// The listing of n definitions at the front of out; every other byte stays.
pub fn write_listing(store: &Store, words: &[u64; Lent::WORDS], n: usize, out: &mut [u8]) -> usize
    requires { (n ≤ max_definitions) × (text_room ≤ length out.old) }
    ensures { (out.new ≡ overwrite (text_of store.now.names store.now.facts words.now n) out.old) × (result ≡ length (text_of store.now.names store.now.facts words.now n)) × (result ≤ text_room) }
{
    let at = put_heading(n, out);
    put_lines(store, words, n, out, at)
}

// The word of a refusal.
fn put_refused(out: &mut [u8]) -> usize
    requires { 8 ≤ length out.old }
    ensures { Writes out.old out.new 0 refused_word result × (result ≤ 8) }
{
    out[0] = 114;
    out[1] = 101;
    out[2] = 102;
    out[3] = 117;
    out[4] = 115;
    out[5] = 101;
    out[6] = 100;
    out[7] = SPACE;
    8
}

// The line of a refusal at the front of out; every other byte stays.
pub fn write_refusal(cause: u8, place: usize, out: &mut [u8]) -> usize
    requires { text_room ≤ length out.old }
    ensures { (out.new ≡ overwrite (refusal_text cause place) out.old) × (result ≡ length (refusal_text cause place)) × (result ≤ text_room) }
{
    let number = cause as usize;
    let next = put_refused(out);
    let last = put_number(out, next, number, SPACE);
    put_number(out, last, place, LINE_FEED)
}
