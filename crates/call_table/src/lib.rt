// A table of the first calls of one number in a string: where the arguments of each begin and end.
#![tactic(auto)]

ghost use Rattle.std.specs.Prelude.{◌≡◌, ◌&&◌, false, ◌+◌, ◌*◌, ◌^◌, ◌<◌, ◌≤◌, min, eqb, ltb, get_or, length};
ghost use Rattle.strings.specs.Read.{string_at, symbol_of};
ghost use Rattle.symbols.specs.Spell.{max_params};
ghost use Rattle.rewriting.specs.Ends.{places_of};
ghost use Rattle.cells.specs.Table.{EndsCalls, Noted, Sized, tally, string_bytes};
ghost use Rattle.call_table.specs.Walking.{EndsArgument, EndsCall, EndsTerm, Notes, Passes, Puts, PutsEnd, Small, hopped, stepped};
ghost use Rattle.cells.specs.Words.{word_at};

use cells::{Layout, Place, next_rank, put_word, unpack, word};
use rewriting::is_call;
use rows::ArityColumn;
use strings::{Sign, done, left_after, opened, symbol_at, width};

// What walks read: a string, the shapes of what it calls and the argument counts of built-ins; the number of the calls that a table is of, its
// layout, and how many of its calls are noted.
#[derive(Clone, Copy)]
struct Reading<'a> {
    a: &'a [u8],
    shapes: &'a [u32],
    arities: &'a ArityColumn,
    n: u16,
    l: Layout,
    known: usize,
    ghost long: { length a.now ≤ string_bytes },
    ghost few: { known ≤ l.room },
    ghost places: { l.places ≡ places_of (get_or shapes.now n 0) },
}

// Where a walk to the end of a term stands: what is wanted, the brackets open.
#[derive(Clone, Copy)]
pub struct Walk {
    pub at: usize,
    pub rank: usize,
    pub left: usize,
    pub c: usize,
}

// Where word i of call r is.
fn cell(stride: usize, r: usize, i: usize) -> usize
    requires { (stride ≤ max_params + 3) × (r ≤ 16383) × (i ≤ max_params + 3) }
    ensures { (result ≡ r * stride + i) × (result < 2 ^ 19) }
{
    r * stride + i
}

// One call more noted, if there are words for it. How many there are then.
fn note(table: &mut [u8], l: Layout, rank: usize, at: usize, call: bool) -> usize
    requires { (at ≤ string_bytes) × (rank ≤ l.room) × Sized l (length table.old) }
    ensures { Notes l rank at call table.old table.new result }
{
    if call && rank < l.room {
        put_word(
            table,
            cell(l.stride, rank, 0),
            (at + 2) * Place::RANKS + rank + 1,
        );
        return rank + 1;
    }
    rank
}

// The first calls of n noted: for each the place where its arguments begin. How many there are, `room` at most.
pub fn note_calls(a: &[u8], n: u16, table: &mut [u8], l: Layout) -> usize
    requires { (length a.now ≤ string_bytes) × Sized l (length table.old) }
    ensures { Noted a.now n l result table.new × (result ≡ min l.room (tally n (string_at a.now 0 (length a.now)))) }
{
    let mut i: usize = 0;
    let mut rank: usize = 0;
    while i < a.len() {
        let g = symbol_at(a, i);
        rank = note(table, l, rank, i, is_call(g, n));
        i += width(g);
    }
    rank
}

// Past a call whose end is known, unless that is no further on.
fn hop(table: &[u8], l: Layout, w: Walk) -> Option<Walk>
    requires { Sized l (length table.now) × (w.rank < l.room) × (0 < w.left) }
    ensures { result ≡ hopped (word_at table.now (w.rank * l.stride + l.places)) w }
{
    let p = unpack(word(table, cell(l.stride, w.rank, l.places)));
    if p.at <= w.at {
        return None;
    }
    Some(Walk {
        at: p.at,
        rank: p.rank,
        left: w.left - 1,
        c: w.c,
    })
}

// Past one symbol.
fn step(g: Sign, call: bool, shapes: &[u32], arities: &ArityColumn, known: usize, w: Walk) -> Walk
    requires { (w.at < string_bytes) × Small w }
    ensures { (result ≡ stepped shapes.now known call (symbol_of g) w) × (w.at < result.at) × (result.left ≤ w.left + 255) × (result.c ≤ w.c + 1) }
{
    Walk {
        at: w.at + width(g),
        rank: next_rank(w.rank, known, call),
        left: left_after(w.left, g, shapes, arities),
        c: opened(w.c, g),
    }
}

// The end of a call is known, and a term is wanted where it stands.
fn hops(call: bool, rank: usize, known: usize, left: usize) -> bool
    ensures { result ≡ (call && (ltb rank known && ltb 0 left)) }
{
    call && rank < known && 0 < left
}

// The place where argument i of call r ends put into the table, unless it is none of the string's.
fn put_place(
    table: &mut [u8],
    l: Layout,
    long: usize,
    known: usize,
    r: usize,
    i: usize,
    e: Place,
) -> Option<Place>
    requires { (long ≤ string_bytes) × Sized l (length table.old) × (known ≤ l.room) × (r < known) × (i < l.places) }
    ensures { PutsEnd l r i table.old table.new e result }
{
    if long < e.at || known < e.rank {
        return None;
    }
    put_word(
        table,
        cell(l.stride, r, i + 1),
        e.at * Place::RANKS + e.rank,
    );
    Some(e)
}

impl<'a> Reading<'a> {
    // One turn of a walk: past a call whose end is known, or past one symbol.
    fn pass(self, table: &[u8], w: Walk) -> Option<Walk>
        requires { (w.at < length self.a.now) × Sized self.l (length table.now) × Small w × ((eqb w.left 0 && eqb w.c 0) ≡ false) }
        ensures { Passes self.entry.a.now self.entry.shapes.now self.entry.n self.entry.l self.entry.known table.now w result }
    {
        let g = symbol_at(self.a, w.at);
        let call = is_call(g, self.n);
        if hops(call, w.rank, self.known, w.left) {
            return hop(table, self.l, w);
        }
        Some(step(g, call, self.shapes, self.arities, self.known, w))
    }

    // Where the term that begins at a place ends, unless the walk goes astray.
    fn term_end(self, table: &[u8], p: Place) -> Option<Place>
        requires { Sized self.l (length table.now) × (p.rank ≤ 16383) }
        ensures { EndsTerm self.entry.a.now self.entry.shapes.now self.entry.n self.entry.l self.entry.known table.now p result }
    {
        let mut w = Walk {
            at: p.at,
            rank: p.rank,
            left: 1,
            c: 0,
        };
        while w.at < self.a.len() {
            if done(w.left, w.c) {
                break;
            }
            w = self.pass(table, w)?;
        }
        Some(Place {
            at: w.at,
            rank: w.rank,
        })
    }

    // Where an argument ends, the lowest bit of h saying that there is one.
    fn argument_end(self, table: &[u8], h: u32, p: Place) -> Option<Place>
        requires { Sized self.l (length table.now) × (p.rank ≤ 16383) }
        ensures { EndsArgument self.entry.a.now self.entry.shapes.now self.entry.n self.entry.l self.entry.known table.now h p result }
    {
        if h % 2 == 1 {
            return self.term_end(table, p);
        }
        Some(p)
    }

    // Where argument i of call r ends, put into the table.
    fn put_end(self, table: &mut [u8], h: u32, r: usize, i: usize, p: Place) -> Option<Place>
        requires { Sized self.l (length table.old) × (p.rank ≤ 16383) × (r < self.known) × (i < self.l.places) }
        ensures { Puts self.entry.a.now self.entry.shapes.now self.entry.n self.entry.l self.entry.known h r i p table.old table.new result }
    {
        let e = self.argument_end(table, h, p)?;
        put_place(table, self.l, self.a.len(), self.known, r, i, e)
    }

    // The places where the arguments of call r end.
    fn end_call(self, table: &mut [u8], h: u32, r: usize) -> bool
        requires { Sized self.l (length table.old) × (h ≡ get_or self.shapes.now self.n 0) × (r < self.known) }
        ensures { EndsCall self.entry.a.now self.entry.shapes.now self.entry.n self.entry.l self.entry.known r table.old table.new result }
    {
        let mut p = unpack(word(table, cell(self.l.stride, r, 0)));
        let mut rest = h;
        for i in 0..self.l.places {
            let Some(e) = self.put_end(table, rest, r, i, p) else {
                return false;
            };
            p = e;
            rest = rest / 2;
        }
        true
    }
}

// The ends of all calls noted, the last call first, so that the calls inside the arguments of one are known before it.
pub fn end_calls(
    a: &[u8],
    shapes: &[u32],
    arities: &ArityColumn,
    n: u16,
    table: &mut [u8],
    l: Layout,
    known: usize,
    h: u32,
) -> bool
    requires { (length a.now ≤ string_bytes) × Sized l (length table.old) × (known ≤ l.room) × (h ≡ get_or shapes.now n 0) × (l.places ≡ places_of h) }
    ensures { EndsCalls a.now shapes.now n l known table.old table.new result }
{
    let x = Reading {
        a,
        shapes,
        arities,
        n,
        l,
        known,
    };
    for r in (0..known).rev() {
        if !x.end_call(table, h, r) {
            return false;
        }
    }
    true
}
