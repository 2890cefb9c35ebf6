// A step in the template.
ghost use Rattle.std.specs.Prelude.{◌≡◌, false, ◌+◌, ◌*◌, ◌-◌, ◌^◌, ◌<◌, ◌≤◌, length};
ghost use Rattle.symbols.specs.Spell.{max_params};
ghost use Rattle.symbols.specs.Symbol.{is_wide};
ghost use Rattle.strings.specs.Read.{is_far, symbol_of};
ghost use Rattle.cells.specs.Table.{Sized};
ghost use Rattle.streaming.specs.Inside.{Entered, Goes, Left, PlaceKept, Reads, Writes};
ghost use Rattle.streaming.specs.Step.{StepsInside};

use crate::{Fault, Now, Stepped};
use cells::{Layout, Place, put_word, word};
use strings::{Sign, opened, put_one, symbol_at, width};

// Where the words of the call entered last begin.
fn words_at(top: usize, stride: usize) -> usize
    requires { (0 < top) × (top < 2 ^ 21) × (stride ≤ max_params + 3) }
    ensures { (result ≡ (top - 1) * stride) × (result < 2 ^ 26) }
{
    (top - 1) * stride
}

// The table keeps where the template goes on, in the word that keeps the call around.
fn keep_place(table: &mut [u8], at: usize, tp: usize)
    requires { (at < 2 ^ 48) × (4 * at + 3 < length table.old) × (tp < 2046) }
    ensures { PlaceKept at tp table.old table.new }
{
    let link = word(table, at);
    put_word(table, at, link / Now::PLACES * Now::PLACES + tp + 2);
}

// Argument j entered.
fn enter(table: &mut [u8], l: Layout, j: usize, s: Now) -> Now
    requires { (0 < s.top) × (s.top ≤ l.room) × (j < l.places) × (s.tp < 2046) × Sized l (length table.old) }
    ensures { Entered l j s table.old table.new result }
{
    let cell = words_at(s.top, l.stride);
    keep_place(table, cell + l.places + 2, s.tp);
    let from = word(table, cell + j);
    let to = word(table, cell + (j + 1));
    Now {
        p: from / Place::RANKS,
        e: to / Place::RANKS,
        rank: from % Place::RANKS,
        inside: false,
        ..s
    }
}

// An argument entered, if the call has words in the table and its shape speaks of the argument.
fn enter_argument(table: &mut [u8], l: Layout, i: u8, s: Now) -> Result<Stepped, Fault>
    requires { Sized l (length table.old) }
    ensures { Goes (Entered l i s table.old table.new) result }
{
    let j = i as usize;
    if s.top == 0 || l.room < s.top || l.places <= j || Now::LAST <= s.tp {
        return Err(Fault::Lost);
    }
    Ok(Stepped::On(enter(table, l, j, s)))
}

// A symbol of the template written.
fn write_template(g: Sign, out: &mut [u8], s: Now) -> Result<Stepped, Fault>
    requires { (s.q ≤ length out.old) × (s.b ≤ 65536) × (s.tp < 2 ^ 12) × (is_far (symbol_of g) ≡ false) × (is_wide (symbol_of g) ≡ false) }
    ensures { Writes (symbol_of g) s out.old out.new result }
{
    let Some(q) = put_one(g, out, s.q) else {
        return Err(Fault::Short);
    };
    let b = opened(s.b, g);
    if Now::BRACKETS < b {
        return Err(Fault::Lost);
    }
    Ok(Stepped::On(Now {
        q,
        inside: true,
        tp: s.tp + width(g),
        b,
        ..s
    }))
}

// The end of a template: the string goes on after the call.
fn leave_call(table: &[u8], l: Layout, s: Now) -> Result<Stepped, Fault>
    requires { (s.top < 2 ^ 21) × Sized l (length table.now) }
    ensures { Goes (Left l s table.now) result }
{
    if s.top == 0 {
        return Err(Fault::Lost);
    }
    let cell = words_at(s.top, l.stride) + l.places;
    let after = word(table, cell);
    let end = word(table, cell + 1);
    let link = word(table, cell + 2);
    Ok(Stepped::On(Now {
        p: after / Place::RANKS,
        e: end,
        rank: after % Place::RANKS,
        top: link / Now::PLACES,
        inside: false,
        ..s
    }))
}

// The symbol that the template goes on with.
fn read_template(
    g: Sign,
    table: &mut [u8],
    l: Layout,
    out: &mut [u8],
    s: Now,
) -> Result<Stepped, Fault>
    requires { (s.q ≤ length out.old) × (s.b ≤ 65536) × (s.top < 2 ^ 21) × (s.tp < 2 ^ 12) × Sized l (length table.old) × (is_far (symbol_of g) ≡ false) × (is_wide (symbol_of g) ≡ false) }
    ensures { Reads (symbol_of g) l s table.old table.new out.old out.new result }
{
    match g {
        Sign::Par(i) => enter_argument(table, l, i, s),
        Sign::Var(_) => write_template(g, out, s),
        Sign::Name(_, _) => write_template(g, out, s),
        Sign::Code(_) => write_template(g, out, s),
        Sign::Number(_) => write_template(g, out, s),
        Sign::Call(_) => write_template(g, out, s),
        Sign::Begin => write_template(g, out, s),
        Sign::End => write_template(g, out, s),
    }
}

// A step in the template.
pub fn step_inside(
    template: &[u8],
    tlen: usize,
    table: &mut [u8],
    l: Layout,
    out: &mut [u8],
    s: Now,
) -> Result<Stepped, Fault>
    requires { (s.q ≤ length out.old) × (s.b ≤ 65536) × (s.top < 2 ^ 21) × (s.tp < 2 ^ 12) × (tlen ≤ 1024) × Sized l (length table.old) }
    ensures { StepsInside template.now tlen l table.old out.old s table.new out.new result }
{
    if tlen <= s.tp {
        return leave_call(table, l, s);
    }
    read_template(symbol_at(template, s.tp), table, l, out, s)
}
