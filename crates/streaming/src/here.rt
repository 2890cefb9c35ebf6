// A step in the string.
ghost use Rattle.std.specs.Prelude.{false, ◌≡◌, ◌+◌, ◌*◌, ◌^◌, ◌≤◌, ◌<◌, ◌-◌, length};
ghost use Rattle.symbols.specs.Spell.{max_params};
ghost use Rattle.symbols.specs.Symbol.{begin, is_wide};
ghost use Rattle.strings.specs.Read.{is_far, symbol_of};
ghost use Rattle.shifting.specs.Shift.{noted, shift_one};
ghost use Rattle.cells.specs.Table.{Sized};
ghost use Rattle.streaming.specs.Here.{EntersCall, Opens, PassesHere, WritesHere, leaving, shifted_index};
ghost use Rattle.streaming.specs.Step.{Sane, StepsHere};

use crate::{Fault, Now, Stepped};
use cells::{Layout, next_rank, put_word, word};
use rewriting::is_call;
use strings::{Sign, put_one, symbol_at, width};

// The index of a variable of the string, moved by the brackets that templates have opened since its own was opened.
fn shifted_index(j: u16, env: &[u16], b: usize, d: usize) -> usize
    requires { (d ≤ length env.now) × (b ≤ 65536) }
    ensures { result ≡ shifted_index env.now b d j }
{
    let i = j as usize;
    if i < d {
        let k = d - 1 - i;
        let before = env[k] as usize;
        return i + b.saturating_sub(before);
    }
    i + b
}

fn shifts_wide(g: Sign, env: &[u16], b: usize, d: usize) -> bool
    requires { (d ≤ length env.now) × (b ≤ 65536) }
    ensures { result ≡ is_wide (shift_one (noted env.now d) b (symbol_of g)) }
{
    match g {
        Sign::Par(_) => false,
        Sign::Var(j) => 65535 < shifted_index(j, env, b, d),
        Sign::Name(_, _) => false,
        Sign::Code(_) => false,
        Sign::Number(_) => false,
        Sign::Call(_) => false,
        Sign::Begin => false,
        Sign::End => false,
    }
}

// A symbol of the string as it is written.
fn shifted(g: Sign, env: &[u16], b: usize, d: usize) -> Sign
    requires { (d ≤ length env.now) × (b ≤ 65536) × (is_wide (shift_one (noted env.now d) b (symbol_of g)) ≡ false) }
    ensures { symbol_of result ≡ shift_one (noted env.now d) b (symbol_of g) }
{
    match g {
        Sign::Par(i) => Sign::Par(i),
        Sign::Var(j) => Sign::Var(shifted_index(j, env, b, d) as u16),
        Sign::Name(x, k) => Sign::Name(x, k),
        Sign::Code(k) => Sign::Code(k),
        Sign::Number(v) => Sign::Number(v),
        Sign::Call(n) => Sign::Call(n),
        Sign::Begin => Sign::Begin,
        Sign::End => Sign::End,
    }
}

// A bracket of the string notes how many of templates are open. How many of the string are open then, if that can be told.
fn open_here(env: &mut [u16], b: usize, d: usize) -> Option<usize>
    ensures { Opens begin b d env.old env.new result }
{
    if d < env.len() && b < Now::BRACKETS {
        env[d] = b as u16;
        return Some(d + 1);
    }
    None
}

fn string_depth(g: Sign, env: &mut [u16], b: usize, d: usize) -> Option<usize>
    requires { d ≤ length env.old }
    ensures { Opens (symbol_of g) b d env.old env.new result }
{
    match g {
        Sign::Par(_) => Some(d),
        Sign::Var(_) => Some(d),
        Sign::Name(_, _) => Some(d),
        Sign::Code(_) => Some(d),
        Sign::Number(_) => Some(d),
        Sign::Call(_) => Some(d),
        Sign::Begin => open_here(env, b, d),
        Sign::End => d.checked_sub(1),
    }
}

// On to the next symbol of the string.
fn pass(
    g: Sign,
    call: bool,
    known: usize,
    env: &mut [u16],
    q: usize,
    s: Now,
) -> Result<Stepped, Fault>
    requires { (s.d ≤ length env.old) × (s.p < 2 ^ 33) × (s.rank < 2 ^ 14) }
    ensures { PassesHere (symbol_of g) call known env.old s q env.new result }
{
    let Some(d) = string_depth(g, env, s.b, s.d) else {
        return Err(Fault::Lost);
    };
    Ok(Stepped::On(Now {
        q,
        p: s.p + width(g),
        rank: next_rank(s.rank, known, call),
        inside: false,
        d,
        ..s
    }))
}

// A symbol of the string written.
fn write_here(
    g: Sign,
    call: bool,
    known: usize,
    env: &mut [u16],
    out: &mut [u8],
    s: Now,
) -> Result<Stepped, Fault>
    requires { Sane env.old out.old s × (is_far (symbol_of g) ≡ false) }
    ensures { WritesHere (symbol_of g) call known env.old out.old s env.new out.new result }
{
    if shifts_wide(g, env, s.b, s.d) {
        return Err(Fault::Short);
    }
    let Some(q) = put_one(shifted(g, env, s.b, s.d), out, s.q) else {
        return Err(Fault::Short);
    };
    pass(g, call, known, env, q, s)
}

// The word of call r before the two that a run keeps.
fn last_place(l: Layout, r: usize) -> usize
    requires { (l.places ≤ max_params) × (l.stride ≡ l.places + 3) × (r < 2 ^ 21) }
    ensures { (result ≡ r * l.stride + l.places) × (result < 2 ^ 26) }
{
    r * l.stride + l.places
}

// A call entered: its template is read from the start. The table keeps where the part ends that it stands in, and the call around it.
fn enter_call(table: &mut [u8], l: Layout, s: Now) -> Now
    requires { Sized l (length table.old) × (s.rank < l.room) × (s.e < 2 ^ 32) × (s.top < 2 ^ 21) }
    ensures { EntersCall l table.old s table.new result }
{
    let last = last_place(l, s.rank);
    put_word(table, last + 1, s.e);
    put_word(table, last + 2, s.top * Now::PLACES);
    Now {
        top: s.rank + 1,
        inside: true,
        tp: 0,
        ..s
    }
}

// The end of a part: of the string, or of an argument; then the template goes on.
fn leave_part(table: &[u8], l: Layout, s: Now) -> Stepped
    requires { (l.places ≤ max_params) × (l.stride ≡ l.places + 3) × (s.top < 2 ^ 21) }
    ensures { result ≡ leaving l table.now s }
{
    if s.top == 0 {
        return Stepped::Finished(s.q);
    }
    let link = word(table, last_place(l, s.top - 1) + 2);
    Stepped::On(Now {
        inside: true,
        tp: link % Now::PLACES,
        ..s
    })
}

// A step in the string.
pub fn step_here(
    a: &[u8],
    n: u16,
    table: &mut [u8],
    l: Layout,
    known: usize,
    env: &mut [u16],
    out: &mut [u8],
    s: Now,
) -> Result<Stepped, Fault>
    requires { Sane env.old out.old s × Sized l (length table.old) × (known ≤ l.room) }
    ensures { StepsHere a.now n l known table.old env.old out.old s table.new env.new out.new result }
{
    if s.e <= s.p {
        return Ok(leave_part(table, l, s));
    }
    let g = symbol_at(a, s.p);
    let call = is_call(g, n);
    if call && s.rank < known {
        return Ok(Stepped::On(enter_call(table, l, s)));
    }
    write_here(g, call, known, env, out, s)
}
