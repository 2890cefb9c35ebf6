// The primitive of an expansion in linear time: every call of one number in a string replaced by one template. The string is read once
// from left to right and written to other memory; where a call stands the template is read instead, and where the template has a parameter,
// the argument in the string. What is underway is kept in a table of the calls, so nothing is copied twice and no recursion follows the
// nesting. As many runs are made as the table needs to have had room for all calls.
#![tactic(auto)]

ghost use Rattle.std.specs.Prelude.{◌≡◌, ◌^◌, ◌<◌, ◌≤◌, get_or, length, take};
ghost use Rattle.rewriting.specs.Rewritten.{Rewritten};
ghost use Rattle.replacing.specs.Round.{NotedRan, RanOn, Rounded, StepsIn, TurnedTo};
ghost use Rattle.streaming.specs.Step.{Sane};
ghost use Rattle.rewriting.specs.Ends.{places_of};
ghost use Rattle.cells.specs.Table.{Sized, row_bytes, string_bytes};

use call_table::{end_calls, note_calls};
use cells::{Layout, layout_of};
use rows::ArityColumn;
use std::ops::ControlFlow;
use streaming::here::step_here;
use streaming::inside::step_inside;
use streaming::{Fault, Now, Stepped};

#[derive(Drop)]
pub struct Bounds;

impl Bounds {
    // More steps than a run takes that has room.
    pub const STEPS: usize = 1048576;
    // The longest template that a run reads.
    pub const TEMPLATE: usize = 1024;
    // More brackets than the string of a term has that fits.
    pub const BRACKETS: usize = 32768;

    // More rounds than it takes to replace every call of the longest string.
    pub const ROUNDS: usize = 64;
}

fn step(
    a: &[u8],
    n: u16,
    template: &[u8],
    tlen: usize,
    table: &mut [u8],
    l: Layout,
    known: usize,
    env: &mut [u16],
    out: &mut [u8],
    s: Now,
) -> Result<Stepped, Fault>
    requires { Sane env.old out.old s × Sized l (length table.old) × (known ≤ l.room) × (tlen ≤ 1024) }
    ensures { StepsIn a.now template.now tlen n l known table.old env.old out.old s table.new env.new out.new result }
{
    if s.inside {
        return step_inside(template, tlen, table, l, out, s);
    }
    step_here(a, n, table, l, known, env, out, s)
}

// The string with the calls that the table holds replaced, written to `out`: how many bytes it takes.
pub fn run(
    a: &[u8],
    n: u16,
    template: &[u8],
    tlen: usize,
    table: &mut [u8],
    l: Layout,
    known: usize,
    env: &mut [u16],
    out: &mut [u8],
) -> Result<usize, Fault>
    requires { (length a.now ≤ string_bytes) × Sized l (length table.old) × (known ≤ l.room) × (tlen ≤ 1024) }
    ensures { RanOn a.now template.now tlen n l known table.old out.old out.new result }
{
    let mut s = Now {
        q: 0,
        p: 0,
        e: a.len(),
        rank: 0,
        top: 0,
        inside: false,
        tp: 0,
        b: 0,
        d: 0,
    };
    for _turns in 0..Bounds::STEPS {
        match step(a, n, template, tlen, table, l, known, env, out, s)? {
            Stepped::On(next) => s = next,
            Stepped::Finished(len) => return Ok(len),
        }
    }
    Err(Fault::Lost)
}

// What each call of n is replaced by: a template of tlen bytes. The shapes of what is called, and the argument counts of built-ins.
#[derive(Clone, Copy)]
struct Replacement<'a> {
    n: u16,
    template: &'a [u8],
    tlen: usize,
    shapes: &'a [u32],
    arities: &'a ArityColumn,
    ghost short: { tlen ≤ 1024 },
}

impl<'a> Replacement<'a> {
    // The calls that are noted in the table, replaced.
    fn replace_noted(
        self,
        a: &[u8],
        table: &mut [u8],
        l: Layout,
        known: usize,
        h: u32,
        env: &mut [u16],
        out: &mut [u8],
    ) -> Result<usize, Fault>
        requires { (length a.now ≤ string_bytes) × Sized l (length table.old) × (known ≤ l.room) × (h ≡ get_or self.shapes.now self.n 0) × (l.places ≡ places_of h) }
        ensures { NotedRan a.now self.entry.template.now self.entry.tlen self.entry.shapes.now self.entry.n l known table.old out.old out.new result }
    {
        if !end_calls(a, self.shapes, self.arities, self.n, table, l, known, h) {
            return Err(Fault::Lost);
        }
        run(
            a,
            self.n,
            self.template,
            self.tlen,
            table,
            l,
            known,
            env,
            out,
        )
    }

    // As many calls of n replaced as the table has room for: how many bytes there are then; none where there is no call of n.
    fn one_round(
        self,
        a: &[u8],
        table: &mut [u8],
        env: &mut [u16],
        out: &mut [u8],
    ) -> Result<Option<usize>, Fault>
        requires { (length a.now ≤ string_bytes) × (row_bytes ≤ length table.old) × (length table.old < 2 ^ 48) }
        ensures { Rounded a.now self.entry.template.now self.entry.tlen self.entry.shapes.now self.entry.n out.old out.new result }
    {
        let h = symbols::shape_at(self.shapes, self.n as usize);
        let l = layout_of(h, table.len());
        let calls = note_calls(a, self.n, table, l);
        if calls == 0 {
            return Ok(None);
        }
        let len = self.replace_noted(a, table, l, calls, h, env, out)?;
        Ok(Some(len))
    }

    // One round on the string of the first `size` bytes.
    fn first_round(
        self,
        a: &[u8],
        size: usize,
        table: &mut [u8],
        env: &mut [u16],
        out: &mut [u8],
    ) -> Result<Option<usize>, Fault>
        requires { (size ≤ length a.now) × (length a.now ≤ string_bytes) × (row_bytes ≤ length table.old) × (length table.old < 2 ^ 48) }
        ensures { Rounded (take size a.now) self.entry.template.now self.entry.tlen self.entry.shapes.now self.entry.n out.old out.new result }
    {
        self.one_round(&a[0..size], table, env, out)
    }

    // One round on the string of the first `size` bytes, after which there may be calls left; or the answer. Where it cannot be told, the calls are
    // replaced one after another.
    fn turn(
        self,
        a: &mut [u8],
        size: usize,
        table: &mut [u8],
        env: &mut [u16],
        filled: &mut [u8],
    ) -> ControlFlow<Option<usize>, usize>
        requires { (size ≤ length a.old) × (length a.old ≡ length filled.old) × (length filled.old ≤ string_bytes) × (row_bytes ≤ length table.old) × (length table.old < 2 ^ 48) }
        ensures { TurnedTo a.old size self.entry.n self.entry.template.now self.entry.tlen self.entry.shapes.now a.new result }
    {
        match self.first_round(a, size, table, env, filled) {
            Ok(None) => ControlFlow::Break(Some(size)),
            Ok(Some(len)) => {
                strings::place(filled, len, a, 0);
                ControlFlow::Continue(len)
            }
            Err(Fault::Short) => ControlFlow::Break(None),
            Err(Fault::Lost) => ControlFlow::Break(rewriting::rewrite(
                a,
                size,
                self.n,
                self.template,
                self.tlen,
                self.shapes,
                filled,
            )),
        }
    }

    // Rounds until no call of n is left. Should there be more than enough, the calls that are left are replaced one after another.
    fn rounds(
        self,
        a: &mut [u8],
        len: usize,
        table: &mut [u8],
        env: &mut [u16],
        filled: &mut [u8],
    ) -> Option<usize>
        requires { (len ≤ length a.old) × (length a.old ≡ length filled.old) × (length filled.old ≤ string_bytes) × (row_bytes ≤ length table.old) × (length table.old < 2 ^ 48) }
        ensures { Rewritten a.old len self.entry.n self.entry.template.now self.entry.tlen self.entry.shapes.now a.new result }
    {
        let mut size = len;
        for _turns in 0..Bounds::ROUNDS {
            match self.turn(a, size, table, env, filled) {
                ControlFlow::Continue(len) => size = len,
                ControlFlow::Break(answer) => return answer,
            }
        }
        rewriting::rewrite(
            a,
            size,
            self.n,
            self.template,
            self.tlen,
            self.shapes,
            filled,
        )
    }
}

// The template copied, and its memory the table's.
fn rewrite_with(
    a: &mut [u8],
    len: usize,
    n: u16,
    template: &mut [u8],
    tlen: usize,
    shapes: &[u32],
    arities: &ArityColumn,
    small: &mut [u8],
    env: &mut [u16],
    filled: &mut [u8],
) -> Option<usize>
    requires { (len ≤ length a.old) × (length a.old ≡ length filled.old) × (length filled.old ≤ string_bytes) × (tlen ≤ 1024) × (1024 ≤ length template.old) × (length template.old < 2 ^ 48) × (1024 ≤ length small.old) }
    ensures { Rewritten a.old len n template.old tlen shapes.now a.new result }
{
    strings::place(template, tlen, small, 0);
    let x = Replacement {
        n,
        template: small,
        tlen,
        shapes,
        arities,
    };
    x.rounds(a, len, template, env, filled)
}

fn rewrite_short(
    a: &mut [u8],
    len: usize,
    n: u16,
    template: &mut [u8],
    tlen: usize,
    shapes: &[u32],
    filled: &mut [u8],
) -> Option<usize>
    requires { (len ≤ length a.old) × (length a.old ≡ length filled.old) × (length filled.old ≤ string_bytes) × (tlen ≤ 1024) × (1024 ≤ length template.old) × (length template.old < 2 ^ 48) }
    ensures { Rewritten a.old len n template.old tlen shapes.now a.new result }
{
    let arities = ArityColumn::new();
    let mut small = [0u8; Bounds::TEMPLATE];
    let mut env = [0u16; Bounds::BRACKETS];
    rewrite_with(
        a, len, n, template, tlen, shapes, &arities, &mut small, &mut env, filled,
    )
}

// In the string of the first len bytes every call of n is replaced by the template, of tlen bytes, "arguments put in", and so on in the
// arguments. `filled` is memory to work in, and so is that of the template. Calls of a long template are replaced one after another: there are
// few where the result fits.
pub fn rewrite(
    a: &mut [u8],
    len: usize,
    n: u16,
    template: &mut [u8],
    tlen: usize,
    shapes: &[u32],
    filled: &mut [u8],
) -> Option<usize>
    requires { (len ≤ length a.old) × (length a.old ≡ length filled.old) × (length filled.old ≤ string_bytes) × (length template.old < 2 ^ 48) }
    ensures { Rewritten a.old len n template.old tlen shapes.now a.new result }
{
    if tlen <= Bounds::TEMPLATE && Bounds::TEMPLATE <= template.len() {
        return rewrite_short(a, len, n, template, tlen, shapes, filled);
    }
    rewriting::rewrite(a, len, n, template, tlen, shapes, filled)
}
