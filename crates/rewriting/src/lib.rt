// The primitive of an expansion: every call of one number in a string replaced by one template, the arguments put in. The string goes to the
// right end of the memory; what has been rewritten grows from the left.
#![tactic(auto)]

ghost use Rattle.std.specs.Prelude.{◌≡◌, true, ◌^◌, ◌<◌, ◌≤◌, min, eqb, length};
ghost use Rattle.symbols.specs.Symbol.{calls};
ghost use Rattle.strings.specs.Laid.{bound_count};
ghost use Rattle.strings.specs.Read.{symbol_at, symbol_of};
ghost use Rattle.rewriting.specs.Ends.{end_of};
ghost use Rattle.rewriting.specs.Filling.{Bounds, FilledCall};
ghost use Rattle.rewriting.specs.Going.{AtRight, Carried, Cleared, Ended, Ending, Turned};
ghost use Rattle.rewriting.specs.Rewritten.{Rewritten};

use rows::ArityColumn;
use symbols::Shape;

// How long a text filled in is, and where the arguments end that were put in.
#[derive(Clone, Copy)]
struct Part {
    len: usize,
    end: usize,
}

// Where a turn leaves what is done and where the rest begins.
#[derive(Clone, Copy)]
struct Moved {
    q: usize,
    p: usize,
}

// Whether a symbol is a call of n.
pub fn is_call(g: strings::Sign, n: u16) -> bool
    ensures { result ≡ calls (eqb n) (symbol_of g) }
{
    match g {
        strings::Sign::Par(_) => false,
        strings::Sign::Var(_) => false,
        strings::Sign::Name(_, _) => false,
        strings::Sign::Code(_) => false,
        strings::Sign::Number(_) => false,
        strings::Sign::Call(k) => n == k,
        strings::Sign::Begin => false,
        strings::Sign::End => false,
    }
}

// The first n bytes of `filled` written so that they end at a position, if they do not pass q: where they begin.
fn end_at(a: &mut [u8], q: usize, filled: &[u8], n: usize, end: usize) -> Option<usize>
    requires { (n ≤ length filled.now) × (q ≤ length a.old) × (length a.old < 2 ^ 48) × (length filled.now < 2 ^ 48) }
    ensures { Ending q filled.now n «end» a.old a.new result }
{
    let e = end.min(a.len());
    if n == 0 || e < q + n {
        return None;
    }
    strings::place(filled, n, a, e - n);
    Some(e - n)
}

// One symbol moved from p to q: how many bytes it takes.
fn carry(a: &mut [u8], q: usize, p: usize) -> usize
    requires { (q ≤ p) × (p < length a.old) }
    ensures { Carried q p a.old a.new result }
{
    let w = strings::width(strings::symbol_at(a, p)).min(a.len() - p);
    strings::move_left(a, p, q, w);
    w
}

// What each call of n is replaced by: a template of tlen bytes. The shapes of what is called, and the argument counts of built-ins.
#[derive(Clone, Copy)]
struct Replacement<'a> {
    n: u16,
    template: &'a [u8],
    tlen: usize,
    shapes: &'a [u32],
    arities: &'a ArityColumn,
}

impl<'a> Replacement<'a> {
    // Where the argument that begins at a position ends, the lowest bit of h saying that there is one.
    fn argument_end(self, a: &[u8], h: u32, at: usize) -> usize
        requires { (length a.now < 2 ^ 48) }
        ensures { result ≡ end_of a.now self.entry.shapes.now h at }
    {
        if h % 2 == 1 {
            strings::piece_end(a, self.shapes, self.arities, at, a.len())
        } else {
            at
        }
    }

    // Where the arguments of a call begin and end, those whose bits in h are set, the first at a position: each begins where the one before it ends.
    fn arguments(self, a: &[u8], h: u32, at: usize, bounds: &mut [usize])
        requires { (length a.now < 2 ^ 48) × (length bounds.old ≡ bound_count) }
        ensures { Bounds a.now self.entry.shapes.now h at bounds.new }
    {
        bounds[0] = at;
        let mut rest = h;
        for i in 0..Shape::PARAMS {
            bounds[i + 1] = self.argument_end(a, rest, bounds[i]);
            rest = rest / 2;
        }
    }

    // The template with the arguments filled in of a call whose first argument stands at a position.
    fn fill_call(self, a: &[u8], at: usize, h: u32, filled: &mut [u8]) -> Option<Part>
        requires { (length a.now < 2 ^ 48) }
        ensures { FilledCall a.now at h self.entry.template.now self.entry.tlen self.entry.shapes.now filled.old filled.new result }
    {
        let mut bounds = [0usize; Shape::PARAMS + 1];
        self.arguments(a, h, at, &mut bounds);
        let len = strings::fill_in(self.template, self.tlen, a, &bounds, filled)?;
        Some(Part {
            len,
            end: bounds[Shape::PARAMS],
        })
    }

    // The call of n at p replaced: where the rest begins then.
    fn replace(self, a: &mut [u8], q: usize, p: usize, filled: &mut [u8]) -> Option<usize>
        requires { (q ≤ p) × (p < length a.old) × (length a.old ≤ length filled.old) × (length filled.old < 2 ^ 48) × (calls (eqb self.n) (symbol_at a.old p) ≡ true) }
        ensures { Cleared self.entry.n self.entry.template.now self.entry.tlen self.entry.shapes.now q p a.old a.new result × (length filled.new ≡ length filled.old) }
    {
        let h = symbols::shape_at(self.shapes, self.n as usize);
        let f = self.fill_call(a, p + 2, h, filled)?;
        end_at(a, q, filled, f.len, f.end)
    }

    // Where the rest begins once it begins with no call of n.
    fn cleared(self, a: &mut [u8], q: usize, p: usize, filled: &mut [u8]) -> Option<usize>
        requires { (q ≤ p) × (p < length a.old) × (length a.old ≤ length filled.old) × (length filled.old < 2 ^ 48) }
        ensures { Cleared self.entry.n self.entry.template.now self.entry.tlen self.entry.shapes.now q p a.old a.new result × (length filled.new ≡ length filled.old) }
    {
        if is_call(strings::symbol_at(a, p), self.n) {
            self.replace(a, q, p, filled)
        } else {
            Some(p)
        }
    }

    // One turn: at q the symbol is written that the rest, at p, begins with, once it is no call of n. Where both are then.
    fn turn(self, a: &mut [u8], q: usize, p: usize, filled: &mut [u8]) -> Option<Moved>
        requires { (q ≤ p) × (p < length a.old) × (length a.old ≤ length filled.old) × (length filled.old < 2 ^ 48) }
        ensures { Turned self.entry.n self.entry.template.now self.entry.tlen self.entry.shapes.now q p a.old a.new result × (length filled.new ≡ length filled.old) }
    {
        let at = self.cleared(a, q, p, filled)?;
        let w = carry(a, q, at);
        Some(Moved {
            q: q + w,
            p: at + w,
        })
    }

    fn rewrite_from(self, a: &mut [u8], from: usize, filled: &mut [u8]) -> Option<usize>
        requires { (from ≤ length a.old) × (length a.old ≤ length filled.old) × (length filled.old < 2 ^ 48) }
        ensures { Ended self.entry.n self.entry.template.now self.entry.tlen self.entry.shapes.now from a.old a.new result }
    {
        let mut q: usize = 0;
        let mut p = from;
        while p < a.len() {
            let t = self.turn(a, q, p, filled)?;
            q = t.q;
            p = t.p;
        }
        Some(q)
    }
}

// The string of the first len bytes moved to the right end, by way of other memory: where it begins.
fn to_right(a: &mut [u8], len: usize, filled: &mut [u8]) -> usize
    requires { (len ≤ length a.old) × (length a.old ≤ length filled.old) }
    ensures { AtRight a.old len a.new result × (length filled.new ≡ length filled.old) }
{
    let from = a.len() - len;
    strings::place(a, len, filled, 0);
    strings::place(filled, len, a, from);
    from
}

// In the string of the first len bytes every call of n is replaced by the template, of tlen bytes, "arguments put in", and so on in the
// arguments; `filled` is memory to work in. How many bytes there are then, if they fit.
pub fn rewrite(
    a: &mut [u8],
    len: usize,
    n: u16,
    template: &[u8],
    tlen: usize,
    shapes: &[u32],
    filled: &mut [u8],
) -> Option<usize>
    requires { (len ≤ length a.old) × (length a.old ≤ length filled.old) × (length filled.old < 2 ^ 48) }
    ensures { Rewritten a.old len n template.now tlen shapes.now a.new result }
{
    let arities = ArityColumn::new();
    let from = to_right(a, len, filled);
    let x = Replacement {
        n,
        template,
        tlen,
        shapes,
        arities: &arities,
    };
    x.rewrite_from(a, from, filled)
}
