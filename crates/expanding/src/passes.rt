// The passes of an expansion: from the highest definition that is called downwards, each call is replaced by the definition's template, which
// calls none but those below it.
ghost use Rattle.std.specs.Prelude.{◌≡◌, ◌≤◌, ◌<◌, min, length};
ghost use Rattle.limits.specs.Limits.{max_definitions};
ghost use Rattle.strings.specs.Read.{string_at, symbol_of};
ghost use Rattle.symbols.proofs.Sizes.{by_two};
ghost use Rattle.symbols.specs.Weight.{symbol_weight, weight};
ghost use Rattle.templates.specs.Taking.{work_bytes};
ghost use Rattle.expanding.specs.Held.{CallsReplaced, Expands};

use limits::Limits;
use replacing::rewrite;
use store::{Lent, Store};
use strings::{Sign, highest_call, symbol_at, width};
use templates::making::template;

// How many bytes of an expansion a symbol stands for, at least.
fn symbol_weight(g: Sign) -> usize
    ensures { (result ≡ symbol_weight by_two (symbol_of g)) × (result ≤ 4) }
{
    match g {
        Sign::Par(_) => 2,
        Sign::Var(_) => 3,
        Sign::Name(_, _) => 4,
        Sign::Code(_) => 2,
        Sign::Number(_) => 3,
        Sign::Call(_) => 2,
        Sign::Begin => 0,
        Sign::End => 0,
    }
}

// How many bytes the expansion of a string has, at least.
fn string_weight(s: &[u8], n: usize) -> usize
    ensures { result ≡ weight by_two (string_at s.now 0 n) }
{
    let end = n.min(s.len());
    let mut i: usize = 0;
    let mut q: usize = 0;
    while i < end {
        let g = symbol_at(s, i);
        q += symbol_weight(g);
        i += width(g);
    }
    q
}

// The calls of definition d replaced: how long the string is then, if it fits; unless the expansion is known to be too long.
fn replace_calls(
    file: &[u8],
    refs: &[u16; Lent::REFS],
    store: &Store,
    n: usize,
    shapes: &[u32],
    d: usize,
    a: &mut [u8],
    len: usize,
    work: &mut [u8],
    filled: &mut [u8],
) -> Option<usize>
    requires { (d < max_definitions) × (length shapes.now ≡ max_definitions) × (length a.old ≡ work_bytes) × (len ≤ length a.old) × (length work.old ≡ work_bytes) × (length filled.old ≡ work_bytes) }
    ensures { CallsReplaced file.now refs.now store.now store.now.declared n shapes.now d a.old len a.new result }
{
    // Each pass costs a string's length: one that is too long already is not passed over again.
    if Limits::EXPANSION_BYTES < string_weight(a, len) {
        return None;
    }
    let tlen = template(file, refs, store, n, shapes, d, work, filled)?;
    rewrite(a, len, d as u16, work, tlen, shapes, filled)
}

// The string of a term, its calls replaced until none is left.
pub fn expansion(
    file: &[u8],
    refs: &[u16; Lent::REFS],
    store: &Store,
    n: usize,
    shapes: &[u32],
    a: &mut [u8],
    len: usize,
    work: &mut [u8],
    filled: &mut [u8],
) -> Option<usize>
    requires { (length shapes.now ≡ max_definitions) × (length a.old ≡ work_bytes) × (len ≤ length a.old) × (length work.old ≡ work_bytes) × (length filled.old ≡ work_bytes) }
    ensures { Expands file.now refs.now store.now store.now.declared n shapes.now a.old len a.new result }
{
    let mut size = len;
    let mut k = highest_call(a, size);
    while 0 < k {
        size = replace_calls(file, refs, store, n, shapes, k - 1, a, size, work, filled)?;
        let c = highest_call(a, size);
        k = (k - 1).min(c);
    }
    Some(size)
}
