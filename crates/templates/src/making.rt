// The template of a definition: the string of its text, from which the stand-ins are taken out, the highest number first, until only
// definitions below it are called.
ghost use Rattle.std.specs.Prelude.{◌≡◌, ◌≤◌, ◌<◌, max, min, length};
ghost use Rattle.limits.specs.Limits.{max_definitions};
ghost use Rattle.strings.specs.Read.{string_at, symbol_of};
ghost use Rattle.unfolding.specs.CalleeTerm.{max_links};
ghost use Rattle.templates.specs.Highest.{highest_number, number_called};
ghost use Rattle.templates.specs.Made.{TemplateMade};
ghost use Rattle.templates.specs.Shaped.{first_stand_in, shape_count, text_bytes};
ghost use Rattle.templates.specs.Taking.{AllTaken, OwnTaken, StepTaken, TakenOut, work_bytes};

use crate::ChainRoom;
use crate::shaping::prepare;
use callees::chain::Chain;
use callees::strings::{own_string, standin_string};
use limits::Limits;
use replacing::rewrite;
use store::{Lent, Store};
use strings::{Sign, symbol_at, width};

fn number_called(g: Sign) -> usize
    ensures { result ≡ number_called (symbol_of g) }
{
    match g {
        Sign::Par(_) => 0,
        Sign::Var(_) => 0,
        Sign::Name(_, _) => 0,
        Sign::Code(_) => 0,
        Sign::Number(_) => 0,
        Sign::Call(n) => n as usize + 1,
        Sign::Begin => 0,
        Sign::End => 0,
    }
}

// One more than the highest number that the string to n calls, 0 where it calls none.
fn highest_number(s: &[u8], n: usize) -> usize
    ensures { (result ≡ highest_number (string_at s.now 0 n)) × (result ≤ shape_count) }
{
    let end = n.min(s.len());
    let mut i: usize = 0;
    let mut most: usize = 0;
    while i < end {
        let g = symbol_at(s, i);
        most = most.max(number_called(g));
        i += width(g);
    }
    most
}

// The string's length, and one more than the highest number that it calls.
#[derive(Clone, Copy)]
pub struct Unfolded {
    pub len: usize,
    pub highest: usize,
}

// Stand-in m taken out of the string in `work`, which is `len` bytes long: how long it is then, if there is room.
fn take_out(
    file: &[u8],
    refs: &[u16; Lent::REFS],
    store: &Store,
    chain: &Chain,
    along: &[u32],
    m: usize,
    text: &mut [u8],
    filled: &mut [u8],
    work: &mut [u8],
    len: usize,
) -> Option<usize>
    requires { (length text.old ≡ text_bytes) × (length filled.old ≡ work_bytes) × (length work.old ≡ work_bytes) × (len ≤ work_bytes) × (first_stand_in ≤ m) × (m < shape_count) }
    ensures { TakenOut file.now refs.now store.now store.now.declared m chain.now.numbers chain.now.currents chain.now.outers along.now work.old len work.new result }
{
    let l = (m - Limits::DEFINITIONS) / Limits::DECLARATIONS - 1;
    let e = (m - Limits::DEFINITIONS) % Limits::DECLARATIONS;
    let tlen = standin_string(file, refs, store, chain, along, l, e, text);
    rewrite(work, len, m as u16, text, tlen, along, filled)
}

// The highest number that the string calls, one less than h, taken out of it.
fn take_step(
    file: &[u8],
    refs: &[u16; Lent::REFS],
    store: &Store,
    chain: &Chain,
    along: &[u32],
    h: usize,
    text: &mut [u8],
    filled: &mut [u8],
    work: &mut [u8],
    len: usize,
) -> Option<Unfolded>
    requires { (length text.old ≡ text_bytes) × (length filled.old ≡ work_bytes) × (length work.old ≡ work_bytes) × (len ≤ work_bytes) × (first_stand_in < h) × (h ≤ shape_count) }
    ensures { StepTaken file.now refs.now store.now store.now.declared h chain.now.numbers chain.now.currents chain.now.outers along.now work.old len work.new result }
{
    let len = take_out(
        file,
        refs,
        store,
        chain,
        along,
        h - 1,
        text,
        filled,
        work,
        len,
    )?;
    let highest = highest_number(work, len);
    if h <= highest {
        return None;
    }
    Some(Unfolded { len, highest })
}

// All stand-ins taken out of the string in `work`, which is `len` bytes long.
fn take_all(
    file: &[u8],
    refs: &[u16; Lent::REFS],
    store: &Store,
    chain: &Chain,
    along: &[u32],
    text: &mut [u8],
    filled: &mut [u8],
    work: &mut [u8],
    len: usize,
) -> Option<usize>
    requires { (length text.old ≡ text_bytes) × (length filled.old ≡ work_bytes) × (length work.old ≡ work_bytes) × (len ≤ work_bytes) }
    ensures { AllTaken file.now refs.now store.now store.now.declared chain.now.numbers chain.now.currents chain.now.outers along.now work.old len work.new result }
{
    let mut q = len;
    let mut h = highest_number(work, len);
    while Limits::DEFINITIONS + Limits::DECLARATIONS < h {
        let t = take_step(file, refs, store, chain, along, h, text, filled, work, q)?;
        q = t.len;
        h = t.highest;
    }
    Some(q)
}

// The text of the definition whose chain the arrays hold, k links long, with all stand-ins taken out.
fn own_template(
    file: &[u8],
    refs: &[u16; Lent::REFS],
    store: &Store,
    chain: &Chain,
    along: &[u32],
    k: usize,
    text: &mut [u8],
    filled: &mut [u8],
    work: &mut [u8],
) -> Option<usize>
    requires { (length text.old ≡ text_bytes) × (length filled.old ≡ work_bytes) × (length work.old ≡ work_bytes) × (k ≤ max_links) }
    ensures { OwnTaken file.now refs.now store.now store.now.declared k chain.now.numbers chain.now.currents chain.now.outers along.now work.new result }
{
    let tlen = own_string(file, refs, store, chain, along, k, work);
    if tlen <= work.len() {
        return take_all(file, refs, store, chain, along, text, filled, work, tlen);
    }
    None
}

// The template of definition d, in arrays lent for it.
fn make_template(
    file: &[u8],
    refs: &[u16; Lent::REFS],
    store: &Store,
    n: usize,
    shapes: &[u32],
    d: usize,
    chain: &mut Chain,
    text: &mut [u8],
    along: &mut [u32],
    filled: &mut [u8],
    work: &mut [u8],
) -> Option<usize>
    requires { (length text.old ≡ text_bytes) × (length along.old ≡ shape_count) × (length shapes.now ≡ max_definitions) × (d < max_definitions) × (length filled.old ≡ work_bytes) × (length work.old ≡ work_bytes) }
    ensures { TemplateMade file.now refs.now store.now store.now.declared n d shapes.now work.new result }
{
    let k = prepare(file, refs, store, n, shapes, d, chain, text, along);
    own_template(file, refs, store, chain, along, k, text, filled, work)
}

// The template of definition d: the shapes of the definitions are given.
pub fn template(
    file: &[u8],
    refs: &[u16; Lent::REFS],
    store: &Store,
    n: usize,
    shapes: &[u32],
    d: usize,
    work: &mut [u8],
    filled: &mut [u8],
) -> Option<usize>
    requires { (length shapes.now ≡ max_definitions) × (d < max_definitions) × (length work.old ≡ work_bytes) × (length filled.old ≡ work_bytes) }
    ensures { TemplateMade file.now refs.now store.now store.now.declared n d shapes.now work.new result }
{
    let mut chain = Chain::room();
    let mut text = [0u8; ChainRoom::TEXT];
    let mut along = [0u32; ChainRoom::SHAPES];
    make_template(
        file, refs, store, n, shapes, d, &mut chain, &mut text, &mut along, filled, work,
    )
}
