// The shapes of the stand-ins along a chain, and of all definitions, each worked out from the string of its text.
ghost use Rattle.std.specs.Prelude.{◌≡◌, ◌≤◌, ◌<◌, length};
ghost use Rattle.limits.specs.Limits.{max_definitions};
ghost use Rattle.unfolding.specs.CalleeTerm.{max_links};
ghost use Rattle.templates.specs.Alike.{FirstsNoted};
ghost use Rattle.templates.specs.Shaped.{Begun, DefinitionStored, DefinitionsShaped, Kept, NextShape, OwnShape, Prepared, StandInShape, StandInsStored, first_stand_in, shape_count, text_bytes};

use crate::ChainRoom;
use crate::alike::note_firsts;
use callees::chain::Chain;
use callees::strings::{own_string, standin_string};
use limits::Limits;
use store::{Lent, Store};
use strings::shape_of;
use symbols::{Shape, shape_at};
use tokens::byte_at;

fn kept_shape(h: u32) -> u32
    ensures { Kept h result }
{
    if h < Shape::LIMIT { h } else { 0 }
}

// The shapes of the definitions, and none yet of any stand-in.
fn begin_shapes(shapes: &[u32], along: &mut [u32])
    requires { (length shapes.now ≡ max_definitions) × (length along.old ≡ shape_count) }
    ensures { Begun shapes.now along.new }
{
    for i in 0..ChainRoom::SHAPES {
        along[i] = shape_at(shapes, i);
    }
}

// The shape of stand-in m.
fn standin_shape(
    file: &[u8],
    refs: &[u16; Lent::REFS],
    store: &Store,
    chain: &Chain,
    text: &mut [u8],
    along: &[u32],
    m: usize,
) -> u32
    requires { (length text.old ≡ text_bytes) × (first_stand_in ≤ m) × (m < shape_count) }
    ensures { StandInShape file.now refs.now store.now store.now.declared m chain.now.numbers chain.now.currents chain.now.outers along.now result }
{
    let l = (m - Limits::DEFINITIONS) / Limits::DECLARATIONS - 1;
    let e = (m - Limits::DEFINITIONS) % Limits::DECLARATIONS;
    let tlen = standin_string(file, refs, store, chain, along, l, e, text);
    kept_shape(shape_of(text, tlen))
}

// The shape of stand-in m, those before it being there: it is that of an earlier one of the same level whose declaration is like its own.
fn next_shape(
    file: &[u8],
    refs: &[u16; Lent::REFS],
    store: &Store,
    n: usize,
    firsts: &[u8],
    chain: &Chain,
    text: &mut [u8],
    along: &[u32],
    m: usize,
) -> u32
    requires { FirstsNoted store.now.names store.now.facts store.now.declared firsts.now × (length text.old ≡ text_bytes) × (length along.now ≡ shape_count) × (first_stand_in ≤ m) × (m < shape_count) }
    ensures { NextShape file.now refs.now store.now store.now.declared n m chain.now.numbers chain.now.currents chain.now.outers along.now result }
{
    let e = (m - Limits::DEFINITIONS) % Limits::DECLARATIONS;
    if n <= e {
        return 0;
    }
    let f = byte_at(firsts, e) as usize;
    if f < e {
        return shape_at(along, m - e + f);
    }
    standin_shape(file, refs, store, chain, text, along, m)
}

// The shapes of the stand-ins of k levels.
fn shape_levels(
    file: &[u8],
    refs: &[u16; Lent::REFS],
    store: &Store,
    n: usize,
    firsts: &[u8],
    chain: &Chain,
    text: &mut [u8],
    along: &mut [u32],
    k: usize,
)
    requires { FirstsNoted store.now.names store.now.facts store.now.declared firsts.now × (length text.old ≡ text_bytes) × (length along.old ≡ shape_count) × (k ≤ max_links) }
    ensures { StandInsStored file.now refs.now store.now store.now.declared n k chain.now.numbers chain.now.currents chain.now.outers along.old along.new }
{
    let first = Limits::DEFINITIONS + Limits::DECLARATIONS;
    let end = Limits::DEFINITIONS + Limits::DECLARATIONS * (k + 1);
    for m in first..end {
        let h = next_shape(file, refs, store, n, firsts, chain, text, along, m);
        along[m] = h;
    }
}

// The same, the declarations that are alike being worked out; without any level they are not asked for.
fn shape_standins(
    file: &[u8],
    refs: &[u16; Lent::REFS],
    store: &Store,
    n: usize,
    chain: &Chain,
    text: &mut [u8],
    along: &mut [u32],
    k: usize,
)
    requires { (length text.old ≡ text_bytes) × (length along.old ≡ shape_count) × (k ≤ max_links) }
    ensures { StandInsStored file.now refs.now store.now store.now.declared n k chain.now.numbers chain.now.currents chain.now.outers along.old along.new }
{
    if k == 0 {
        return;
    }
    let mut firsts = [0u8; Limits::DECLARATIONS];
    note_firsts(store, &mut firsts);
    shape_levels(file, refs, store, n, &firsts, chain, text, along, k);
}

// The chain of definition d, with the shapes along it; how many links it has.
pub fn prepare(
    file: &[u8],
    refs: &[u16; Lent::REFS],
    store: &Store,
    n: usize,
    shapes: &[u32],
    d: usize,
    chain: &mut Chain,
    text: &mut [u8],
    along: &mut [u32],
) -> usize
    requires { (length text.old ≡ text_bytes) × (length along.old ≡ shape_count) × (length shapes.now ≡ max_definitions) × (d < max_definitions) }
    ensures { Prepared file.now refs.now store.now store.now.declared n d shapes.now result chain.new.numbers chain.new.currents chain.new.outers along.new }
{
    begin_shapes(shapes, along);
    let k = chain.enter(store, d);
    shape_standins(file, refs, store, n, chain, text, along, k);
    k
}

// The shape of the definition whose chain the arrays hold.
fn own_shape(
    file: &[u8],
    refs: &[u16; Lent::REFS],
    store: &Store,
    chain: &Chain,
    text: &mut [u8],
    along: &[u32],
    k: usize,
) -> u32
    requires { (length text.old ≡ text_bytes) × (k ≤ max_links) }
    ensures { OwnShape file.now refs.now store.now store.now.declared k chain.now.numbers chain.now.currents chain.now.outers along.now result }
{
    let tlen = own_string(file, refs, store, chain, along, k, text);
    kept_shape(shape_of(text, tlen))
}

// The shape of definition d, by those of the definitions before it.
fn shape_definition(
    file: &[u8],
    refs: &[u16; Lent::REFS],
    store: &Store,
    n: usize,
    d: usize,
    chain: &mut Chain,
    text: &mut [u8],
    along: &mut [u32],
    shapes: &mut [u32],
)
    requires { (length text.old ≡ text_bytes) × (length along.old ≡ shape_count) × (length shapes.old ≡ max_definitions) × (d < max_definitions) }
    ensures { DefinitionStored file.now refs.now store.now store.now.declared n d shapes.old shapes.new }
{
    let k = prepare(file, refs, store, n, shapes, d, chain, text, along);
    let h = own_shape(file, refs, store, chain, text, along, k);
    shapes[d] = h;
}

// The shapes of the first definitions, so many, in arrays lent for it.
fn shape_all(
    file: &[u8],
    refs: &[u16; Lent::REFS],
    store: &Store,
    n: usize,
    count: usize,
    chain: &mut Chain,
    text: &mut [u8],
    along: &mut [u32],
    shapes: &mut [u32],
)
    requires { (length text.old ≡ text_bytes) × (length along.old ≡ shape_count) × (length shapes.old ≡ max_definitions) × (count ≤ max_definitions) }
    ensures { DefinitionsShaped file.now refs.now store.now store.now.declared n count shapes.new }
{
    shapes.fill(0);
    for d in 0..count {
        shape_definition(file, refs, store, n, d, chain, text, along, shapes);
    }
}

// The shapes of the first definitions, so many.
pub fn shape_definitions(
    file: &[u8],
    refs: &[u16; Lent::REFS],
    store: &Store,
    n: usize,
    count: usize,
    shapes: &mut [u32],
)
    requires { (length shapes.old ≡ max_definitions) × (count ≤ max_definitions) }
    ensures { DefinitionsShaped file.now refs.now store.now store.now.declared n count shapes.new }
{
    let mut chain = Chain::room();
    let mut text = [0u8; ChainRoom::TEXT];
    let mut along = [0u32; ChainRoom::SHAPES];
    shape_all(
        file, refs, store, n, count, &mut chain, &mut text, &mut along, shapes,
    );
}
