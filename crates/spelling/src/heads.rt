// A token's own symbol, and what is to be written of its arguments.
ghost use Rattle.std.specs.Prelude.{◌≡◌, false, ◌+◌, ◌-◌, ◌*◌, ◌/◌, ◌<◌, ◌^◌, ◌≤◌, get_or};
ghost use Rattle.limits.specs.Limits.{max_arity, max_definitions};
ghost use Rattle.symbols.specs.Symbol.{bytes_of};
ghost use Rattle.symbols.specs.Spell.{call_head, mask_of, shape_limit};
ghost use Rattle.texts.specs.Text.{no_declaration};
ghost use Rattle.spelling.specs.Put.{Put};
ghost use Rattle.spelling.specs.Parts.{is_written};
ghost use Rattle.spelling.specs.Written.{shape_in, declarations_in, place_of, BuiltInPut, Called, Led, Lead, Named, Headed};

use crate::put::{put_call, put_name, put_number, put_pair, put_parameter};
use crate::{ChainDepth, Rest};
use context::lists::number_at;
use limits::Limits;
use store::Store;
use symbols::Shape;
use tokens::Token;

// The shape of what a number calls.
fn valid_shape_at(shapes: &[u32], n: usize) -> u32
    ensures { (result ≡ shape_in shapes.now n) × (result < shape_limit) }
{
    let h = symbols::shape_at(shapes, n);
    if h < Shape::LIMIT { h } else { 0 }
}

fn mask_of(h: u32) -> u64
    requires { h < shape_limit }
    ensures { result ≡ mask_of h }
{
    if h < Shape::ALONE {
        h as u64
    } else {
        1 << ((h - Shape::ALONE) as u64)
    }
}

// A call of a definition that is one of its parameters is passed over.
fn call_head(out: &mut [u8], q: usize, h: u32, n: usize) -> usize
    requires { n < 2 ^ 32 }
    ensures { Put out.old q (bytes_of (call_head h n)) out.new result }
{
    if h < Shape::ALONE {
        put_call(out, q, n)
    } else {
        q
    }
}

// Whether the first of the arguments left is written.
pub fn is_written(rest: Rest) -> bool
    ensures { result ≡ is_written rest.all rest.mask }
{
    if rest.all {
        return true;
    }
    rest.mask % 2 == 1
}

// The rest after the first argument, from a position on.
pub fn passed(rest: Rest, to: usize) -> Rest
    ensures { (result.to ≡ to) × (result.all ≡ rest.all) × (result.mask ≡ rest.mask / 2) × (result.binds ≡ rest.binds) }
{
    let all = rest.all;
    let binds = rest.binds;
    Rest {
        to,
        all,
        mask: rest.mask / 2,
        binds,
    }
}

// Parameter i as an argument.
fn lead(out: &mut [u8], i: usize, rest: Rest) -> usize
    ensures { Lead rest.all rest.mask i out.old rest.to out.new result }
{
    if is_written(rest) {
        put_parameter(out, rest.to, i)
    } else {
        rest.to
    }
}

// The parameters from i on as arguments, p of them.
pub fn leads(out: &mut [u8], i: usize, p: usize, rest: Rest) -> Rest
    requires { (i + p < 2 ^ 32) × (rest.binds ≡ false) }
    ensures { Led i p rest.all rest.mask out.old rest.to out.new result.all result.mask result.binds result.to }
{
    if p == 0 {
        return rest;
    }
    let to = lead(out, i, rest);
    leads(out, i + 1, p - 1, passed(rest, to))
}

// A call of n, the instances' parameters first among its arguments.
pub fn call(shapes: &[u32], out: &mut [u8], n: usize, outer: usize, q: usize) -> Rest
    requires { (n < 2 ^ 32) × (outer ≤ max_arity) }
    ensures { Called (shape_in shapes.now) outer n out.old q out.new result.all result.mask result.binds result.to }
{
    let h = valid_shape_at(shapes, n);
    let to = call_head(out, q, h, n);
    let mask = mask_of(h);
    let rest = Rest {
        to,
        all: false,
        mask,
        binds: false,
    };
    leads(out, 0, outer, rest)
}

// The name of the declaration that r stands for.
fn declared_name(store: &Store, r: usize) -> u16
    requires { (max_definitions ≤ r) × (r < 2 ^ 16) }
    ensures { result ≡ (get_or (declarations_in store.now.names store.now.declared) (r - max_definitions) no_declaration).1 }
{
    let d = r - Limits::DEFINITIONS;
    let o = store.declared_at(d) as usize;
    store.name_at(o)
}

// The first symbols of a name that was resolved to r, over k arguments.
pub fn named(
    store: &Store,
    numbers: &[u16],
    shapes: &[u32],
    out: &mut [u8],
    r: usize,
    k: u8,
    site: ChainDepth,
    q: usize,
) -> Rest
    requires { (site.level < 16) × (site.outer ≤ max_arity) × (r < 2 ^ 16) }
    ensures { Named (shape_in shapes.now) (declarations_in store.now.names store.now.declared) (place_of site.level site.outer numbers.now) r k out.old q out.new result.all result.mask result.binds result.to }
{
    if r < Limits::DEFINITIONS {
        let n = number_at(numbers, r) as usize;
        return call(shapes, out, n, site.outer, q);
    }
    if site.level == 0 {
        let x = declared_name(store, r);
        let to = put_name(out, q, x, k);
        return Rest {
            to,
            all: true,
            mask: 0,
            binds: false,
        };
    }
    call(
        shapes,
        out,
        r + Limits::DECLARATIONS * site.level,
        site.outer,
        q,
    )
}

// Nothing is left.
fn ended(to: usize) -> Rest
    ensures { (result.to ≡ to) × (result.all ≡ false) × (result.mask ≡ 0) × (result.binds ≡ false) }
{
    Rest {
        to,
        all: false,
        mask: 0,
        binds: false,
    }
}

// A built-in, all of whose arguments are written.
fn built_in(out: &mut [u8], c: u8, q: usize) -> Rest
    ensures { BuiltInPut c out.old q out.new result.all result.mask result.binds result.to }
{
    let to = put_pair(out, q, 4, c);
    let b = rows::binder(c);
    Rest {
        to,
        all: true,
        mask: 0,
        binds: b != 0,
    }
}

// The first symbols of a token, r being what it was resolved to if it is a name.
pub fn head(
    store: &Store,
    numbers: &[u16],
    shapes: &[u32],
    out: &mut [u8],
    t: Token,
    r: u16,
    site: ChainDepth,
    q: usize,
) -> Rest
    requires { (site.level < 16) × (site.outer ≤ max_arity) }
    ensures { Headed (shape_in shapes.now) (declarations_in store.now.names store.now.declared) (place_of site.level site.outer numbers.now) t r out.old q out.new result.all result.mask result.binds result.to }
{
    match t {
        Token::Parameter(i) => ended(put_parameter(out, q, site.outer + (i as usize))),
        Token::Bound(j) => ended(put_number(out, q, 1, j)),
        Token::Name(_, k) => named(store, numbers, shapes, out, r as usize, k, site, q),
        Token::InstanceOperator(_, _, k) => named(
            store, numbers, shapes, out, r as usize, k, site, q,
        ),
        Token::BuiltIn(c) => built_in(out, c, q),
        Token::Literal(v) => ended(put_number(out, q, 5, v)),
    }
}
