// The payload of a field, by its tag: the payload is a slice p of the file that begins at position `base`.
ghost use Rattle.std.specs.Prelude.{◌≡◌, ◌+◌, ◌≤◌, ◌<◌, ◌^◌, ◌/◌, length};
ghost use Rattle.fields.specs.Payload.{parts_of, module_part, variable_part, extends_part, constant_part, definition_part, instance_part, instance_rest, end_part, sole_name, formula_part, all_named, lawful_head};

use super::Parts;
use super::substitutions::substitutions_fit;

// "The tag is one of nine."
pub fn parts_of(tag: u8, p: &[u8], base: usize) -> Parts
    requires { base + length p.now < 2 ^ 64 }
    ensures { result ≡ parts_of tag p.now base }
{
    match tag {
        1 => module_parts(p),
        2 => extends_parts(p, base),
        3 => constant_parts(p),
        4 => variable_parts(p),
        5 => definition_parts(p, base),
        6 => instance_parts(p, base),
        7 => end_parts(p),
        8 => formula_parts(p, Parts::Assume(base, p.len())),
        9 => formula_parts(p, Parts::Theorem(base, p.len())),
        _ => Parts::Cut,
    }
}

// The name that fills a payload.
fn sole_name(p: &[u8]) -> Option<u16>
    ensures { result ≡ sole_name p.now }
{
    if p.len() == 2 {
        let n = tokens::number_at(p, 0);
        (n != 0).then_some(n)
    } else {
        None
    }
}

fn module_parts(p: &[u8]) -> Parts
    ensures { result ≡ module_part p.now }
{
    match sole_name(p) {
        Some(n) => Parts::Module(n),
        None => Parts::Cut,
    }
}

fn variable_parts(p: &[u8]) -> Parts
    ensures { result ≡ variable_part p.now }
{
    match sole_name(p) {
        Some(n) => Parts::Variable(n),
        None => Parts::Cut,
    }
}

fn constant_parts(p: &[u8]) -> Parts
    ensures { result ≡ constant_part p.now }
{
    if p.len() == 3 {
        let n = tokens::number_at(p, 0);
        if n == 0 {
            Parts::Cut
        } else {
            Parts::Constant(n, p[2])
        }
    } else {
        Parts::Cut
    }
}

// Whether the first k two-byte numbers are names.
fn all_named(p: &[u8], k: usize) -> bool
    requires { k ≤ length p.now / 2 }
    ensures { result ≡ all_named k p.now 0 }
{
    for i in 0..k {
        if tokens::number_at(p, 2 * i) == 0 {
            return false;
        }
    }
    true
}

fn extends_parts(p: &[u8], base: usize) -> Parts
    ensures { result ≡ extends_part p.now base }
{
    if p.len() == 0 {
        return Parts::Cut;
    }
    if p.len() % 2 == 0 {
        let k = p.len() / 2;
        if all_named(p, k) {
            Parts::Extends(base, k)
        } else {
            Parts::Cut
        }
    } else {
        Parts::Cut
    }
}

fn definition_parts(p: &[u8], base: usize) -> Parts
    requires { base + length p.now < 2 ^ 64 }
    ensures { result ≡ definition_part p.now base }
{
    if p.len() < 3 {
        return Parts::Cut;
    }
    let n = tokens::number_at(p, 0);
    if n == 0 {
        return Parts::Cut;
    }
    if tokens::whole(&p[3..]) {
        Parts::Definition(n, p[2], base + 3, p.len() - 3)
    } else {
        Parts::Cut
    }
}

// "parameter count (byte, 0 if unnamed)"
fn lawful_head(name: u16, params: u8) -> bool
    ensures { result ≡ lawful_head name params }
{
    if name == 0 { params == 0 } else { true }
}

fn instance_parts(p: &[u8], base: usize) -> Parts
    requires { base + length p.now < 2 ^ 64 }
    ensures { result ≡ instance_part p.now base }
{
    if p.len() < 6 {
        return Parts::Cut;
    }
    let n = tokens::number_at(p, 0);
    let m = tokens::number_at(p, 3);
    if m == 0 {
        return Parts::Cut;
    }
    instance_rest(p, base, n, m)
}

// An instance whose names are read.
fn instance_rest(p: &[u8], base: usize, n: u16, m: u16) -> Parts
    requires { (6 ≤ length p.now) × (base + length p.now < 2 ^ 64) }
    ensures { result ≡ instance_rest p.now base n m }
{
    if lawful_head(n, p[2]) {
        if substitutions_fit(p, 6, p[5]) {
            Parts::Instance(n, p[2], m, p[5], base + 6)
        } else {
            Parts::Cut
        }
    } else {
        Parts::Cut
    }
}

fn end_parts(p: &[u8]) -> Parts
    ensures { result ≡ end_part p.now }
{
    if p.len() == 0 {
        Parts::EndModule
    } else {
        Parts::Cut
    }
}

// The parts, if an expression fills the payload.
fn formula_parts(p: &[u8], parts: Parts) -> Parts
    ensures { result ≡ formula_part p.now parts }
{
    if tokens::whole(p) { parts } else { Parts::Cut }
}
