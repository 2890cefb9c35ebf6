// What a token says where it stands.
ghost use Rattle.std.specs.Prelude.{◌≡◌, ◌/◌, ◌%◌, ◌^◌, ◌≤◌, ◌<◌};
ghost use Rattle.limits.specs.Limits.{max_arity};
ghost use Rattle.tokens.specs.declared.Token.TheVariants.{Bound, Literal, Parameter};
ghost use Rattle.levels.specs.Walk.{Built, Ended, Headed, Plain, inner_bits};

use rows::{RowColumn, Rows};

// A token: how many arguments follow and the labels that it gives them, the levels of the variables that are bound in the last of them, the form
// with its own level added, and the position after it.
#[derive(Clone, Copy)]
pub struct Step {
    pub count: u8,
    pub inner: u64,
    pub labels: u64,
    pub form: u64,
    pub next: usize,
}

fn bit_of(bits: u64, j: u16) -> u8
    ensures { (result ≡ bits / 2 ^ j % 2) × (result ≤ 1) }
{
    if j < 64 {
        ((bits >> (j as u64)) % 2) as u8
    } else {
        0
    }
}

// A token without arguments, once its level is added.
fn leaf(bits: u64, form: u64, next: usize) -> Step
    ensures { Ended bits form next result }
{
    Step {
        count: 0,
        inner: bits,
        labels: 0,
        form,
        next,
    }
}

// A parameter of the text comes after those of the instances around it.
pub fn parameter_step(outer: usize, i: u8, bits: u64, l: u8, form: u64, next: usize) -> Step
    requires { (outer ≤ max_arity) × (l < 8) }
    ensures { Plain outer (Parameter i) bits l form next result }
{
    let more = forms::add_param(form, l, outer + (i as usize));
    leaf(bits, more, next)
}

pub fn bound_step(outer: usize, j: u16, bits: u64, l: u8, form: u64, next: usize) -> Step
    requires { l < 8 }
    ensures { Plain outer (Bound j) bits l form next result }
{
    let x = bit_of(bits, j);
    let more = forms::add_level(form, l, x);
    leaf(bits, more, next)
}

pub fn literal_step(outer: usize, n: u16, bits: u64, l: u8, form: u64, next: usize) -> Step
    ensures { Plain outer (Literal n) bits l form next result }
{
    leaf(bits, form, next)
}

// A token of form w: its base and its labels of the instances' parameters are added, its other labels are those of the arguments.
pub fn head_step(w: u64, outer: usize, count: u8, inner: u64, l: u8, form: u64, next: usize) -> Step
    requires { (outer ≤ max_arity) × (l < 8) }
    ensures { Headed w outer count inner l form next result }
{
    let more = forms::add_level(form, l, (w % 8) as u8);
    let led = forms::add_params(more, l, w / 8, 0, outer);
    Step {
        count,
        inner,
        labels: led.labels,
        form: led.form,
        next,
    }
}

// The levels of the bound variables inside a code that binds none, or one at 0 or 1.
fn bind(kind: u16, bits: u64) -> u64
    requires { (bits < 2 ^ 63) × (kind < 3) }
    ensures { result ≡ inner_bits kind bits }
{
    if kind == 0 {
        bits
    } else {
        bits * 2 + ((kind - 1) as u64)
    }
}

// A built-in, where its code exists.
pub fn built_in_step(
    column: &RowColumn,
    code: u8,
    bits: u64,
    l: u8,
    form: u64,
    next: usize,
) -> Option<Step>
    requires { (l < 8) × (bits < 2 ^ 63) }
    ensures { Built code bits l form next result }
{
    let h = column.row(code);
    let kind = h / Rows::KINDS;
    if kind < Rows::NO_KIND {
        let inner = bind(kind, bits);
        let count = (h / Rows::FORMS % Rows::COUNTS) as u8;
        Some(head_step((h % Rows::FORMS) as u64, 0, count, inner, l, form, next))
    } else {
        None
    }
}
