// What a token of a query's expression says where it stands: whether it is unknown or miscounted, and its level; nothing where it passes a limit.
ghost use Rattle.std.specs.Prelude.{◌≡◌, false, ◌||◌, ◌-◌, ◌^◌, ◌<◌};
ghost use Rattle.context.specs.Parts.{part};
ghost use Rattle.resolve.specs.Walk.{miscounted_at, unknown_at, word_count};
ghost use Rattle.tables.specs.Serves.{Serves};
ghost use Rattle.asking.specs.Walk.{Beside, CodeAt, NamedBy, Over, ParameterAt, Steps, Told};

use levels::names::form_at;
use levels::steps::{bound_step, built_in_step, head_step, literal_step, parameter_step};
use limits::Limits;
use resolve::steps::{both, number_of, with_args};
use resolve::{Ask, Look, Looked};
use rows::RowColumn;
use skimming::{ContextAt, bound_inside};
use store::{Lent, Store};
use tables::names::look;
use tables::token::{arguments_in, token_in};
use tokens::Token;

// The variables bound around a token: their levels, 0 or 1 each, a bit for each, the nearest lowest; and how many they are.
#[derive(Clone, Copy)]
pub struct Scope {
    pub bits: u64,
    pub bound: usize,
}

// What is known where a token stands: the variables bound around it, the label of its place, the form so far, and what its names come to so far.
#[derive(Clone, Copy)]
pub struct Reached {
    pub scope: Scope,
    pub label: u8,
    pub form: u64,
    pub looked: Looked,
}

// Of a token that keeps the limits: how many arguments follow and the labels that it gives them, the variables bound in the last of them, the
// form with the token's own level added, and what is known after it.
#[derive(Clone, Copy)]
pub struct Step {
    pub count: u8,
    pub inner: Scope,
    pub labels: u64,
    pub form: u64,
    pub looked: Looked,
}

// What is said of the level, and beside it what is said of the names.
fn beside(t: levels::steps::Step, bound: usize, looked: Looked) -> Step
    ensures { Beside t bound looked result }
{
    Step {
        count: t.count,
        inner: Scope {
            bits: t.inner,
            bound,
        },
        labels: t.labels,
        form: t.form,
        looked,
    }
}

// What is known after a token, from what is known before it.
fn known(t: Token, l: Option<Look>, params: usize, bound: usize, a: Looked, next: usize) -> Looked
    ensures { (result.next ≡ next) × (result.unknown ≡ unknown_at params bound t l || a.unknown) × (result.miscounted ≡ miscounted_at t l || a.miscounted) }
{
    let ask = Ask {
        module: 0,
        params,
        bound,
    };
    let b = Looked {
        next,
        unknown: a.unknown,
        miscounted: a.miscounted,
    };
    with_args(t, l, ask, b)
}

// A name that means what l says.
fn name_step(
    words: &[u64; Lent::WORDS],
    l: Option<Look>,
    count: u8,
    bits: u64,
    label: u8,
    form: u64,
    next: usize,
) -> levels::steps::Step
    requires { label < 8 }
    ensures { NamedBy words.now l count bits label form next result }
{
    let w = form_at(words, number_of(l) as usize);
    head_step(w, 0, count, bits, label, form, next)
}

// A token that means what l says, if it is a name.
fn token_step(
    words: &[u64; Lent::WORDS],
    column: &RowColumn,
    t: Token,
    l: Option<Look>,
    bits: u64,
    label: u8,
    form: u64,
    next: usize,
) -> Option<levels::steps::Step>
    requires { (label < 8) × (bits < 2 ^ 63) }
    ensures { Told words.now l t bits label form next result }
{
    match t {
        Token::Parameter(i) => Some(parameter_step(0, i, bits, label, form, next)),
        Token::Bound(j) => Some(bound_step(0, j, bits, label, form, next)),
        Token::Name(_, k) => Some(name_step(words, l, k, bits, label, form, next)),
        Token::InstanceOperator(_, _, k) => Some(name_step(words, l, k, bits, label, form, next)),
        Token::BuiltIn(code) => built_in_step(column, code, bits, label, form, next),
        Token::Literal(n) => Some(literal_step(0, n, bits, label, form, next)),
    }
}

// A token that keeps the limits.
fn over(
    column: &RowColumn,
    tables: &[u8],
    store: &Store,
    words: &[u64; Lent::WORDS],
    p: ContextAt,
    x: Reached,
    t: Token,
    next: usize,
) -> Option<Step>
    requires { Serves store.now tables.now p.from p.end × (x.scope.bits < 2 ^ 63) × (x.scope.bound < word_count) × (x.label < 8) }
    ensures { Over store.now.names store.now.facts (part store.now.contexts p.from (p.end - p.from)) words.now p.params t x.scope x.label x.form x.looked next result }
{
    let e = x.scope;
    let l = look(store, tables, p.from, p.end, t);
    let y = token_step(words, column, t, l, e.bits, x.label, x.form, next)?;
    let bound = bound_inside(column, t, e.bound);
    let b = known(t, l, p.params, e.bound, x.looked, next);
    Some(beside(y, bound, b))
}

// The token at the position that is reached, of whatever kind.
fn any_step(
    s: &[u8],
    column: &RowColumn,
    tables: &[u8],
    store: &Store,
    words: &[u64; Lent::WORDS],
    p: ContextAt,
    x: Reached,
) -> Option<Step>
    requires { Serves store.now tables.now p.from p.end × (x.scope.bits < 2 ^ 63) × (x.scope.bound < word_count) × (x.label < 8) }
    ensures { Steps store.now.names store.now.facts (part store.now.contexts p.from (p.end - p.from)) words.now p.params s.now x.scope x.label x.form x.looked result }
{
    let at = x.looked.next;
    let t = token_in(s, column, at)?;
    if (Limits::ARITY as u8) < arguments_in(column, t) {
        return None;
    }
    let next = at + tokens::width(t);
    over(column, tables, store, words, p, x, t, next)
}

// A parameter.
fn parameter_at(
    params: usize,
    i: u8,
    e: Scope,
    label: u8,
    form: u64,
    a: Looked,
    next: usize,
) -> Step
    requires { label < 8 }
    ensures { ParameterAt params i e label form a next result }
{
    let b = Looked {
        next,
        unknown: params <= (i as usize),
        miscounted: false,
    };
    let x = parameter_step(0, i, e.bits, label, form, next);
    beside(x, e.bound, both(a, b))
}

// A built-in, if there is one of that code.
fn code_at(
    column: &RowColumn,
    code: u8,
    e: Scope,
    label: u8,
    form: u64,
    a: Looked,
    next: usize,
) -> Option<Step>
    requires { (e.bits < 2 ^ 63) × (e.bound < word_count) × (label < 8) }
    ensures { CodeAt code e label form a next result }
{
    let x = built_in_step(column, code, e.bits, label, form, next)?;
    let b = Looked {
        next,
        unknown: a.unknown,
        miscounted: a.miscounted,
    };
    let bound = bound_inside(column, Token::BuiltIn(code), e.bound);
    Some(beside(x, bound, b))
}

// The token at the position that is reached, quicker at a parameter and at a built-in.
pub fn next_step(
    s: &[u8],
    column: &RowColumn,
    tables: &[u8],
    store: &Store,
    words: &[u64; Lent::WORDS],
    p: ContextAt,
    x: Reached,
) -> Option<Step>
    requires { Serves store.now tables.now p.from p.end × (x.scope.bits < 2 ^ 63) × (x.scope.bound < word_count) × (x.label < 8) }
    ensures { Steps store.now.names store.now.facts (part store.now.contexts p.from (p.end - p.from)) words.now p.params s.now x.scope x.label x.form x.looked result }
{
    let at = x.looked.next;
    if at < s.len() {
        if 1 < s.len() - at {
            let byte = s[at + 1];
            let tag = s[at];
            if tag == 0 {
                let e = x.scope;
                let y = parameter_at(p.params, byte, e, x.label, x.form, x.looked, at + 2);
                return Some(y);
            }
            if tag == 4 {
                return code_at(column, byte, x.scope, x.label, x.form, x.looked, at + 2);
            }
        }
    }
    any_step(s, column, tables, store, words, p, x)
}
