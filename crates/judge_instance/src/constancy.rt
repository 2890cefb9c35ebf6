// Whether a module is constant: it declares no variable, and all its definitions have level 0 with parameters at 0.
ghost use Rattle.std.specs.Prelude.{◌≡◌, ◌-◌, ◌≤◌};
ghost use Rattle.limits.specs.Limits.{max_modules};
ghost use Rattle.context.specs.Parts.{part};
ghost use Rattle.context.specs.Entries.{context_codes, order_of};
ghost use Rattle.judge_instance.specs.Constancy.{constant_codes, is_variable_code, uneven_among, uneven_form, variable_among};

use context::Kinds;
use context::lookup::is_declared;
use forms::levels::level_at_zero;
use limits::Limits;
use store::{Lent, Store};

// Whether a code is a variable's.
fn is_variable(store: &Store, o: u16) -> bool
    ensures { result ≡ is_variable_code store.now.facts o }
{
    is_declared(store, o) && store.kind_at(o as usize) == Kinds::VARIABLE
}

// Whether a code from place from to place end is a variable's.
fn variable_among(store: &Store, from: usize, end: usize) -> bool
    ensures { result ≡ variable_among store.now.facts (part store.now.contexts from (end - from)) }
{
    (from..end).any(|i| is_variable(store, store.context_at(i)))
}

// Whether definition g has another level than 0.
fn is_uneven(words: &[u64; Lent::WORDS], g: u16) -> bool
    ensures { result ≡ uneven_form words.now g }
{
    let d = g as usize;
    d < Limits::DEFINITIONS && level_at_zero(words[d]) != 0
}

// Whether a definition from place from to place end of the lists has another level than 0.
fn uneven_among(words: &[u64; Lent::WORDS], store: &Store, from: usize, end: usize) -> bool
    ensures { result ≡ uneven_among words.now (part store.now.orders from (end - from)) }
{
    (from..end).any(|i| is_uneven(words, store.order_at(i)))
}

// Whether module q is constant.
pub fn is_constant(words: &[u64; Lent::WORDS], store: &Store, q: usize) -> bool
    requires { q ≤ max_modules }
    ensures { result ≡ constant_codes words.now store.now.facts (context_codes store.now.contexts store.now.heads q) (order_of store.now.orders store.now.heads q) }
{
    let from = q * Limits::CONTEXT;
    let count = store.head_at(Limits::PLACES + q) as usize;
    let first = q * Limits::DEFINITIONS;
    let size = store.head_at(2 * Limits::PLACES + q) as usize;
    !variable_among(store, from, from + count) && !uneven_among(words, store, first, first + size)
}
