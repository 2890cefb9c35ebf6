// Cause 5: 8 "parameters or arguments (an instance's and an operator's own added together, and likewise those of a written substitute)",
// the limits of each expression, and "256 definitions in the file".
ghost use Rattle.std.specs.Prelude.{◌≡◌, ◌+◌, ◌-◌, ◌≤◌, ◌<◌, ◌^◌, length};
ghost use Rattle.limits.specs.Limits.{max_definitions, max_modules};
ghost use Rattle.context.specs.Parts.{part};
ghost use Rattle.context.specs.Entries.{word_count};
ghost use Rattle.instance_names.specs.Sites.{answered_arity, arity_there, next_start, substitution_over, substitutions_over, definition_over, definitions_over, module_over, over_limits};

use crate::Site;
use context::Operator;
use context::lookup::find_declared;
use limits::Limits;
use store::Store;
use tokens::limit_at;

// The argument count of a declaration.
fn arity_answered(o: Option<Operator>) -> usize
    ensures { (result ≡ answered_arity o) × (result < word_count) }
{
    match o {
        Some(Operator::Constant(_, k)) => k as usize,
        Some(Operator::Variable(_)) => 0,
        Some(Operator::Defined(_)) => 0,
        None => 0,
    }
}

// The argument count of a name as the module instanced declares it; 0 if it does not.
pub fn arity_there(store: &Store, x: Site, name: u16) -> usize
    requires { x.modules ≤ max_modules }
    ensures { (result ≡ arity_there store.now.names store.now.facts store.now.contexts store.now.heads x name) × (result < word_count) }
{
    if x.modules <= x.source {
        return 0;
    }
    arity_answered(find_declared(store, x.source, name))
}

// Where the substitution after the one at a position begins.
pub fn next_start(file: &[u8], at: usize) -> usize
    requires { at ≤ length file.now }
    ensures { result ≡ next_start file.now at }
{
    let start = at + 4;
    let size = tokens::number_at(file, at + 2) as usize;
    start + size
}

// Of the substitution at a position.
fn substitution_over(file: &[u8], store: &Store, x: Site, at: usize) -> bool
    requires { (x.modules ≤ max_modules) × (at < 2 ^ 63) }
    ensures { result ≡ substitution_over file.now store.now.names store.now.facts store.now.contexts store.now.heads x at }
{
    let k = arity_there(store, x, tokens::number_at(file, at));
    Limits::ARITY < (x.params as usize) + k || limit_at(file, at + 4).is_none()
}

// Of all substitutions.
fn substitutions_over(file: &[u8], store: &Store, x: Site) -> bool
    requires { x.modules ≤ max_modules }
    ensures { result ≡ substitutions_over file.now store.now.names store.now.facts store.now.contexts store.now.heads x x.count x.at }
{
    let mut at = x.at;
    for _ in 0..x.count {
        if file.len() < at {
            return false;
        }
        if substitution_over(file, store, x, at) {
            return true;
        }
        at = next_start(file, at);
    }
    false
}

// Of the definition g of the module instanced.
fn definition_over(store: &Store, params: u8, g: u16) -> bool
    ensures { result ≡ definition_over store.now.facts params g }
{
    let k = store.kind_at(g as usize) as usize;
    Limits::ARITY < (params as usize) + k
}

// Of the definitions from place from to place end.
fn definitions_over(store: &Store, from: usize, end: usize, params: u8) -> bool
    ensures { result ≡ definitions_over store.now.facts params (part store.now.orders from (end - from)) }
{
    (from..end).any(|i| definition_over(store, params, store.order_at(i)))
}

// Of the definitions of the module instanced, and of their number.
fn module_over(store: &Store, x: Site, definitions: usize) -> bool
    requires { (x.modules ≤ max_modules) × (definitions ≤ max_definitions) }
    ensures { result ≡ module_over store.now.facts store.now.orders store.now.heads x definitions }
{
    if x.modules <= x.source {
        return false;
    }
    let n = store.head_at(2 * Limits::PLACES + x.source) as usize;
    if Limits::DEFINITIONS < definitions + n {
        return true;
    }
    let from = x.source * Limits::DEFINITIONS;
    definitions_over(store, from, from + n, x.params)
}

// Of the field.
pub fn over_limits(file: &[u8], store: &Store, x: Site, definitions: usize) -> bool
    requires { (x.modules ≤ max_modules) × (definitions ≤ max_definitions) }
    ensures { result ≡ over_limits file.now store.now.names store.now.facts store.now.contexts store.now.orders store.now.heads x definitions }
{
    if Limits::ARITY < (x.params as usize) {
        return true;
    }
    module_over(store, x, definitions) || substitutions_over(file, store, x)
}
