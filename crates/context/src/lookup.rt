// Lookups in the context of a module, and the causes of refusal that are facts of contexts.
ghost use Rattle.std.specs.Prelude.{◌≡◌, Bool, ◌+◌, ◌-◌, ◌≤◌, ◌<◌};
ghost use Rattle.limits.specs.Limits.{max_arity, max_definitions, max_modules};
ghost use Rattle.theory.specs.Lists.{numbers_from};
ghost use Rattle.context.specs.Parts.{part, place_of};
ghost use Rattle.context.specs.Entries.{context_codes};
ghost use Rattle.context.specs.Lookup.{arity_at, as_code, code_named, code_under, operator_at, operator_in, brought_at, brought_in, is_declared, is_instance, declares_name, declared_named, instance_among, defines_name_in, definition_among, repeated_in};

use crate::lists::{find_code, find_under, find_where, place_of};
use crate::{Brought, Kinds, Operator};
use limits::Limits;
use store::Store;

// The code of a name in the context of module m.
pub fn find_entry(store: &Store, m: usize, name: u16) -> Option<u16>
    requires { m ≤ max_modules }
    ensures { result ≡ as_code (code_named store.now.names name (context_codes store.now.contexts store.now.heads m)) }
{
    let from = m * Limits::CONTEXT;
    let count = store.head_at(Limits::PLACES + m) as usize;
    find_code(store, from, from + count, name)
}

// The parameter count of definition g; none has more than the limit.
pub fn params_at(store: &Store, g: usize) -> usize
    requires { g < max_definitions }
    ensures { (result ≡ arity_at store.now.facts g) × (result ≤ max_arity) }
{
    let k = store.kind_at(g) as usize;
    if Limits::ARITY < k { 0 } else { k }
}

// What a code is as an operator.
pub fn operator_at(store: &Store, o: u16) -> Option<Operator>
    ensures { result ≡ operator_at store.now.facts o }
{
    let c = o as usize;
    if c < Limits::DEFINITIONS {
        return Some(Operator::Defined(o));
    }
    let kind = store.kind_at(c);
    if kind < Kinds::VARIABLE {
        return Some(Operator::Constant(o, kind));
    }
    if kind == Kinds::VARIABLE {
        return Some(Operator::Variable(o));
    }
    None
}

// What a code is as an instance.
pub fn brought_at(store: &Store, o: u16) -> Option<Brought>
    ensures { result ≡ brought_at store.now.facts o }
{
    let c = o as usize;
    if c < Limits::DEFINITIONS {
        return None;
    }
    if store.kind_at(c) < Kinds::INSTANCE {
        return None;
    }
    Some(Brought {
        first: store.first_at(c),
        count: store.count_at(c),
    })
}

// What a name is as an operator in the context of module m.
pub fn find_operator(store: &Store, m: usize, name: u16) -> Option<Operator>
    requires { m ≤ max_modules }
    ensures { result ≡ operator_in store.now.facts (as_code (code_named store.now.names name (context_codes store.now.contexts store.now.heads m))) }
{
    operator_at(store, find_entry(store, m, name)?)
}

// What a name is as an instance in the context of module m.
pub fn find_instance(store: &Store, m: usize, name: u16) -> Option<Brought>
    requires { m ≤ max_modules }
    ensures { result ≡ brought_in store.now.facts (as_code (code_named store.now.names name (context_codes store.now.contexts store.now.heads m))) }
{
    brought_at(store, find_entry(store, m, name)?)
}

// I!F: the definition of a name, under the instance, among those that the instance brought.
pub fn definition_of_instance(store: &Store, b: Brought, instance: u16, name: u16) -> Option<u16>
    requires { b.first + b.count ≤ max_definitions }
    ensures { result ≡ as_code (code_under store.now.names store.now.facts «instance» name (numbers_from b.first b.count)) }
{
    find_under(store, b.first, b.first + b.count, instance, name)
}

// The number of the ended module of that name, or modules if there is none.
pub fn find_module(store: &Store, modules: usize, name: u16) -> usize
    ensures { result ≡ place_of name (part store.now.heads 0 modules) }
{
    place_of(store, 0, modules, name)
}

// Whether a code is a declaration's.
pub fn is_declared(store: &Store, o: u16) -> bool
    ensures { result ≡ is_declared store.now.facts o }
{
    let c = o as usize;
    if c < Limits::DEFINITIONS {
        return false;
    }
    store.kind_at(c) <= Kinds::VARIABLE
}

// Whether a code is an instance's.
pub fn is_instance(store: &Store, o: u16) -> bool
    ensures { result ≡ is_instance store.now.facts o }
{
    let c = o as usize;
    if c < Limits::DEFINITIONS {
        return false;
    }
    Kinds::INSTANCE <= store.kind_at(c)
}

// Whether a code is a declaration of the name given.
pub fn declares_name(store: &Store, o: u16, name: u16) -> bool
    ensures { result ≡ declares_name store.now.names store.now.facts name o }
{
    if is_declared(store, o) {
        return name == store.name_at(o as usize);
    }
    false
}

// The first declaration from place from to place end of the name given.
pub fn find_declaration(store: &Store, from: usize, end: usize, name: u16) -> Option<u16>
    ensures { result ≡ as_code (declared_named store.now.names store.now.facts name (part store.now.contexts from (end - from))) }
{
    find_where(store, from, end, |o| declares_name(store, o, name))
}

// What a name is declared as in module m: never a definition.
pub fn find_declared(store: &Store, m: usize, name: u16) -> Option<Operator>
    requires { m ≤ max_modules }
    ensures { result ≡ operator_in store.now.facts (as_code (declared_named store.now.names store.now.facts name (context_codes store.now.contexts store.now.heads m))) }
{
    let from = m * Limits::CONTEXT;
    let count = store.head_at(Limits::PLACES + m) as usize;
    operator_at(store, find_declaration(store, from, from + count, name)?)
}

// Whether a code from place from to place end is an instance's.
pub fn instance_among(store: &Store, from: usize, end: usize) -> bool
    ensures { result ≡ instance_among store.now.facts (part store.now.contexts from (end - from)) }
{
    find_where(store, from, end, |o| is_instance(store, o)).is_some()
}

// Cause 16: module m has a named instance.
pub fn has_named_instance(store: &Store, m: usize) -> bool
    requires { m ≤ max_modules }
    ensures { result ≡ instance_among store.now.facts (context_codes store.now.contexts store.now.heads m) }
{
    let from = m * Limits::CONTEXT;
    let count = store.head_at(Limits::PLACES + m) as usize;
    instance_among(store, from, from + count)
}

// Whether a code is a definition whose name is in the context of module m.
pub fn defines_name_in(store: &Store, m: usize, o: u16) -> bool
    requires { m ≤ max_modules }
    ensures { result ≡ defines_name_in store.now.names (context_codes store.now.contexts store.now.heads m) o }
{
    let g = o as usize;
    if Limits::DEFINITIONS <= g {
        return false;
    }
    find_entry(store, m, store.name_at(g)).is_some()
}

// Whether a code from place from to place end is a definition whose name is in the context of module m.
pub fn definition_among(store: &Store, m: usize, from: usize, end: usize) -> bool
    requires { m ≤ max_modules }
    ensures { result ≡ definition_among store.now.names (context_codes store.now.contexts store.now.heads m) (part store.now.contexts from (end - from)) }
{
    find_where(store, from, end, |o| defines_name_in(store, m, o)).is_some()
}

// Cause 8 at an unnamed instance of module q: a name defined there is in the context of module m.
pub fn has_defined_name(store: &Store, m: usize, q: usize) -> bool
    requires { (m ≤ max_modules) × (q ≤ max_modules) }
    ensures { result ≡ definition_among store.now.names (context_codes store.now.contexts store.now.heads m) (context_codes store.now.contexts store.now.heads q) }
{
    let from = q * Limits::CONTEXT;
    let count = store.head_at(Limits::PLACES + q) as usize;
    definition_among(store, m, from, from + count)
}

// Whether two of the codes from place from to place end have one name.
pub fn repeated(store: &Store, from: usize, end: usize) -> bool
    ensures { result ≡ repeated_in store.now.names (part store.now.contexts from (end - from)) }
{
    for i in from..end {
        let name = store.name_at(store.context_at(i) as usize);
        if find_code(store, i + 1, end, name).is_some() {
            return true;
        }
    }
    false
}

// Cause 8 at EXTENDS: two names of the context of module m are one.
pub fn has_repeated_name(store: &Store, m: usize) -> bool
    requires { m ≤ max_modules }
    ensures { result ≡ repeated_in store.now.names (context_codes store.now.contexts store.now.heads m) }
{
    let from = m * Limits::CONTEXT;
    let count = store.head_at(Limits::PLACES + m) as usize;
    repeated(store, from, from + count)
}
