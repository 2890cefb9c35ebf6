// One token.
ghost use Rattle.std.specs.Prelude.{◌≡◌, ◌≤◌};
ghost use Rattle.limits.specs.Limits.{max_modules};
ghost use Rattle.context.specs.Entries.{context_codes};
ghost use Rattle.resolve.specs.Look.{declared_ref, defined_ref, operator_ref, code_ref, brought_ref, look_in};

use crate::Look;
use context::lookup::{definition_of_instance, find_instance, find_operator};
use context::{Brought, Operator};
use limits::Limits;
use store::Store;
use tokens::Token;

// A declaration that takes k arguments, by its code.
fn of_declaration(store: &Store, o: u16, k: u16) -> Option<Look>
    ensures { result ≡ declared_ref store.now.facts o k }
{
    let d = store.first_at(o as usize);
    if (d as usize) < Limits::DECLARATIONS {
        Some(Look {
            number: (Limits::DEFINITIONS as u16) + d,
            arity: k,
        })
    } else {
        None
    }
}

fn of_definition(store: &Store, g: u16) -> Look
    ensures { result ≡ defined_ref store.now.facts g }
{
    Look {
        number: g,
        arity: store.kind_at(g as usize),
    }
}

pub fn of_operator(store: &Store, x: Option<Operator>) -> Option<Look>
    ensures { result ≡ operator_ref store.now.facts x }
{
    match x? {
        Operator::Constant(o, k) => of_declaration(store, o, k),
        Operator::Variable(o) => of_declaration(store, o, 0),
        Operator::Defined(g) => Some(of_definition(store, g)),
    }
}

pub fn of_code(store: &Store, x: Option<u16>) -> Option<Look>
    ensures { result ≡ code_ref store.now.facts x }
{
    Some(of_definition(store, x?))
}

// I!F, by what I brought.
fn of_brought(store: &Store, x: Option<Brought>, inst: u16, name: u16) -> Option<Look>
    ensures { result ≡ brought_ref store.now.names store.now.facts inst name x }
{
    let b = x?;
    if (b.first as usize) + (b.count as usize) <= Limits::DEFINITIONS {
        of_code(store, definition_of_instance(store, b, inst, name))
    } else {
        None
    }
}

// What a name or instance operator means in the context of module m.
pub fn look_up(store: &Store, m: usize, t: Token) -> Option<Look>
    requires { m ≤ max_modules }
    ensures { result ≡ look_in store.now.names store.now.facts (context_codes store.now.contexts store.now.heads m) t }
{
    match t {
        Token::Parameter(_) => None,
        Token::Bound(_) => None,
        Token::Name(n, _) => of_operator(store, find_operator(store, m, n)),
        Token::InstanceOperator(i, f, _) => of_brought(store, find_instance(store, m, i), i, f),
        Token::BuiltIn(_) => None,
        Token::Literal(_) => None,
    }
}
