// What the walk does at one token.
ghost use Rattle.std.specs.Prelude.{◌≡◌, false, ◌||◌, ◌≤◌, ◌<◌, set};
ghost use Rattle.limits.specs.Limits.{max_modules};
ghost use Rattle.tokens.specs.Fold.{under_of};
ghost use Rattle.context.specs.Entries.{context_codes};
ghost use Rattle.agree.specs.Folds.{binds_of};
ghost use Rattle.resolve.specs.Walk.{is_name_of, look_of, noted_of, inside_of, number_of, wrong_count, unknown_at, miscounted_at, note_of, word_count};

use crate::lookup::look_up;
use crate::{Ask, Look, Looked};
use store::{Lent, Store};
use tokens::Token;

// Whether a token is a name, alone or after an instance's; where there is none, it is not.
pub fn is_name(t: Option<Token>) -> bool
    ensures { result ≡ is_name_of t }
{
    matches!(
        t,
        Some(Token::Name(_, _) | Token::InstanceOperator(_, _, _))
    )
}

// The number that a name was resolved to.
pub fn number_of(l: Option<Look>) -> u16
    ensures { result ≡ number_of l }
{
    match l {
        Some(look) => look.number,
        None => 0,
    }
}

// Cause 10 at a name with k arguments written.
pub fn wrong_count(k: u16, l: Option<Look>) -> bool
    ensures { result ≡ wrong_count k l }
{
    match l {
        Some(look) => k != look.arity,
        None => false,
    }
}

// Cause 9 at a token, so many parameters and bound variables being known.
fn is_unknown(t: Token, params: usize, bound: usize, l: Option<Look>) -> bool
    ensures { result ≡ unknown_at params bound t l }
{
    match t {
        Token::Parameter(i) => params <= (i as usize),
        Token::Bound(j) => bound <= (j as usize),
        Token::Name(_, _) => l.is_none(),
        Token::InstanceOperator(_, _, _) => l.is_none(),
        Token::BuiltIn(_) => false,
        Token::Literal(_) => false,
    }
}

// Cause 10 at a token.
fn is_miscounted(t: Token, l: Option<Look>) -> bool
    ensures { result ≡ miscounted_at t l }
{
    match t {
        Token::Parameter(_) => false,
        Token::Bound(_) => false,
        Token::Name(_, k) => wrong_count(k as u16, l),
        Token::InstanceOperator(_, _, k) => wrong_count(k as u16, l),
        Token::BuiltIn(_) => false,
        Token::Literal(_) => false,
    }
}

// A number in the table, if it is that long.
fn put(refs: &mut [u16], at: usize, number: u16)
    ensures { refs.new ≡ set refs.old at number }
{
    if refs.len() <= at {
        return;
    }
    refs[at] = number;
}

fn note_token(refs: &mut [u16], at: usize, t: Token, l: Option<Look>)
    ensures { refs.new ≡ note_of at t l refs.old }
{
    if is_name(Some(t)) {
        put(refs, at, number_of(l));
        return;
    }
}

// Whether a token binds a variable in its last argument: 0 if it does not.
fn binds(t: Token) -> u8
    ensures { result ≡ binds_of t }
{
    match t {
        Token::Parameter(_) => 0,
        Token::Bound(_) => 0,
        Token::Name(_, _) => 0,
        Token::InstanceOperator(_, _, _) => 0,
        Token::BuiltIn(c) => rows::binder(c),
        Token::Literal(_) => 0,
    }
}

// How many bound variables are known in a token's last argument; where there is no token, those around it.
pub fn bound_inside(t: Option<Token>, bound: usize) -> usize
    requires { bound < word_count }
    ensures { result ≡ inside_of t bound }
{
    let Some(t) = t else {
        return bound;
    };
    if binds(t) == 0 { bound } else { bound + 1 }
}

// How many are known in the first of the arguments left.
pub fn bound_in(left: u8, outer: usize, last: usize) -> usize
    ensures { result ≡ under_of left outer last }
{
    if left == 1 { last } else { outer }
}

// A token looked up and noted; where there is none, nothing is.
pub fn look_note(
    store: &Store,
    refs: &mut [u16; Lent::REFS],
    at: usize,
    m: usize,
    t: Option<Token>,
) -> Option<Look>
    requires { m ≤ max_modules }
    ensures { (result ≡ look_of store.now.names store.now.facts (context_codes store.now.contexts store.now.heads m) t) × (refs.new ≡ noted_of at t result refs.old) }
{
    let Some(t) = t else {
        return None;
    };
    let l = look_up(store, m, t);
    note_token(refs, at, t, l);
    l
}

// What a token and its arguments come to.
pub fn with_args(t: Token, l: Option<Look>, ask: Ask, a: Looked) -> Looked
    ensures { (result.next ≡ a.next) × (result.unknown ≡ unknown_at ask.params ask.bound t l || a.unknown) × (result.miscounted ≡ miscounted_at t l || a.miscounted) }
{
    Looked {
        next: a.next,
        unknown: is_unknown(t, ask.params, ask.bound, l) || a.unknown,
        miscounted: is_miscounted(t, l) || a.miscounted,
    }
}

// Nothing is known yet.
pub fn nothing(at: usize) -> Looked
    ensures { (result.next ≡ at) × (result.unknown ≡ false) × (result.miscounted ≡ false) }
{
    Looked {
        next: at,
        unknown: false,
        miscounted: false,
    }
}

// An argument, and then the others.
pub fn both(a: Looked, b: Looked) -> Looked
    ensures { (result.next ≡ b.next) × (result.unknown ≡ a.unknown || b.unknown) × (result.miscounted ≡ a.miscounted || b.miscounted) }
{
    Looked {
        next: b.next,
        unknown: a.unknown || b.unknown,
        miscounted: a.miscounted || b.miscounted,
    }
}
