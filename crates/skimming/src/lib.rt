// Limits and names of a query's expression, by one walk that looks for no level.
#![tactic(auto)]

ghost use Rattle.std.specs.Prelude.{◌≡◌, ℕ, ◌+◌, ◌-◌, ◌<◌, ◌≤◌, leb};
ghost use Rattle.limits.specs.Limits.{max_arity};
ghost use Rattle.rows.specs.Numbers.{row_number};
ghost use Rattle.tokens.specs.Expr.{expr_at, several};
ghost use Rattle.tokens.specs.Fold.{under_of};
ghost use Rattle.tokens.specs.declared.Token.TheVariants.{BuiltIn};
ghost use Rattle.context.specs.Parts.{part};
ghost use Rattle.resolve.specs.Walk.{inside, word_count};
ghost use Rattle.tables.specs.Serves.{Serves};
ghost use Rattle.skimming.specs.Skims.{AllSkimmed, Heads, Leaf, Skimmed, Steps};

use limits::Limits;
use resolve::steps::{both, nothing, with_args};
use resolve::{Ask, Looked};
use rows::{RowColumn, Rows};
use store::Store;
use tables::names;
use tables::token::{arguments_in, token_in};
use tokens::Token;

// Where the codes of a context stand among the contexts of the store, and how many parameters are known.
#[derive(Clone, Copy)]
pub struct ContextAt {
    pub from: usize,
    pub end: usize,
    pub params: usize,
}

// Where an expression stands, how deep it may nest, and how many variables are bound around it.
#[derive(Clone, Copy)]
pub struct Spot {
    pub at: usize,
    pub nest: usize,
    pub bound: usize,
}

// Where arguments stand, how many they are and how deep they may nest, and how many variables are bound around them and in the last of them.
#[derive(Clone, Copy)]
pub struct Args {
    pub at: usize,
    pub count: u8,
    pub nest: usize,
    pub around: usize,
    pub within: usize,
}

// What a token that keeps the limits says where it stands: how many arguments follow, how many variables are bound in the last of them, and what
// is known after it.
#[derive(Clone, Copy)]
pub struct Step {
    pub count: u8,
    pub inner: usize,
    pub looked: Looked,
}

// How many variables are bound in the last argument of a built-in of row r.
fn bind(r: u16, bound: usize) -> usize
    requires { bound < word_count }
    ensures { (code : ℕ) → r ≡ row_number code → result ≡ inside (BuiltIn code) bound }
{
    if rows::binder_of(r) == 0 {
        bound
    } else {
        bound + 1
    }
}

// How many variables are bound in a token's last argument.
pub fn bound_inside(column: &RowColumn, t: Token, bound: usize) -> usize
    requires { bound < word_count }
    ensures { result ≡ inside t bound }
{
    match t {
        Token::Parameter(_) => bound,
        Token::Bound(_) => bound,
        Token::Name(_, _) => bound,
        Token::InstanceOperator(_, _, _) => bound,
        Token::BuiltIn(code) => bind(column.row(code), bound),
        Token::Literal(_) => bound,
    }
}

// How many are bound in the first of k arguments: the last is inside the token's binder, the others are not.
fn under(k: u8, outer: usize, last: usize) -> usize
    ensures { result ≡ under_of k outer last }
{
    if k == 1 { last } else { outer }
}

// A parameter, so many being known.
fn parameter_step(bound: usize, next: usize, params: usize, i: u8, a: Looked) -> Step
    ensures { Leaf bound next (leb params i) a result }
{
    let b = Looked {
        next,
        unknown: params <= (i as usize),
        miscounted: false,
    };
    Step {
        count: 0,
        inner: bound,
        looked: both(a, b),
    }
}

// The position moved on.
fn moved(a: Looked, next: usize) -> Looked
    ensures { (result.next ≡ next) × (result.unknown ≡ a.unknown) × (result.miscounted ≡ a.miscounted) }
{
    Looked {
        next,
        unknown: a.unknown,
        miscounted: a.miscounted,
    }
}

// What is known after a token, from what is known before it.
fn head(tables: &[u8], store: &Store, p: ContextAt, bound: usize, t: Token, a: Looked) -> Looked
    requires { Serves store.now tables.now p.from p.end }
    ensures { Heads store.now.names store.now.facts (part store.now.contexts p.from (p.end - p.from)) p.params bound t a result }
{
    let l = names::look(store, tables, p.from, p.end, t);
    let ask = Ask {
        module: 0,
        params: p.params,
        bound,
    };
    with_args(t, l, ask, a)
}

// The token at the position that is reached, of whatever kind; none where a limit is passed.
fn any_step(
    s: &[u8],
    column: &RowColumn,
    tables: &[u8],
    store: &Store,
    p: ContextAt,
    bound: usize,
    a: Looked,
) -> Option<Step>
    requires { Serves store.now tables.now p.from p.end × (bound < word_count) }
    ensures { Steps store.now.names store.now.facts (part store.now.contexts p.from (p.end - p.from)) p.params bound s.now a result }
{
    let at = a.next;
    let t = token_in(s, column, at)?;
    let k = arguments_in(column, t);
    if (Limits::ARITY as u8) < k {
        return None;
    }
    let b = moved(a, at + tokens::width(t));
    let looked = head(tables, store, p, bound, t, b);
    Some(Step {
        count: k,
        inner: bound_inside(column, t, bound),
        looked,
    })
}

// The same, quicker at a parameter and at a built-in.
fn next_step(
    s: &[u8],
    column: &RowColumn,
    tables: &[u8],
    store: &Store,
    p: ContextAt,
    bound: usize,
    a: Looked,
) -> Option<Step>
    requires { Serves store.now tables.now p.from p.end × (bound < word_count) }
    ensures { Steps store.now.names store.now.facts (part store.now.contexts p.from (p.end - p.from)) p.params bound s.now a result }
{
    let at = a.next;
    if at < s.len() {
        if 1 < s.len() - at {
            let x = s[at + 1];
            let tag = s[at];
            if tag == 0 {
                return Some(parameter_step(bound, at + 2, p.params, x, a));
            }
            if tag == 4 {
                let r = column.row(x);
                let k = rows::arity_of(r);
                if k == Rows::NO_CODE {
                    return None;
                }
                return Some(Step {
                    count: k,
                    inner: bind(r, bound),
                    looked: moved(a, at + 2),
                });
            }
        }
    }
    any_step(s, column, tables, store, p, bound, a)
}

// Causes 9 and 10 of at most eight arguments and the position after them; none where a limit is passed. Where one is left, its own arguments
// are what is left.
fn skim_args(
    s: &[u8],
    column: &RowColumn,
    tables: &[u8],
    store: &Store,
    p: ContextAt,
    g: Args,
) -> Option<Looked>
    requires { Serves store.now tables.now p.from p.end × (g.around + g.nest < word_count) × (g.within + g.nest < word_count) × (g.count ≤ max_arity) }
    ensures { AllSkimmed store.now.names store.now.facts (part store.now.contexts p.from (p.end - p.from)) p.params g.around g.within (several (expr_at g.nest s.now) g.at g.count) result }
{
    let mut a = nothing(g.at);
    let mut k = g.count;
    let mut nest = g.nest;
    let mut outer = g.around;
    let mut last = g.within;
    while k != 0 {
        if nest == 0 {
            return None;
        }
        let e = under(k, outer, last);
        let t = next_step(s, column, tables, store, p, e, a)?;
        a = t.looked;
        if t.count == 0 {
            k -= 1;
            continue;
        }
        if k == 1 {
            k = t.count;
            nest -= 1;
            outer = e;
            last = t.inner;
            continue;
        }
        let inner = Args {
            at: a.next,
            count: t.count,
            nest: nest - 1,
            around: e,
            within: t.inner,
        };
        let b = skim_args(s, column, tables, store, p, inner)?;
        a = both(a, b);
        k -= 1;
    }
    Some(a)
}

// The expression at a place, likewise.
pub fn skim_expr(
    s: &[u8],
    column: &RowColumn,
    tables: &[u8],
    store: &Store,
    p: ContextAt,
    e: Spot,
) -> Option<Looked>
    requires { Serves store.now tables.now p.from p.end × (e.bound + e.nest < word_count) }
    ensures { Skimmed store.now.names store.now.facts (part store.now.contexts p.from (p.end - p.from)) p.params e.bound (expr_at e.nest s.now e.at) result }
{
    let g = Args {
        at: e.at,
        count: 1,
        nest: e.nest,
        around: e.bound,
        within: e.bound,
    };
    skim_args(s, column, tables, store, p, g)
}
