// The walk over an expression.
ghost use Rattle.std.specs.Prelude.{◌+◌, ◌≤◌, ◌<◌};
ghost use Rattle.limits.specs.Limits.{max_modules, max_nesting};
ghost use Rattle.tokens.specs.Expr.{expr_at, several};
ghost use Rattle.context.specs.Entries.{context_codes};
ghost use Rattle.resolve.specs.Walk.{word_count, Looks, LooksAll};

use crate::steps::{both, bound_in, bound_inside, look_note, nothing, with_args};
use crate::{Ask, Looked};
use store::{Lent, Store};

// The arguments that are left of a token: from where on, how many, and how many bound variables are known in the last of them.
#[derive(Clone, Copy)]
struct Args {
    at: usize,
    left: u8,
    last: usize,
}

// Looks up every name of the expression at `at` of s, which keeps the limits, in the context of a module, with so many parameters.
pub fn look_at(
    s: &[u8],
    store: &Store,
    refs: &mut [u16; Lent::REFS],
    at: usize,
    m: usize,
    params: usize,
) -> Looked
    requires { m ≤ max_modules }
    ensures { Looks store.now.names store.now.facts (context_codes store.now.contexts store.now.heads m) params 0 (expr_at max_nesting s.now at) refs.old refs.new result.unknown result.miscounted result.next }
{
    let ask = Ask {
        module: m,
        params,
        bound: 0,
    };
    look_expr(s, store, refs, at, limits::Limits::NESTING, ask)
}

// The same for an expression that nests at most `nest` deep, where bound variables may be known.
#[cycle(look_args_look_expr)]
pub fn look_expr(
    s: &[u8],
    store: &Store,
    refs: &mut [u16; Lent::REFS],
    at: usize,
    nest: usize,
    ask: Ask,
) -> Looked
    requires { (ask.«module» ≤ max_modules) × (ask.bound + nest < word_count) }
    ensures { Looks store.now.names store.now.facts (context_codes store.now.contexts store.now.heads ask.«module») ask.params ask.bound (expr_at nest s.now at) refs.old refs.new result.unknown result.miscounted result.next }
{
    if nest == 0 {
        return nothing(at);
    }
    let Some(t) = tokens::token_at(s, at) else {
        return nothing(at);
    };
    let l = look_note(store, refs, at, ask.module, Some(t));
    let next = at + tokens::width(t);
    let args = Args {
        at: next,
        left: tokens::arguments(t),
        last: bound_inside(Some(t), ask.bound),
    };
    let a = look_args(s, store, refs, args, nest - 1, ask);
    with_args(t, l, ask, a)
}

// The same for arguments in a row.
#[cycle(look_args_look_expr)]
fn look_args(
    s: &[u8],
    store: &Store,
    refs: &mut [u16; Lent::REFS],
    args: Args,
    nest: usize,
    ask: Ask,
) -> Looked
    requires { (ask.«module» ≤ max_modules) × (ask.bound + nest < word_count) × (args.last + nest < word_count) }
    ensures { LooksAll store.now.names store.now.facts (context_codes store.now.contexts store.now.heads ask.«module») ask.params ask.bound args.last (several (expr_at nest s.now) args.at args.left) refs.old refs.new result.unknown result.miscounted result.next }
{
    let at = args.at;
    let left = args.left;
    let last = args.last;
    if left == 0 {
        return nothing(at);
    }
    let here = Ask {
        module: ask.module,
        params: ask.params,
        bound: bound_in(left, ask.bound, last),
    };
    let a = look_expr(s, store, refs, at, nest, here);
    let fewer = left - 1;
    let others = Args {
        at: a.next,
        left: fewer,
        last,
    };
    let b = look_args(s, store, refs, others, nest, ask);
    both(a, b)
}
