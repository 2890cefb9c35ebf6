// One walk over a query's expression: if it keeps the limits, whether its names are known and rightly counted, and the form of its level. It
// goes down with the label of the place, and adds each node's level to the form. Each name is looked up where it stands.
ghost use Rattle.std.specs.Prelude.{◌≡◌, ◌-◌, ◌^◌, ◌<◌, ◌≤◌};
ghost use Rattle.limits.specs.Limits.{max_arity, max_modules};
ghost use Rattle.tokens.specs.Expr.{expr_at, several};
ghost use Rattle.tokens.specs.Fold.{under_of};
ghost use Rattle.context.specs.Parts.{part};
ghost use Rattle.context.specs.Entries.{context_codes, word_count};
ghost use Rattle.tables.specs.Serves.{Serves};
ghost use Rattle.asking.specs.Walk.{AllJudged, Judged, Roomy};

use crate::Walked;
use crate::steps::{Reached, Scope, next_step};
use forms::Form;
use levels::first_label;
use limits::Limits;
use resolve::steps::{both, nothing};
use rows::RowColumn;
use skimming::ContextAt;
use store::{Lent, Store};
use tables::{Long, Tables};

// What arguments inherit: the variables bound around them, and in the last of them; the label of their place; and inside that the label of each.
#[derive(Clone, Copy)]
pub struct Under {
    pub around: Scope,
    pub within: Scope,
    pub label: u8,
    pub labels: u64,
}

// Where arguments stand, how many they are and how deep they may nest, and the form to which they are added.
#[derive(Clone, Copy)]
pub struct Args {
    pub at: usize,
    pub count: u8,
    pub nest: usize,
    pub form: u64,
}

// What the first of k arguments inherits: the last is inside the token's binder, the others are not.
fn scope(k: u8, around: Scope, within: Scope) -> Scope
    ensures { result ≡ under_of k around within }
{
    if k == 1 { within } else { around }
}

// Adds at most eight arguments from a position on; none where a limit is passed. Where one is left, its own arguments are what is left.
fn walk_args(
    s: &[u8],
    column: &RowColumn,
    tables: &[u8],
    store: &Store,
    words: &[u64; Lent::WORDS],
    p: ContextAt,
    g: Args,
    u: Under,
) -> Option<Walked>
    requires { Serves store.now tables.now p.from p.end × Roomy g.nest u × (g.count ≤ max_arity) }
    ensures { AllJudged store.now.names store.now.facts (part store.now.contexts p.from (p.end - p.from)) words.now p.params s.now u g.form (several (expr_at g.nest s.now) g.at g.count) result }
{
    let mut a = nothing(g.at);
    let mut form = g.form;
    let mut k = g.count;
    let mut nest = g.nest;
    let mut around = u.around;
    let mut within = u.within;
    let mut label = u.label;
    let mut labels = u.labels;
    while k != 0 {
        if nest == 0 {
            return None;
        }
        let e = scope(k, around, within);
        let l = first_label(label, labels);
        let x = Reached {
            scope: e,
            label: l,
            form,
            looked: a,
        };
        let t = next_step(s, column, tables, store, words, p, x)?;
        a = t.looked;
        form = t.form;
        let last = t.inner;
        if t.count == 0 {
            k -= 1;
            labels = labels / 8;
            continue;
        }
        if k == 1 {
            k = t.count;
            nest -= 1;
            around = e;
            within = last;
            label = l;
            labels = t.labels;
            continue;
        }
        let inner = Under {
            around: e,
            within: last,
            label: l,
            labels: t.labels,
        };
        let args = Args {
            at: a.next,
            count: t.count,
            nest: nest - 1,
            form,
        };
        let b = walk_args(s, column, tables, store, words, p, args, inner)?;
        a = both(a, b.looked);
        form = b.form;
        k -= 1;
        labels = labels / 8;
    }
    Some(Walked { form, looked: a })
}

// The expression that the bytes begin with, by tables or none.
fn judge_with(
    s: &[u8],
    tables: &[u8],
    store: &Store,
    words: &[u64; Lent::WORDS],
    p: ContextAt,
) -> Option<Walked>
    requires { Serves store.now tables.now p.from p.end }
    ensures { Judged store.now.names store.now.facts (part store.now.contexts p.from (p.end - p.from)) words.now p.params s.now result }
{
    let column = RowColumn::new();
    let e = Scope { bits: 0, bound: 0 };
    let u = Under {
        around: e,
        within: e,
        label: Form::PLAIN,
        labels: Form::PLAIN as u64,
    };
    let g = Args {
        at: 0,
        count: 1,
        nest: Limits::NESTING,
        form: 0,
    };
    walk_args(s, &column, tables, store, words, p, g, u)
}

// The same with no tables, which costs less where the expression is short.
fn judge_short(s: &[u8], store: &Store, words: &[u64; Lent::WORDS], p: ContextAt) -> Option<Walked>
    requires { p.from < 2 ^ 32 }
    ensures { Judged store.now.names store.now.facts (part store.now.contexts p.from (p.end - p.from)) words.now p.params s.now result }
{
    judge_with(s, &s[..0], store, words, p)
}

// The same with the tables filled.
fn judge_long(s: &[u8], store: &Store, words: &[u64; Lent::WORDS], p: ContextAt) -> Option<Walked>
    requires { (p.from < 2 ^ 32) × (p.from ≤ p.end) × (p.end - p.from < word_count) }
    ensures { Judged store.now.names store.now.facts (part store.now.contexts p.from (p.end - p.from)) words.now p.params s.now result }
{
    let mut tables = [0u8; Tables::BYTES];
    tables::fill(store, &mut tables, p.from, p.end);
    judge_with(s, &tables, store, words, p)
}

// The expression that the bytes begin with, in the context of module m, so many parameters being known.
pub fn judge(
    s: &[u8],
    store: &Store,
    words: &[u64; Lent::WORDS],
    m: usize,
    params: usize,
) -> Option<Walked>
    requires { m ≤ max_modules }
    ensures { Judged store.now.names store.now.facts (context_codes store.now.contexts store.now.heads m) words.now params s.now result }
{
    let from = m * Limits::CONTEXT;
    let count = store.head_at(Limits::PLACES + m) as usize;
    let p = ContextAt {
        from,
        end: from + count,
        params,
    };
    if s.len() < Long::BYTES {
        judge_short(s, store, words, p)
    } else {
        judge_long(s, store, words, p)
    }
}
