// The level query's expression: "judged like a THEOREM field with its parameters, without cause 12 and of any length", at the end of a
// module. It may be longer than any file, so no table stands beside it: each name is looked up where it stands.
#![tactic(auto)]

pub mod reading;
pub mod steps;
pub mod walk;

ghost use Rattle.std.specs.Prelude.{◌≡◌, ◌≤◌, length};
ghost use Rattle.limits.specs.Limits.{max_modules};
ghost use Rattle.asking.specs.Asks.{Asks, AsksIn, kept_reply, levels_cause, reply_of};

use crate::reading::{levels_cause, limit_cause};
use crate::walk::judge;
use context::Counts;
use context::lookup::find_module;
use forms::levels::level;
use refusals::Refusal;
use resolve::Looked;
use store::{Lent, Store};

// Of an expression that keeps the limits: the form of its level, whether its names are known and rightly counted, and the position after it.
#[derive(Clone, Copy)]
pub struct Walked {
    pub form: u64,
    pub looked: Looked,
}

// The reply to bytes that are one expression and keep the limits, by what a walk found. The place of a refusal is the number of fields.
fn kept_reply(levels: &[u8], w: Walked, fields: usize) -> Result<u8, Refusal>
    ensures { result ≡ kept_reply levels.now w fields }
{
    if w.looked.unknown {
        return Err(Refusal {
            cause: 9,
            place: fields,
        });
    }
    if w.looked.miscounted {
        return Err(Refusal {
            cause: 10,
            place: fields,
        });
    }
    Ok(level(w.form, levels))
}

// The same to any bytes: a walk that keeps the limits tells by its end whether they are one expression, and only another needs them read apart.
fn reply_of(expr: &[u8], levels: &[u8], w: Option<Walked>, fields: usize) -> Result<u8, Refusal>
    ensures { result ≡ reply_of levels.now expr.now w fields }
{
    let Some(w) = w else {
        return Err(Refusal {
            cause: limit_cause(expr),
            place: fields,
        });
    };
    if w.looked.next == expr.len() {
        return kept_reply(levels, w, fields);
    }
    Err(Refusal {
        cause: 3,
        place: fields,
    })
}

// The reply in module m, at most eight levels being given.
fn walked_reply(
    expr: &[u8],
    levels: &[u8],
    store: &Store,
    words: &[u64; Lent::WORDS],
    m: usize,
    fields: usize,
) -> Result<u8, Refusal>
    requires { (m ≤ max_modules) × (levels_cause levels.now expr.now ≡ 0) }
    ensures { AsksIn store.now words.now m fields levels.now expr.now result }
{
    let w = judge(expr, store, words, m, levels.len());
    reply_of(expr, levels, w, fields)
}

// The reply in module m.
fn reply_in(
    expr: &[u8],
    levels: &[u8],
    store: &Store,
    words: &[u64; Lent::WORDS],
    m: usize,
    fields: usize,
) -> Result<u8, Refusal>
    requires { m ≤ max_modules }
    ensures { AsksIn store.now words.now m fields levels.now expr.now result }
{
    let cause = levels_cause(expr, levels);
    if cause != 0 {
        return Err(Refusal {
            cause,
            place: fields,
        });
    }
    walked_reply(expr, levels, store, words, m, fields)
}

// The level of the expression at the end of the module of that name, a level being given for each of its parameters. The store is that
// of a file that was checked, which has c of each kind.
pub fn level_reply(
    expr: &[u8],
    levels: &[u8],
    module: u16,
    store: &Store,
    words: &[u64; Lent::WORDS],
    c: Counts,
) -> Result<u8, Refusal>
    requires { c.modules ≤ max_modules }
    ensures { Asks store.now words.now c «module» levels.now expr.now result }
{
    let q = find_module(store, c.modules, module);
    if c.modules <= q {
        return Err(Refusal {
            cause: 17,
            place: 0,
        });
    }
    reply_in(expr, levels, store, words, q, c.fields)
}
