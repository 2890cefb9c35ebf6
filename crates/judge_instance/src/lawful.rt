// The causes that come after the names: 12, 14 and 21 by the levels, with parameters at 0, of what stands for the declarations of the module instanced,
// seen in one walk over them; then 16.
ghost use Rattle.std.specs.Prelude.{◌&&◌, ◌||◌, ◌≡◌, ◌-◌, ◌*◌, ◌≤◌};
ghost use Rattle.limits.specs.Limits.{max_modules};
ghost use Rattle.limits.specs.Sizes.{context_length};
ghost use Rattle.context.proofs.Judging.{kind_of};
ghost use Rattle.context.specs.Parts.{part};
ghost use Rattle.context.specs.Entries.{context_codes, order_of};
ghost use Rattle.instance_names.specs.Causes.{first_number};
ghost use Rattle.judge_plain.specs.Causes.{found_number};
ghost use Rattle.entering.specs.Substitutes.{Fitting, around};
ghost use Rattle.rules.specs.Instance.{lawful};
ghost use Rattle.standing.specs.Standing.{itselves};
ghost use Rattle.judge_instance.specs.Levels.{LaterJudged, LevelFound, LevelsSeen, answers, is_free, is_mixed, later_causes, own_kind, seen_with};

use crate::constancy::is_constant;
use context::lookup::{find_declared, has_named_instance, is_declared};
use context::{Kinds, Operator};
use entering::substitutes::{Site, substitute_form};
use forms::levels::level_at_zero;
use judge_plain::Cause;
use levels::names::identity;
use limits::Limits;
use store::{Lent, Store};

// What was seen among the levels of substitutes: a 4, one that is not lawful, a 2, a 3.
#[derive(Clone, Copy)]
pub struct Seen {
    pub incorrect: bool,
    pub unlawful: bool,
    pub transition: bool,
    pub temporal: bool,
}

// What the walk over the declarations of the module instanced inherits: where the field stands, the module's number, whether it is constant.
// `constant` is a fact of the module: its number and the field's place stand whether it holds or not.
#[derive(Clone, Copy)]
pub struct Walk {
    pub site: Site,
    pub q: usize,
    pub constant: bool,
}

// Whether a declaration takes every level but 4: a constant, in a constant module.
fn is_free(constant: bool, kind: u16) -> bool
    ensures { result ≡ is_free constant kind }
{
    kind == 0 && constant
}

// Whether a substitute of this level may stand for a declaration of this kind.
fn is_lawful(constant: bool, kind: u16, level: u8) -> bool
    ensures { result ≡ lawful constant (kind_of kind) level }
{
    if kind == Kinds::VARIABLE {
        return level <= 1;
    }
    if is_free(constant, kind) {
        return level != 4;
    }
    level == 0
}

// What was seen with one level more, of what stands for a declaration of this kind.
fn with_level(seen: Seen, constant: bool, kind: u16, level: u8) -> Seen
    ensures { result ≡ seen_with constant seen (kind_of kind) level }
{
    let lawful = is_lawful(constant, kind, level);
    Seen {
        incorrect: seen.incorrect | (level == 4),
        unlawful: seen.unlawful | !lawful,
        transition: seen.transition | (level == 2),
        temporal: seen.temporal | (level == 3),
    }
}

// Whether a 2 and a 3 were seen, of a constant module.
fn is_mixed(constant: bool, seen: Seen) -> bool
    ensures { result ≡ is_mixed constant seen }
{
    constant && seen.transition && seen.temporal
}

// The first of these causes that holds, by what was seen and by whether the module instanced has a named instance.
fn cause_seen(constant: bool, seen: Seen, named: bool) -> Result<(), Cause>
    ensures { found_number result ≡ first_number (later_causes constant seen named) }
{
    let mixed = is_mixed(constant, seen);
    if seen.incorrect {
        return Err(Cause::IllLevelled);
    }
    if seen.unlawful {
        return Err(Cause::SubstituteUnlawful);
    }
    if mixed {
        return Err(Cause::Mixed);
    }
    if named {
        return Err(Cause::NamedInstance);
    }
    Ok(())
}

// Whether a name is declared as this kind.
fn is_answer(kind: u16, x: Option<Operator>) -> bool
    ensures { result ≡ answers kind x }
{
    let Some(found) = x else {
        return false;
    };
    match found {
        Operator::Constant(_, k) => kind != Kinds::VARIABLE && kind == k,
        Operator::Variable(_) => kind == Kinds::VARIABLE,
        Operator::Defined(_) => false,
    }
}

// Whether o is a declaration, and module q declares its name as what o is.
fn is_own(store: &Store, q: usize, o: u16) -> bool
    requires { q ≤ max_modules }
    ensures { result ≡ own_kind store.now.names store.now.facts (context_codes store.now.contexts store.now.heads q) o }
{
    if is_declared(store, o) {
        let name = store.name_at(o as usize);
        let kind = store.kind_at(o as usize);
        return is_answer(kind, find_declared(store, q, name));
    }
    false
}

// The level of what stands for o; 0 of a code that the module instanced does not declare.
fn level_found(
    s: &[u8],
    refs: &[u16; Lent::REFS],
    numbers: &[u16],
    words: &[u64; Lent::WORDS],
    store: &Store,
    w: Walk,
    o: u16,
) -> u8
    requires { Fitting w.site × (w.q ≤ max_modules) }
    ensures { LevelFound (around s.now refs.now numbers.now words.now store.now.names store.now.facts store.now.contexts store.now.heads) w.site (context_codes store.now.contexts store.now.heads w.q) o result }
{
    if is_own(store, w.q, o) {
        return level_at_zero(substitute_form(s, refs, numbers, words, store, w.site, o));
    }
    0
}

// What is seen of the codes of the module instanced up to place end.
fn seen_among(
    s: &[u8],
    refs: &[u16; Lent::REFS],
    numbers: &[u16],
    words: &[u64; Lent::WORDS],
    store: &Store,
    w: Walk,
    end: usize,
) -> Seen
    requires { Fitting w.site × (w.q ≤ max_modules) }
    ensures { LevelsSeen (around s.now refs.now numbers.now words.now store.now.names store.now.facts store.now.contexts store.now.heads) w.site (context_codes store.now.contexts store.now.heads w.q) w.constant (part store.now.contexts (w.q * context_length) (end - w.q * context_length)) result }
{
    let mut seen = Seen {
        incorrect: false,
        unlawful: false,
        transition: false,
        temporal: false,
    };
    for i in w.q * Limits::CONTEXT..end {
        let o = store.context_at(i);
        let level = level_found(s, refs, numbers, words, store, w, o);
        let kind = store.kind_at(o as usize);
        seen = with_level(seen, w.constant, kind, level);
    }
    seen
}

// What is seen of all its declarations.
fn levels_seen(
    s: &[u8],
    refs: &[u16; Lent::REFS],
    numbers: &[u16],
    words: &[u64; Lent::WORDS],
    store: &Store,
    w: Walk,
) -> Seen
    requires { Fitting w.site × (w.q ≤ max_modules) }
    ensures { LevelsSeen (around s.now refs.now numbers.now words.now store.now.names store.now.facts store.now.contexts store.now.heads) w.site (context_codes store.now.contexts store.now.heads w.q) w.constant (context_codes store.now.contexts store.now.heads w.q) result }
{
    let count = store.head_at(Limits::PLACES + w.q) as usize;
    seen_among(
        s,
        refs,
        numbers,
        words,
        store,
        w,
        w.q * Limits::CONTEXT + count,
    )
}

// The first of these causes that holds, in the world of the tables.
fn cause_in(
    s: &[u8],
    refs: &[u16; Lent::REFS],
    numbers: &[u16],
    words: &[u64; Lent::WORDS],
    store: &Store,
    site: Site,
    q: usize,
) -> Result<(), Cause>
    requires { Fitting site × (q ≤ max_modules) }
    ensures { LaterJudged (around s.now refs.now numbers.now words.now store.now.names store.now.facts store.now.contexts store.now.heads) site (context_codes store.now.contexts store.now.heads q) (order_of store.now.orders store.now.heads q) (found_number result) }
{
    let constant = is_constant(words, store, q);
    let w = Walk { site, q, constant };
    let seen = levels_seen(s, refs, numbers, words, store, w);
    let named = has_named_instance(store, q);
    cause_seen(constant, seen, named)
}

// The first of these causes that holds: no instance is around the field.
pub fn later_cause(
    s: &[u8],
    refs: &[u16; Lent::REFS],
    words: &[u64; Lent::WORDS],
    store: &Store,
    site: Site,
    q: usize,
) -> Result<(), Cause>
    requires { Fitting site × (q ≤ max_modules) }
    ensures { LaterJudged (around s.now refs.now itselves words.now store.now.names store.now.facts store.now.contexts store.now.heads) site (context_codes store.now.contexts store.now.heads q) (order_of store.now.orders store.now.heads q) (found_number result) }
{
    let mut numbers = [0u16; Limits::DEFINITIONS];
    identity(&mut numbers);
    cause_in(s, refs, &numbers, words, store, site, q)
}
