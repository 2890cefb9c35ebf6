// EXTENDS: the lists of the named modules joined to those of the module that is open.
ghost use Rattle.std.specs.Prelude.{◌≡◌, ◌+◌, ◌-◌, ◌≤◌, ◌<◌, eqb, length, replicate};
ghost use Rattle.limits.specs.Sizes.{contexts_length, orders_length};
ghost use Rattle.theory.specs.Lists.{All, union};
ghost use Rattle.store.specs.Updates.{with_contexts, with_orders};
ghost use Rattle.context.specs.Parts.{part};
ghost use Rattle.context.specs.Joining.{ContextJoined, ContextReady, Extendable, Extended, JoinedAt, Marked, OrderJoined, OrderReady, Small, joined};

use limits::Limits;
use store::Store;

// Sets all marks to 0.
pub fn clear(marks: &mut [u16])
    ensures { marks.new ≡ replicate (length marks.old) 0 }
{
    marks.fill(0);
}

// Stores code o after the count codes at base of the contexts, unless it is among them: marks says which are. Returns how many there are then.
pub fn join_context(
    store: &mut Store,
    marks: &mut [u16],
    base: usize,
    count: usize,
    o: u16,
) -> usize
    requires { Marked marks.old (part store.old.contexts base count) × (o < length marks.old) × (base + length marks.old ≤ contexts_length) × (length store.old.contexts ≡ contexts_length) }
    ensures { (store.new ≡ with_contexts store.old store.new.contexts) × JoinedAt base result (joined (part store.old.contexts base count) o) store.old.contexts store.new.contexts marks.new }
{
    if marks[o as usize] == 0 {
        let place = base + count;
        marks[o as usize] = 1;
        store.put_context(place, o);
        return count + 1;
    }
    count
}

// Joins the codes from place from to place end of the contexts to the count codes at base.
pub fn unite_contexts(
    store: &mut Store,
    marks: &mut [u16],
    from: usize,
    end: usize,
    base: usize,
    count: usize,
) -> usize
    requires { Marked marks.old (part store.old.contexts base count) × All (Small (length marks.old)) (part store.old.contexts from (end - from)) × (base + length marks.old ≤ contexts_length) × (end ≤ base) × (length store.old.contexts ≡ contexts_length) }
    ensures { (store.new ≡ with_contexts store.old store.new.contexts) × JoinedAt base result (union eqb (part store.old.contexts base count) (part store.old.contexts from (end - from))) store.old.contexts store.new.contexts marks.new }
{
    let mut n = count;
    for i in from..end {
        let o = store.context_at(i);
        n = join_context(store, marks, base, n, o);
    }
    n
}

// Joins the context of module q to that of module k. Returns its new length.
pub fn extend_context(store: &mut Store, marks: &mut [u16], k: usize, q: usize) -> usize
    requires { ContextReady store.old marks.old k q }
    ensures { ContextJoined store.old store.new marks.new k q result }
{
    let from = q * Limits::CONTEXT;
    let end = from + (store.head_at(Limits::PLACES + q) as usize);
    let slot = Limits::PLACES + k;
    let count = store.head_at(slot) as usize;
    let n = unite_contexts(store, marks, from, end, k * Limits::CONTEXT, count);
    let size = n as u16;
    store.put_head(slot, size);
    n
}

// The same for the number of a definition, in the orders. Twins: the list as two closures, for a read and a write, would be longer than the bodies.
pub fn join_order(store: &mut Store, tally: &mut [u16], base: usize, count: usize, g: u16) -> usize
    requires { Marked tally.old (part store.old.orders base count) × (g < length tally.old) × (base + length tally.old ≤ orders_length) × (length store.old.orders ≡ orders_length) }
    ensures { (store.new ≡ with_orders store.old store.new.orders) × JoinedAt base result (joined (part store.old.orders base count) g) store.old.orders store.new.orders tally.new }
{
    if tally[g as usize] == 0 {
        let place = base + count;
        tally[g as usize] = 1;
        store.put_order(place, g);
        return count + 1;
    }
    count
}

// The same for numbers of definitions.
pub fn unite_orders(
    store: &mut Store,
    tally: &mut [u16],
    from: usize,
    end: usize,
    base: usize,
    count: usize,
) -> usize
    requires { Marked tally.old (part store.old.orders base count) × All (Small (length tally.old)) (part store.old.orders from (end - from)) × (base + length tally.old ≤ orders_length) × (end ≤ base) × (length store.old.orders ≡ orders_length) }
    ensures { (store.new ≡ with_orders store.old store.new.orders) × JoinedAt base result (union eqb (part store.old.orders base count) (part store.old.orders from (end - from))) store.old.orders store.new.orders tally.new }
{
    let mut n = count;
    for i in from..end {
        let g = store.order_at(i);
        n = join_order(store, tally, base, n, g);
    }
    n
}

// The same for the definitions.
pub fn extend_order(store: &mut Store, tally: &mut [u16], k: usize, q: usize) -> usize
    requires { OrderReady store.old tally.old k q }
    ensures { OrderJoined store.old store.new tally.new k q result }
{
    let from = q * Limits::DEFINITIONS;
    let end = from + (store.head_at(2 * Limits::PLACES + q) as usize);
    let slot = 2 * Limits::PLACES + k;
    let count = store.head_at(slot) as usize;
    let n = unite_orders(store, tally, from, end, k * Limits::DEFINITIONS, count);
    let total = n as u16;
    store.put_head(slot, total);
    n
}

// Joins the context and the definitions of module q to those of module k.
pub fn extend(store: &mut Store, marks: &mut [u16], tally: &mut [u16], k: usize, q: usize)
    requires { Extendable store.old marks.old tally.old k q }
    ensures { Extended store.old store.new marks.new tally.new k q }
{
    extend_context(store, marks, k, q);
    extend_order(store, tally, k, q);
}
