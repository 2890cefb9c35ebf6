// INSTANCE: the definitions that it brings, and what is kept of the field.
#![tactic(auto)]

ghost use Rattle.std.specs.Prelude.{◌≡◌, ◌+◌, ◌-◌, ◌*◌, ◌%◌, ◌≤◌, ◌<◌, get_or};
ghost use Rattle.limits.specs.Limits.{max_arity, max_definitions, max_modules};
ghost use Rattle.limits.specs.Sizes.{code_count, context_length, max_fields};
ghost use Rattle.context.specs.Parts.{part};
ghost use Rattle.context.specs.Entries.{word_count, after_definitions};
ghost use Rattle.store.specs.Store.{context_slot, order_slot};
ghost use Rattle.store.specs.Updates.{with_row};
ghost use Rattle.instancing.specs.Bringing.{via_under, brought_row, pushed_as, bring_one, bring_all, instance_noted, instancing};

use context::{Counts, Kinds};
use limits::Limits;
use store::{Facts, Store};

// What all that an instance brings has from it: the module that it stands in, its parameter count, its name or 0, its field + 1.
#[derive(Clone, Copy)]
pub struct Inherited {
    pub module: usize,
    pub params: u16,
    pub name: u16,
    pub link: u16,
}

// The sum in 16 bits: what is stored needs no bound in the code.
pub fn sum(p: u16, q: u16) -> u16
    ensures { result ≡ (p + q) % word_count }
{
    (((p as usize) + (q as usize)) % 65536) as u16
}

// The instance name that a brought definition gets.
pub fn via_under(name: u16, old: u16) -> u16
    ensures { result ≡ via_under name old }
{
    if name == 0 {
        return old;
    }
    name
}

// Stores definition o as brought from definition g: the instance's parameters come before its own.
pub fn bring_entry(store: &mut Store, o: usize, g: u16, under: Inherited)
    requires { o < code_count }
    ensures { store.new ≡ with_row store.old o (get_or store.old.names g 0) (brought_row store.old.facts g under.params under.name under.link) }
{
    let called = store.name_at(g as usize);
    let old = store.facts_at(g as usize);
    let kind = sum(under.params, old.kind);
    let via = via_under(under.name, old.via);
    let r = Facts {
        kind: kind,
        first: old.first,
        count: old.count,
        via: via,
        source: g,
        link: under.link,
    };
    store.put_row(o, called, r);
}

// A brought definition's number after the definitions of module m and, where the instance has no name, after its context.
pub fn push_as(store: &mut Store, m: usize, g: u16, name: u16)
    requires { (m ≤ max_modules) × (get_or store.old.heads (context_slot m) 0 < context_length) × (get_or store.old.heads (order_slot m) 0 < max_definitions) }
    ensures { store.new ≡ pushed_as store.old m g name }
{
    if name == 0 {
        store.push_both(m, g);
        return;
    }
    store.push_order(m, g);
}

// Brings definition g as definition o.
pub fn bring_one(store: &mut Store, o: usize, g: u16, under: Inherited)
    requires { (under.module ≤ max_modules) × (o < max_definitions) × (get_or store.old.heads (context_slot under.module) 0 < context_length) × (get_or store.old.heads (order_slot under.module) 0 < max_definitions) }
    ensures { store.new ≡ bring_one under.module under.params under.name under.link store.old o g }
{
    bring_entry(store, o, g, under);
    push_as(store, under.module, o as u16, under.name);
}

// Brings the definitions from place from to place end of the lists as definitions d up.
pub fn bring_all(store: &mut Store, from: usize, end: usize, d: usize, under: Inherited)
    requires { (under.module ≤ max_modules) × (end ≤ under.module * max_definitions) × (from ≤ end) × (d + (end - from) ≤ max_definitions) × (get_or store.old.heads (context_slot under.module) 0 + (end - from) ≤ context_length) × (get_or store.old.heads (order_slot under.module) 0 + (end - from) ≤ max_definitions) }
    ensures { store.new ≡ bring_all under.module under.params under.name under.link store.old d (part store.old.orders from (end - from)) }
{
    for i in from..end {
        bring_one(store, d + (i - from), store.order_at(i), under);
    }
}

// Keeps what is known of an INSTANCE field under its code o; its name, if it has one, comes after the context of module m.
pub fn note_instance(store: &mut Store, m: usize, o: usize, name: u16, r: Facts)
    requires { (m ≤ max_modules) × (o < code_count) × (get_or store.old.heads (context_slot m) 0 < context_length) }
    ensures { store.new ≡ instance_noted m o name r store.old }
{
    store.put_row(o, name, r);
    if name == 0 {
        return;
    }
    store.push_context(m, o as u16);
}

// An INSTANCE field of module q: its name or 0, its parameter count, where its first substitution stands, and how many
// are written with the module that the field stands in, as one number.
pub fn add_instance(
    store: &mut Store,
    c: Counts,
    name: u16,
    params: u16,
    q: usize,
    at: u16,
    written: u16,
) -> Counts
    requires { (c.modules ≤ max_modules) × (q < c.modules) × (c.fields < max_fields) × (params ≤ max_arity) × (c.definitions + get_or store.old.heads (order_slot q) 0 ≤ max_definitions) × (get_or store.old.heads (context_slot c.modules) 0 + get_or store.old.heads (order_slot q) 0 < context_length) × (get_or store.old.heads (order_slot c.modules) 0 + get_or store.old.heads (order_slot q) 0 ≤ max_definitions) }
    ensures { (result ≡ after_definitions (get_or store.old.heads (order_slot q) 0) c) × (store.new ≡ instancing c name params q at written store.old) }
{
    let m = c.modules;
    let d = c.definitions;
    let fields = c.fields + 1;
    let count = store.head_at(2 * Limits::PLACES + q);
    let from = q * Limits::DEFINITIONS;
    let end = from + (count as usize);
    let definitions = d + (count as usize);
    let o = Limits::DEFINITIONS + c.fields;
    let r = Facts {
        kind: Kinds::INSTANCE + params,
        first: d as u16,
        count: count,
        via: q as u16,
        source: at,
        link: written,
    };
    let under = Inherited {
        module: m,
        params: params,
        name: name,
        link: fields as u16,
    };
    bring_all(store, from, end, d, under);
    note_instance(store, m, o, name, r);
    Counts {
        fields: fields,
        declarations: c.declarations,
        modules: m,
        definitions: definitions,
    }
}
