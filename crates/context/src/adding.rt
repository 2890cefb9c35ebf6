// What a field adds, EXTENDS and INSTANCE apart.
ghost use Rattle.std.specs.Prelude.{◌≡◌, ◌+◌, ◌≤◌, ◌<◌, get_or};
ghost use Rattle.limits.specs.Limits.{max_declarations, max_definitions, max_modules};
ghost use Rattle.limits.specs.Sizes.{context_length, max_fields};
ghost use Rattle.store.specs.Store.{context_slot, order_slot};
ghost use Rattle.context.specs.Entries.{after_declaration, after_definitions, after_end, after_field, begun, declaring, defining, own_row};

use crate::Counts;
use limits::Limits;
use store::{Facts, Store};

// A module field.
pub fn add_module(store: &mut Store, c: Counts, name: u16) -> Counts
    requires { (c.modules ≤ max_modules) × (c.fields < max_fields) }
    ensures { (result ≡ after_field c) × (store.new ≡ begun store.old c.modules name) }
{
    let m = c.modules;
    store.begin_module(m, name);
    Counts {
        fields: c.fields + 1,
        declarations: c.declarations,
        modules: m,
        definitions: c.definitions,
    }
}

// The end of a module: the next one has no name, as the rules have it.
pub fn end_module(store: &mut Store, c: Counts) -> Counts
    requires { (c.modules < max_modules) × (c.fields < max_fields) }
    ensures { (result ≡ after_end c) × (store.new ≡ begun store.old (c.modules + 1) 0) }
{
    let m = c.modules + 1;
    store.begin_module(m, 0);
    Counts {
        fields: c.fields + 1,
        declarations: c.declarations,
        modules: m,
        definitions: c.definitions,
    }
}

// A CONSTANT or VARIABLE field: kind is the argument count, or that of a variable. It keeps its number among the declarations.
pub fn add_declaration(store: &mut Store, c: Counts, kind: u16, name: u16) -> Counts
    requires { (c.modules ≤ max_modules) × (c.fields < max_fields) × (c.declarations < max_declarations) × (get_or store.old.heads (context_slot c.modules) 0 < context_length) }
    ensures { (result ≡ after_declaration c) × (store.new ≡ declaring store.old c kind name) }
{
    let m = c.modules;
    let d = c.declarations;
    let o = Limits::DEFINITIONS + c.fields;
    store.put_row(
        o,
        name,
        Facts {
            kind: kind,
            first: d as u16,
            count: 0,
            via: 0,
            source: 0,
            link: 0,
        },
    );
    store.push_context(m, o as u16);
    store.put_declared(d, o as u16);
    Counts {
        fields: c.fields + 1,
        declarations: d + 1,
        modules: m,
        definitions: c.definitions,
    }
}

// A definition field: its parameter count, and where its body stands.
pub fn add_definition(
    store: &mut Store,
    c: Counts,
    name: u16,
    params: u16,
    start: u16,
    size: u16,
) -> Counts
    requires { (c.modules ≤ max_modules) × (c.fields < max_fields) × (c.definitions < max_definitions) × (get_or store.old.heads (context_slot c.modules) 0 < context_length) × (get_or store.old.heads (order_slot c.modules) 0 < max_definitions) }
    ensures { (result ≡ after_definitions 1 c) × (store.new ≡ defining store.old c name (own_row c.definitions params start size)) }
{
    let m = c.modules;
    let g = c.definitions;
    store.put_row(
        g,
        name,
        Facts {
            kind: params,
            first: start,
            count: size,
            via: 0,
            source: g as u16,
            link: 0,
        },
    );
    store.push_both(m, g as u16);
    Counts {
        fields: c.fields + 1,
        declarations: c.declarations,
        modules: m,
        definitions: g + 1,
    }
}
