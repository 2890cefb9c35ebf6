// Words written, each in its array; and what additions write.
ghost use Rattle.std.specs.Prelude.{◌≡◌, ◌≤◌, ◌<◌, get_or, set};
ghost use Rattle.limits.specs.Limits.{max_declarations, max_definitions, max_modules};
ghost use Rattle.limits.specs.Sizes.{code_count, context_length, contexts_length, heads_length, orders_length};
ghost use Rattle.store.specs.Store.{context_slot, order_slot};
ghost use Rattle.store.specs.Updates.{headed, in_both, in_context, in_order, with_contexts, with_declared, with_heads, with_orders, with_row};

use crate::{Facts, Store};
use limits::Limits;

impl Store {
    pub fn put_context(&mut self, i: usize, x: u16)
        requires { i < contexts_length }
        ensures { self.new ≡ with_contexts self.old (set self.old.contexts i x) }
    {
        self.contexts[i] = x;
    }

    pub fn put_order(&mut self, i: usize, x: u16)
        requires { i < orders_length }
        ensures { self.new ≡ with_orders self.old (set self.old.orders i x) }
    {
        self.orders[i] = x;
    }

    pub fn put_head(&mut self, i: usize, x: u16)
        requires { i < heads_length }
        ensures { self.new ≡ with_heads self.old (set self.old.heads i x) }
    {
        self.heads[i] = x;
    }

    // The code of declaration d.
    pub fn put_declared(&mut self, d: usize, x: u16)
        requires { d < max_declarations }
        ensures { self.new ≡ with_declared self.old (set self.old.declared d x) }
    {
        self.declared[d] = x;
    }

    // Stores what code o is.
    pub fn put_row(&mut self, o: usize, name: u16, r: Facts)
        requires { o < code_count }
        ensures { self.new ≡ with_row self.old o name r }
    {
        self.names[o] = name;
        self.facts[o] = r;
    }

    // The head of module m: its name and two empty lists.
    pub fn begin_module(&mut self, m: usize, name: u16)
        requires { m ≤ max_modules }
        ensures { self.new ≡ with_heads self.old (headed self.old.heads m name) }
    {
        self.put_head(m, name);
        self.put_head(Limits::PLACES + m, 0);
        self.put_head(2 * Limits::PLACES + m, 0);
    }

    // A code after the context of module m.
    pub fn push_context(&mut self, m: usize, o: u16)
        requires { (m ≤ max_modules) × (get_or self.old.heads (context_slot m) 0 < context_length) }
        ensures { self.new ≡ in_context self.old m o }
    {
        let slot = Limits::PLACES + m;
        let count = self.head_at(slot);
        self.put_context(m * Limits::CONTEXT + (count as usize), o);
        self.put_head(slot, count + 1);
    }

    // A number after the definitions of module m.
    pub fn push_order(&mut self, m: usize, g: u16)
        requires { (m ≤ max_modules) × (get_or self.old.heads (order_slot m) 0 < max_definitions) }
        ensures { self.new ≡ in_order self.old m g }
    {
        let slot = 2 * Limits::PLACES + m;
        let count = self.head_at(slot);
        self.put_order(m * Limits::DEFINITIONS + (count as usize), g);
        self.put_head(slot, count + 1);
    }

    // A definition's number after the context and after the definitions of module m.
    pub fn push_both(&mut self, m: usize, g: u16)
        requires { (m ≤ max_modules) × (get_or self.old.heads (context_slot m) 0 < context_length) × (get_or self.old.heads (order_slot m) 0 < max_definitions) }
        ensures { self.new ≡ in_both self.old m g }
    {
        self.push_context(m, g);
        self.push_order(m, g);
    }
}
