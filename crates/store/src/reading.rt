// Words by role, 0 past the end.
ghost use Rattle.std.specs.Prelude.{◌≡◌, get_or};
ghost use Rattle.store.specs.Store.{count_at, first_at, kind_at, link_at, no_facts, source_at, via_at};

use crate::{Facts, Store};

// What stands at a place, or what is given for past the end.
fn at<T: Copy>(list: &[T], i: usize, past: T) -> T
    ensures { result ≡ get_or list.now i past }
{
    if i < list.len() { list[i] } else { past }
}

impl Store {
    pub fn name_at(&self, i: usize) -> u16
        ensures { result ≡ get_or self.now.names i 0 }
    {
        at(&self.names, i, 0)
    }

    // What is kept of code o,
    pub fn facts_at(&self, o: usize) -> Facts
        ensures { result ≡ get_or self.now.facts o no_facts }
    {
        at(&self.facts, o, Facts::NONE)
    }

    // and each by itself.
    pub fn kind_at(&self, o: usize) -> u16
        ensures { result ≡ kind_at self.now.facts o }
    {
        self.facts_at(o).kind
    }

    pub fn first_at(&self, o: usize) -> u16
        ensures { result ≡ first_at self.now.facts o }
    {
        self.facts_at(o).first
    }

    pub fn count_at(&self, o: usize) -> u16
        ensures { result ≡ count_at self.now.facts o }
    {
        self.facts_at(o).count
    }

    pub fn via_at(&self, o: usize) -> u16
        ensures { result ≡ via_at self.now.facts o }
    {
        self.facts_at(o).via
    }

    pub fn source_at(&self, o: usize) -> u16
        ensures { result ≡ source_at self.now.facts o }
    {
        self.facts_at(o).source
    }

    pub fn link_at(&self, o: usize) -> u16
        ensures { result ≡ link_at self.now.facts o }
    {
        self.facts_at(o).link
    }

    pub fn context_at(&self, i: usize) -> u16
        ensures { result ≡ get_or self.now.contexts i 0 }
    {
        at(&self.contexts, i, 0)
    }

    pub fn order_at(&self, i: usize) -> u16
        ensures { result ≡ get_or self.now.orders i 0 }
    {
        at(&self.orders, i, 0)
    }

    pub fn head_at(&self, i: usize) -> u16
        ensures { result ≡ get_or self.now.heads i 0 }
    {
        at(&self.heads, i, 0)
    }

    pub fn declared_at(&self, i: usize) -> u16
        ensures { result ≡ get_or self.now.declared i 0 }
    {
        at(&self.declared, i, 0)
    }

    // The names lent as a slice: of its numbers it is known that they have 16 bits, of those of an array it is not.
    pub fn names(&self) -> &[u16]
        ensures { result.now ≡ self.now.names }
    {
        &self.names
    }
}
