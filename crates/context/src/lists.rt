// The lists of the store: searching.
ghost use Rattle.std.specs.Prelude.{◌≡◌, Bool, ℕ, ◌+◌, ◌-◌, ◌≤◌, get_or};
ghost use Rattle.theory.specs.Lists.{find, numbers_from};
ghost use Rattle.context.specs.Parts.{part, place_of};
ghost use Rattle.context.specs.Lookup.{Tests, as_code, code_named, code_under, stands_under};

use limits::Limits;
use store::Store;

// The number of a slice at i, 0 past the end.
pub fn number_at(xs: &[u16], i: usize) -> u16
    ensures { result ≡ get_or xs.now i 0 }
{
    if i < xs.len() { xs[i] } else { 0 }
}

// The first code from place from to place end that passes the test.
pub fn find_where<F: Fn(u16) -> bool>(
    store: &Store,
    from: usize,
    end: usize,
    test: F,
) -> Option<u16>
    requires { F.IsAlwaysCallable test }
    ensures { (t : ℕ → Bool) → Tests (F.post test) t → result ≡ as_code (find t (part store.now.contexts from (end - from))) }
{
    for i in from..end {
        let o = store.context_at(i);
        if test(o) {
            return Some(o);
        }
    }
    None
}

// The first code from place from to place end whose name is the one given.
pub fn find_code(store: &Store, from: usize, end: usize, name: u16) -> Option<u16>
    ensures { result ≡ as_code (code_named store.now.names name (part store.now.contexts from (end - from))) }
{
    find_where(store, from, end, |o| name == store.name_at(o as usize))
}

// Whether definition g stands under the instance given and has the name given.
pub fn stands_under(store: &Store, g: u16, instance: u16, name: u16) -> bool
    ensures { result ≡ stands_under store.now.names store.now.facts «instance» name g }
{
    let o = g as usize;
    if instance == store.via_at(o) {
        return name == store.name_at(o);
    }
    false
}

// The first definition from number from to end that stands under the instance given and has the name given.
pub fn find_under(store: &Store, from: u16, end: u16, instance: u16, name: u16) -> Option<u16>
    ensures { result ≡ as_code (code_under store.now.names store.now.facts «instance» name (numbers_from from (end - from))) }
{
    for i in from..end {
        if stands_under(store, i, instance, name) {
            return Some(i);
        }
    }
    None
}

// The first of the heads from place from to place end that is x, or end.
pub fn place_of(store: &Store, from: usize, end: usize, x: u16) -> usize
    requires { from ≤ end }
    ensures { result ≡ from + place_of x (part store.now.heads from (end - from)) }
{
    for i in from..end {
        if x == store.head_at(i) {
            return i;
        }
    }
    end
}
