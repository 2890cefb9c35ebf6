// Declarations of one name and one kind, of which a file may have one in each module: one substitute stands for them all.
ghost use Rattle.std.specs.Prelude.{◌≡◌, true, ◌≤◌, ◌<◌, get_or};
ghost use Rattle.limits.specs.Limits.{max_declarations};
ghost use Rattle.entering.specs.Shared.{Again, same_kind};

use limits::Limits;
use store::Store;

// Whether the codes e and o have one name and one kind.
fn same_kind(store: &Store, e: u16, o: u16) -> bool
    ensures { result ≡ same_kind store.now.names store.now.facts e o }
{
    let a = e as usize;
    let b = o as usize;
    if store.name_at(a) == store.name_at(b) {
        return store.kind_at(a) == store.kind_at(b);
    }
    false
}

// The first declaration of the name and the kind of declaration d: an earlier one, or d itself.
pub fn first_same(store: &Store, d: usize) -> usize
    ensures { (result ≤ d) × (same_kind store.now.names store.now.facts (get_or store.now.declared result 0) (get_or store.now.declared d 0) ≡ true) }
{
    let o = store.declared_at(d);
    for i in 0..d {
        let e = store.declared_at(i);
        if same_kind(store, e, o) {
            return i;
        }
    }
    d
}

// The form at i, at d as well.
pub fn copy_form(next: &mut [u64; Limits::DECLARATIONS], i: usize, d: usize)
    requires { (i < max_declarations) × (d < max_declarations) }
    ensures { Again i d next.old next.new }
{
    next[d] = next[i];
}
