// Declarations of the same name and kind: the same stands for them.
ghost use Rattle.std.specs.Prelude.{◌≡◌, ◌<◌, length};
ghost use Rattle.limits.specs.Limits.{max_declarations};
ghost use Rattle.templates.specs.Alike.{FirstAlike, FirstsNoted, are_alike};

use limits::Limits;
use store::Store;

fn are_alike(store: &Store, e: usize, f: usize) -> bool
    ensures { result ≡ are_alike store.now.names store.now.facts store.now.declared e f }
{
    let o = store.declared_at(e) as usize;
    let p = store.declared_at(f) as usize;
    if store.name_at(o) == store.name_at(p) {
        return store.kind_at(o) == store.kind_at(p);
    }
    false
}

// The first declaration that is like declaration e.
fn first_alike(store: &Store, e: usize) -> usize
    ensures { FirstAlike store.now.names store.now.facts store.now.declared e result }
{
    for f in 0..e {
        if are_alike(store, e, f) {
            return f;
        }
    }
    e
}

// Of each declaration the first that is like it.
pub fn note_firsts(store: &Store, firsts: &mut [u8])
    requires { length firsts.old ≡ max_declarations }
    ensures { FirstsNoted store.now.names store.now.facts store.now.declared firsts.new }
{
    for e in 0..Limits::DECLARATIONS {
        let f = first_alike(store, e);
        firsts[e] = f as u8;
    }
}
