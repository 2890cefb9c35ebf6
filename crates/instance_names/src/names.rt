// Causes 9 and 10 of the expressions written, their names noted.
ghost use Rattle.std.specs.Prelude.{◌≡◌, ◌||◌, ◌≤◌, ◌<◌, ◌^◌};
ghost use Rattle.limits.specs.Limits.{max_modules};
ghost use Rattle.instance_names.specs.Looking.{LooksOne, LooksEach};
ghost use Rattle.instance_names.specs.Sites.{starts};

use crate::Site;
use crate::limits_kept::{arity_there, next_start};
use resolve::Looked;
use resolve::walk::look_at;
use store::{Lent, Store};

// Whether a name is unknown in some expression, and whether an argument count is wrong.
#[derive(Clone, Copy)]
pub struct Flags {
    pub unknown: bool,
    pub miscounted: bool,
}

// The expression of the substitution at a position.
fn look_substitution(
    file: &[u8],
    store: &Store,
    refs: &mut [u16; Lent::REFS],
    x: Site,
    at: usize,
) -> Looked
    requires { (x.modules ≤ max_modules) × (at < 2 ^ 63) }
    ensures { LooksOne file.now store.now.names store.now.facts store.now.contexts store.now.heads x at refs.old refs.new result.unknown result.miscounted result.next }
{
    let k = arity_there(store, x, tokens::number_at(file, at));
    let params = (x.params as usize) + k;
    look_at(file, store, refs, at + 4, x.modules, params)
}

// All of them, one after another.
pub fn look_substitutions(
    file: &[u8],
    store: &Store,
    refs: &mut [u16; Lent::REFS],
    x: Site,
) -> Flags
    requires { x.modules ≤ max_modules }
    ensures { LooksEach file.now store.now.names store.now.facts store.now.contexts store.now.heads x (starts x.count file.now x.at) refs.old refs.new result.unknown result.miscounted }
{
    let mut at = x.at;
    let mut unknown = false;
    let mut miscounted = false;
    for _ in 0..x.count {
        if file.len() < at {
            return Flags {
                unknown,
                miscounted,
            };
        }
        let l = look_substitution(file, store, refs, x, at);
        unknown |= l.unknown;
        miscounted |= l.miscounted;
        at = next_start(file, at);
    }
    Flags {
        unknown,
        miscounted,
    }
}
