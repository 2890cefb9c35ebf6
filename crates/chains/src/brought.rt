// The forms of the definitions that an INSTANCE field brought, in order: each is worked out by those before it.
ghost use Rattle.std.specs.Prelude.{◌≡◌, ◌+◌, ◌≤◌, ◌<◌};
ghost use Rattle.limits.specs.Limits.{max_declarations, max_definitions};
ghost use Rattle.chains.specs.Results.{BroughtForms, FormBrought};

use crate::world::world_form;
use store::{Lent, Store};

// The form of definition d.
fn bring_form(
    file: &[u8],
    refs: &[u16],
    words: &mut [u64; Lent::WORDS],
    store: &Store,
    n: usize,
    d: usize,
)
    requires { (n ≤ max_declarations) × (d < max_definitions) }
    ensures { FormBrought file.now refs.now store.now store.now.declared n d words.old words.new }
{
    let f = world_form(file, refs, words, store, n, d);
    words[d] = f;
}

// The forms of the definitions from `first` on, `count` of them.
pub fn brought_forms(
    file: &[u8],
    refs: &[u16],
    words: &mut [u64; Lent::WORDS],
    store: &Store,
    n: usize,
    first: usize,
    count: usize,
)
    requires { (n ≤ max_declarations) × (first + count ≤ max_definitions) }
    ensures { BroughtForms file.now refs.now store.now store.now.declared n first count words.old words.new }
{
    for i in 0..count {
        bring_form(file, refs, words, store, n, first + i);
    }
}
