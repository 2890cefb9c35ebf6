// Which definition of the world each definition of the module instanced is.
ghost use Rattle.std.specs.Prelude.{◌≡◌, ◌≤◌, get_or, set};
ghost use Rattle.limits.specs.Limits.{max_definitions, max_modules};
ghost use Rattle.context.specs.Entries.{order_of};
ghost use Rattle.entering.specs.Numbering.{Entered};

use context::lists::number_at;
use limits::Limits;
use store::Store;

// Stores x at h, if there is such a place.
fn put_number(next: &mut [u16], h: u16, x: u16)
    ensures { next.new ≡ set next.old h x }
{
    let i = h as usize;
    if i < next.len() {
        next[i] = x;
    }
}

// The number at place b of `numbers` becomes that of the definition at place a of `orders`.
fn enter_number(store: &Store, numbers: &[u16], next: &mut [u16], a: usize, b: usize)
    ensures { next.new ≡ set next.old (get_or store.now.orders a 0) (get_or numbers.now b 0) }
{
    let h = store.order_at(a);
    let x = number_at(numbers, b);
    put_number(next, h, x);
}

// The instance brought its definitions from number `first` on, in the order of module q; `numbers` says which definitions of the world
// those are. The last first, so that of two alike the first counts.
pub fn enter_numbers(store: &Store, q: usize, first: usize, numbers: &[u16], next: &mut [u16])
    requires { (q ≤ max_modules) × (first ≤ max_definitions) }
    ensures { Entered (order_of store.now.orders store.now.heads q) first numbers.now next.old next.new }
{
    let base = q * Limits::DEFINITIONS;
    let count = store.head_at(2 * Limits::PLACES + q) as usize;
    for i in (0..count).rev() {
        enter_number(store, numbers, next, base + i, first + i);
    }
}
