// Causes 9 and 10 of the declared names without a substitution: each must mean an operator where the field stands, "with the same argument
// count".
ghost use Rattle.std.specs.Prelude.{◌≡◌, ◌-◌, ◌≤◌};
ghost use Rattle.limits.specs.Limits.{max_modules};
ghost use Rattle.context.specs.Parts.{part};
ghost use Rattle.context.specs.Entries.{context_codes};
ghost use Rattle.instance_names.specs.Sites.{stands, implied_unknown, kind_count, implied_miscounted, unknown_among, miscounted_among};

use crate::Site;
use context::Kinds;
use context::lookup::is_declared;
use entering::written::find_substitution;
use limits::Limits;
use resolve::lookup::look_up;
use resolve::steps::wrong_count;
use store::Store;
use tokens::Token;

// A code declares a name for which nothing is written.
fn stands_for_itself(file: &[u8], store: &Store, x: Site, o: u16) -> bool
    ensures { result ≡ stands file.now store.now.names store.now.facts x o }
{
    if is_declared(store, o) {
        find_substitution(file, x.at, x.count as usize, store.name_at(o as usize)).is_none()
    } else {
        false
    }
}

// The argument count of a declaration of a kind.
fn kind_count(kind: u16) -> u16
    ensures { result ≡ kind_count kind }
{
    if kind == Kinds::VARIABLE { 0 } else { kind }
}

// 9 of one code.
fn itself_unknown(file: &[u8], store: &Store, x: Site, o: u16) -> bool
    requires { x.modules ≤ max_modules }
    ensures { result ≡ implied_unknown file.now store.now.names store.now.facts store.now.contexts store.now.heads x o }
{
    if stands_for_itself(file, store, x, o) {
        let t = Token::Name(store.name_at(o as usize), 0);
        return look_up(store, x.modules, t).is_none();
    }
    false
}

// 10 of one code.
fn itself_miscounted(file: &[u8], store: &Store, x: Site, o: u16) -> bool
    requires { x.modules ≤ max_modules }
    ensures { result ≡ implied_miscounted file.now store.now.names store.now.facts store.now.contexts store.now.heads x o }
{
    if stands_for_itself(file, store, x, o) {
        let t = Token::Name(store.name_at(o as usize), 0);
        let k = kind_count(store.kind_at(o as usize));
        return wrong_count(k, look_up(store, x.modules, t));
    }
    false
}

// 9 of the names that the module instanced declares.
pub fn implied_unknown(file: &[u8], store: &Store, x: Site) -> bool
    requires { (x.modules ≤ max_modules) × (x.source ≤ max_modules) }
    ensures { result ≡ unknown_among file.now store.now.names store.now.facts store.now.contexts store.now.heads x (context_codes store.now.contexts store.now.heads x.source) }
{
    let from = x.source * Limits::CONTEXT;
    let n = store.head_at(Limits::PLACES + x.source) as usize;
    (from..from + n).any(|i| itself_unknown(file, store, x, store.context_at(i)))
}

// 10 of them.
pub fn implied_miscounted(file: &[u8], store: &Store, x: Site) -> bool
    requires { (x.modules ≤ max_modules) × (x.source ≤ max_modules) }
    ensures { result ≡ miscounted_among file.now store.now.names store.now.facts store.now.contexts store.now.heads x (context_codes store.now.contexts store.now.heads x.source) }
{
    let from = x.source * Limits::CONTEXT;
    let n = store.head_at(Limits::PLACES + x.source) as usize;
    (from..from + n).any(|i| itself_miscounted(file, store, x, store.context_at(i)))
}
