// Cause 11: "substituted name not declared there, or twice".
ghost use Rattle.std.specs.Prelude.{◌≡◌, ◌≤◌};
ghost use Rattle.limits.specs.Limits.{max_modules};
ghost use Rattle.instance_names.specs.Sites.{answered_some, is_written, undeclared_at, undeclared_in, repeated_from};

use crate::Site;
use crate::limits_kept::next_start;
use context::Operator;
use context::lookup::find_declared;
use entering::written::find_substitution;
use store::Store;
use tokens::number_at;

fn is_answered(o: Option<Operator>) -> bool
    ensures { result ≡ answered_some o }
{
    match o {
        Some(Operator::Constant(_, _)) => true,
        Some(Operator::Variable(_)) => true,
        Some(Operator::Defined(_)) => false,
        None => false,
    }
}

fn is_written(w: Option<usize>) -> bool
    ensures { result ≡ is_written w }
{
    w.is_some()
}

// Of the substitution at a position.
fn undeclared_at(file: &[u8], store: &Store, x: Site, at: usize) -> bool
    requires { x.source ≤ max_modules }
    ensures { result ≡ undeclared_at file.now store.now.names store.now.facts store.now.contexts store.now.heads x at }
{
    !is_answered(find_declared(store, x.source, number_at(file, at)))
}

pub fn undeclared_name(file: &[u8], store: &Store, x: Site) -> bool
    requires { x.source ≤ max_modules }
    ensures { result ≡ undeclared_in file.now store.now.names store.now.facts store.now.contexts store.now.heads x x.count x.at }
{
    let mut at = x.at;
    for _ in 0..x.count {
        if file.len() < at {
            return false;
        }
        if undeclared_at(file, store, x, at) {
            return true;
        }
        at = next_start(file, at);
    }
    false
}

pub fn repeated_name(file: &[u8], from: usize, count: u8) -> bool
    ensures { result ≡ repeated_from file.now count from }
{
    let mut at = from;
    for left in (0..count as usize).rev() {
        if file.len() < at {
            return false;
        }
        let next = next_start(file, at);
        if is_written(find_substitution(file, next, left, number_at(file, at))) {
            return true;
        }
        at = next;
    }
    false
}
