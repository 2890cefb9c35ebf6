// A declared name without a substitution stands for the operator of that name where the INSTANCE field stands, at its own parameters.
ghost use Rattle.std.specs.Prelude.{◌≡◌, ◌+◌, ◌≤◌};
ghost use Rattle.limits.specs.Limits.{max_arity, max_declarations, max_modules};
ghost use Rattle.forms.specs.Forms.{Gives};
ghost use Rattle.entering.specs.Implied.{arguments_of, implied_level, implied_ref, number_of};

use context::Operator;
use context::lookup::{find_operator, is_declared};
use forms::Form;
use limits::Limits;
use store::Store;

// A declaration's number among the declarations; of any other code the first number that is none.
pub fn declared_number(store: &Store, o: u16) -> usize
    ensures { (result ≡ number_of store.now.facts o) × (result ≤ max_declarations) }
{
    if is_declared(store, o) {
        let d = store.first_at(o as usize) as usize;
        if d < Limits::DECLARATIONS {
            return d;
        }
        return Limits::DECLARATIONS;
    }
    Limits::DECLARATIONS
}

// The arguments that a declaration of a kind takes.
pub fn arguments_of(kind: u16) -> usize
    ensures { (result ≡ arguments_of kind) × (result ≤ max_arity) }
{
    let k = kind as usize;
    if k <= Limits::ARITY { k } else { 0 }
}

// What a name is in module `owner`, as a number that the table of names may hold.
pub fn implied_ref(store: &Store, owner: usize, name: u16) -> u16
    requires { owner ≤ max_modules }
    ensures { result ≡ implied_ref store.now.names store.now.facts store.now.contexts store.now.heads owner name }
{
    match find_operator(store, owner, name) {
        Some(Operator::Constant(o, _)) => (Limits::DEFINITIONS + declared_number(store, o)) as u16,
        Some(Operator::Variable(o)) => (Limits::DEFINITIONS + declared_number(store, o)) as u16,
        Some(Operator::Defined(g)) => g,
        None => (Limits::DEFINITIONS + Limits::DECLARATIONS) as u16,
    }
}

// The form of what r stands for at the instances' parameters around the field, `outer` of them, and then at k parameters that come after
// those and after the field's own.
pub fn implied_form(
    numbers: &[u16],
    words: &[u64],
    r: u16,
    outer: usize,
    params: usize,
    k: usize,
) -> u64
    requires { (outer + params ≤ max_arity) × (k ≤ max_arity) }
    ensures { Gives result (implied_level numbers.now words.now r outer params k) }
{
    let g = levels::names::place_of(numbers, r);
    let w = levels::names::form_at(words, g);
    let base = w % 8;
    let led = forms::add_params(base, Form::PLAIN, w / 8, 0, outer);
    let all = forms::add_params(led.form, Form::PLAIN, led.labels, outer + params, k);
    all.form
}
