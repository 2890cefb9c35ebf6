// The world of no instance: each declaration stands for itself.
ghost use Rattle.std.specs.Prelude.{◌≡◌, ◌+◌, ◌<◌};
ghost use Rattle.limits.specs.Limits.{max_declarations, max_definitions};
ghost use Rattle.forms.specs.Forms.{Gives};
ghost use Rattle.entering.specs.Itself.{itself_level, Put};

use forms::Form;
use limits::Limits;
use store::Lent;

// A constant is the highest of its arguments, a variable has level 1. The kind of a constant is its argument count.
fn itself(kind: u16) -> u64
    ensures { Gives result (itself_level kind) }
{
    let k = kind as usize;
    if k <= Limits::ARITY {
        return forms::declared_form(k);
    }
    Form::VARIABLE
}

// The form of declaration d, of the kind given, in the table of forms.
pub fn put_itself(kind: u16, words: &mut [u64; Lent::WORDS], d: usize)
    requires { d < max_declarations }
    ensures { Put (itself_level kind) words.old words.new (max_definitions + d) }
{
    words[Limits::DEFINITIONS + d] = itself(kind);
}
