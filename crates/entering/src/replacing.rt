// The new forms take the place of the old ones: the declarations' part of the table of forms.
ghost use Rattle.entering.specs.Replaced.{Replaced};

use limits::Limits;
use store::Lent;

pub fn replace(words: &mut [u64; Lent::WORDS], next: &[u64; Limits::DECLARATIONS])
    ensures { Replaced next.now words.old words.new }
{
    words[Limits::DEFINITIONS..Limits::DEFINITIONS + Limits::DECLARATIONS].copy_from_slice(next);
}
