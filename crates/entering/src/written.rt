// The substitution that an INSTANCE field writes for a name.
ghost use Rattle.std.specs.Prelude.{◌≡◌};
ghost use Rattle.entering.specs.Written.{written_at};

use tokens::number_at;

// Where the expression written for a name begins: by the first of so many substitutions (a name, a two-byte length, an expression), from a position
// on, that is for the name given.
pub fn find_substitution(s: &[u8], from: usize, count: usize, name: u16) -> Option<usize>
    ensures { result ≡ written_at count s.now from name }
{
    let mut at = from;
    for _i in 0..count {
        if s.len() < at {
            return None;
        }
        let start = at + 4;
        if number_at(s, at) == name {
            return Some(start);
        }
        let size = number_at(s, at + 2) as usize;
        at = start + size;
    }
    None
}
