// What a name means: the form of what it was resolved to.
ghost use Rattle.std.specs.Prelude.{◌≡◌, get_or, length};
ghost use Rattle.limits.specs.Limits.{max_definitions};
ghost use Rattle.theory.specs.Lists.{numbers_from};
ghost use Rattle.levels.specs.Tables.{place_of};

use limits::Limits;

// The number at a place, 0 past the end.
pub fn number_at(t: &[u16], i: usize) -> u16
    ensures { result ≡ get_or t.now i 0 }
{
    if i < t.len() { t[i] } else { 0 }
}

// The place in the table of forms of what a name was resolved to.
pub fn place_of(numbers: &[u16], r: u16) -> usize
    ensures { result ≡ place_of numbers.now r }
{
    let i = r as usize;
    if i < Limits::DEFINITIONS {
        number_at(numbers, i) as usize
    } else {
        i
    }
}

// The form at a place of the table; past the end, where no name leads, level 0.
pub fn form_at(words: &[u64], g: usize) -> u64
    ensures { result ≡ get_or words.now g 0 }
{
    if g < words.len() { words[g] } else { 0 }
}

// Where the text's module is the world's: each definition is itself.
pub fn identity(numbers: &mut [u16])
    requires { length numbers.old ≡ max_definitions }
    ensures { numbers.new ≡ numbers_from 0 max_definitions }
{
    for i in 0..Limits::DEFINITIONS {
        numbers[i] = i as u16;
    }
}
