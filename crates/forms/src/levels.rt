// The level that a form gives at given levels.
ghost use Rattle.std.specs.Prelude.{◌≡◌, ℕ, ◌<◌, replicate};
ghost use Rattle.forms.specs.Labels.{Digit, coded, level_of};
ghost use Rattle.forms.specs.Forms.{level_at};

// The bits of a level.
pub fn bits_of(l: u8) -> u8
    ensures { Digit (coded l) result }
{
    if l < 2 {
        return l;
    }
    if l == 2 {
        return 3;
    }
    if l == 3 {
        return 5;
    }
    7
}

// The level of three bits.
pub fn level_of(b: u8) -> u8
    requires { b < 8 }
    ensures { result ≡ level_of b }
{
    if b < 2 { b } else { b / 2 + 1 }
}

// The level with all parameters at 0.
pub fn level_at_zero(form: u64) -> u8
    ensures { (n : ℕ) → result ≡ level_at form (replicate n 0) }
{
    level_of((form % 8) as u8)
}

// The level with the parameters at v.
pub fn level(form: u64, v: &[u8]) -> u8
    ensures { result ≡ level_at form v.now }
{
    let mut b = (form % 8) as u8;
    let mut left = form / 8;
    for l in v {
        let x = bits_of(*l);
        b |= crate::level_under((left % 8) as u8, x);
        left /= 8;
    }
    level_of(b)
}
