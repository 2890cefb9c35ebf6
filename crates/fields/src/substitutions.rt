// Paper 01, "each is a declared name, a two-byte length, an expression": the substitutions of an INSTANCE field.
ghost use Rattle.std.specs.Prelude.{◌≡◌, ◌≤◌, length};
ghost use Rattle.fields.specs.Substitution.{substitution_at, substitution_fits, substitutions_fit};

// The declared name; where its expression begins, and its length. The next substitution begins after that.
#[derive(Clone, Copy)]
pub struct Substitution {
    pub name: u16,
    pub start: usize,
    pub len: usize,
}

// The substitution that begins at a position, its bytes taken to be there.
pub fn substitution_at(s: &[u8], at: usize) -> Substitution
    requires { at ≤ length s.now }
    ensures { result ≡ substitution_at s.now at }
{
    Substitution {
        name: tokens::number_at(s, at),
        start: at + 4,
        len: tokens::number_at(s, at + 2) as usize,
    }
}

// Whether a substitution stands at a position of the payload.
fn substitution_fits(p: &[u8], at: usize) -> bool
    requires { at ≤ length p.now }
    ensures { result ≡ substitution_fits p.now at }
{
    if p.len() - at < 4 {
        return false;
    }
    if tokens::number_at(p, at) == 0 {
        return false;
    }
    let n = tokens::number_at(p, at + 2) as usize;
    let a = at + 4;
    if p.len() - a < n {
        return false;
    }
    let e = a + n;
    tokens::whole(&p[a..e])
}

// Whether so many substitutions fill the payload from a position on.
pub fn substitutions_fit(p: &[u8], from: usize, count: u8) -> bool
    requires { from ≤ length p.now }
    ensures { result ≡ substitutions_fit count p.now from }
{
    let mut at = from;
    for _i in 0..count {
        if !substitution_fits(p, at) {
            return false;
        }
        let x = substitution_at(p, at);
        at = x.start + x.len;
    }
    at == p.len()
}
