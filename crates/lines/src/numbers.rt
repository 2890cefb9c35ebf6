// Bytes and decimal numbers.
ghost use Rattle.std.specs.Prelude.{[], ◌∷◌, ◌+◌, ◌≤◌, ◌<◌, length};
ghost use Rattle.rules.specs.Listing.{digits};
ghost use Rattle.lines.specs.Text.{number};
ghost use Rattle.lines.specs.Writes.{Writes};

// One byte.
pub fn put_byte(out: &mut [u8], at: usize, x: u8) -> usize
    requires { at < length out.old }
    ensures { Writes out.old out.new at (x ∷ []) result }
{
    out[at] = x;
    at + 1
}

// The last of n's digits, as many as are left to be written at most.
fn put_digits(out: &mut [u8], at: usize, n: usize, left: usize) -> usize
    requires { at + left ≤ length out.old }
    ensures { Writes out.old out.new at (digits left n []) result × (result ≤ at + left) }
{
    if left == 0 {
        return at;
    }
    if n < 10 {
        return put_byte(out, at, 48 + n as u8);
    }
    let next = put_digits(out, at, n / 10, left - 1);
    put_byte(out, next, 48 + (n % 10) as u8)
}

// A number, and the byte after it.
pub fn put_number(out: &mut [u8], at: usize, n: usize, after: u8) -> usize
    requires { at + 6 ≤ length out.old }
    ensures { Writes out.old out.new at (number n after) result × (result ≤ at + 6) }
{
    let next = put_digits(out, at, n, 5);
    put_byte(out, next, after)
}
