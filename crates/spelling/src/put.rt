// Bytes and symbols put into lent memory from a position on. Where there is no room nothing is put, and the position after is one past the end.
ghost use Rattle.std.specs.Prelude.{[], ◌∷◌, ◌+◌, ◌/◌, ◌%◌, ◌<◌, ◌^◌};
ghost use Rattle.symbols.specs.Symbol.{bytes_of, par, name, call};
ghost use Rattle.spelling.specs.Put.{Put};

pub fn put_byte(out: &mut [u8], q: usize, b: u8) -> usize
    ensures { Put out.old q (b ∷ []) out.new result }
{
    if q < out.len() {
        out[q] = b;
        return q + 1;
    }
    out.len() + 1
}

pub fn put_pair(out: &mut [u8], q: usize, a: u8, b: u8) -> usize
    ensures { Put out.old q (a ∷ b ∷ []) out.new result }
{
    let p = put_byte(out, q, a);
    put_byte(out, p, b)
}

// "Two-byte numbers are big-endian."
pub fn put_number(out: &mut [u8], q: usize, tag: u8, x: u16) -> usize
    ensures { Put out.old q (tag ∷ x / 256 ∷ x % 256 ∷ []) out.new result }
{
    let p = put_byte(out, q, tag);
    put_pair(out, p, (x / 256) as u8, (x % 256) as u8)
}

pub fn put_name(out: &mut [u8], q: usize, x: u16, k: u8) -> usize
    ensures { Put out.old q (bytes_of (name x k ∷ [])) out.new result }
{
    let p = put_number(out, q, 2, x);
    put_byte(out, p, k)
}

pub fn put_parameter(out: &mut [u8], q: usize, i: usize) -> usize
    ensures { Put out.old q (bytes_of (par i ∷ [])) out.new result }
{
    put_pair(out, q, 0, (i % 256) as u8)
}

pub fn put_call(out: &mut [u8], q: usize, n: usize) -> usize
    requires { n < 2 ^ 32 }
    ensures { Put out.old q (bytes_of (call n ∷ [])) out.new result }
{
    put_pair(out, q, ((6 + n / 256) % 256) as u8, (n % 256) as u8)
}
