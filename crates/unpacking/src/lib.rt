// What a caller of the archive reads off the number that is handed over.
#![tactic(auto)]

ghost use Rattle.std.specs.Prelude.{◌≡◌};
ghost use Rattle.demands.specs.Packed.{unpacked, unpacked_span, unpacked_truth};
ghost use Rattle.unpacking.specs.Outcomes.{outcome_of, refusal_text};

use std::fmt;

// A refusal's number and place, as wide as they are read off.
#[derive(Clone, Copy)]
pub struct Refusal<N> {
    pub cause: N,
    pub place: N,
}

// As the programs that call the archive print it.
impl<N: fmt::Display> fmt::Display for Refusal<N> {
    ghost output = { refusal_text N.output };

    fn fmt<W: fmt::Write>(&self, f: &mut fmt::Formatter<W>) -> fmt::Result {
        write!(f, "refused {} {}", self.cause, self.place)
    }
}

#[derive(Drop)]
struct Bits;

impl Bits {
    // The highest of 32 bits, which a refusal has set; a result has not.
    const REFUSAL: u32 = 2147483648;
    // And the highest of 64.
    const WIDE_REFUSAL: u64 = 9223372036854775808;
    // As many places as there are: a refusal's number stands above the 16 bits of its place, a part's start above those of its length.
    const PLACES: u32 = 65536;
    // The same in 64 bits.
    const WIDE_PLACES: u64 = 65536;
}

// The reply of a check, a level query or an expansion: a number of definitions, a level or a length.
pub fn unpack(reply: u32) -> Result<u32, Refusal<u32>>
    ensures { outcome_of result ≡ unpacked reply }
{
    if reply < Bits::REFUSAL {
        return Ok(reply);
    }
    Err(Refusal {
        cause: (reply - Bits::REFUSAL) / Bits::PLACES,
        place: reply % Bits::PLACES,
    })
}

// The reply to whether two definitions are alike.
pub fn unpack_truth(reply: u32) -> Result<bool, Refusal<u32>>
    ensures { outcome_of result ≡ unpacked_truth reply }
{
    let number = unpack(reply)?;
    Ok(number == 1)
}

// The reply to where a body stands: the start of a part of the file and its length.
pub fn unpack_span(reply: u64) -> Result<(u64, u64), Refusal<u64>>
    ensures { outcome_of result ≡ unpacked_span reply }
{
    if reply < Bits::WIDE_REFUSAL {
        return Ok((reply / Bits::WIDE_PLACES, reply % Bits::WIDE_PLACES));
    }
    Err(Refusal {
        cause: (reply - Bits::WIDE_REFUSAL) / Bits::WIDE_PLACES,
        place: reply % Bits::WIDE_PLACES,
    })
}
