// The output of an expansion.
ghost use Rattle.std.specs.Prelude.{length};
ghost use Rattle.rules.specs.Query.{unless_longer};
ghost use Rattle.symbols.specs.Symbol.{strip};
ghost use Rattle.strings.specs.Read.{string_at};
ghost use Rattle.expanding.specs.Reports.{Reports};

use limits::Limits;
use refusals::Refusal;
use strings::{put_strip, stripped_length};

// The bytes of a string without its brackets are written, if there are no more than 65,535 and the output is as long.
pub fn put_out(a: &[u8], len: usize, out: &mut [u8]) -> Result<usize, Refusal>
    ensures { Reports (unless_longer (strip (string_at a.now 0 len)) (length out.old)) result out.old out.new }
{
    let n = stripped_length(a, len);
    if Limits::EXPANSION_BYTES < n {
        return Err(Refusal {
            cause: 18,
            place: 0,
        });
    }
    if out.len() < n {
        return Err(Refusal {
            cause: 18,
            place: 0,
        });
    }
    put_strip(a, len, out);
    Ok(n)
}
