// What the listing program does.
#![tactic(auto)]

ghost use Rattle.std.specs.Prelude.{◌≡◌, ℕ, ◌+◌, ◌<◌, ◌≤◌, ◌⊎◌, IfOk, IfSome, OnOk, OnErr, length, take};
ghost use Rattle.std.specs.Io.KnownBytes.{Appends, Consumes, IsAtEnd};
ghost use Rattle.limits.specs.Limits.{file_bytes};
ghost use Rattle.rules.specs.Listing.{listing_of};
ghost use Rattle.rules.specs.Run.{overwrite};

use lines::Room;
use list_file::Input;
use reading::read_full;
use std::io;
use std::io::{Read, Write};

// How many bytes were read, and how many there were to print.
#[derive(Clone, Copy)]
pub struct Listed {
    pub read: usize,
    pub printed: usize,
}

fn print_front<W: Write>(text: &[u8], n: usize, to: &mut W) -> io::Result<()>
    requires { n ≤ length text.now }
    ensures { OnOk result (Appends (W.contents to.old) (W.contents to.new) (take n text.now)) }
{
    to.write_all(&text[..n])
}

// Prints the listing of a file, which stays at the front of text; every other byte of text is as it was. The answer is its length. Where
// printing fails, some of the listing may be printed, and text holds the whole of it all the same.
pub fn print_listing<W: Write>(
    file: &[u8],
    text: &mut [u8; Room::TEXT],
    to: &mut W,
) -> io::Result<usize>
    ensures filled { text.new ≡ overwrite (listing_of file.now) text.old }
    ensures count { IfOk result (λ n. n ≡ length (listing_of file.now)) }
    ensures printed { OnOk result (Appends (W.contents to.old) (W.contents to.new) (listing_of file.now)) }
{
    let n = list_file::list(file, text);
    print_front(text, n, to)?;
    Ok(n)
}

// The same of the first n bytes of an input.
fn print_listing_of<W: Write>(
    input: &[u8],
    n: usize,
    text: &mut [u8; Room::TEXT],
    to: &mut W,
) -> io::Result<usize>
    requires { n ≤ length input.now }
    ensures filled { text.new ≡ overwrite (listing_of (take n input.now)) text.old }
    ensures count { IfOk result (λ k. k ≡ length (listing_of (take n input.now))) }
    ensures printed { OnOk result (Appends (W.contents to.old) (W.contents to.new) (listing_of (take n input.now))) }
{
    print_listing(&input[..n], text, to)
}

// Reads an input and prints its listing. What comes after the room for an input is not read: no listing depends on it, so what is printed is the
// listing of all that the reader had (`whole`). The clauses on text hold whatever is read and wherever it is printed; those on what the reader has
// and the writer gets say something where these are known. Where reading fails nothing is printed, and text is as it was; where printing fails
// text holds the listing of what was read.
pub fn list_input<R: Read, W: Write>(
    from: &mut R,
    to: &mut W,
    input: &mut [u8; Input::ROOM],
    text: &mut [u8; Room::TEXT],
) -> io::Result<Listed>
    ensures room { length input.new ≡ file_bytes + 1 }
    ensures within { IfOk result (λ l. l.read ≤ length input.new) }
    ensures filled { IfOk result (λ l. text.new ≡ overwrite (listing_of (take l.read input.new)) text.old) }
    ensures count { IfOk result (λ l. l.printed ≡ length (listing_of (take l.read input.new))) }
    ensures consumed { IfOk result (λ l. Consumes (R.remaining from.old) (R.remaining from.new) (take l.read input.new)) }
    ensures end { IfOk result (λ l. l.read < length input.new → IsAtEnd (R.remaining from.new)) }
    ensures printed { IfOk result (λ l. Appends (W.contents to.old) (W.contents to.new) (listing_of (take l.read input.new))) }
    ensures whole { IfOk result (λ l. IfSome (R.remaining from.old) (λ xs. Appends (W.contents to.old) (W.contents to.new) (listing_of xs))) }
    ensures err { OnErr result ((n : ℕ) × (n ≤ length input.new) × Consumes (R.remaining from.old) (R.remaining from.new) (take n input.new) × ((text.new ≡ text.old) ⊎ (text.new ≡ overwrite (listing_of (take n input.new)) text.old))) }
{
    let read = read_full(from, input)?;
    let printed = print_listing_of(input, read, text, to)?;
    Ok(Listed { read, printed })
}
