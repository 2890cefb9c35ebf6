// Prints the listings of many files: standard input holds them one after another, each a length of three bytes, most significant first, and
// that many bytes. Ends where the input does, or at a length that is more than one over the limit of a file.
#![tactic(auto)]

use lines::Room;
use list_file::Input;
use list_input::print_listing;
use records::read_part;
use std::io;
use std::io::{Read, Write};

// Reads one file and prints its listing; whether there was one.
fn list_next(
    from: &mut impl Read,
    to: &mut impl Write,
    space: &mut [u8],
    text: &mut [u8; Room::TEXT],
) -> io::Result<bool> {
    let Some(size) = read_part(from, space)? else {
        return Ok(false);
    };
    print_listing(&space[..size], text, to)?;
    Ok(true)
}

// A proved loop has to end, and nothing says that the input does: there are more turns than any run takes.
fn list_all(
    from: &mut impl Read,
    to: &mut impl Write,
    space: &mut [u8],
    text: &mut [u8; Room::TEXT],
) -> io::Result<()> {
    for _ in 0..u64::MAX {
        if !list_next(from, to, space, text)? {
            break;
        }
    }
    Ok(())
}

fn main(rt: HostRuntime) -> io::Result<()> {
    let mut space = [0u8; Input::ROOM];
    let mut text = [0u8; Room::TEXT];
    list_all(&mut rt.stdin(), &mut rt.stdout(), &mut space, &mut text)
}
