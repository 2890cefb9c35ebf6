// Checks many files by the archive's own function, reading its reply off the number as a caller in C does: standard input holds records one
// after another, each the number of bytes of card memory to lend, then a file's length, both of three bytes, most significant first, and then
// the file. For each it prints the reply and a checksum of the whole memory, lent or not: so the cards, the zeros of a refusal and every byte
// that has to stay are seen. Ends where the input does, or at a number that is more than there is room for.
#![tactic(auto)]

ghost use Rattle.std.specs.Prelude.{◌≤◌, length};

use list_file::Input;
use rafterclary::rafterclary_check;
use records::{checksum, mark, next_number, read_part};
use std::io;
use std::io::Read;
use unpacking::{Refusal, unpack};

#[derive(Drop)]
struct Memory;

impl Memory {
    // More than the cards take, so that bytes behind them are lent too.
    const BYTES: usize = 40000;
}

// The number of definitions, or the refusal; and a space.
fn print_reply(to: &impl Print, reply: Result<u32, Refusal<u32>>) -> io::Result<()> {
    match reply {
        Ok(n) => print!(to; "ok {n} "),
        Err(r) => print!(to; "{r} "),
    }
}

// Checks a file in the first `lent` bytes of the memory, and prints.
fn check_in(to: &impl Print, file: &[u8], memory: &mut [u8], lent: usize) -> io::Result<()>
    requires { lent ≤ length memory.old }
{
    mark(memory);
    let reply = rafterclary_check(file, &mut memory[..lent]);
    print_reply(to, unpack(reply))?;
    println!(to; "{}", checksum(memory))
}

// Reads one record and checks its file; whether there was one.
fn check_next(
    from: &mut impl Read,
    to: &impl Print,
    space: &mut [u8],
    memory: &mut [u8],
) -> io::Result<bool> {
    let Some(lent) = next_number(from)? else {
        return Ok(false);
    };
    if memory.len() < lent {
        return Ok(false);
    }
    let Some(size) = read_part(from, space)? else {
        return Ok(false);
    };
    check_in(to, &space[..size], memory, lent)?;
    Ok(true)
}

// A proved loop has to end, and nothing says that the input does: there are more turns than any run takes.
fn check_all(
    from: &mut impl Read,
    to: &impl Print,
    space: &mut [u8],
    memory: &mut [u8],
) -> io::Result<()> {
    for _ in 0..u64::MAX {
        if !check_next(from, to, space, memory)? {
            break;
        }
    }
    Ok(())
}

fn main(rt: HostRuntime) -> io::Result<()> {
    let mut space = [0u8; Input::ROOM];
    let mut memory = [0u8; Memory::BYTES];
    check_all(&mut rt.stdin(), &rt, &mut space, &mut memory)
}
