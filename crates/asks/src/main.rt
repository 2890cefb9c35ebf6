// Asks many questions of many files by the archive's own functions, reading their replies off the numbers as a caller in C does: standard
// input holds records one after another, each the number of bytes of card memory to lend, a file, the kind of question, two numbers, levels, an
// expression and the number of bytes of output to lend; the file, the levels and the expression each after its length. All numbers are of three
// bytes, most significant first. For each it prints the reply and a checksum of the whole card memory, lent or not; of an expansion also one of
// the whole output. Ends where the input does, or at a number that is more than there is room for.
#![tactic(auto)]

ghost use Rattle.std.specs.Prelude.{◌≤◌, length};

use list_file::Input;
use rafterclary::{rafterclary_alike, rafterclary_body, rafterclary_expand, rafterclary_level};
use records::{checksum, mark, next_number, read_part};
use std::io;
use std::io::Read;
use unpacking::{Refusal, unpack, unpack_span, unpack_truth};

#[derive(Drop)]
struct Room;

impl Room {
    // More than the cards take, so that bytes behind them are lent too.
    const MEMORY: usize = 40000;
    // More parameters than a byte counts.
    const LEVELS: usize = 300;
    // More than a file may have: a query's expression has any length.
    const EXPRESSION: usize = 40000;
    // More than the longest expansion takes.
    const OUTPUT: usize = 66000;
    // The largest that three bytes hold. What is asked counts as this where the input ends: the part that follows has no room for so much, and the
    // record ends there, unless the input goes on after all (a terminal's may).
    const NUMBER: usize = 16777215;
}

// A number, a level or a length; or the refusal; and a space.
fn print_reply(to: &impl Print, reply: Result<u32, Refusal<u32>>) -> io::Result<()> {
    match reply {
        Ok(n) => print!(to; "ok {n} "),
        Err(r) => print!(to; "{r} "),
    }
}

// 1 is yes, 0 is no.
fn print_truth(to: &impl Print, reply: Result<bool, Refusal<u32>>) -> io::Result<()> {
    match reply {
        Ok(alike) => print!(to; "ok {} ", u8::from(alike)),
        Err(r) => print!(to; "{r} "),
    }
}

fn print_span(to: &impl Print, reply: Result<(u64, u64), Refusal<u64>>) -> io::Result<()> {
    match reply {
        Ok((start, size)) => print!(to; "ok {start} {size} "),
        Err(r) => print!(to; "{r} "),
    }
}

// Asks in the memory lent, and prints the reply; the level query is kind 1, then come alike and body.
fn ask(
    to: &impl Print,
    kind: usize,
    first: usize,
    second: usize,
    file: &[u8],
    levels: &[u8],
    expr: &[u8],
    cards: &mut [u8],
) -> io::Result<()>
    requires { (first ≤ 16777215) × (second ≤ 16777215) }
{
    match kind {
        1 => {
            let reply = rafterclary_level(file, cards, (first % 65536) as u16, expr, levels);
            print_reply(to, unpack(reply))
        }
        2 => {
            let reply = rafterclary_alike(file, cards, first as u32, second as u32);
            print_truth(to, unpack_truth(reply))
        }
        _ => {
            let reply = rafterclary_body(file, cards, first as u32);
            print_span(to, unpack_span(reply))
        }
    }
}

// Asks in the first `lent` bytes of the memory, and prints the line.
fn ask_in(
    to: &impl Print,
    kind: usize,
    first: usize,
    second: usize,
    file: &[u8],
    levels: &[u8],
    expr: &[u8],
    memory: &mut [u8],
    lent: usize,
) -> io::Result<()>
    requires { (first ≤ 16777215) × (second ≤ 16777215) × (lent ≤ length memory.old) }
{
    mark(memory);
    ask(
        to,
        kind,
        first,
        second,
        file,
        levels,
        expr,
        &mut memory[..lent],
    )?;
    println!(to; "{}", checksum(memory))
}

// Asks for the expansion over so many parameters, kind 4, in the first bytes of both memories, and prints the line.
fn expand_in(
    to: &impl Print,
    name: usize,
    params: usize,
    file: &[u8],
    expr: &[u8],
    memory: &mut [u8],
    lent: usize,
    out: &mut [u8],
    room: usize,
) -> io::Result<()>
    requires { (lent ≤ length memory.old) × (room ≤ length out.old) }
{
    mark(memory);
    mark(out);
    let reply = rafterclary_expand(
        file,
        &mut memory[..lent],
        (name % 65536) as u16,
        expr,
        (params % 256) as u8,
        &mut out[..room],
    );
    print_reply(to, unpack(reply))?;
    println!(to; "{} {}", checksum(memory), checksum(out))
}

// Reads the output's length, which ends a record, and asks; whether there was one.
fn ask_into(
    from: &mut impl Read,
    to: &impl Print,
    kind: usize,
    first: usize,
    second: usize,
    file: &[u8],
    levels: &[u8],
    expr: &[u8],
    memory: &mut [u8],
    lent: usize,
    out: &mut [u8],
) -> io::Result<bool>
    requires { (first ≤ 16777215) × (second ≤ 16777215) × (lent ≤ length memory.old) }
{
    let Some(room) = next_number(from)? else {
        return Ok(false);
    };
    if out.len() < room {
        return Ok(false);
    }
    if kind == 4 {
        expand_in(to, first, second, file, expr, memory, lent, out, room)?;
    } else {
        ask_in(to, kind, first, second, file, levels, expr, memory, lent)?;
    }
    Ok(true)
}

// Reads a record from its expression on, and asks; whether there was one.
fn ask_expression(
    from: &mut impl Read,
    to: &impl Print,
    kind: usize,
    first: usize,
    second: usize,
    file: &[u8],
    levels: &[u8],
    expr: &mut [u8],
    memory: &mut [u8],
    lent: usize,
    out: &mut [u8],
) -> io::Result<bool>
    requires { (first ≤ 16777215) × (second ≤ 16777215) × (lent ≤ length memory.old) }
{
    let Some(size) = read_part(from, expr)? else {
        return Ok(false);
    };
    ask_into(
        from,
        to,
        kind,
        first,
        second,
        file,
        levels,
        &expr[..size],
        memory,
        lent,
        out,
    )
}

// Reads a record after its file, and asks; whether there was one.
fn ask_of(
    from: &mut impl Read,
    to: &impl Print,
    file: &[u8],
    levels: &mut [u8],
    expr: &mut [u8],
    memory: &mut [u8],
    lent: usize,
    out: &mut [u8],
) -> io::Result<bool>
    requires { lent ≤ length memory.old }
{
    let kind = next_number(from)?.unwrap_or(Room::NUMBER);
    let first = next_number(from)?.unwrap_or(Room::NUMBER);
    let second = next_number(from)?.unwrap_or(Room::NUMBER);
    let Some(size) = read_part(from, levels)? else {
        return Ok(false);
    };
    ask_expression(
        from,
        to,
        kind,
        first,
        second,
        file,
        &levels[..size],
        expr,
        memory,
        lent,
        out,
    )
}

// Reads one record and asks; whether there was one.
fn ask_next(
    from: &mut impl Read,
    to: &impl Print,
    file: &mut [u8],
    levels: &mut [u8],
    expr: &mut [u8],
    memory: &mut [u8],
    out: &mut [u8],
) -> io::Result<bool> {
    let Some(lent) = next_number(from)? else {
        return Ok(false);
    };
    if memory.len() < lent {
        return Ok(false);
    }
    let Some(size) = read_part(from, file)? else {
        return Ok(false);
    };
    ask_of(from, to, &file[..size], levels, expr, memory, lent, out)
}

// A proved loop has to end, and nothing says that the input does: there are more turns than any run takes.
fn ask_all(
    from: &mut impl Read,
    to: &impl Print,
    file: &mut [u8],
    levels: &mut [u8],
    expr: &mut [u8],
    memory: &mut [u8],
    out: &mut [u8],
) -> io::Result<()> {
    for _ in 0..u64::MAX {
        if !ask_next(from, to, file, levels, expr, memory, out)? {
            break;
        }
    }
    Ok(())
}

fn main(rt: HostRuntime) -> io::Result<()> {
    let mut file = [0u8; Input::ROOM];
    let mut levels = [0u8; Room::LEVELS];
    let mut expr = [0u8; Room::EXPRESSION];
    let mut memory = [0u8; Room::MEMORY];
    let mut out = [0u8; Room::OUTPUT];
    ask_all(
        &mut rt.stdin(),
        &rt,
        &mut file,
        &mut levels,
        &mut expr,
        &mut memory,
        &mut out,
    )
}
