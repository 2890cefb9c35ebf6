// Prints the limits of paper 01 as the checker was built with them.
#![tactic(auto)]

use limits::Limits;
use std::io;

fn show(rt: &impl Print, name: &str, value: usize) -> io::Result<()> {
    println!(rt; "{name} {value}")
}

fn main(rt: HostRuntime) -> io::Result<()> {
    show(&rt, "bytes of a file", Limits::FILE_BYTES)?;
    show(&rt, "modules", Limits::MODULES)?;
    show(&rt, "declarations", Limits::DECLARATIONS)?;
    show(&rt, "definitions", Limits::DEFINITIONS)?;
    show(&rt, "parameters or arguments", Limits::ARITY)?;
    show(&rt, "nesting", Limits::NESTING)?;
    show(&rt, "bytes of card memory", Limits::CARD_MEMORY_BYTES)?;
    show(&rt, "bytes of an expansion", Limits::EXPANSION_BYTES)
}
