// What the programs that read records share: numbers and parts on their input, and memory that is marked before a call and summed up after it.
#![tactic(auto)]

ghost use Rattle.std.specs.Prelude.{◌≡◌, ◌+◌, ◌%◌, ◌≤◌, ◌<◌, EachIndex, IfNone, IfOk, IfSome, slice_index};
ghost use Rattle.std.specs.Io.KnownBytes.{IsAtEnd};
ghost use Rattle.records.specs.Read.{NoPart, Numbered, Part, summed};

use reading::read_full;
use std::io;
use std::io::Read;

fn wide(x: u8) -> usize
    ensures { (result ≡ x) × (result ≤ 255) }
{
    x as usize
}

// The number that comes next, of three bytes, most significant first; none where the input ends.
pub fn next_number<R: Read>(from: &mut R) -> io::Result<Option<usize>>
    ensures number { IfOk result (λ o. IfSome o (λ n. Numbered (R.remaining from.old) (R.remaining from.new) n)) }
    ensures end { IfOk result (λ o. IfNone o (IsAtEnd (R.remaining from.new))) }
{
    let mut head = [0u8; 3];
    if read_full(from, &mut head)? < 3 {
        return Ok(None);
    }
    Ok(Some(65536 * wide(head[0]) + 256 * wide(head[1]) + wide(head[2])))
}

// Reads so many bytes to the front of the space, after their number: how many they are; none where there is no room for them, or the input ends.
pub fn read_part<R: Read>(from: &mut R, space: &mut [u8]) -> io::Result<Option<usize>>
    ensures part { IfOk result (λ o. IfSome o (λ n. Part (R.remaining from.old) (R.remaining from.new) space.new n)) }
    ensures none { IfOk result (λ o. IfNone o (NoPart (R.remaining from.old) (R.remaining from.new) space.new)) }
{
    let Some(size) = next_number(from)? else {
        return Ok(None);
    };
    if space.len() < size {
        return Ok(None);
    }
    if read_full(from, &mut space[..size])? < size {
        return Ok(None);
    }
    Ok(Some(size))
}

// No byte before a call is 0 or a level, and none is as the byte beside it.
pub fn mark(memory: &mut [u8])
    ensures { EachIndex memory.new (λ i. slice_index memory.new i ≡ 128 + i % 64) }
{
    for (i, byte) in memory.iter_mut().enumerate() {
        *byte = 128 + (i % 64) as u8;
    }
}

pub fn checksum(memory: &[u8]) -> usize
    ensures { result ≡ summed memory.now }
{
    memory
        .iter()
        .fold(0, |s, byte| (s % 65521 * 31 + wide(*byte)) % 65521)
}
