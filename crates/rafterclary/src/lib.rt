// What the archive hands to C and Rust: a slice is a pointer and a length.
#![tactic(auto)]

ghost use Rattle.std.specs.Prelude.{cond, ◌≡◌, ◌+◌, ◌*◌, ◌≤◌};
ghost use Rattle.limits.specs.Limits.{expansion_bytes, file_bytes};
ghost use Rattle.refusals.specs.Outcomes.{outcome_of};
ghost use Rattle.demands.specs.Archive.{alike_leaves, alike_number, body_leaves, body_number, check_leaves, check_number, expand_leaves, expand_number, expand_writes, level_leaves, level_number};
ghost use Rattle.demands.specs.Packed.{packed, packed_span, packed_truth};
ghost use Rattle.rafterclary.specs.Packable.{FewBytes, InFile, Packable};

use checker::check;
use queries::expansion::expand;
use queries::{alike, body, level};
use refusals::Refusal;

// As `unpacking` takes them apart.
#[derive(Drop)]
struct Bits;

impl Bits {
    // The highest of 32 bits, which a refusal has set; a result has not.
    const REFUSAL: u32 = 2147483648;
    // And the highest of 64.
    const WIDE_REFUSAL: u64 = 9223372036854775808;
    // As many places as there are: a refusal's number stands above the 16 bits of its place, a part's start above those of its length.
    const PLACES: u32 = 65536;
    // The same in 64 bits.
    const WIDE_PLACES: u64 = 65536;
}

fn pack_number(n: usize) -> u32
    requires { n ≤ expansion_bytes }
    ensures { result ≡ n }
{
    n as u32
}

fn pack_truth(b: bool) -> u32
    ensures { result ≡ cond b 1 0 }
{
    if b { 1 } else { 0 }
}

fn pack_span(start: usize, size: usize) -> u64
    requires { start + size ≤ file_bytes }
    ensures { result ≡ 65536 * start + size }
{
    Bits::WIDE_PLACES * (start as u64) + size as u64
}

fn pack_refusal(r: Refusal) -> u32
    requires { r.place ≤ file_bytes }
    ensures { result ≡ 2147483648 + 65536 * r.cause + r.place }
{
    Bits::REFUSAL + Bits::PLACES * (r.cause as u32) + r.place as u32
}

fn pack_wide_refusal(r: Refusal) -> u64
    requires { r.place ≤ file_bytes }
    ensures { result ≡ 9223372036854775808 + 65536 * r.cause + r.place }
{
    Bits::WIDE_REFUSAL + Bits::WIDE_PLACES * (r.cause as u64) + r.place as u64
}

// Each operation's reply as one number: of a check and of an expansion,
fn pack(reply: Result<usize, Refusal>) -> u32
    requires { Packable FewBytes (outcome_of reply) }
    ensures { result ≡ packed (outcome_of reply) }
{
    match reply {
        Ok(n) => pack_number(n),
        Err(r) => pack_refusal(r),
    }
}

// of a level query,
fn pack_level(reply: Result<u8, Refusal>) -> u32
    requires { Packable (λ l. Unit {0}) (outcome_of reply) }
    ensures { result ≡ packed (outcome_of reply) }
{
    match reply {
        Ok(l) => l as u32,
        Err(r) => pack_refusal(r),
    }
}

// of whether two definitions are alike,
fn pack_alike(reply: Result<bool, Refusal>) -> u32
    requires { Packable (λ b. Unit {0}) (outcome_of reply) }
    ensures { result ≡ packed_truth (outcome_of reply) }
{
    match reply {
        Ok(b) => pack_truth(b),
        Err(r) => pack_refusal(r),
    }
}

// and of where a body stands.
fn pack_body(reply: Result<(usize, usize), Refusal>) -> u64
    requires { Packable InFile (outcome_of reply) }
    ensures { result ≡ packed_span (outcome_of reply) }
{
    match reply {
        Ok((start, size)) => pack_span(start, size),
        Err(r) => pack_wide_refusal(r),
    }
}

// Checks a file, and fills the lent card memory.
#[unsafe(no_mangle)]
pub extern "C" fn rafterclary_check(file: &[u8], cards: &mut [u8]) -> u32
    ensures { (result ≡ check_number file.now cards.old) × (cards.new ≡ check_leaves file.now cards.old) }
{
    let reply = check(file, cards);
    pack(reply)
}

// The level of an expression at the end of the module of that name, a level being given for each of its parameters.
#[unsafe(no_mangle)]
pub extern "C" fn rafterclary_level(
    file: &[u8],
    cards: &mut [u8],
    module: u16,
    expr: &[u8],
    levels: &[u8],
) -> u32
    ensures { (result ≡ level_number file.now cards.old «module» levels.now expr.now) × (cards.new ≡ level_leaves file.now cards.old «module» levels.now expr.now) }
{
    let reply = level(file, cards, module, expr, levels);
    pack_level(reply)
}

// Whether two definitions, given by their numbers, are alike.
#[unsafe(no_mangle)]
pub extern "C" fn rafterclary_alike(file: &[u8], cards: &mut [u8], a: u32, b: u32) -> u32
    ensures { (result ≡ alike_number file.now cards.old a b) × (cards.new ≡ alike_leaves file.now cards.old a b) }
{
    let reply = alike(file, cards, a, b);
    pack_alike(reply)
}

// The part of the file that holds the body of a definition, given by its number.
#[unsafe(no_mangle)]
pub extern "C" fn rafterclary_body(file: &[u8], cards: &mut [u8], d: u32) -> u64
    ensures { (result ≡ body_number file.now cards.old d) × (cards.new ≡ body_leaves file.now cards.old d) }
{
    let reply = body(file, cards, d);
    pack_body(reply)
}

// The expansion of an expression over so many parameters at the end of the module of that name, written into the output lent: its length.
#[unsafe(no_mangle)]
pub extern "C" fn rafterclary_expand(
    file: &[u8],
    cards: &mut [u8],
    module: u16,
    expr: &[u8],
    params: u8,
    out: &mut [u8],
) -> u32
    ensures { (result ≡ expand_number file.now cards.old «module» params expr.now out.old) × (cards.new ≡ expand_leaves file.now cards.old «module» params expr.now out.old) × (out.new ≡ expand_writes file.now cards.old «module» params expr.now out.old) }
{
    let reply = expand(file, cards, module, expr, params, out);
    pack(reply)
}
