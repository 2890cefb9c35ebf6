// The archive: what C calls, each by the library's function of that name. A slice is a pointer and a length.
#![tactic(auto)]

ghost use Rattle.std.specs.Prelude.{◌≡◌};
ghost use Rattle.demands.specs.Archive.{alike_leaves, alike_number, body_leaves, body_number, check_leaves, check_number, expand_leaves, expand_number, expand_writes, level_leaves, level_number};

// Checks a file, and fills the lent card memory.
#[unsafe(no_mangle)]
pub extern "C" fn rafterclary_check(file: &[u8], cards: &mut [u8]) -> u32
    ensures { (result ≡ check_number file.now cards.old) × (cards.new ≡ check_leaves file.now cards.old) }
{
    rafterclary::rafterclary_check(file, cards)
}

// The level of an expression at the end of the module of that name, a level being given for each of its parameters.
#[unsafe(no_mangle)]
pub extern "C" fn rafterclary_level(
    file: &[u8],
    cards: &mut [u8],
    module: u16,
    expr: &[u8],
    levels: &[u8],
) -> u32
    ensures { (result ≡ level_number file.now cards.old «module» levels.now expr.now) × (cards.new ≡ level_leaves file.now cards.old «module» levels.now expr.now) }
{
    rafterclary::rafterclary_level(file, cards, module, expr, levels)
}

// Whether two definitions, given by their numbers, are alike.
#[unsafe(no_mangle)]
pub extern "C" fn rafterclary_alike(file: &[u8], cards: &mut [u8], a: u32, b: u32) -> u32
    ensures { (result ≡ alike_number file.now cards.old a b) × (cards.new ≡ alike_leaves file.now cards.old a b) }
{
    rafterclary::rafterclary_alike(file, cards, a, b)
}

// The part of the file that holds the body of a definition, given by its number.
#[unsafe(no_mangle)]
pub extern "C" fn rafterclary_body(file: &[u8], cards: &mut [u8], d: u32) -> u64
    ensures { (result ≡ body_number file.now cards.old d) × (cards.new ≡ body_leaves file.now cards.old d) }
{
    rafterclary::rafterclary_body(file, cards, d)
}

// The expansion of an expression over so many parameters at the end of the module of that name, written into the output lent: its length.
#[unsafe(no_mangle)]
pub extern "C" fn rafterclary_expand(
    file: &[u8],
    cards: &mut [u8],
    module: u16,
    expr: &[u8],
    params: u8,
    out: &mut [u8],
) -> u32
    ensures { (result ≡ expand_number file.now cards.old «module» params expr.now out.old) × (cards.new ≡ expand_leaves file.now cards.old «module» params expr.now out.old) × (out.new ≡ expand_writes file.now cards.old «module» params expr.now out.old) }
{
    rafterclary::rafterclary_expand(file, cards, module, expr, params, out)
}
