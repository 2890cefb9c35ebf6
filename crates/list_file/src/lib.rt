// A file's listing, as the listing program prints it.
#![tactic(auto)]

ghost use Rattle.std.specs.Prelude.{false, ◌≡◌, ◌≤◌, length};
ghost use Rattle.limits.specs.Limits.{file_bytes};
ghost use Rattle.rules.specs.Bytes.{is_empty};
ghost use Rattle.rules.specs.Listing.{listing_of};
ghost use Rattle.rules.specs.Run.{overwrite};
ghost use Rattle.tokens.proofs.Writing.{Bytes};
ghost use Rattle.checker.specs.Settles.{Few};
ghost use Rattle.lines.specs.Text.{text_room};
ghost use Rattle.list_file.specs.Replies.{reply_text};
ghost use Rattle.store.specs.Store.{empty};

use checker::judging::judge_fields;
use context::Counts;
use limits::Limits;
use lines::{Room, write_listing, write_refusal};
use refusals::Refusal;
use store::{Lent, Store};

#[derive(Drop)]
pub struct Input;

impl Input {
    // Room for what a program reads: one byte more than a file may have, so that an input over the limit is seen to be so.
    pub const ROOM: usize = Limits::FILE_BYTES + 1;
}

// The text of a file that was judged.
fn put_reply(
    judged: Result<Counts, Refusal>,
    store: &Store,
    words: &[u64; Lent::WORDS],
    out: &mut [u8; Room::TEXT],
) -> usize
    requires { Few judged }
    ensures { (out.new ≡ overwrite (reply_text store.now.names store.now.facts words.now judged) out.old) × (result ≡ length (reply_text store.now.names store.now.facts words.now judged)) × (result ≤ text_room) }
{
    match judged {
        Ok(c) => write_listing(store, words, c.definitions, out),
        Err(r) => write_refusal(r.cause, r.place, out),
    }
}

// A file of lawful size, judged in a store that is empty.
fn list_in(
    file: &[u8],
    out: &mut [u8; Room::TEXT],
    store: &mut Store,
    refs: &mut [u16; Lent::REFS],
    words: &mut [u64; Lent::WORDS],
) -> usize
    requires { (is_empty file.now ≡ false) × (length file.now ≤ file_bytes) × Bytes file.now × (store.old ≡ empty) }
    ensures { (out.new ≡ overwrite (listing_of file.now) out.old) × (result ≡ length (listing_of file.now)) × (result ≤ text_room) }
{
    let judged = judge_fields(file, store, refs, words);
    put_reply(judged, store, words, out)
}

// A file of lawful size.
fn list_fields(file: &[u8], out: &mut [u8; Room::TEXT]) -> usize
    requires { (is_empty file.now ≡ false) × (length file.now ≤ file_bytes) × Bytes file.now }
    ensures { (out.new ≡ overwrite (listing_of file.now) out.old) × (result ≡ length (listing_of file.now)) × (result ≤ text_room) }
{
    let mut store = Store::empty();
    let mut refs = [0u16; Lent::REFS];
    let mut words = [0u64; Lent::WORDS];
    list_in(file, out, &mut store, &mut refs, &mut words)
}

// The listing of a file at the front of out; every other byte stays. The answer is its length.
pub fn list(file: &[u8], out: &mut [u8; Room::TEXT]) -> usize
    ensures { (out.new ≡ overwrite (listing_of file.now) out.old) × (result ≡ length (listing_of file.now)) × (result ≤ text_room) }
{
    if file.len() == 0 {
        return write_refusal(2, 0, out);
    }
    if Limits::FILE_BYTES < file.len() {
        return write_refusal(2, 0, out);
    }
    list_fields(file, out)
}
