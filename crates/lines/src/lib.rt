// The listing as text in lent memory.
#![tactic(auto)]

mod digits;
mod listing;
mod numbers;

use limits::Limits;
pub use listing::{write_listing, write_refusal};

#[derive(Drop)]
pub struct Room;

impl Room {
    // Room for the longest line and the longest text, as specs/Text.antt explains them.
    pub const LINE: usize = 4 * 6 + 2 * Limits::CARD_BYTES + 1;

    pub const TEXT: usize = 9 + Room::LINE * Limits::DEFINITIONS;
}
