// The shapes of all definitions, and the template of one: the string of its text in which no stand-in is left.
#![tactic(auto)]

pub mod alike;
pub mod making;
pub mod shaping;

use callees::chain::Chain;
use limits::Limits;

// The room for what is worked out along one chain.
#[derive(Drop)]
pub struct ChainRoom;

impl ChainRoom {
    // The numbers that its strings call: the definitions, and a stand-in for each declaration at each level.
    pub const SHAPES: usize = Limits::DEFINITIONS + Chain::LEVELS * Limits::DECLARATIONS;

    // One of its strings: a name of four bytes may become a call and the instances' parameters, of two bytes each.
    pub const TEXT: usize = (1 + Limits::ARITY) * Limits::FILE_BYTES / 2;
}
