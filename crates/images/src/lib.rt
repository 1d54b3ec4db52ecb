// Images of parameter blocks: the reader, the writer, and the analog choice of a block.
#![tactic(auto)]

pub mod choice;
pub mod reader;
pub mod writer;

// How many blocks an image has.
pub const BLOCKS: usize = 15;

// An entry: kind, offset, length.
pub(crate) const ENTRY_SIZE: usize = 5;

// The most numbers that a block can hold.
pub const MOST_NUMBERS: usize = 25;

// What a filled block holds: its first `count` numbers. No slice in place of the two: a count above 25 is handed over, too, and refused.
#[derive(Clone, Copy)]
pub struct Filled {
    pub count: u8,
    pub numbers: [u16; MOST_NUMBERS],
}

// A block as the writer is handed it: empty, or filled.
pub type Block = Option<Filled>;
