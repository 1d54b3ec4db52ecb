// The blocks that W hands to the writer, read off its bytes.
ghost use Rattle.std.specs.Prelude.{◌≡◌, ◌≤◌, cond, map, drop, Ok, Err};
ghost use Rattle.streams.specs.declared.Missing.TheVariants.{Unknown};
ghost use Rattle.blocks.specs.Table.{block_size, place_of, bad_kind, block_at, handed, blocks_of};

use crate::HEAD_SIZE;
use images::{BLOCKS, Block, Filled, MOST_NUMBERS};
use numbers::{byte_at, numbers_at};
use streams::Missing;

// The byte of the record that says filled; that of an empty block is 0, and more is bad.
const FILLED: u8 = 1;

// Kind, count, and two bytes for each number that follows.
fn block_size(count: u8) -> usize
    ensures { (result ≡ block_size count) × (result ≤ 52) }
{
    2 + 2 * (count as usize).min(MOST_NUMBERS)
}

// What is left from a place on.
fn left(bytes: &[u8], place: usize) -> &[u8]
    ensures { result.now ≡ drop place bytes.now }
{
    &bytes[place.min(bytes.len())..]
}

// The numbers are read off what is left, so that none of them adds its place to that of the block.
#[tactic(auto, using(crate::proofs::Places::numbers_left), unfolding(crate::specs::Table::block_at))]
fn block_at(bytes: &[u8], place: usize) -> Block
    requires { place ≤ 65533 }
    ensures { result ≡ handed (block_at bytes.now place) }
{
    let count = byte_at(bytes, place + 1);
    let numbers = numbers_at(left(bytes, place + 2), 0, count as usize, 0);
    (byte_at(bytes, place) == FILLED).then_some(Filled { count, numbers })
}

// Where the fifteen blocks end, unless the kind of one is bad: a part of a record is only walked over.
#[tactic(auto, unfolding(crate::specs::Table::place_of, crate::specs::Table::bad_kind))]
pub(crate) fn end_of(bytes: &[u8]) -> Result<usize, Missing>
    ensures { result ≡ cond (bad_kind bytes.now 15) (Err Unknown) (Ok (place_of bytes.now 15)) }
{
    let mut place = HEAD_SIZE;
    for _ in 0..BLOCKS {
        if FILLED < byte_at(bytes, place) {
            return Err(Missing::Unknown);
        }
        place += block_size(byte_at(bytes, place + 1));
    }
    Ok(place)
}

// The fifteen blocks.
#[tactic(auto, unfolding(crate::specs::Table::place_of, crate::specs::Table::blocks_of))]
pub(crate) fn blocks_of(bytes: &[u8]) -> [Block; BLOCKS]
    ensures { result ≡ map handed (blocks_of bytes.now 15) }
{
    let mut blocks = [None; BLOCKS];
    let mut place = HEAD_SIZE;
    for block in &mut blocks {
        *block = block_at(bytes, place);
        place += block_size(byte_at(bytes, place + 1));
    }
    blocks
}
