// The writer: fifteen blocks into lent bytes.
ghost use Rattle.std.specs.Prelude.{◌≡◌, [], ◌∷◌, ◌≤◌, length, take};
ghost use Rattle.numbers.specs.Bytes.{words};
ghost use Rattle.text.proofs.Chains.{Puts};
ghost use Rattle.verdicts.specs.Table.{row, verdict, verdict_of};
ghost use Rattle.images.specs.Image.{fifteen, body_of, entry_of, entries, bodies};
ghost use Rattle.images.specs.Writes.{stored_of, stored_in, other_length, length_rows, image_in, written, written_of, lent_after};

use crate::{BLOCKS, Block, ENTRY_SIZE, Filled, MOST_NUMBERS};
use numbers::word_of;
use text::put;
use verdicts::{Refusal, refuse};

// A filled block whose count is neither 24 nor 25.
fn other_length(block: &Block) -> bool
    ensures { result ≡ other_length block.now }
{
    match block {
        Some(filled) => filled.count != 24 && filled.count != 25,
        None => false,
    }
}

// The first refusal of the blocks and, behind theirs, that of the lent bytes.
#[tactic(auto, using(crate::proofs::Rows::turns), unfolding(crate::proofs::Rows::from))]
fn verdict(blocks: &[Block; BLOCKS], short: bool) -> Result<(), Refusal>
    ensures { verdict_of result ≡ verdict (length_rows 1 blocks.now (row 5 0 short ∷ [])) }
{
    for (k, block) in blocks.iter().enumerate() {
        refuse(Refusal::Setting(k as u8 + 1), other_length(block))?;
    }
    refuse(Refusal::Line(0), short)
}

impl Filled {
    // As many numbers as it counts, and no more than it has.
    fn held(&self) -> &[u16]
        ensures { (result.now ≡ take self.now.count self.now.numbers) × (length result.now ≤ 25) }
    {
        &self.numbers[..(self.count as usize).min(MOST_NUMBERS)]
    }
}

#[tactic(auto, unfolding(numbers::specs::Bytes::words))]
fn held(block: &Block) -> &[u16]
    ensures { (words result.now ≡ body_of (stored_of block.now)) × (length result.now ≤ 25) }
{
    match block {
        Some(filled) => filled.held(),
        None => &[],
    }
}

// How many bytes the body of a block has.
#[tactic(auto, using(crate::proofs::Given::doubled))]
fn size_of(block: &Block) -> u16
    ensures { (result ≡ length (body_of (stored_of block.now))) × (result ≤ 50) }
{
    2 * held(block).len() as u16
}

// An entry and a body for each block.
#[tactic(auto, using(crate::proofs::Given::summed))]
fn image_size(blocks: &[Block; BLOCKS]) -> usize
    ensures { result ≡ length (image_in blocks.now) }
{
    blocks
        .iter()
        .map(|block| ENTRY_SIZE + size_of(block) as usize)
        .sum()
}

// The entry of a block whose body begins at this place.
fn entry(block: &Block, start: u16) -> [u8; ENTRY_SIZE]
    ensures { result ≡ entry_of (stored_of block.now) start }
{
    if block.is_none() {
        return [0; ENTRY_SIZE];
    }
    let [offset, low_offset] = start.to_be_bytes();
    let [size, low_size] = size_of(block).to_be_bytes();
    [1, offset, low_offset, size, low_size]
}

// Puts all entries from the first lent byte on, and tells the place behind them. Each writer here puts what fits.
#[tactic(auto, using(crate::proofs::Puts::chain))]
fn put_entries(lent: &mut [u8], blocks: &[Block; BLOCKS]) -> usize
    ensures { Puts 0 (entries fifteen (stored_in blocks.now) 15) lent.old result lent.new }
{
    let mut at: usize = 0;
    let mut start = (ENTRY_SIZE * BLOCKS) as u16;
    for block in blocks {
        at = put(lent, at, &entry(block, start));
        start += size_of(block);
    }
    at
}

#[tactic(auto, using(crate::proofs::Puts::chain))]
fn put_body(lent: &mut [u8], at: usize, block: &Block) -> usize
    requires { at ≤ length lent.old }
    ensures { Puts at (body_of (stored_of block.now)) lent.old result lent.new }
{
    let mut next = at;
    for number in held(block) {
        next = put(lent, next, &word_of(*number));
    }
    next
}

#[tactic(auto, using(crate::proofs::Puts::chain))]
fn put_bodies(lent: &mut [u8], at: usize, blocks: &[Block; BLOCKS]) -> usize
    requires { at ≤ length lent.old }
    ensures { Puts at (bodies (stored_in blocks.now) 15) lent.old result lent.new }
{
    let mut next = at;
    for block in blocks {
        next = put_body(lent, next, block);
    }
    next
}

// Writes the image of the blocks into the lent bytes, and tells how many they are; refused, it writes none.
#[tactic(auto, using(crate::proofs::Replies::writing))]
pub fn write(blocks: [Block; BLOCKS], lent: &mut [u8]) -> Result<usize, Refusal>
    ensures told { written_of result ≡ written blocks (length lent.old) }
    ensures lent { lent.new ≡ lent_after blocks lent.old }
{
    let size = image_size(&blocks);
    verdict(&blocks, lent.len() < size)?;
    let at = put_entries(lent, &blocks);
    put_bodies(lent, at, &blocks);
    Ok(size)
}
