// The reader: whether an image is well-formed, and the part of it that holds a block. What is private is said of
// any number of blocks, and of entries that stand behind any few bytes.
ghost use Rattle.std.specs.Prelude.{◌≡◌, ◌&&◌, ◌+◌, ◌-◌, ◌*◌, ◌≤◌, IfOk, length};
ghost use Rattle.numbers.specs.Bytes.{number, numbers};
ghost use Rattle.verdicts.specs.Table.{verdict, verdict_of};
ghost use Rattle.images.specs.Image.{fifteen};
ghost use Rattle.images.specs.Table.{keeps, tabled};
ghost use Rattle.images.specs.Told.{told_by};
ghost use Rattle.images.specs.Reads.{rows_of, found_of, found_by, read_rows, Part, HoldsBlock};

use crate::{BLOCKS, ENTRY_SIZE, MOST_NUMBERS};
use numbers::{byte_at, number_at, numbers_at};
use std::ops::Range;
use verdicts::{Refusal, refuse};

// An offset or a length.
fn wide_at(image: &[u8], at: usize) -> usize
    ensures { (result ≡ number at image.now) × (result ≤ 65535) }
{
    number_at(image, at) as usize
}

// The entry at this place keeps its rule, where the bodies before it end at `end`.
#[tactic(auto, unfolding(crate::specs::Table::keeps))]
fn keeps(image: &[u8], at: usize, end: usize) -> bool
    requires { at ≤ 65535 }
    ensures { result ≡ keeps image.now at end }
{
    let offset = wide_at(image, at + 1);
    let size = wide_at(image, at + 3);
    match byte_at(image, at) {
        0 => offset == 0 && size == 0,
        1 => offset == end && (size == 48 || size == 50),
        _ => false,
    }
}

// A form of image: how many bytes stand before the entries, and how many blocks there are.
#[derive(Clone, Copy)]
struct Layout {
    before: usize,
    blocks: usize,
    ghost few: { before + 5 * blocks ≤ 65535 },
}

const FIFTEEN: Layout = Layout {
    before: 0,
    blocks: BLOCKS,
};

impl Layout {
    // Every entry keeps its rule, and where the last body ends the image ends.
    #[tactic(auto, using(crate::proofs::Table::walk), unfolding(crate::specs::Table::ends, crate::specs::Table::kept))]
    fn tabled(self, image: &[u8]) -> bool
        ensures { result ≡ tabled self.before self.blocks image.now }
    {
        let mut end = self.before + ENTRY_SIZE * self.blocks;
        if image.len() < end {
            return false;
        }
        for k in 0..self.blocks {
            let at = self.before + ENTRY_SIZE * k;
            if !keeps(image, at, end) {
                return false;
            }
            end += wide_at(image, at + 3);
        }
        end == image.len()
    }

    // Finds a block of an image that begins as its form does, or not: the part of the image that is its body.
    #[tactic(auto, using(crate::proofs::Search::passed_inside), unfolding(crate::specs::Reads::found_of))]
    fn find(self, image: &[u8], begun: bool, block: u8) -> Result<Range<usize>, Refusal>
        ensures inside { IfOk result (λ place. (place.start ≤ place.end) × (place.end ≤ length image.now)) }
        ensures told { told_by result
            ≡ verdict (rows_of (begun && tabled self.before self.blocks image.now) self.before self.blocks image.now block) }
        ensures found { found_by result
            ≡ found_of (begun && tabled self.before self.blocks image.now) self.before self.blocks image.now block }
    {
        let k = block as usize;
        let at = self.before + ENTRY_SIZE * k;
        let formed = begun & self.tabled(image);
        refuse(Refusal::Image, !formed)?;
        refuse(Refusal::Block, self.blocks <= k)?;
        refuse(Refusal::Empty, byte_at(image, at) != 1)?;
        let start = wide_at(image, at + 1);
        Ok(start..start + wide_at(image, at + 3))
    }
}

fn part(lent: &[u8], place: Range<usize>) -> &[u8]
    requires { (place.start ≤ place.end) × (place.end ≤ length lent.now) }
    ensures { Part lent.entry place.start (place.end - place.start) result }
{
    &lent[place]
}

// Whether an image holds a block.
#[tactic(auto, unfolding(crate::specs::Table::well_formed))]
pub fn verdict(image: &[u8], block: u8) -> Result<(), Refusal>
    ensures { verdict_of result ≡ verdict (read_rows fifteen image.now block) }
{
    FIFTEEN.find(image, true, block)?;
    Ok(())
}

// The part of the image that holds a block; where `verdict` refuses it, an empty part.
#[tactic(auto, using(crate::proofs::Search::taken), unfolding(crate::specs::Table::well_formed))]
pub fn body(image: &[u8], block: u8) -> &[u8]
    ensures { HoldsBlock fifteen image.entry block result }
{
    part(image, FIFTEEN.find(image, true, block).unwrap_or(0..0))
}

// The numbers of a body, in an array for as many as a block can hold; past the end of the body they are 0. A name and a promise of its own
// (docs/PROMISES.md) for one call.
pub fn numbers_of(body: &[u8]) -> [u16; MOST_NUMBERS]
    ensures { result ≡ numbers 25 0 body.now }
{
    numbers_at(body, 0, MOST_NUMBERS, 0)
}
