// The lines, written into lent bytes by `text`: each writer puts what fits, and tells the place behind it.
ghost use Rattle.std.specs.Prelude.{◌++◌, ◌≤◌, length};
ghost use Rattle.text.specs.Decimal.{decimal};
ghost use Rattle.text.proofs.Chains.{Puts};
ghost use Rattle.images.specs.Table.{numbers_in};
ghost use Rattle.blocks.specs.Line.{told, field, fields, reads_line, chooses_line, writes_line, refusal_line};

use crate::MOST_BYTES;
use images::choice::choose;
use images::reader::{body, verdict};
use images::writer::write;
use images::{BLOCKS, Block};
use numbers::number_at;
use text::{put, put_decimal};
use verdicts::Refusal;

// A number more, and the space before it.
#[tactic(auto, using(crate::proofs::Fields::chain))]
fn put_field(lent: &mut [u8], at: usize, number: u64) -> usize
    ensures { Puts at (field number) lent.old result lent.new }
{
    let next = put(lent, at, b" ");
    put_decimal(lent, next, number)
}

// The first two numbers of a line: those of a refusal, or 0 and 0.
#[tactic(auto, using(crate::proofs::Fields::chain))]
fn put_head(lent: &mut [u8], refusal: Option<Refusal>) -> usize
    ensures { Puts 0 (decimal (told refusal).number ++ field (told refusal).place) lent.old result lent.new }
{
    let number = refusal.map_or(0, Refusal::number);
    let place = refusal.map_or(0, Refusal::place);
    let at = put_decimal(lent, 0, number as u64);
    put_field(lent, at, place as u64)
}

// The numbers of a body. It stands beside `put_bytes`: one writer over an iterator of numbers would need a clause on what that yields,
// longer than a loop.
#[tactic(auto, using(crate::proofs::Fields::chain))]
fn put_numbers(lent: &mut [u8], at: usize, body: &[u8]) -> usize
    requires { at ≤ length lent.old }
    ensures { Puts at (fields (numbers_in body.now)) lent.old result lent.new }
{
    let mut next = at;
    for i in 0..body.len() / 2 {
        next = put_field(lent, next, number_at(body, 2 * i) as u64);
    }
    next
}

#[tactic(auto, using(crate::proofs::Fields::chain))]
fn put_bytes(lent: &mut [u8], at: usize, bytes: &[u8]) -> usize
    requires { at ≤ length lent.old }
    ensures { Puts at (fields bytes.now) lent.old result lent.new }
{
    let mut next = at;
    for byte in bytes {
        next = put_field(lent, next, *byte as u64);
    }
    next
}

// The lines from the first lent byte on: of R, of A and of W.
#[tactic(auto, using(crate::proofs::Fields::chain), unfolding(crate::specs::Line::reads_line))]
pub(crate) fn reads_line(image: &[u8], block: u8, lent: &mut [u8]) -> usize
    ensures { Puts 0 (reads_line block image.now) lent.old result lent.new }
{
    let at = put_head(lent, verdict(image, block).err());
    let at = put_numbers(lent, at, body(image, block));
    put(lent, at, b"\n")
}

#[tactic(auto, using(crate::proofs::Fields::chain), unfolding(crate::specs::Line::chooses_line))]
pub(crate) fn chooses_line(count: u16, lent: &mut [u8]) -> usize
    ensures { Puts 0 (chooses_line count) lent.old result lent.new }
{
    let choice = choose(count);
    let at = put_head(lent, choice.err());
    let at = put_field(lent, at, choice.unwrap_or(0) as u64);
    put(lent, at, b"\n")
}

#[tactic(auto, using(crate::proofs::Fields::chain, crate::proofs::Lengths::lent), unfolding(crate::specs::Line::writes_line))]
pub(crate) fn writes_line(
    count: usize,
    holds: u8,
    blocks: [Block; BLOCKS],
    lent: &mut [u8],
) -> usize
    requires { count ≤ 2048 }
    ensures { Puts 0 (writes_line count holds blocks) lent.old result lent.new }
{
    let mut bytes = [holds; MOST_BYTES];
    let written = write(blocks, &mut bytes[..count]);
    let at = put_head(lent, written.err());
    let at = put_field(lent, at, written.unwrap_or(0) as u64);
    let at = put_bytes(lent, at, &bytes[..count]);
    put(lent, at, b"\n")
}

#[tactic(auto, unfolding(crate::specs::Line::refusal_line))]
pub(crate) fn refusal_line(lent: &mut [u8]) -> usize
    ensures { Puts 0 refusal_line lent.old result lent.new }
{
    put(lent, 0, b"?\n")
}
