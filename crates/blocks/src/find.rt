// What stands at the front of the bytes: the rows of the page's table.
ghost use Rattle.std.specs.Prelude.{◌≡◌, cond, ltb, length, Ok, Err};
ghost use Rattle.numbers.specs.Bytes.{number};
ghost use Rattle.streams.specs.declared.Missing.TheVariants.{Unknown, Short};
ghost use Rattle.blocks.specs.Table.{most_bytes, reads_front, chooses_front, writes_front, front, found};

use crate::handed::{blocks_of, end_of};
use crate::{CHOOSES_SIZE, HEAD_SIZE, MOST_BYTES};
use images::{BLOCKS, Block};
use numbers::{byte_at, number_at};
use streams::Missing;

// What a record asks for: of R the block; of A the count; of W how many bytes are lent, what they hold, and the blocks.
#[derive(Clone, Copy)]
pub(crate) enum Call {
    Reads(u8),
    Chooses(u16),
    Writes(usize, u8, [Block; BLOCKS]),
}

// A whole record, and how many bytes it has: of R the image is what stands behind its head.
#[derive(Clone, Copy)]
pub(crate) struct Record {
    pub(crate) call: Call,
    pub(crate) size: usize,
}

// So many bytes are there.
fn enough(bytes: &[u8], size: usize) -> Result<(), Missing>
    ensures { result ≡ cond (ltb (length bytes.now) size) (Err Short) (Ok tt) }
{
    if bytes.len() < size {
        Err(Missing::Short)
    } else {
        Ok(())
    }
}

// A number of bytes, of which there are not too many.
fn few_at(bytes: &[u8], at: usize) -> Result<usize, Missing>
    ensures { result ≡ cond (ltb most_bytes (number at bytes.now)) (Err Unknown) (Ok (number at bytes.now)) }
{
    let size = number_at(bytes, at) as usize;
    if MOST_BYTES < size {
        Err(Missing::Unknown)
    } else {
        Ok(size)
    }
}

#[tactic(auto, unfolding(crate::specs::Table::reads_front))]
fn reads_front(bytes: &[u8]) -> Result<Record, Missing>
    ensures { result ≡ found (reads_front bytes.now) }
{
    enough(bytes, HEAD_SIZE)?;
    let size = HEAD_SIZE + few_at(bytes, 2)?;
    enough(bytes, size)?;
    let call = Call::Reads(byte_at(bytes, 1));
    Ok(Record { call, size })
}

#[tactic(auto, unfolding(crate::specs::Table::chooses_front))]
fn chooses_front(bytes: &[u8]) -> Result<Record, Missing>
    ensures { result ≡ found (chooses_front bytes.now) }
{
    enough(bytes, CHOOSES_SIZE)?;
    let call = Call::Chooses(number_at(bytes, 1));
    Ok(Record {
        call,
        size: CHOOSES_SIZE,
    })
}

#[tactic(auto, using(crate::proofs::Places::sizes_are), unfolding(crate::specs::Table::writes_front))]
fn writes_front(bytes: &[u8]) -> Result<Record, Missing>
    ensures { result ≡ found (writes_front bytes.now) }
{
    enough(bytes, HEAD_SIZE)?;
    let lent = few_at(bytes, 1)?;
    let size = end_of(bytes)?;
    enough(bytes, size)?;
    let call = Call::Writes(lent, byte_at(bytes, 3), blocks_of(bytes));
    Ok(Record { call, size })
}

#[tactic(auto, unfolding(crate::specs::Table::front))]
pub(crate) fn find(bytes: &[u8]) -> Result<Record, Missing>
    ensures { result ≡ found (front bytes.now) }
{
    let letter = *bytes.first().ok_or(Missing::End)?;
    match letter {
        b'R' => reads_front(bytes),
        b'A' => chooses_front(bytes),
        b'W' => writes_front(bytes),
        _ => Err(Missing::Unknown),
    }
}
