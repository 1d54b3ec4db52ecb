// What stands at the front of the bytes: the rows of the page's table.
ghost use Rattle.std.specs.Prelude.{◌≡◌};
ghost use Rattle.bench.specs.Table.{numbered_size, imaged_size, numbered_front, imaged_front, front, found};

use numbers::{byte_at, number_at};
use records::{Missing, Record, read};

// The longest image of a block load.
const LONGEST_IMAGE: u16 = 2048;

// A whole record: one of `shiftline`; a load of so many numbers; a load of this block from an image of so many bytes.
#[derive(Clone, Copy)]
pub(crate) enum Found {
    Shiftline(Record),
    Numbered(u8),
    Imaged(u8, u16),
}

// How many bytes such records have.
pub(crate) fn numbered_size(count: u8) -> usize
    ensures { result ≡ numbered_size count }
{
    2 + 2 * usize::from(count)
}

pub(crate) fn imaged_size(size: u16) -> usize
    ensures { result ≡ imaged_size size }
{
    4 + usize::from(size)
}

fn numbered(bytes: &[u8]) -> Result<Found, Missing>
    ensures { result ≡ found (numbered_front bytes.now) }
{
    let count = byte_at(bytes, 1);
    if bytes.len() < numbered_size(count) {
        return Err(Missing::Short);
    }
    Ok(Found::Numbered(count))
}

fn imaged(bytes: &[u8]) -> Result<Found, Missing>
    ensures { result ≡ found (imaged_front bytes.now) }
{
    if bytes.len() < 4 {
        return Err(Missing::Short);
    }
    let size = number_at(bytes, 2);
    if LONGEST_IMAGE < size {
        return Err(Missing::Unknown);
    }
    if bytes.len() < imaged_size(size) {
        return Err(Missing::Short);
    }
    Ok(Found::Imaged(byte_at(bytes, 1), size))
}

#[tactic(auto, unfolding(crate::specs::Table::front))]
pub(crate) fn find(bytes: &[u8]) -> Result<Found, Missing>
    ensures { result ≡ found (front bytes.now) }
{
    match byte_at(bytes, 0) {
        b'N' => numbered(bytes),
        b'B' => imaged(bytes),
        _ => read(bytes, 0).map(Found::Shiftline),
    }
}
