// The records of the program: what the bytes of its input ask for, and the run over a buffer of them.
#![tactic(auto)]

mod answers;
mod decoded;
mod program;

ghost use Rattle.std.specs.Prelude.{◌≡◌, ◌≤◌, true, length, drop};
ghost use Rattle.drive.specs.AnyCall.{loads};
ghost use Rattle.records.specs.Decoded.{load_size, counts, settings_of, settings_in};
ghost use Rattle.records.specs.Front.{held, front, found};
ghost use Rattle.streams.specs.Run.{run, output_after, ran_of};
ghost use Rattle.records.specs.Run.{shiftline};

use decoded::{cycle_of, settings_of, tick_of};
use drive::Drive;
use drive::call::Call;
pub use program::Shiftline;
use settings::{ALL_SETTINGS, SETTING_COUNT};
pub use streams::Missing;
use streams::Ran;

// How many numbers a load has: in a record L, and in a record M.
const FEW: u8 = SETTING_COUNT as u8;

const ALL: u8 = ALL_SETTINGS as u8;

// How many bytes a record has: a letter, and then the numbers; a byte and two numbers; three bytes and eight numbers.
pub fn load_size(count: u8) -> usize
    ensures { result ≡ load_size count }
{
    1 + 2 * (count as usize)
}

pub const CYCLE_SIZE: usize = 1 + 1 + 2 * 2;

pub const TICK_SIZE: usize = 1 + 3 + 2 * 8;

// The buffers of a program that reads a stream in pieces. The shortest record has 6 bytes, so the lines of everything that the input
// can ask for have room, and after a run no more is held than a part of a record: `one_stream` and `left_few` of proofs/Stream.antt.
pub const INPUT_SIZE: usize = 8192;

pub const OUTPUT_SIZE: usize = 65536;

// A whole record: the call that it asks for, a load with all 25 settings that it means, and how many bytes it has.
#[derive(Clone, Copy)]
pub struct Record {
    pub call: Call,
    pub size: usize,
}

// What is left from a place on.
fn left(input: &[u8], at: usize) -> &[u8]
    ensures { result.now ≡ drop at input.now }
{
    &input[at.min(input.len())..]
}

// A load of so many numbers, if all its bytes are there.
#[tactic(auto, using(crate::proofs::Sizes::size_of_load))]
fn load(bytes: &[u8], count: u8) -> Result<Record, Missing>
    requires { counts count ≡ true }
    ensures { result ≡ found (held (load_size count) (length bytes.now) (loads (settings_of count bytes.now))) }
{
    let size = load_size(count);
    if bytes.len() < size {
        return Err(Missing::Short);
    }
    let call = Call::Load(settings_at(bytes, 0, count));
    Ok(Record { call, size })
}

#[tactic(auto, unfolding(crate::specs::Front::front))]
pub fn read(input: &[u8], at: usize) -> Result<Record, Missing>
    ensures { result ≡ found (front (drop at input.now)) }
{
    let bytes = left(input, at);
    let letter = *bytes.first().ok_or(Missing::End)?;
    match letter {
        b'L' => load(bytes, FEW),
        b'M' => load(bytes, ALL),
        b'C' if CYCLE_SIZE <= bytes.len() => Ok(Record {
            call: Call::Cycle(cycle_of(bytes)),
            size: CYCLE_SIZE,
        }),
        b'T' if TICK_SIZE <= bytes.len() => Ok(Record {
            call: Call::Tick(tick_of(bytes)),
            size: TICK_SIZE,
        }),
        b'C' | b'T' => Err(Missing::Short),
        _ => Err(Missing::Unknown),
    }
}

// The settings that the load at a place means, which has so many numbers; zeros where the bytes of such a load are not all there.
pub fn settings_at(input: &[u8], at: usize, count: u8) -> [u16; ALL_SETTINGS]
    ensures { result ≡ settings_in count (drop at input.now) }
{
    let bytes = left(input, at);
    let known = (count == FEW) | (count == ALL);
    if known & (load_size(count) <= bytes.len()) {
        settings_of(bytes, count)
    } else {
        [0; ALL_SETTINGS]
    }
}

// Takes whole records from the front of the input and writes their lines one after the other, until the input holds no whole record
// or the output has no room for a line. `closed` says that no more input will come.
pub fn run(drive: Drive, input: &[u8], closed: bool, output: &mut [u8]) -> Ran<Drive>
    ensures result { result ≡ ran_of (run shiftline closed (length output.old) input.now drive) }
    ensures lent { output.new
        ≡ output_after (run shiftline closed (length output.old) input.now drive) output.old }
    ensures within { (result.taken ≤ length input.now) × (result.written ≤ length output.old) }
{
    streams::run::<Shiftline>(drive, input, closed, output)
}
