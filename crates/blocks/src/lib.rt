// The library of `blockline`: every call of `images` that its records can ask for, and whole answers as lines of decimal numbers.
#![tactic(auto)]

mod find;
mod handed;
mod line;
mod program;
mod steps;

ghost use Rattle.std.specs.Prelude.{◌≡◌, ◌≤◌, length};
ghost use Rattle.streams.specs.Run.{run, output_after, ran_of};
ghost use Rattle.blocks.specs.Blockline.{blockline};

pub use program::Blockline;
use streams::Ran;

// The most bytes of an image, and the most that are lent.
pub(crate) const MOST_BYTES: usize = 2048;

// What stands before an image, and before the blocks of W.
pub(crate) const HEAD_SIZE: usize = 4;

pub(crate) const CHOOSES_SIZE: usize = 3;

// Room for any line: three numbers and every lent byte, of twenty digits at most, and a byte after each.
pub const LINE_ROOM: usize = 21 * (3 + MOST_BYTES);

// The buffers of a program that reads a stream in pieces. All lines of what the first can hold have room in the second, and after a run
// no more is held than a part of a record: `one_stream` and `left_few` of proofs/Stream.antt.
pub const INPUT_SIZE: usize = 3072;

pub const OUTPUT_SIZE: usize = 4194304;

// Takes whole records from the front of the input and writes their lines one after the other, until the input holds no whole record
// or the output has no room for a line. `closed` says that no more input will come.
pub fn run(input: &[u8], closed: bool, output: &mut [u8]) -> Ran<()>
    ensures result { result ≡ ran_of (run blockline closed (length output.old) input.now tt) }
    ensures lent { output.new
        ≡ output_after (run blockline closed (length output.old) input.now tt) output.old }
    ensures within { (result.taken ≤ length input.now) × (result.written ≤ length output.old) }
{
    streams::run::<Blockline>((), input, closed, output)
}
