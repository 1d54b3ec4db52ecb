// The library of `benchline`: every call that its records can ask for, and whole answers as lines of decimal numbers.
#![tactic(auto)]

mod find;
mod line;
mod steps;

ghost use Rattle.std.specs.Prelude.{◌≡◌, ◌≤◌, length};
ghost use Rattle.streams.specs.Run.{run, output_after, ran_of};
ghost use Rattle.bench.specs.Benchline.{benchline};

use drive::Drive;
pub use steps::Benchline;
use streams::Ran;

// Room for any line: nine numbers of twenty digits at most, two with a sign besides, a letter, and a byte after each.
pub const LINE_ROOM: usize = 9 * 21 + 2 * 22 + 2;

// The buffers of a program that reads a stream in pieces. Were each byte a record, all their lines would have room, and after a run no
// more is held than a part of a record: `one_stream` and `left_few` of proofs/Stream.antt.
pub const INPUT_SIZE: usize = 4096;

pub const OUTPUT_SIZE: usize = 1048576;

// Takes whole records from the front of the input and writes their lines one after the other, until the input holds no whole record
// or the output has no room for a line. `closed` says that no more input will come.
pub fn run(drive: Drive, input: &[u8], closed: bool, output: &mut [u8]) -> Ran<Drive>
    ensures result { result ≡ ran_of (run benchline closed (length output.old) input.now drive) }
    ensures lent { output.new
        ≡ output_after (run benchline closed (length output.old) input.now drive) output.old }
    ensures within { (result.taken ≤ length input.now) × (result.written ≤ length output.old) }
{
    streams::run::<Benchline>(drive, input, closed, output)
}
