// One record: the call that it asks for, and the line of its reply.
ghost use Rattle.std.specs.Prelude.{◌≡◌, false, ◌≤◌, length, take, drop};
ghost use Rattle.drive.specs.Calls.{load};
ghost use Rattle.drive.specs.Blocks.{block_load};
ghost use Rattle.numbers.specs.Bytes.{numbers};
ghost use Rattle.streams.specs.Run.{lined, refused, output_after, ran_of};
ghost use Rattle.bench.specs.Table.{Record, imaged_size};
ghost use Rattle.bench.specs.Line.{line_room, motor_line};
ghost use Rattle.bench.specs.Benchline.{benchline};

use crate::find::{Found, find, imaged_size, numbered_size};
use crate::line::{motor_line, refusal_line};
use crate::{LINE_ROOM, run};
use drive::Drive;
use drive::answer::Reply;
use numbers::numbers_at;
use records::Missing;
use streams::{Ran, Records, Runnable};

// The reply to a load of so many numbers, behind the first two bytes of the record.
fn loaded(drive: Drive, bytes: &[u8], count: u8) -> Reply
    ensures { result ≡ load drive (numbers count 2 bytes.now) }
{
    let count = usize::from(count);
    let numbers: [u16; 255] = numbers_at(bytes, 2, count, 0);
    drive.load(&numbers[..count])
}

// The reply to a block load from the image behind the first four bytes.
fn imaged(drive: Drive, bytes: &[u8], block: u8, size: u16) -> Reply
    requires { imaged_size size ≤ length bytes.now }
    ensures { result ≡ block_load drive (take size (drop 4 bytes.now)) block }
{
    drive.load_block(&bytes[4..imaged_size(size)], block)
}

// The line of a reply, for so many bytes.
#[tactic(auto, using(crate::proofs::Lengths::fronts))]
fn answering(reply: Reply, taken: usize, output: &mut [u8]) -> Ran<Drive>
    requires { line_room ≤ length output.old }
    ensures result { result ≡ ran_of (lined (motor_line reply.answer) reply.drive taken false) }
    ensures lent { output.new
        ≡ output_after (lined (motor_line reply.answer) reply.drive taken false) output.old }
{
    Ran {
        state: reply.drive,
        taken,
        written: motor_line(reply.answer, output),
        ended: false,
    }
}

// A line `?` leaves the drive as it is, and ends the run.
#[tactic(auto, using(crate::proofs::Lengths::fronts))]
fn refusing(drive: Drive, output: &mut [u8]) -> Ran<Drive>
    requires { line_room ≤ length output.old }
    ensures result { result ≡ ran_of (refused benchline drive) }
    ensures lent { output.new ≡ output_after (refused benchline drive) output.old }
{
    Ran {
        state: drive,
        taken: 0,
        written: refusal_line(output),
        ended: true,
    }
}

// `benchline` as a program of records.
pub struct Benchline;

impl Records for Benchline {
    type State = Drive;

    ghost Record = { Record };

    ghost program = { benchline };

    #[tactic(auto, using(crate::proofs::Turns::turns))]
    fn step(drive: Drive, input: &[u8], closed: bool, output: &mut [u8]) -> Ran<Drive> {
        if output.len() < LINE_ROOM {
            return Ran::resting(drive);
        }
        match find(input) {
            Ok(Found::Shiftline(record)) => answering(drive.call(record.call), record.size, output),
            Ok(Found::Numbered(count)) => answering(
                loaded(drive, input, count),
                numbered_size(count),
                output,
            ),
            Ok(Found::Imaged(block, size)) => answering(
                imaged(drive, input, block, size),
                imaged_size(size),
                output,
            ),
            Err(Missing::End) => Ran::resting(drive),
            Err(Missing::Unknown) => refusing(drive, output),
            Err(Missing::Short) => {
                if closed {
                    refusing(drive, output)
                } else {
                    Ran::resting(drive)
                }
            }
        }
    }
}

impl Runnable for Benchline {
    fn run(drive: Drive, input: &[u8], closed: bool, output: &mut [u8]) -> Ran<Drive> {
        run(drive, input, closed, output)
    }
}
