// One record: the call that it asks for, and the line of its reply.
ghost use Rattle.std.specs.Prelude.{◌≡◌, true, ◌≤◌, length};
ghost use Rattle.report.specs.Refusals.{line_length, accepts};
ghost use Rattle.report.specs.Line.{line};
ghost use Rattle.streams.specs.Run.{refused, lined, runs, output_after, ran_of};
ghost use Rattle.records.specs.Run.{shiftline};

use crate::{Missing, read};
use drive::Drive;
use drive::answer::{Reply, answered as shown};
use report::{LINE_LENGTH, line};
use streams::Ran;
use verdicts::Refusal;

// The line of a reply, for so many bytes.
fn answering(reply: Reply, taken: usize, ended: bool, output: &mut [u8]) -> Ran<Drive>
    requires { accepts reply.answer (length output.old) ≡ true }
    ensures result { result ≡ ran_of (lined (line reply.answer) reply.drive taken ended) }
    ensures lent { output.new
        ≡ output_after (lined (line reply.answer) reply.drive taken ended) output.old }
{
    let _ = line(reply.answer, output);
    Ran {
        state: reply.drive,
        taken,
        written: LINE_LENGTH,
        ended,
    }
}

// A line with number 6 shows the unchanged state.
fn refusing(drive: Drive, output: &mut [u8]) -> Ran<Drive>
    requires { line_length ≤ length output.old }
    ensures result { result ≡ ran_of (refused shiftline drive) }
    ensures lent { output.new ≡ output_after (refused shiftline drive) output.old }
{
    let refusal = Refusal::Record;
    let answer = shown(drive, refusal.number(), refusal.place());
    answering(Reply { drive, answer }, 0, true, output)
}

// One record at most: the run with fuel for one.
pub(crate) fn step(drive: Drive, input: &[u8], closed: bool, output: &mut [u8]) -> Ran<Drive>
    ensures result { result ≡ ran_of (runs shiftline 1 closed (length output.old) input.now drive) }
    ensures lent { output.new
        ≡ output_after (runs shiftline 1 closed (length output.old) input.now drive) output.old }
{
    if output.len() < LINE_LENGTH {
        return Ran::resting(drive);
    }
    match read(input, 0) {
        Ok(record) => answering(drive.call(record.call), record.size, false, output),
        Err(Missing::End) => Ran::resting(drive),
        Err(Missing::Unknown) => refusing(drive, output),
        Err(Missing::Short) => {
            if closed {
                refusing(drive, output)
            } else {
                Ran::resting(drive)
            }
        }
    }
}
