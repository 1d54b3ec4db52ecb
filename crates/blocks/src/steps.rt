// One record: the call that it asks for, and its line.
ghost use Rattle.std.specs.Prelude.{◌≡◌, ◌-◌, ◌≤◌, length, take, drop, Ok};
ghost use Rattle.streams.specs.Run.{refused, runs, output_after, ran_of};
ghost use Rattle.text.proofs.Chains.{Puts};
ghost use Rattle.blocks.specs.Table.{front, found};
ghost use Rattle.blocks.specs.Line.{line_room, line_at};
ghost use Rattle.blocks.specs.Blockline.{blockline};

use crate::find::{Call, Record, find};
use crate::line::{chooses_line, reads_line, refusal_line, writes_line};
use crate::{HEAD_SIZE, LINE_ROOM};
use streams::{Missing, Ran};

// The image of R, which stands behind its head.
fn image(bytes: &[u8], size: usize) -> &[u8]
    requires { (4 ≤ size) × (size ≤ length bytes.now) }
    ensures { result.now ≡ take (size - 4) (drop 4 bytes.now) }
{
    &bytes[HEAD_SIZE..size]
}

// The line of the record that stands at the front of the bytes.
#[tactic(auto, using(crate::proofs::Meaning::meant))]
fn line(asked: &Record, bytes: &[u8], output: &mut [u8]) -> usize
    requires { Ok asked.now ≡ found (front bytes.now) }
    ensures { Puts 0 (line_at (front bytes.now)) output.old result output.new }
{
    match asked.call {
        Call::Reads(block) => reads_line(image(bytes, asked.size), block, output),
        Call::Chooses(count) => chooses_line(count, output),
        Call::Writes(lent, holds, blocks) => writes_line(lent, holds, blocks, output),
    }
}

// A line `?` ends the run.
#[tactic(auto, using(crate::proofs::Lengths::fronts))]
fn refusing(output: &mut [u8]) -> Ran<()>
    requires { line_room ≤ length output.old }
    ensures result { result ≡ ran_of (refused blockline tt) }
    ensures lent { output.new ≡ output_after (refused blockline tt) output.old }
{
    let written = refusal_line(output);
    Ran {
        state: (),
        taken: 0,
        written,
        ended: true,
    }
}

// One record at most: the run with fuel for one.
#[tactic(auto, using(crate::proofs::Turns::turns))]
pub(crate) fn step(bytes: &[u8], closed: bool, output: &mut [u8]) -> Ran<()>
    ensures result { result ≡ ran_of (runs blockline 1 closed (length output.old) bytes.now tt) }
    ensures lent { output.new
        ≡ output_after (runs blockline 1 closed (length output.old) bytes.now tt) output.old }
{
    if output.len() < LINE_ROOM {
        return Ran::resting(());
    }
    match find(bytes) {
        Ok(asked) => {
            let written = line(&asked, bytes, output);
            Ran {
                state: (),
                taken: asked.size,
                written,
                ended: false,
            }
        }
        Err(Missing::End) => Ran::resting(()),
        Err(Missing::Unknown) => refusing(output),
        Err(Missing::Short) => {
            if closed {
                refusing(output)
            } else {
                Ran::resting(())
            }
        }
    }
}
