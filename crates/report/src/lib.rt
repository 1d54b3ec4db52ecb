// The report line of an answer, written into bytes that the caller lends.
#![tactic(auto)]

mod put;
mod write;

ghost use Rattle.std.specs.Prelude.{◌≡◌, length};
ghost use Rattle.verdicts.specs.Table.{verdict_of};
ghost use Rattle.report.specs.Refusals.{line_verdict};
ghost use Rattle.report.specs.Line.{lent_after};

use drive::answer::Answer;
use verdicts::{Refusal, refuse};

// How many bytes a line has.
pub const LINE_LENGTH: usize = 47;

fn verdict(answer: Answer, lent: usize) -> Result<(), Refusal>
    ensures { verdict_of result ≡ line_verdict answer lent }
{
    refuse(Refusal::Line(0), lent < LINE_LENGTH)?;
    refuse(Refusal::Line(1), 15 < answer.number)?;
    refuse(Refusal::Line(2), 9 < answer.state)?;
    refuse(Refusal::Line(3), 3 < answer.gate)
}

// Writes the line of an answer to the front of the lent bytes; refused, it writes nothing.
pub fn line(answer: Answer, lent: &mut [u8]) -> Result<(), Refusal>
    ensures result { verdict_of result ≡ line_verdict answer (length lent.old) }
    ensures lent { lent.new ≡ lent_after answer lent.old }
{
    verdict(answer, lent.len())?;
    write::fields(answer, lent);
    Ok(())
}
