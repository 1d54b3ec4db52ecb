// The lines, written into lent bytes by `text`: each writer puts what fits, and tells the place behind it.
ghost use Rattle.std.specs.Prelude.{◌++◌};
ghost use Rattle.text.specs.Decimal.{decimal, signed_decimal};
ghost use Rattle.text.specs.Text.{text};
ghost use Rattle.text.proofs.Chains.{Puts};
ghost use Rattle.bench.specs.Line.{motor_line, refusal_line};

use drive::answer::Answer;
use text::{put, put_decimal, put_signed};

// A number, and the space after it.
#[tactic(auto, using(text::proofs::Chains::chained))]
fn put_field(lent: &mut [u8], at: usize, number: u64) -> usize
    ensures { Puts at (decimal number ++ text " ") lent.old result lent.new }
{
    let next = put_decimal(lent, at, number);
    put(lent, next, b" ")
}

#[tactic(auto, using(text::proofs::Chains::chained))]
fn put_signed_field(lent: &mut [u8], at: usize, number: i16) -> usize
    ensures { Puts at (signed_decimal number ++ text " ") lent.old result lent.new }
{
    let next = put_signed(lent, at, number);
    put(lent, next, b" ")
}

// The lines from the first lent byte on: of an answer, and of what is no record.
pub(crate) fn motor_line(answer: Answer, lent: &mut [u8]) -> usize
    ensures { Puts 0 (motor_line answer) lent.old result lent.new }
{
    let at = put_field(lent, 0, answer.number as u64);
    let at = put_field(lent, at, answer.place as u64);
    let at = put_field(lent, at, answer.state as u64);
    let at = put_field(lent, at, answer.gate as u64);
    let at = put_field(lent, at, answer.live as u64);
    let at = put_signed_field(lent, at, answer.reference);
    let at = put_field(lent, at, answer.position as u64);
    let at = put_signed_field(lent, at, answer.angle);
    let at = put_field(lent, at, answer.offsets.first as u64);
    let at = put_field(lent, at, answer.offsets.second as u64);
    let at = put_field(lent, at, answer.retries as u64);
    put(lent, at, &[answer.letter(), b'\n'])
}

#[tactic(auto, unfolding(crate::specs::Line::refusal_line))]
pub(crate) fn refusal_line(lent: &mut [u8]) -> usize
    ensures { Puts 0 refusal_line lent.old result lent.new }
{
    put(lent, 0, b"?\n")
}
