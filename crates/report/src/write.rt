// The line, field by field.
ghost use Rattle.std.specs.Prelude.{◌≡◌, ◌++◌, ◌≤◌, length, drop};
ghost use Rattle.report.specs.Refusals.{line_length};
ghost use Rattle.report.specs.Line.{line};

use crate::put::{put_digits, put_letter, put_name, put_signed};
use drive::answer::Answer;

// The fields in the paper's order, each where the one before it ends.
pub(crate) fn fields(answer: Answer, lent: &mut [u8])
    requires line_length_in_bounds { line_length ≤ length lent.old }
    requires state_bound { answer.state ≤ 9 }
    ensures { lent.new ≡ line answer ++ drop line_length lent.old }
{
    // The letter first: one byte in a register until its place comes, and not the two that it is told by (tools/stack).
    let letter = answer.letter();
    let at = put_digits(lent, 0, answer.number as u32, 16, 1, b' ');
    let at = put_name(lent, at, answer.state, b' ');
    let at = put_digits(lent, at, answer.gate as u32, 10, 1, b' ');
    let at = put_digits(lent, at, answer.live as u32, 16, 4, b' ');
    let at = put_signed(lent, at, answer.reference, b' ');
    let at = put_digits(lent, at, answer.position, 16, 8, b' ');
    let at = put_signed(lent, at, answer.angle, b' ');
    put_letter(lent, at, letter, b'\n');
}
