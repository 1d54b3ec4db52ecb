// The fields of a line, read off their places.
ghost use Rattle.std.specs.Prelude.{◌≡◌, length};
ghost use Rattle.report.specs.Refusals.{line_length};
ghost use Rattle.lines.specs.Fields.{answer_in};

use crate::values::{judged_of, signed_of, state_of, value};
use drive::answer::Answer;
use drive::offsets::Pair;

// The answer that a line of this length shows; what a line does not show is 0.
pub(crate) fn answer_in(line: &[u8]) -> Answer
    requires { length line.now ≡ line_length }
    ensures { result ≡ answer_in line.now }
{
    Answer {
        number: value(&line[..1], 16) as u8,
        place: 0,
        state: state_of(line[2], line[3]),
        gate: value(&line[15..16], 10) as u8,
        live: value(&line[17..21], 16) as u16,
        reference: signed_of(line[22], value(&line[23..28], 10)),
        position: value(&line[29..37], 16),
        angle: signed_of(line[38], value(&line[39..44], 10)),
        offsets: Pair::default(),
        retries: 0,
        judged: judged_of(line[45]),
    }
}
