// Reads a report line back, for whoever has only the lines of a board, of today or of earlier.
#![tactic(auto)]

mod fields_in;
mod values;

ghost use Rattle.std.specs.Prelude.{◌≡◌, length};
ghost use Rattle.lines.specs.Earlier.{earlier_length, of_today};
ghost use Rattle.lines.specs.Shown.{shown_today, shown_by};

use fields_in::answer_in;
use report::LINE_LENGTH;
use text::put;

// How many bytes a line of an earlier board has, and how many of them stand before its line feed.
pub const EARLIER_LENGTH: usize = 45;

pub const FIELDS_LENGTH: usize = 44;

// What a line shows of the answer whose line it is.
#[derive(Clone, Copy, Default)]
pub struct Shown {
    pub number: u8,
    pub state: u8,
    pub gate: u8,
    pub live: u16,
}

// The answer that the digits show is written again. Only where this gives the very same bytes the line is an answer's, so no field needs
// a check of its own.
fn read_today(line: &[u8]) -> Option<Shown>
    ensures { result ≡ shown_today line.now }
{
    if line.len() != LINE_LENGTH {
        return None;
    }
    let answer = answer_in(line);
    let mut written = [0u8; LINE_LENGTH];
    report::line(answer, &mut written).ok()?;
    if written.as_slice() != line {
        return None;
    }
    Some(Shown {
        number: answer.number,
        state: answer.state,
        gate: answer.gate,
        live: answer.live,
    })
}

// A line of an earlier board in the form of today: it tells of no sample.
fn completed(line: &[u8]) -> [u8; LINE_LENGTH]
    requires { length line.now ≡ earlier_length }
    ensures { result ≡ of_today line.now }
{
    let mut whole = [0u8; LINE_LENGTH];
    let at = put(&mut whole, 0, &line[..FIELDS_LENGTH]);
    let at = put(&mut whole, at, b" .");
    put(&mut whole, at, &line[FIELDS_LENGTH..]);
    whole
}

// What a line shows, and nothing where it is no line that an answer has.
pub fn read(line: &[u8]) -> Option<Shown>
    ensures { result ≡ shown_by line.now }
{
    if line.len() == EARLIER_LENGTH {
        return read_today(&completed(line));
    }
    read_today(line)
}
