// A stream that is read in pieces: what every program that answers records does with its buffers. The unanswered bytes go to the front,
// the next piece is read behind them, and a call that fails is told on standard error.
#![tactic(auto)]

mod serving;

ghost use Rattle.std.specs.Prelude.{true, ◌≡◌, ◌++◌, length, drop};
ghost use Rattle.pieces.specs.Between.{between};
ghost use Rattle.pieces.specs.Reads.{Reads};

pub use serving::{Names, serve, serve_runnable};
use std::fmt::InlineText;
use std::io::{Error, ErrorKind, Input, Read};
use std::str::from_utf8;

// Moves the bytes from one place up to another to the front, and tells how many they are. Where the places lie past the end, or the
// second before the first, there are fewer or none.
pub fn move_to_front(bytes: &mut [u8], from: usize, to: usize) -> usize
    ensures result { result ≡ length (between from to bytes.old) }
    ensures lent { bytes.new
        ≡ between from to bytes.old ++ drop (length (between from to bytes.old)) bytes.old }
{
    let end = to.min(bytes.len());
    let from = from.min(end);
    bytes.copy_within(from..end, 0);
    end - from
}

// The system's words for an error, without the number that is told behind them.
fn words(told: &str) -> &str {
    told.split_once(" (os error ")
        .map_or(told, |(words, _)| words)
}

// Tells on standard error, in a line, what failed, as the caller names it, and why. Where that cannot be told nothing is left to do.
pub fn fail(rt: &impl Eprint, what: &[u8], error: Error) {
    let told = InlineText::<128>::of(error);
    let why = words(told.as_str());
    let name = from_utf8(what).unwrap_or("");
    let _ = eprintln!(rt; "{name}: {why}");
}

// A reader that has gone, as `head` does, is no failure to tell of.
fn tell(rt: &impl Eprint, what: &[u8], error: Error) {
    if error.kind() != ErrorKind::BrokenPipe {
        fail(rt, what, error);
    }
}

// Reads from standard input once, behind the bytes that are held, and tells how many came: 0 at the end of the input, and nothing where
// the read fails. A failure is told under the name `what`.
pub fn read_behind(
    rt: &(impl Input + Eprint),
    bytes: &mut [u8],
    held: usize,
    what: &[u8],
) -> Option<usize>
    ensures { Reads held bytes.old bytes.new result }
{
    let at = held.min(bytes.len());
    rt.reader()
        .read(&mut bytes[at..])
        .map_err(|error| tell(rt, what, error))
        .ok()
}

// Writes all of the bytes to standard output, and tells whether they were written; none always are. A failure is told here, under the
// name `what`, so that a Result would carry nothing more.
pub fn write_out(rt: &(impl Print + Eprint), bytes: &[u8], what: &[u8]) -> bool
    ensures { length bytes.now ≡ 0 → result ≡ true }
{
    bytes.is_empty()
        || rt
            .write_all(bytes)
            .map_err(|error| tell(rt, what, error))
            .is_ok()
}
