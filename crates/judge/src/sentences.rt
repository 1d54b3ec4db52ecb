// What the judge says, written into lent bytes by `text`: each writer puts what fits, and tells the place behind it.
ghost use Rattle.std.specs.Prelude.{◌≡◌};
ghost use Rattle.text.specs.Put.{behind, written};
ghost use Rattle.text.proofs.Chains.{Puts};
ghost use Rattle.judge.specs.NextLine.{line_of};
ghost use Rattle.judge.specs.Sentences.{about, differing, broken, breaking, ending, said};

use crate::fronts::line_size;
use crate::{Breach, Difference, End, Judge};
use text::{put, put_column, put_decimal};

// Bytes for all that the judge can say, whatever it is: `said_within` of proofs/Room.antt.
pub const VERDICT_SIZE: usize = 1024;

// A sentence about a record: its number in a column, and the words.
fn put_about(lent: &mut [u8], at: usize, number: u64, words: &[u8]) -> usize
    ensures { Puts at (about number words.now) lent.old result lent.new }
{
    let at = put(lent, at, b"record ");
    let at = put_column(lent, at, number, 5);
    let at = put(lent, at, b"  ");
    put(lent, at, words)
}

// A line, as far as its line feed.
fn put_line(lent: &mut [u8], at: usize, line: &[u8]) -> usize
    ensures { Puts at (line_of line.now) lent.old result lent.new }
{
    let size = line_size(line).unwrap_or(line.len());
    put(lent, at, &line[..size])
}

// The first line that differs: both as far as their line feed, for an earlier board's are shorter.
fn put_differing(lent: &mut [u8], at: usize, differs: Option<Difference>) -> usize
    ensures { Puts at (differing differs) lent.old result lent.new }
{
    let Some(first) = differs else {
        let words = b"no line of these differs from what the supervisor answers\n";
        return put(lent, at, words);
    };
    let words = b"the line differs from what the supervisor answers\n  expected ";
    let at = put_about(lent, at, first.number, words);
    let at = put_line(lent, at, &first.expected);
    let at = put(lent, at, b"  found    ");
    put_line(lent, at, &first.found)
}

// A rule that does not hold.
fn put_broken(lent: &mut [u8], at: usize, holds: bool, number: u64, words: &[u8]) -> usize
    ensures { Puts at (broken holds number words.now) lent.old result lent.new }
{
    if holds {
        return put(lent, at, b"");
    }
    put_about(lent, at, number, words)
}

// The first entry that breaks demand 3, with each rule that it breaks.
fn put_breaking(lent: &mut [u8], at: usize, breaks: Option<Breach>) -> usize
    ensures { Puts at (breaking breaks) lent.old result lent.new }
{
    let Some(first) = breaks else {
        return put(lent, at, b"none of these breaks demand 3\n");
    };
    let rules = first.rules;
    let gates =
        b"breaks demand 3, gates: they charge or drive, and a live fault stands or no permitted start was taken\n";
    let at = put_broken(lent, at, rules.gates, first.number, gates);
    let exit =
        b"breaks demand 3, exit: FAULT was left with a live cause, without a trip, or neither by a clear nor by a timed retry\n";
    let at = put_broken(lent, at, rules.exit, first.number, exit);
    let retries = b"breaks demand 3, retries: more timed retries than the loaded limit\n";
    put_broken(lent, at, rules.retries, first.number, retries)
}

// How it ended.
fn put_ending(lent: &mut [u8], at: usize, end: Option<End>, number: u64) -> usize
    ensures { Puts at (ending end number) lent.old result lent.new }
{
    match end {
        None | Some(End::Over) => put(lent, at, b""),
        Some(End::Missing) => {
            put_about(lent, at, number, b"has no line: the lines end before it\n")
        }
        Some(End::LeftOver) => {
            let words = b"is not there: the records end, and lines are left over\n";
            put_about(lent, at, number, words)
        }
        Some(End::Unreadable) => {
            let words = b"has a line that cannot be read: nothing behind it is judged\n";
            put_about(lent, at, number, words)
        }
        Some(End::Refused) => {
            let words = b"is unknown or cut short: the run ends there\n";
            put_about(lent, at, number, words)
        }
    }
}

// All that the judge has to say, from the first of the lent bytes on.
pub fn verdict(judge: Judge, lent: &mut [u8]) -> usize
    ensures next { result ≡ behind 0 (said judge) lent.old }
    ensures lent { lent.new ≡ written 0 (said judge) lent.old }
{
    let at = put_decimal(lent, 0, judge.onlooker.past.heard);
    let at = put(lent, at, b" calls judged\n");
    let at = put_differing(lent, at, judge.differs);
    let at = put_breaking(lent, at, judge.breaks);
    put_ending(lent, at, judge.end, judge.next_number())
}
