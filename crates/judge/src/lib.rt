// The judge of a board: he holds the lines that it printed against what the supervisor answers to the same records, and against demand 3.
#![tactic(auto)]

mod entries;
mod fronts;
pub mod sentences;
mod turns;

ghost use Rattle.std.specs.Prelude.{◌≡◌, ◌≤◌, length};
ghost use Rattle.judge.specs.Judged.{nothing_judged};
ghost use Rattle.judge.specs.Run.{run};

use drive::Drive;
use onlooker::Onlooker;
use onlooker::past::Rules;
use report::LINE_LENGTH;

// A record whose line is not the supervisor's: its number, the line that it should have, and the one that it has. Memory is fixed, so
// each has the room of a line of today, with zeros behind a shorter one.
#[derive(Clone, Copy, PartialEq, Eq, Debug)]
pub struct Difference {
    pub number: u64,
    pub expected: [u8; LINE_LENGTH],
    pub found: [u8; LINE_LENGTH],
}

// A record after which a rule of demand 3 is broken: its number, and which rules held.
#[derive(Clone, Copy)]
pub struct Breach {
    pub number: u64,
    pub rules: Rules,
}

// How it ended: with the last record and the last line; at a record without a line; at a line without a record; at a line that cannot be
// read; at a record that is none.
#[derive(Clone, Copy, PartialEq, Eq, Debug)]
pub enum End {
    Over,
    Missing,
    LeftOver,
    Unreadable,
    Refused,
}

// The supervisor that answers the records, and the onlooker who hears them with the board's own answers. The first record whose line
// differs, the first that breaks the demand, and how it ended, if it has.
#[derive(Clone, Copy)]
pub struct Judge {
    pub drive: Drive,
    pub onlooker: Onlooker,
    pub differs: Option<Difference>,
    pub breaks: Option<Breach>,
    pub end: Option<End>,
}

// What is wanted next.
#[derive(Clone, Copy, PartialEq, Eq, Debug)]
pub enum Wants {
    Turn,
    Records,
    Lines,
    Nothing,
}

// What a run has come to: the judge, how many bytes of the records and of the lines he took, and what he wants next.
#[derive(Clone, Copy)]
pub struct Ran {
    pub judge: Judge,
    pub taken: usize,
    pub lines: usize,
    pub wants: Wants,
}

impl Judge {
    // Before the first record.
    pub fn new() -> Judge
        ensures { result ≡ nothing_judged }
    {
        Judge {
            drive: Drive::power_up(),
            onlooker: Onlooker::new(),
            differs: None,
            breaks: None,
            end: None,
        }
    }
}

// The bytes of a stream that have arrived, and whether no more of it will come.
#[derive(Clone, Copy)]
pub struct Arrived<'a> {
    pub bytes: &'a [u8],
    pub over: bool,
}

// Judges record after record, each with its line, while there is a whole one of each.
pub fn run(judge: Judge, records: Arrived, lines: Arrived) -> Ran
    ensures result { result ≡ run records.entry.over records.entry.bytes.now lines.entry.over lines.entry.bytes.now judge }
    ensures within { (result.taken ≤ length records.entry.bytes.now) × (result.lines ≤ length lines.entry.bytes.now) }
{
    let mut ran = Ran {
        judge,
        taken: 0,
        lines: 0,
        wants: Wants::Turn,
    };
    for _ in records.bytes {
        ran.onward(records, lines);
        if ran.wants != Wants::Turn {
            return ran;
        }
    }
    ran.onward(records, lines);
    ran
}
