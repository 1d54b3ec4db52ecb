// A sentence about a record, as data, and its words: those of the papers.
use crate::words::{Bits, gate_word};
use std::fmt;

// How FAULT was left: the retry is counted as the rule counts.
#[derive(Clone, Copy)]
pub(crate) enum Exit {
    Clear,
    Retry { nth: u64, limit: u64 },
    Neither,
}

#[derive(Clone, Copy)]
pub(crate) enum Sentence {
    Refused {
        call: &'static str,
        number: u8,
        place: u8,
        reason: &'static str,
    },
    NoRecord,
    // How many timed retries are allowed; in mode 0 there are none.
    Loaded {
        retries: Option<u64>,
    },
    LoadedForTwoSensors,
    LoadedForThreeAgain,
    Left {
        by: Exit,
        cause_stood: bool,
    },
    Began,
    StartedUnpermitted,
    // The record of the low.
    StartedByLow {
        low: u64,
    },
    // The record of the retry, and that of the last low, if one was held before it.
    StartedByRetry {
        retry: u64,
        low: Option<u64>,
    },
    Stopped {
        by: &'static str,
    },
    Tripped {
        bits: Bits,
    },
    TrippedByEarlier {
        record: u64,
        bits: Bits,
    },
    TrippedInTheDark,
    Live {
        bits: Bits,
    },
    Gates {
        gate: u8,
    },
    DeadSample {
        nth: u64,
        pattern: u8,
    },
    StraySample {
        nth: u64,
        pattern: u8,
    },
    Samples {
        dead: u64,
        stray: u64,
    },
}

impl fmt::Display for Exit {
    fn fmt<W: fmt::Write>(&self, f: &mut fmt::Formatter<W>) -> fmt::Result {
        match *self {
            Exit::Clear => write!(f, "clear"),
            Exit::Retry { nth, limit } => write!(f, "timed retry {nth} of {limit}"),
            Exit::Neither => write!(f, "neither clear nor timed retry"),
        }
    }
}

impl fmt::Display for Sentence {
    fn fmt<W: fmt::Write>(&self, f: &mut fmt::Formatter<W>) -> fmt::Result {
        match *self {
            Sentence::Refused {
                call,
                number,
                place,
                reason,
            } => write!(
                f,
                "{call} refused: number {number}, place {place}: {reason}"
            ),
            Sentence::NoRecord => write!(
                f,
                "refused: number 6, place 0: unknown or short record; the run ends"
            ),
            Sentence::Loaded { retries: None } => write!(f, "loaded: mode 0, no timed retries"),
            Sentence::Loaded { retries: Some(1) } => write!(f, "loaded: mode 1, 1 retry allowed"),
            Sentence::Loaded {
                retries: Some(limit),
            } => write!(f, "loaded: mode 1, {limit} retries allowed"),
            Sentence::LoadedForTwoSensors => write!(f, "loaded: motor with two Hall sensors"),
            Sentence::LoadedForThreeAgain => write!(
                f,
                "loaded: motor with three Hall sensors again"
            ),
            Sentence::Left {
                by,
                cause_stood: true,
            } => write!(f, "FAULT left: {by}; a live cause stood"),
            Sentence::Left {
                by: Exit::Clear,
                ..
            } => write!(f, "FAULT left: clear"),
            Sentence::Left { by, .. } => write!(f, "FAULT left: {by}; no live cause stood"),
            Sentence::Began => write!(f, "a starting or running state entered without a start"),
            Sentence::StartedUnpermitted => write!(f, "start: not permitted"),
            Sentence::StartedByLow { low } => write!(
                f,
                "start: permitted by the low command at record {low}"
            ),
            Sentence::StartedByRetry { retry, low: None } => write!(
                f,
                "start: permitted by the timed retry at record {retry}; no low was held since the trip"
            ),
            Sentence::StartedByRetry {
                retry,
                low: Some(low),
            } => write!(
                f,
                "start: permitted by the timed retry at record {retry}; the last low was held before it, at record {low}"
            ),
            Sentence::Stopped { by } => write!(f, "stop: {by}"),
            Sentence::Tripped { bits } => write!(f, "trip:{bits}"),
            Sentence::TrippedByEarlier { record, bits } => write!(
                f,
                "trip by record {record}:{bits}"
            ),
            Sentence::TrippedInTheDark => write!(f, "trip: no live bit is shown"),
            Sentence::Live { bits } => write!(f, "live:{bits}"),
            Sentence::Gates { gate } => write!(f, "gates: {}", gate_word(gate)),
            Sentence::DeadSample { nth, pattern } => write!(
                f,
                "dead Hall sample {nth}: pattern {pattern}"
            ),
            Sentence::StraySample { nth, pattern } => write!(
                f,
                "stray Hall sample {nth}: pattern {pattern}"
            ),
            Sentence::Samples { dead, stray } => write!(
                f,
                "Hall samples since the load: {dead} dead, {stray} stray"
            ),
        }
    }
}
