// What happened, as sentences: a refusal, a load, an exit from FAULT, a start, a stop. Refusals and states are the paper's numbers, as
// answers have them (`drive` src/answer.rt says why).
use crate::event::Event;
use crate::sentence::{Exit, Sentence};
use crate::words::{cycle_word, setting_word, tick_word};
use drive::call::Call;

fn call_name(call: Call) -> &'static str {
    match call {
        Call::Load(_) => "load",
        Call::Cycle(_) => "cycle",
        Call::Tick(_) => "tick",
    }
}

fn field_word(e: &Event, place: u8) -> &'static str {
    match e.call {
        Call::Cycle(_) => cycle_word(place, e.after.has_two_sensors()),
        _ => tick_word(place),
    }
}

fn reason(e: &Event, number: u8, place: u8) -> &'static str {
    match number {
        1 => field_word(e, place),
        2 => setting_word(place),
        3 => "in IDLE there are no settings: load first",
        4 => "outside IDLE and STOP: stop or clear first",
        _ => "no number of document 01",
    }
}

pub(crate) fn refused(e: &Event) -> Option<Sentence> {
    let answer = e.answer();
    if answer.number == 0 {
        return None;
    }
    Some(Sentence::Refused {
        call: call_name(e.call),
        number: answer.number,
        place: answer.place,
        reason: reason(e, answer.number, answer.place),
    })
}

pub(crate) fn loaded(e: &Event) -> Option<Sentence> {
    let seen = e.seen();
    let limit = seen.limit as u64;
    seen.loaded.then_some(Sentence::Loaded {
        retries: e.after.retries_itself().then_some(limit),
    })
}

// Three sensors are the rule, and said only where there were two before.
pub(crate) fn loaded_sensors(e: &Event) -> Option<Sentence> {
    if !e.seen().loaded {
        return None;
    }
    if e.after.has_two_sensors() {
        return Some(Sentence::LoadedForTwoSensors);
    }
    e.before
        .has_two_sensors()
        .then_some(Sentence::LoadedForThreeAgain)
}

pub(crate) fn left(e: &Event) -> Option<Sentence> {
    let seen = e.seen();
    let retry = Exit::Retry {
        nth: e.after.heard.onlooker.past.retries,
        limit: seen.limit as u64,
    };
    let by = if seen.clear {
        Exit::Clear
    } else if seen.due {
        retry
    } else {
        Exit::Neither
    };
    seen.exited.then_some(Sentence::Left {
        by,
        cause_stood: seen.cause_stood | seen.live_shown,
    })
}

// By what a start was permitted: by a low or, failing that, by a timed retry. A low that was held in FAULT permits nothing.
fn permission(e: &Event) -> Sentence {
    let past = e.before.heard.onlooker.past;
    let scene = e.before.heard.onlooker.scene;
    match (past.low, past.retry) {
        (Some(low), _) if past.loaded => Sentence::StartedByLow { low },
        (None, Some(retry)) if past.loaded => Sentence::StartedByRetry {
            retry,
            low: scene.low.filter(|_| scene.trip < scene.low),
        },
        _ => Sentence::StartedUnpermitted,
    }
}

pub(crate) fn start(e: &Event) -> Option<Sentence> {
    let seen = e.seen();
    if seen.started {
        return Some(permission(e));
    }
    seen.began.then_some(Sentence::Began)
}

// A starting or running state was left, and not for FAULT.
pub(crate) fn stop(e: &Event) -> Option<Sentence> {
    let seen = e.seen();
    let by = if seen.low {
        "low command"
    } else if seen.loaded {
        "load"
    } else {
        "without a low command"
    };
    (e.stops_running() & (e.answer().state != 5)).then_some(Sentence::Stopped { by })
}
