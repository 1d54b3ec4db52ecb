// What the answers tell of the plug of the Hall sensors: a bad sample, and how many there were.
use crate::event::Event;
use crate::sentence::Sentence;
use onlooker::plug::Plug;

// The first of a row, by its number since the load. Of the others the count is told when the row is over: a plug that is off gives one
// with every cycle.
pub(crate) fn bad_sample(e: &Event) -> Option<Sentence> {
    let (before, after) = (e.before.plug, e.after.plug);
    if (before.row != 0) | (after.row == 0) {
        return None;
    }
    let pattern = e.pattern();
    if after.dead != before.dead {
        return Some(Sentence::DeadSample {
            nth: after.dead,
            pattern,
        });
    }
    Some(Sentence::StraySample {
        nth: after.stray,
        pattern,
    })
}

// How many there were.
pub(crate) fn counts(plug: Plug) -> Option<Sentence> {
    let (dead, stray) = (plug.dead, plug.stray);
    ((dead != 0) | (stray != 0)).then_some(Sentence::Samples { dead, stray })
}

// The counts are told where a row of several is over, and before a load counts anew.
pub(crate) fn samples(e: &Event) -> Option<Sentence> {
    let before = e.before.plug;
    if e.seen().loaded | ((1 < before.row) & (e.after.plug.row == 0)) {
        return counts(before);
    }
    None
}
