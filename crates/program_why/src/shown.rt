// What the answers show, as sentences: a trip, the live bits, the gates. States and gates are the paper's numbers, as answers have them.
use crate::event::Event;
use crate::sentence::Sentence;
use crate::words::Bits;

fn tripped(e: &Event) -> bool {
    (e.answer().state == 5) & (e.before.heard.onlooker.memory.shown != 5)
}

// The record that lit the live word, where that was an earlier one: a cycle sets bit 15, and the next tick goes to FAULT.
fn earlier(e: &Event) -> Option<u64> {
    let nth = e.after.count();
    e.after
        .heard
        .onlooker
        .scene
        .lit
        .filter(|&record| record != nth)
}

fn bits(e: &Event, live: u16) -> Bits {
    Bits {
        live,
        dead: e.after.heard.onlooker.scene.dead,
        pattern: e.after.plug.pattern,
    }
}

// The bits that tripped it are those that were live before, where an earlier record lit them.
pub(crate) fn trip(e: &Event) -> Option<Sentence> {
    if !tripped(e) {
        return None;
    }
    let live = e.answer().live;
    Some(match earlier(e) {
        Some(record) => Sentence::TrippedByEarlier {
            record,
            bits: bits(e, e.before.heard.onlooker.scene.live),
        },
        None if live == 0 => Sentence::TrippedInTheDark,
        None => Sentence::Tripped {
            bits: bits(e, live),
        },
    })
}

// The live word shows something new that the sentence of a trip does not tell.
fn lights(e: &Event) -> bool {
    let live = e.answer().live;
    let is_new = (live != e.before.heard.onlooker.scene.live) & (live != 0);
    is_new & !(tripped(e) & earlier(e).is_none())
}

pub(crate) fn live(e: &Event) -> Option<Sentence> {
    let bits = bits(e, e.answer().live);
    lights(e).then_some(Sentence::Live { bits })
}

// A start charges, and a stop, a trip or a live bit shuts the gates off.
fn told_of_gates(e: &Event, gate: u8) -> bool {
    let shut = e.stops_running() | lights(e);
    e.seen().started & (gate == 1) | shut & (gate == 0)
}

// The gates changed, and no other sentence tells it.
pub(crate) fn gates(e: &Event) -> Option<Sentence> {
    let gate = e.answer().gate;
    let is_new = gate != e.before.heard.onlooker.scene.gate;
    (is_new & !told_of_gates(e, gate)).then_some(Sentence::Gates { gate })
}
