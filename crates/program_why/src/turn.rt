// One turn of the program: a record and what is said of it or, where no whole one stands at the front of the input, a read.
use crate::event::{Event, Story};
use crate::happened::{left, loaded, loaded_sensors, refused, start, stop};
use crate::places::Places;
use crate::samples::{bad_sample, counts, samples};
use crate::sentence::Sentence;
use crate::shown::{gates, live, trip};
use pieces::write_out;
use records::{Missing, OUTPUT_SIZE, Record};
use std::io::{Cursor, Input, Write};

// The output is written where less than this is left of it. The sentences of a record have some 2,000 bytes at most: sixteen bits of
// fewer than 60 bytes each, twice, and ten more sentences of fewer than 130.
const SPARE: u64 = 4096;

const FULL: u64 = OUTPUT_SIZE as u64 - SPARE;

// What can be said of a record, in the order in which it is said.
fn sentences(e: &Event) -> [Option<Sentence>; 11] {
    [
        refused(e),
        samples(e),
        loaded(e),
        loaded_sensors(e),
        left(e),
        start(e),
        stop(e),
        bad_sample(e),
        trip(e),
        live(e),
        gates(e),
    ]
}

// There is always room: `SPARE`.
fn put(page: &mut Cursor<&mut [u8]>, nth: u64, sentence: Sentence) {
    let _ = writeln!(page, "record {nth:<5}  {sentence}");
}

// Writes the sentences that stand on the page, and tells whether they were written.
fn flush(rt: &(impl Print + Eprint), page: &mut Cursor<&mut [u8]>) -> bool {
    let bytes = page.get_ref();
    let end = (page.position() as usize).min(bytes.len());
    let is_written = write_out(rt, &bytes[..end], b"why: standard output");
    page.set_position(0);
    is_written
}

// At the end of the records: the dead and stray samples are counted, as of the last one, and what is no record is told of.
fn end(page: &mut Cursor<&mut [u8]>, story: Story, missing: Missing) {
    if let Some(counted) = counts(story.plug) {
        put(page, story.count(), counted);
    }
    if missing != Missing::End {
        put(page, story.count().saturating_add(1), Sentence::NoRecord);
    }
}

fn take(story: Story, record: Record, page: &mut Cursor<&mut [u8]>) -> Story {
    let e = Event {
        call: record.call,
        before: story,
        after: story.after(record.call),
    };
    for sentence in sentences(&e).into_iter().flatten() {
        put(page, e.after.count(), sentence);
    }
    e.after
}

// The story and the places for the next turn; none where there is none, since the records are over, or a read or a write has failed.
pub(crate) fn turn(
    rt: &(impl Input + Print + Eprint),
    story: Story,
    places: Places,
    input: &mut [u8],
    page: &mut Cursor<&mut [u8]>,
) -> Option<(Story, Places)> {
    match places.front(input) {
        Ok(record) => {
            let after = take(story, record, page);
            if FULL < page.position() && !flush(rt, page) {
                return None;
            }
            Some((after, places.behind(record)))
        }
        Err(missing) => {
            let is_over = places.closed || missing == Missing::Unknown;
            if is_over {
                end(page, story, missing);
            }
            if !flush(rt, page) || is_over {
                return None;
            }
            Some((story, places.read_on(rt, input)?))
        }
    }
}
