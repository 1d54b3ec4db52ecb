// Turn after turn over the bytes that have arrived, each with one record and its line.
ghost use Rattle.std.specs.Prelude.{◌≡◌, ◌≤◌, length};
ghost use Rattle.records.specs.Front.{front};
ghost use Rattle.judge.specs.Run.{told, follow, turn, onward};

use crate::fronts::line_size;
use crate::{Arrived, Judge, Ran, Wants};
use records::Missing;

// What a turn has come to, beside the judge: how many bytes of the records and of the line it took, and what is wanted next.
#[derive(Clone, Copy)]
struct Turned {
    taken: usize,
    lines: usize,
    wants: Wants,
}

impl Turned {
    // Nothing is taken before more bytes have come.
    fn wanting(wants: Wants) -> Turned
        ensures { result ≡ record { taken = 0; lines = 0; wants = wants } }
    {
        Turned {
            taken: 0,
            lines: 0,
            wants,
        }
    }
}

impl Judge {
    // So many bytes are taken, and it goes on where it has not ended.
    fn told(&self, taken: usize, lines: usize) -> Turned
        ensures { result ≡ record { taken = taken; lines = lines; wants = (told self.now taken lines).wants } }
    {
        let wants = match self.end {
            Some(_) => Wants::Nothing,
            None => Wants::Turn,
        };
        Turned {
            taken,
            lines,
            wants,
        }
    }

    // What stands at the front of the records, with the line at the front of the lines.
    fn follow(&mut self, records: Arrived, line: &[u8]) -> Turned
        ensures result { record { judge = self.new; taken = result.taken; lines = result.lines; wants = result.wants }
            ≡ follow records.entry.over self.old line.now (front records.entry.bytes.now) }
        ensures within { (result.taken ≤ length records.entry.bytes.now) × (result.lines ≤ length line.now) }
    {
        match records::read(records.bytes, 0) {
            Ok(record) => {
                self.call(record.call, line);
                self.told(record.size, line.len())
            }
            Err(missing) => match missing {
                Missing::Unknown => {
                    self.refuse(line);
                    self.told(0, line.len())
                }
                Missing::Short if records.over => {
                    self.refuse(line);
                    self.told(0, line.len())
                }
                Missing::End if records.over => {
                    self.ended_by(line);
                    self.told(0, 0)
                }
                Missing::Short | Missing::End => Turned::wanting(Wants::Records),
            },
        }
    }

    // One record with its line, where both are there.
    #[tactic(auto, unfolding(crate::specs::Run::turn))]
    fn turn(&mut self, records: Arrived, lines: Arrived) -> Turned
        ensures result { record { judge = self.new; taken = result.taken; lines = result.lines; wants = result.wants }
            ≡ turn records.entry.over records.entry.bytes.now lines.entry.over lines.entry.bytes.now self.old }
        ensures within { (result.taken ≤ length records.entry.bytes.now) × (result.lines ≤ length lines.entry.bytes.now) }
    {
        let size = match line_size(lines.bytes) {
            Some(size) => size,
            None if lines.over => lines.bytes.len(),
            None => return Turned::wanting(Wants::Lines),
        };
        self.follow(records, &lines.bytes[..size])
    }
}

impl Ran {
    // One turn more.
    #[tactic(auto, unfolding(crate::specs::Run::onward))]
    pub(crate) fn onward(&mut self, records: Arrived, lines: Arrived)
        requires { (self.old.taken ≤ length records.bytes.now) × (self.old.lines ≤ length lines.bytes.now) }
        ensures result { self.new ≡ onward records.entry.over records.entry.bytes.now lines.entry.over lines.entry.bytes.now self.old }
        ensures within { (self.new.taken ≤ length records.entry.bytes.now) × (self.new.lines ≤ length lines.entry.bytes.now) }
    {
        let records = Arrived {
            bytes: &records.bytes[self.taken..],
            ..records
        };
        let lines = Arrived {
            bytes: &lines.bytes[self.lines..],
            ..lines
        };
        let next = self.judge.turn(records, lines);
        self.taken += next.taken;
        self.lines += next.lines;
        self.wants = next.wants;
    }
}
