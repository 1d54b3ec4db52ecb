// One record with its line.
ghost use Rattle.std.specs.Prelude.{◌≡◌};
ghost use Rattle.drive.specs.AnyCall.{asked};
ghost use Rattle.judge.specs.Judged.{answer_of, number_of, kept, shortened, line_for, line_kept, differs_now, breaks_now};
ghost use Rattle.judge.specs.Judged.{read_entry, unread_entry, judge_call, judge_refusal, ended_by};

use crate::{Breach, Difference, End, Judge};
use check::same;
use drive::Drive;
use drive::answer::{Answer, Reply, answered};
use drive::call::Call;
use drive::offsets::Pair;
use lines::{EARLIER_LENGTH, FIELDS_LENGTH, Shown};
use onlooker::Onlooker;
use onlooker::past::Rules;
use report::LINE_LENGTH;
use verdicts::Refusal;

// The board's answer, as far as its line shows it to the onlooker; what it does not read is 0.
fn answer_of(shown: Shown) -> Answer
    ensures { result ≡ answer_of shown }
{
    Answer {
        number: shown.number,
        place: 0,
        state: shown.state,
        gate: shown.gate,
        live: shown.live,
        reference: 0,
        position: 0,
        angle: 0,
        offsets: Pair::default(),
        retries: 0,
        judged: None,
    }
}

fn kept(rules: Rules) -> bool
    ensures { result ≡ kept rules }
{
    rules.gates && rules.exit && rules.retries
}

// A line as an earlier board prints it; zeros take the place of what it does not have.
#[tactic(auto, unfolding(crate::specs::Judged::shortened))]
fn shortened(mut line: [u8; LINE_LENGTH]) -> [u8; LINE_LENGTH]
    ensures { result ≡ shortened line }
{
    text::put(&mut line, FIELDS_LENGTH, &[b'\n', 0, 0]);
    line
}

// The line that the supervisor's answer has, in the form of a line of so many bytes.
#[tactic(auto, unfolding(crate::specs::Judged::line_for))]
fn line_for(answer: Answer, size: usize) -> [u8; LINE_LENGTH]
    ensures { result ≡ line_for size answer }
{
    let mut line = [0; LINE_LENGTH];
    let _ = report::line(answer, &mut line);
    if size == EARLIER_LENGTH {
        return shortened(line);
    }
    line
}

// The board's line, as far as a line is long.
#[tactic(auto, unfolding(crate::specs::Judged::line_kept))]
fn line_kept(line: &[u8]) -> [u8; LINE_LENGTH]
    ensures { result ≡ line_kept line.now }
{
    let mut kept = [0; LINE_LENGTH];
    text::put(&mut kept, 0, line);
    kept
}

impl Judge {
    // The number of the record that comes next.
    pub(crate) fn next_number(&self) -> u64
        ensures { result ≡ number_of self.now }
    {
        self.onlooker.past.heard.saturating_add(1)
    }

    // The first line that differs: this one only where none came before.
    #[tactic(auto, unfolding(crate::specs::Judged::differs_now))]
    fn differs_now(
        &self,
        expected: [u8; LINE_LENGTH],
        found: [u8; LINE_LENGTH],
    ) -> Option<Difference>
        ensures { result ≡ differs_now self.now expected found }
    {
        // The kit's `same` promises equal bytes; `!=` of arrays promises std's comparison of their elements, and is no plainer here.
        let differs = !same(&expected, &found);
        let number = self.next_number();
        self.differs.or(differs.then_some(Difference {
            number,
            expected,
            found,
        }))
    }

    // The first entry that breaks the demand: this one only where none came before.
    #[tactic(auto, unfolding(crate::specs::Judged::breaks_now))]
    fn breaks_now(&self, rules: Rules) -> Option<Breach>
        ensures { result ≡ breaks_now self.now rules }
    {
        let breaks = !kept(rules);
        let number = self.next_number();
        self.breaks.or(breaks.then_some(Breach { number, rules }))
    }

    // A record that the supervisor answers so, with a line that can be read, heard with the board's own answer so.
    #[tactic(auto, unfolding(crate::specs::Judged::read_entry))]
    fn read_entry(&mut self, reply: Reply, heard: Onlooker, end: Option<End>, line: &[u8])
        ensures { self.new ≡ read_entry self.old reply heard end line.now }
    {
        let expected = line_for(reply.answer, line.len());
        let differs = self.differs_now(expected, line_kept(line));
        let breaks = self.breaks_now(heard.rules);
        self.drive = reply.drive;
        self.onlooker = heard;
        self.differs = differs;
        self.breaks = breaks;
        self.end = end;
    }

    // A line that cannot be read ends the judgement: what the board answered is not known, and without it nobody can follow the log.
    fn unread_entry(&mut self, drive: Drive, line: &[u8])
        ensures { self.new ≡ unread_entry self.old drive line.now }
    {
        let end = if line.is_empty() {
            End::Missing
        } else {
            End::Unreadable
        };
        self.drive = drive;
        self.end = Some(end);
    }

    // A call, with the line that the board printed.
    pub(crate) fn call(&mut self, call: Call, line: &[u8])
        ensures { self.new ≡ judge_call self.old (asked call) line.now }
    {
        let reply = self.drive.call(call);
        let Some(shown) = lines::read(line) else {
            self.unread_entry(reply.drive, line);
            return;
        };
        let heard = self.onlooker.hear(call, answer_of(shown));
        self.read_entry(reply, heard, None, line);
    }

    // What is no record makes no call, and the onlooker does not hear of it.
    pub(crate) fn refuse(&mut self, line: &[u8])
        ensures { self.new ≡ judge_refusal self.old line.now }
    {
        let drive = self.drive;
        if lines::read(line).is_none() {
            self.unread_entry(drive, line);
            return;
        }
        let refusal = Refusal::Record;
        let answer = answered(drive, refusal.number(), refusal.place());
        let end = Some(End::Refused);
        let heard = self.onlooker;
        self.read_entry(Reply { drive, answer }, heard, end, line);
    }

    // The records are over; so are the lines, or some are left.
    pub(crate) fn ended_by(&mut self, line: &[u8])
        ensures { self.new ≡ ended_by self.old line.now }
    {
        let end = if line.is_empty() {
            End::Over
        } else {
            End::LeftOver
        };
        self.end = Some(end);
    }
}
