// What a call answers.
ghost use Rattle.std.specs.Prelude.{◌≡◌};
ghost use Rattle.verdicts.specs.Table.{verdict_of};
ghost use Rattle.drive.specs.Answer.{letter_of, letter, gate_of, gate, reported, answer, answer_telling, reply_telling};
ghost use Rattle.drive.specs.Calls.{settle, settle_telling};

use crate::Drive;
use crate::causes::alive;
use crate::offsets::Pair;
use hall::fate::Fate;
use states::State;
use verdicts::Refusal;

// Number, place, state and gate are bytes, as the paper numbers them: whoever makes an answer up may go too high, and the line call
// refuses that.
#[derive(Clone, Copy)]
pub struct Answer {
    pub number: u8,
    pub place: u8,
    pub state: u8,
    pub gate: u8,
    pub live: u16,
    pub reference: i16,
    pub position: u32,
    pub angle: i16,
    pub offsets: Pair,
    pub retries: u32,
    // What became of the sample, in the answer to an accepted cycle; any other answer tells of no sample.
    pub judged: Option<Fate>,
}

#[derive(Clone, Copy)]
pub struct Reply {
    pub drive: Drive,
    pub answer: Answer,
}

// A letter of the report line, which `hall` does not know: so it is no `From` beside `Fate`.
fn letter_of(fate: Fate) -> u8
    ensures { result ≡ letter_of fate }
{
    match fate {
        Fate::First => b'F',
        Fate::Same => b'S',
        Fate::Forward => b'W',
        Fate::Back => b'B',
        Fate::Dead => b'D',
        Fate::Stray => b'X',
    }
}

impl Answer {
    // The paper's letter of what became of the sample, and a full stop for no sample.
    pub fn letter(self) -> u8
        ensures { result ≡ letter self.judged }
    {
        self.judged.map_or(b'.', letter_of)
    }
}

fn gate_of(state: State) -> u8
    ensures { result ≡ gate_of state }
{
    if state == State::BtsCharge {
        1
    } else if state.is_turning() {
        2
    } else {
        0
    }
}

fn gate(state: State, live: u16) -> u8
    ensures { result ≡ gate state live }
{
    if live % 2 == 1 {
        0
    } else if live / 2 % 2 == 1 {
        3
    } else if live != 0 {
        0
    } else {
        gate_of(state)
    }
}

fn reported(reference: i32) -> i16
    ensures { result ≡ reported reference }
{
    numbers::limited(reference / 2048)
}

// What the state shows under a number and a place, with what was judged. They stay two bytes, since `answered` takes any.
#[tactic(auto, unfolding(crate::specs::Answer::answer_telling))]
fn telling(judged: Option<Fate>, drive: Drive, number: u8, place: u8) -> Answer
    ensures { result ≡ answer_telling judged number place drive }
{
    let live = alive(drive.settings, drive.flags);
    Answer {
        number,
        place,
        state: drive.state.number(),
        gate: gate(drive.state, live),
        live,
        reference: reported(drive.run.reference),
        position: drive.hall.position,
        angle: drive.hall.angle,
        offsets: drive.offsets.value,
        retries: drive.retries,
        judged,
    }
}

// The same where no sample was judged: for a caller that refuses without a call.
pub fn answered(drive: Drive, number: u8, place: u8) -> Answer
    ensures { result ≡ answer number place drive }
{
    telling(None, drive, number, place)
}

fn replied(judged: Option<Fate>, drive: Drive, number: u8, place: u8) -> Reply
    ensures { result ≡ reply_telling judged number place drive }
{
    Reply {
        drive,
        answer: telling(judged, drive, number, place),
    }
}

// What a call comes to: the next state and what was judged where nothing refuses it, and else the state that the refusal leaves.
pub(crate) fn settle_telling(
    judged: Option<Fate>,
    told: Result<(), Refusal>,
    next: Drive,
    left: Drive,
) -> Reply
    ensures { result ≡ settle_telling judged (verdict_of told) next left }
{
    match told {
        Ok(()) => replied(judged, next, 0, 0),
        Err(refusal) => replied(None, left, refusal.number(), refusal.place()),
    }
}

// The same of a call that judges no sample. It goes into its callers: called, it is handed two whole drives, each written out to memory
// and read back at every tick.
#[inline(always)]
pub(crate) fn settle(told: Result<(), Refusal>, next: Drive, left: Drive) -> Reply
    ensures { result ≡ settle (verdict_of told) next left }
{
    settle_telling(None, told, next, left)
}
