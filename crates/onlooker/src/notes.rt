// What he remembers and what he notes of one call and its answer. States, gates and refusals are the paper's numbers, as answers have them
// (`drive` src/answer.rt says why): he has words of his own and asks none of the drive's.
ghost use Rattle.std.specs.Prelude.{◌≡◌, cond};
ghost use Rattle.numbers.specs.Count.{up};
ghost use Rattle.drive.specs.AnyCall.{asked};
ghost use Rattle.theorems_history.specs.Onlooker.{remember, note};
ghost use Rattle.onlooker.specs.Words.{is_dead, words};
ghost use Rattle.onlooker.specs.Hears.{recalled, held, in_code, waited_after};

use crate::Memory;
use crate::past::Seen;
use crate::words::{cause_of, dead_cause_of, high_of, is_dead, is_mode_1, is_running, low_of};
use drive::answer::Answer;
use drive::call::Call;
use numbers::count_up;
use settings::RETRY_LIMIT;

// The ticks in FAULT from which on a timed retry may come.
const WAIT: u32 = 10000;

impl Memory {
    // The accepted ticks in FAULT with one call more that loads nothing. He counts no further than he asks.
    fn waited(self, ticked: bool) -> u32
        ensures { result ≡ waited_after self ticked }
    {
        match self.shown {
            5 if ticked => count_up(self.waited, WAIT),
            5 => self.waited.min(WAIT),
            _ => 0,
        }
    }

    // The dead samples in a row with this one more.
    fn streak(self, pattern: u8) -> u32
        ensures { result ≡ cond (is_dead self.numbers pattern) (up 2 self.dead) 0 }
    {
        if is_dead(self.numbers, pattern) {
            count_up(self.dead, 2)
        } else {
            0
        }
    }

    // A refused call is about nothing: he remembers the state that its answer shows.
    pub(crate) fn next(self, call: Call, answer: Answer) -> Memory
        ensures { result ≡ held (remember words (recalled self) (record { call = asked call; answer = answer })) }
    {
        let refused = Memory {
            shown: answer.state,
            waited: self.waited(false),
            ..self
        };
        if answer.number != 0 {
            return refused;
        }
        match call {
            Call::Load(numbers) => Memory {
                numbers,
                waited: 0,
                dead: 0,
                ..refused
            },
            Call::Cycle(fields) => Memory {
                dead: self.streak(fields.pattern),
                ..refused
            },
            Call::Tick(_) => Memory {
                waited: self.waited(true),
                ..refused
            },
        }
    }

    // His note, when he remembers this now: what the states, the gates and the live word tell of any call, and what an accepted load or
    // tick is about.
    pub(crate) fn note(self, now: Memory, call: Call, answer: Answer) -> Seen
        requires { now ≡ held (remember words (recalled self) (record { call = asked call; answer = answer })) }
        ensures { result ≡ in_code (note words (recalled self) (record { call = asked call; answer = answer })) }
    {
        let numbers = now.numbers;
        let from = self.shown;
        let to = now.shown;
        let running = is_running(to);
        let shown = Seen {
            began: running & !is_running(from) | (to == 3) & (from != 3),
            exited: (from == 5) & (to != 5),
            cause_stood: dead_cause_of(numbers, now.dead),
            limit: numbers[RETRY_LIMIT],
            live_shown: answer.live != 0,
            running,
            turns: !matches!(answer.gate, 0 | 3),
            ..Seen::default()
        };
        if answer.number != 0 {
            return shown;
        }
        match call {
            Call::Load(_) => Seen {
                loaded: true,
                ..shown
            },
            Call::Cycle(_) => shown,
            Call::Tick(tick) => Seen {
                low: low_of(numbers, tick),
                started: (to == 3) & (from == 1) & high_of(numbers, tick),
                clear: tick.clear == 1,
                due: is_mode_1(numbers) & (WAIT <= now.waited),
                cause_stood: cause_of(numbers, tick) | shown.cause_stood,
                ..shown
            },
        }
    }
}
