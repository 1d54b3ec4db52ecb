// The onlooker of demand 3 as code: he takes each call with its answer and says what happened and, at a start, by what.
#![tactic(auto)]

mod notes;
pub mod past;
pub mod plug;
pub mod scene;
pub mod witness;
mod words;

ghost use Rattle.std.specs.Prelude.{◌≡◌};
ghost use Rattle.drive.specs.AnyCall.{asked};
ghost use Rattle.onlooker.specs.Hears.{nothing_heard, hears};

use drive::answer::Answer;
use drive::call::Call;
use past::{Past, Rules, Seen};
use scene::Scene;
use settings::ALL_SETTINGS;

// What he remembers: the numbers of the last accepted load, the state that the last answer showed, the accepted ticks in FAULT (he
// stops at 10,000), and the dead samples in a row.
#[derive(Clone, Copy)]
pub struct Memory {
    pub numbers: [u16; ALL_SETTINGS],
    pub shown: u8,
    pub waited: u32,
    pub dead: u32,
}

// His memory, his note of the newest call, what he keeps of all his notes, whether the demand held after the newest call, and what
// the sentences need beside it.
#[derive(Clone, Copy)]
pub struct Onlooker {
    pub memory: Memory,
    pub seen: Seen,
    pub past: Past,
    pub rules: Rules,
    pub scene: Scene,
}

impl Onlooker {
    // Before the first call.
    pub fn new() -> Onlooker
        ensures { result ≡ nothing_heard }
    {
        // Of an array's derived `Default` the promise says only that each element is 0, so the memory is written out.
        Onlooker {
            memory: Memory {
                numbers: [0; ALL_SETTINGS],
                shown: 0,
                waited: 0,
                dead: 0,
            },
            seen: Seen::default(),
            past: Past::default(),
            rules: Rules {
                gates: true,
                exit: true,
                retries: true,
            },
            scene: Scene::default(),
        }
    }

    // With one call more and its answer: the note of it, and all that follows from that.
    #[tactic(auto, unfolding(crate::specs::Hears::hears, crate::specs::Hears::follows))]
    pub fn hear(self, call: Call, answer: Answer) -> Onlooker
        ensures { result ≡ hears self (record { call = asked call; answer = answer }) }
    {
        let before = self.memory;
        let memory = before.next(call, answer);
        let seen = before.note(memory, call, answer);
        let past = self.past.next(seen);
        Onlooker {
            memory,
            seen,
            past,
            rules: Rules::judged(self.past, seen, past),
            scene: self.scene.next(past.heard, before, memory, seen, answer),
        }
    }
}
