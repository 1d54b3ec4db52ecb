// What a sentence needs beside the rule: what the answers showed last, and the records at which they began to.
ghost use Rattle.std.specs.Prelude.{◌≡◌};
ghost use Rattle.onlooker.specs.Past.{note_of};
ghost use Rattle.onlooker.specs.Scene.{scene};

use crate::Memory;
use crate::past::Seen;
use drive::answer::Answer;

// Gates and live word of the last answer; the record that lit the live word, while it is not dark; whether it was two dead samples that
// lit bit 15; the records of the last trip and of the last accepted tick that held a low.
#[derive(Clone, Copy, Default)]
pub struct Scene {
    pub gate: u8,
    pub live: u16,
    pub lit: Option<u64>,
    pub dead: bool,
    pub trip: Option<u64>,
    pub low: Option<u64>,
}

impl Scene {
    // With the call of this number more: what he remembered before it and remembers now, his note of it, and its answer.
    #[tactic(auto, unfolding(crate::specs::Scene::scene))]
    pub(crate) fn next(
        self,
        heard: u64,
        before: Memory,
        now: Memory,
        seen: Seen,
        answer: Answer,
    ) -> Scene
        ensures { result ≡ scene self before.shown now.dead (note_of seen) heard answer }
    {
        let lights = (32768 <= answer.live) & (self.live < 32768);
        let trips = (answer.state == 5) & (before.shown != 5);
        let this = Some(heard);
        Scene {
            gate: answer.gate,
            live: answer.live,
            lit: if seen.live_shown {
                self.lit.or(this)
            } else {
                None
            },
            dead: if lights { now.dead == 2 } else { self.dead },
            trip: if trips { this } else { self.trip },
            low: if seen.low { this } else { self.low },
        }
    }
}
