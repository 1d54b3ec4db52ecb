// What the answers tell of the plug of the Hall sensors: for fitters who look for a loose one.
ghost use Rattle.std.specs.Prelude.{◌≡◌};
ghost use Rattle.onlooker.specs.Plug.{firm, counted, plug_after};

use drive::answer::Answer;
use hall::fate::Fate;

// The dead and the stray samples since the last accepted load, and how many of either came in a row up to the newest sample. Whether the
// last answer showed bit 15, and the pattern of the call that lit it last: it is told of a bit that is out again (`PlugTold` of
// `theorems_samples`), so the two are no Option.
#[derive(Clone, Copy, Default)]
pub struct Plug {
    pub dead: u64,
    pub stray: u64,
    pub row: u64,
    pub lit: bool,
    pub pattern: u8,
}

fn counted(test: bool, count: u64) -> u64
    ensures { result ≡ counted test count }
{
    if test { count.saturating_add(1) } else { count }
}

impl Plug {
    // Before the first call.
    pub fn new() -> Plug
        ensures { result ≡ firm }
    {
        Plug::default()
    }

    // With a call more: whether it was an accepted load, the pattern that it brought, if it was a cycle, and its answer.
    #[tactic(auto, unfolding(crate::specs::Plug::plug_after))]
    pub fn hear(self, loaded: bool, pattern: u8, answer: Answer) -> Plug
        ensures { result ≡ plug_after self loaded pattern answer }
    {
        let dead = answer.judged == Some(Fate::Dead);
        let stray = answer.judged == Some(Fate::Stray);
        let good = answer.judged.is_some() & !(dead | stray);
        let lit = 32768 <= answer.live;
        let pattern = if lit & !self.lit {
            pattern
        } else {
            self.pattern
        };
        if loaded {
            return Plug {
                lit,
                pattern,
                ..Plug::new()
            };
        }
        Plug {
            dead: counted(dead, self.dead),
            stray: counted(stray, self.stray),
            row: if good {
                0
            } else {
                counted(dead | stray, self.row)
            },
            lit,
            pattern,
        }
    }
}
