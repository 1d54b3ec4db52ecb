// What one Hall sample says: its fate, and the next Hall part of the drive state.
#![tactic(auto)]

mod angle;
pub mod fate;
pub mod layout;

ghost use Rattle.std.specs.Prelude.{◌≡◌, cond, None};
ghost use Rattle.hall.specs.Sample.{rests, dead_sample, stray_sample, sampled};

use angle::angle_at;
use fate::{Fate, judged};
use layout::Sensors;
use numbers::pick;

// The Hall part of the drive state.
#[derive(Clone, Copy, PartialEq, Eq, Debug)]
pub struct Hall {
    pub kept: Option<u8>,
    pub position: u32,
    pub angle: i16,
    pub dead_streak: u32,
    pub stray_streak: u32,
    pub still_count: u32,
}

// No pattern kept, and all else zero; a constant and no `Default`, since it is named by what it means where it is used.
pub const POWERED_UP: Hall = Hall {
    kept: None,
    position: 0,
    angle: 0,
    dead_streak: 0,
    stray_streak: 0,
    still_count: 0,
};

// What a sample gives: the next Hall part, what became of the sample, and whether it sets flag 15.
#[derive(Clone, Copy, PartialEq, Eq, Debug)]
pub struct Sampled {
    pub hall: Hall,
    pub fate: Fate,
    pub flagged: bool,
}

impl Hall {
    // One sample: any pattern, against any Hall part.
    #[tactic(auto, unfolding(crate::specs::Sample::sampled))]
    pub fn sampled(self, sensors: Sensors, pattern: u8, offset: i16) -> Sampled
        ensures { result ≡ sampled sensors self pattern offset }
    {
        let fate = judged(sensors, pattern, self.kept);
        // A sector is looked up where it is asked for: most samples are the same pattern again.
        let (position, twelfths) = match fate {
            Fate::First => {
                let entered = sensors.sector_of(pattern);
                (self.position, entered.middle)
            }
            // Going clockwise, the sector that is left counts.
            Fate::Forward => {
                let left = sensors.sector_of(self.kept.unwrap_or(0));
                (self.position.wrapping_add(left.width), left.boundary)
            }
            // Going back, it is the sector that is entered: the same boundary, and as many counts.
            Fate::Back => {
                let entered = sensors.sector_of(pattern);
                (self.position.wrapping_sub(entered.width), entered.boundary)
            }
            Fate::Same => return self.rests(fate, 0, 0, false),
            Fate::Dead => return self.dead_sample(),
            Fate::Stray => return self.stray_sample(),
        };
        let hall = Hall {
            kept: Some(pattern),
            position,
            angle: angle_at(twelfths, offset),
            ..POWERED_UP
        };
        Sampled {
            hall,
            fate,
            flagged: false,
        }
    }

    #[tactic(auto, unfolding(crate::specs::Sample::dead_sample))]
    fn dead_sample(self) -> Sampled
        ensures { result ≡ dead_sample self }
    {
        let dead = numbers::count_up(self.dead_streak, 2);
        self.rests(Fate::Dead, dead, 0, dead == 2)
    }

    #[tactic(auto, unfolding(crate::specs::Sample::stray_sample))]
    fn stray_sample(self) -> Sampled
        ensures { result ≡ stray_sample self }
    {
        let stray = numbers::count_up(self.stray_streak, 3);
        let at_last = stray == 3;
        self.rests(Fate::Stray, 0, pick(at_last, 0, stray), at_last)
    }

    // A sample that keeps no new pattern; one that sets flag 15 forgets the kept one.
    fn rests(self, fate: Fate, dead_streak: u32, stray_streak: u32, flagged: bool) -> Sampled
        ensures { result ≡ rests self fate (cond flagged None self.kept) dead_streak stray_streak flagged }
    {
        let hall = Hall {
            kept: pick(flagged, None, self.kept),
            dead_streak,
            stray_streak,
            still_count: numbers::count_up(self.still_count, 4096),
            ..self
        };
        Sampled {
            hall,
            fate,
            flagged,
        }
    }
}
