// Power-up, load and cycle.
ghost use Rattle.std.specs.Prelude.{◌≡◌, true, ◌||◌, ◌==◌, length};
ghost use Rattle.verdicts.specs.Table.{verdict};
ghost use Rattle.settings.specs.Settings.{setting_count, all_settings, meant};
ghost use Rattle.drive.specs.Refusals.{load_rows};
ghost use Rattle.drive.specs.Calls.{power_up, chosen, settle, loaded, load, sample, summed, cycled_by, cycle};

use crate::answer::{Reply, settle, settle_telling};
use crate::causes::HALL_PATTERN;
use crate::offsets::Offsets;
use crate::{Drive, fresh};
use faults::flag;
use fields::Cycle;
use hall::Sampled;
use hall::layout::Sensors;
use numbers::{count_up, filled, signed};
use settings::{
    ALL_SETTINGS, HALL_ANGLE_OFFSET, HALL_SENSORS, OFFSET_PSC, SETTING_COUNT, USUAL_SENSORS,
    samples,
};
use states::State;

// The 25 settings that 24 or 25 numbers mean.
pub(crate) fn completed(numbers: &[u16]) -> [u16; ALL_SETTINGS]
    ensures { (length numbers.now == setting_count || length numbers.now == all_settings) ≡ true → result ≡ meant numbers.now }
{
    filled(numbers, USUAL_SENSORS)
}

// Any number but 2 chooses three, so it is no `TryFrom`.
fn chosen(settings: [u16; ALL_SETTINGS]) -> Sensors
    ensures { result ≡ chosen settings }
{
    if settings[HALL_SENSORS] == 2 {
        Sensors::Two
    } else {
        Sensors::Three
    }
}

impl Drive {
    pub fn power_up() -> Self
        ensures { result ≡ power_up }
    {
        fresh(State::Idle, [0u16; SETTING_COUNT], Sensors::Three)
    }

    // A load of any numbers, lent by the caller.
    #[tactic(auto, unfolding(crate::specs::Calls::load))]
    pub fn load(self, numbers: &[u16]) -> Reply
        ensures { result ≡ load self numbers.now }
    {
        self.load_or(numbers, self)
    }

    // The same, with the state that a refusal leaves.
    pub(crate) fn load_or(self, numbers: &[u16], left: Drive) -> Reply
        ensures { result ≡ settle (verdict (load_rows self numbers.now)) (loaded (meant numbers.now)) left }
    {
        let settings = completed(numbers);
        let next = fresh(State::Stop, filled(&settings, 0), chosen(settings));
        settle(self.refuses_load(numbers), next, left)
    }

    fn summed(self, cycle: Cycle) -> Offsets
        ensures { result ≡ summed self cycle }
    {
        if self.state == State::OffsetCal && self.cycles < samples(self.settings[OFFSET_PSC]) {
            self.offsets.added(cycle.first, cycle.second)
        } else {
            self.offsets
        }
    }

    fn sample(self, cycle: Cycle) -> Sampled
        ensures { result ≡ sample self cycle }
    {
        let offset = signed(self.settings[HALL_ANGLE_OFFSET]);
        self.hall.sampled(self.sensors, cycle.pattern, offset)
    }

    fn cycled(self, cycle: Cycle, sampled: Sampled) -> Drive
        ensures { result ≡ cycled_by self cycle sampled }
    {
        Drive {
            hall: sampled.hall,
            flags: self.flags | flag(HALL_PATTERN, sampled.flagged),
            cycles: count_up(self.cycles, 65535),
            offsets: self.summed(cycle),
            ..self
        }
    }

    #[tactic(auto, unfolding(crate::specs::Calls::cycled, crate::specs::Calls::cycle))]
    pub fn cycle(self, fields: Cycle) -> Reply
        ensures { result ≡ cycle self fields }
    {
        let sampled = self.sample(fields);
        let next = self.cycled(fields, sampled);
        settle_telling(Some(sampled.fate), self.refuses_cycle(fields), next, self)
    }
}
