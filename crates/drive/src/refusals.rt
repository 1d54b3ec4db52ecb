// What refuses each call, row by row in the paper's order: the state, and then what the call brings.
ghost use Rattle.std.specs.Prelude.{◌≡◌, ◌||◌, ◌==◌};
ghost use Rattle.verdicts.specs.Table.{verdict, verdict_of};
ghost use Rattle.settings.specs.Settings.{setting_count, all_settings};
ghost use Rattle.drive.specs.Refusals.{highest_pattern, load_rows, cycle_rows, tick_rows};

use crate::Drive;
use crate::calls::completed;
use fields::{Cycle, Tick};
use hall::layout::Sensors;
use settings::{ALL_SETTINGS, SETTING_COUNT};
use states::State;
use verdicts::{Refusal, refuse};

fn highest_pattern(sensors: Sensors) -> u8
    ensures { result ≡ highest_pattern sensors }
{
    match sensors {
        Sensors::Three => 7,
        Sensors::Two => 3,
    }
}

// How many numbers a load has.
fn is_load(count: usize) -> bool
    ensures { result ≡ (count == setting_count || count == all_settings) }
{
    count == SETTING_COUNT || count == ALL_SETTINGS
}

impl Drive {
    pub(crate) fn refuses_cycle(self, fields: Cycle) -> Result<(), Refusal>
        ensures { verdict_of result ≡ verdict (cycle_rows self fields) }
    {
        refuse(Refusal::Idle, self.state == State::Idle)?;
        fields.verdict(highest_pattern(self.sensors))
    }

    pub(crate) fn refuses_tick(self, fields: Tick) -> Result<(), Refusal>
        ensures { verdict_of result ≡ verdict (tick_rows self fields) }
    {
        refuse(Refusal::Idle, self.state == State::Idle)?;
        fields.verdict()
    }

    pub(crate) fn refuses_load(self, numbers: &[u16]) -> Result<(), Refusal>
        ensures { verdict_of result ≡ verdict (load_rows self numbers.now) }
    {
        refuse(
            Refusal::Running,
            !matches!(self.state, State::Idle | State::Stop),
        )?;
        refuse(Refusal::Setting(0), !is_load(numbers.len()))?;
        settings::verdict(completed(numbers))
    }
}
