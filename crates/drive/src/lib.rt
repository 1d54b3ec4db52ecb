// The supervisor of one drive: its state, and the calls that change it.
#![tactic(auto)]

pub mod answer;
mod blocks;
pub mod call;
mod calls;
mod causes;
mod command;
pub mod offsets;
mod refusals;
mod ticks;

ghost use Rattle.std.specs.Prelude.{◌≡◌};
ghost use Rattle.drive.specs.Calls.{fresh};

use hall::layout::Sensors;
use hall::{Hall, POWERED_UP};
use motor::{AT_REST, Run};
use offsets::Offsets;
use settings::SETTING_COUNT;
use states::State;

// The state of the drive. Its 24 settings stand as loaded, and beside them the sensors that setting 25 chose; no cycle and no tick
// changes them.
#[derive(Clone, Copy)]
pub struct Drive {
    pub state: State,
    pub settings: [u16; SETTING_COUNT],
    pub sensors: Sensors,
    pub hall: Hall,
    pub flags: u16,
    pub cycles: u32,
    pub ticks: u32,
    pub offsets: Offsets,
    pub run: Run,
    pub armed: bool,
    pub retries: u32,
}

// Everything as at power-up, all zero, but state, settings and sensors.
pub(crate) fn fresh(state: State, settings: [u16; SETTING_COUNT], sensors: Sensors) -> Drive
    ensures { result ≡ fresh state settings sensors }
{
    Drive {
        state,
        settings,
        sensors,
        hall: POWERED_UP,
        flags: 0,
        cycles: 0,
        ticks: 0,
        offsets: Offsets::default(),
        run: AT_REST,
        armed: false,
        retries: 0,
    }
}
