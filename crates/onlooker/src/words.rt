// The words of this drive's calls and answers: low, high, the causes and the states, as specs/Words.antt has them. States are the paper's
// numbers, as answers have them.
ghost use Rattle.std.specs.Prelude.{◌≡◌, ◌<◌};
ghost use Rattle.onlooker.specs.Words.{is_mode1, enabled, is_dead, low_of, high_of, cause_of, dead_cause_of, words};

use fields::Tick;
use settings::{
    ALL_SETTINGS, CMD_START, CMD_STOP, CONTROL_MODE, CRITICAL_OV_LEVEL, FAULT_ENABLE, HALL_SENSORS,
    T_SHUTDOWN, VDC_LV_LEVEL, VDC_OV_LEVEL,
};

pub(crate) fn is_mode_1(numbers: [u16; ALL_SETTINGS]) -> bool
    ensures { result ≡ is_mode1 numbers }
{
    numbers[CONTROL_MODE] == 1
}

pub(crate) fn low_of(numbers: [u16; ALL_SETTINGS], tick: Tick) -> bool
    ensures { result ≡ low_of numbers tick }
{
    if is_mode_1(numbers) {
        tick.control <= numbers[CMD_STOP]
    } else {
        tick.command == 0
    }
}

pub(crate) fn high_of(numbers: [u16; ALL_SETTINGS], tick: Tick) -> bool
    ensures { result ≡ high_of numbers tick }
{
    if is_mode_1(numbers) {
        numbers[CMD_START] <= tick.control
    } else {
        tick.command == 1
    }
}

// With two sensors no pattern is dead.
pub(crate) fn is_dead(numbers: [u16; ALL_SETTINGS], pattern: u8) -> bool
    ensures { result ≡ is_dead numbers pattern }
{
    (numbers[HALL_SENSORS] != 2) & matches!(pattern, 0 | 7)
}

// The mask's bit of a flag.
fn enabled(flag: u32, numbers: [u16; ALL_SETTINGS]) -> bool
    requires { flag < 16 }
    ensures { result ≡ enabled flag numbers }
{
    (numbers[FAULT_ENABLE] >> flag) % 2 == 1
}

pub(crate) fn cause_of(numbers: [u16; ALL_SETTINGS], tick: Tick) -> bool
    ensures { result ≡ cause_of numbers tick }
{
    (tick.gate_kill == 1)
        | (numbers[CRITICAL_OV_LEVEL] < tick.vdc_raw)
        | (numbers[VDC_OV_LEVEL] < tick.vdc_filt) & enabled(2, numbers)
        | (tick.vdc_filt < numbers[VDC_LV_LEVEL]) & enabled(3, numbers)
        | (numbers[T_SHUTDOWN] < tick.temperature) & enabled(6, numbers)
}

pub(crate) fn dead_cause_of(numbers: [u16; ALL_SETTINGS], dead: u32) -> bool
    ensures { result ≡ dead_cause_of numbers dead }
{
    (dead == 2) & enabled(15, numbers)
}

// The six starting and running states.
pub(crate) fn is_running(state: u8) -> bool
    ensures { result ≡ words.is_running state }
{
    matches!(state, 3 | 4 | 6 | 7 | 8 | 9)
}
