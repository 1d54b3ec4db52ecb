// The command, in both modes.
ghost use Rattle.std.specs.Prelude.{◌≡◌};
ghost use Rattle.drive.specs.Command.{low, high};

use fields::Tick;
use settings::{CMD_START, CMD_STOP, CONTROL_MODE, SETTING_COUNT};

pub(crate) fn low(settings: [u16; SETTING_COUNT], tick: Tick) -> bool
    ensures { result ≡ low settings tick }
{
    if settings[CONTROL_MODE] == 1 {
        tick.control <= settings[CMD_STOP]
    } else {
        tick.command == 0
    }
}

pub(crate) fn high(settings: [u16; SETTING_COUNT], tick: Tick) -> bool
    ensures { result ≡ high settings tick }
{
    if settings[CONTROL_MODE] == 1 {
        settings[CMD_START] <= tick.control
    } else {
        tick.command == 1
    }
}
