// The speed reference, kept times 2048.
ghost use Rattle.std.specs.Prelude.{◌≡◌, ◌<◌};
ghost use Rattle.std.specs.Int.Signed.{mag};
ghost use Rattle.motor.specs.Reference.{times2048, target0, target1, target_of, toward, ramped, starting, ran, after};

use crate::{AT_REST, Run, Watched};
use fields::Tick;
use settings::{CMD_GAIN, CMD_START, CONTROL_MODE, MIN_SPD, SETTING_COUNT, SPD_RAMP_RATE};

fn times_2048(number: i32) -> i32
    requires { mag number < 65536 }
    ensures { result ≡ times2048 number }
{
    number * 2048
}

#[tactic(auto, unfolding(crate::specs::Reference::target0))]
fn mode_0_target(minimum: u16, target: i16) -> i32
    ensures value { result ≡ target0 minimum target }
    ensures small { mag result < 65536 }
{
    let minimum = i32::from(minimum);
    let target = i32::from(target);
    if target < 0 {
        target.min(-minimum)
    } else {
        target.max(minimum)
    }
}

fn mode_1_target(minimum: u16, start: u16, gain: u16, control: u16) -> u16
    ensures { result ≡ target1 minimum start gain control }
{
    if control < start {
        return minimum;
    }
    let above = u32::from(control - start) * u32::from(gain) / 4096;
    (u32::from(minimum) + above).min(16383) as u16
}

// The target of the ramp, in both modes.
#[tactic(auto, unfolding(crate::specs::Reference::target_of))]
fn target(settings: [u16; SETTING_COUNT], tick: Tick) -> i32
    ensures value { result ≡ target_of settings tick }
    ensures small { mag result < 65536 }
{
    let minimum = settings[MIN_SPD];
    if settings[CONTROL_MODE] == 1 {
        i32::from(mode_1_target(
            minimum,
            settings[CMD_START],
            settings[CMD_GAIN],
            tick.control,
        ))
    } else {
        mode_0_target(minimum, tick.target)
    }
}

// The reference moved toward the target by at most the rate, without passing it.
#[tactic(auto, unfolding(crate::specs::Reference::toward))]
fn toward(rate: u16, target: i32, reference: i32) -> i32
    ensures { result ≡ toward rate target reference }
{
    let rate = i32::from(rate);
    target.clamp(
        reference.saturating_sub(rate),
        reference.saturating_add(rate),
    )
}

// The reference after a tick that stays in MOTORRUN.
fn ramped(settings: [u16; SETTING_COUNT], tick: Tick, reference: i32) -> i32
    ensures { result ≡ ramped settings tick reference }
{
    toward(
        settings[SPD_RAMP_RATE],
        times_2048(target(settings, tick)),
        reference,
    )
}

// What the motor starts with on entering MOTORRUN.
fn starting(tick: Tick) -> Run
    ensures { result ≡ starting tick }
{
    Run {
        reference: times_2048(i32::from(tick.speed)),
        ..AT_REST
    }
}

impl Run {
    // A tick more in MOTORRUN.
    fn ran(self, settings: [u16; SETTING_COUNT], tick: Tick, watched: Watched) -> Run
        ensures { result ≡ ran settings tick watched self }
    {
        Run {
            slots: watched.slots,
            rotor_lock_ticks: watched.rotor_lock_ticks,
            hall_still_ticks: watched.hall_still_ticks,
            reference: ramped(settings, tick, self.reference),
        }
    }

    // After a tick that stays in MOTORRUN, that enters it, or that ends in another state. An enum of the three would be no plainer: each
    // caller knows one of the two tests, and that the other fails.
    pub fn after(
        self,
        settings: [u16; SETTING_COUNT],
        tick: Tick,
        watched: Watched,
        stays: bool,
        enters: bool,
    ) -> Run
        ensures { result ≡ after settings tick watched stays enters self }
    {
        if stays {
            self.ran(settings, tick, watched)
        } else if enters {
            starting(tick)
        } else {
            AT_REST
        }
    }
}
