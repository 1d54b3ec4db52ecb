// The counts of bits 4, 7 and 14.
ghost use Rattle.std.specs.Prelude.{◌≡◌};
ghost use Rattle.motor.specs.Counts.{slot_length, bad_flux, next_slots, flux_stands, lasting, lasts, locked, watched};

use crate::{Run, Slots, Watched};
use fields::Tick;
use numbers::count_up;
use settings::{FLUX_FAULT_TIME, HALL_TIMEOUT_PERIOD, MOTOR_LIM, ROTOR_LOCK_TIME, SETTING_COUNT};

fn slot_length(time: u16) -> u32
    ensures { result ≡ slot_length time }
{
    5 * u32::from(time) / 4
}

fn bad_flux(flux: u16) -> bool
    ensures { result ≡ bad_flux flux }
{
    flux < 512 || 8192 < flux
}

impl Slots {
    // A tick more, and whether the eighth bad slot in a row, or one that follows it, ends with it.
    fn next(self, length: u32, bad_tick: bool) -> (Slots, bool)
        ensures { result ≡ (next_slots length bad_tick self, flux_stands length bad_tick self) }
    {
        let ticks = count_up(self.ticks, length);
        let bad = self.bad || bad_tick;
        if ticks != length {
            return (Slots { ticks, bad, ..self }, false);
        }
        let bad_slots = if bad { count_up(self.bad_slots, 8) } else { 0 };
        (
            Slots {
                ticks: 0,
                bad: false,
                bad_slots,
            },
            bad_slots == 8,
        )
    }
}

// A tick more of what must hold for so many in a row: the count, and whether that is reached.
fn lasting(limit: u32, holds: bool, count: u32) -> (u32, bool)
    ensures { result ≡ (lasting limit holds count, lasts limit holds count) }
{
    if !holds {
        return (0, false);
    }
    let count = count_up(count, limit);
    (count, count == limit)
}

fn locked(settings: [u16; SETTING_COUNT], tick: Tick) -> bool
    ensures { result ≡ locked settings tick }
{
    settings[MOTOR_LIM] <= tick.trq_ref.unsigned_abs() && tick.speed.unsigned_abs() <= 4095
}

impl Run {
    // One tick taken in MOTORRUN.
    #[tactic(auto, unfolding(crate::specs::Counts::watched))]
    pub fn watched(self, settings: [u16; SETTING_COUNT], tick: Tick, still_count: u32) -> Watched
        ensures { result ≡ watched settings tick still_count self }
    {
        let length = slot_length(settings[FLUX_FAULT_TIME]);
        let (slots, flux) = self.slots.next(length, bad_flux(tick.flx_m));
        let (rotor_lock_ticks, locked) = lasting(
            10 * u32::from(settings[ROTOR_LOCK_TIME]),
            locked(settings, tick),
            self.rotor_lock_ticks,
        );
        let (hall_still_ticks, timeout) = lasting(
            10 * u32::from(settings[HALL_TIMEOUT_PERIOD]),
            still_count == 4096,
            self.hall_still_ticks,
        );
        Watched {
            slots,
            rotor_lock_ticks,
            hall_still_ticks,
            flux,
            locked,
            timeout,
        }
    }
}
