// The fields of a record, read off its bytes. Each function is lent bytes that begin with the record.
ghost use Rattle.std.specs.Prelude.{◌≡◌, ◌≤◌, true, length};
ghost use Rattle.settings.specs.Settings.{meant};
ghost use Rattle.records.specs.Decoded.{signed_number, counts, settings_of, cycle_size, cycle_of, tick_size, tick_of};

use fields::{Cycle, Tick};
use numbers::{number_at, numbers_at, signed};
use settings::{ALL_SETTINGS, USUAL_SENSORS};

fn signed_number(bytes: &[u8], at: usize) -> i16
    ensures { result ≡ signed_number at bytes.now }
{
    signed(number_at(bytes, at))
}

// The settings that the numbers of a load mean: what the one call comes to is promised here, in the paper's word.
#[tactic(auto, using(crate::proofs::Sizes::settings_meant))]
pub(crate) fn settings_of(bytes: &[u8], count: u8) -> [u16; ALL_SETTINGS]
    requires { counts count ≡ true }
    ensures { result ≡ meant (settings_of count bytes.now) }
{
    numbers_at(bytes, 1, count as usize, USUAL_SENSORS)
}

#[tactic(auto, unfolding(crate::specs::Decoded::cycle_of))]
pub(crate) fn cycle_of(bytes: &[u8]) -> Cycle
    requires { cycle_size ≤ length bytes.now }
    ensures { result ≡ cycle_of bytes.now }
{
    Cycle {
        pattern: bytes[1],
        first: number_at(bytes, 2),
        second: number_at(bytes, 4),
    }
}

#[tactic(auto, unfolding(crate::specs::Decoded::tick_of))]
pub(crate) fn tick_of(bytes: &[u8]) -> Tick
    requires { tick_size ≤ length bytes.now }
    ensures { result ≡ tick_of bytes.now }
{
    Tick {
        gate_kill: bytes[1],
        clear: bytes[2],
        command: bytes[3],
        control: number_at(bytes, 4),
        vdc_raw: number_at(bytes, 6),
        vdc_filt: number_at(bytes, 8),
        temperature: number_at(bytes, 10),
        flx_m: number_at(bytes, 12),
        trq_ref: signed_number(bytes, 14),
        speed: signed_number(bytes, 16),
        target: signed_number(bytes, 18),
    }
}
