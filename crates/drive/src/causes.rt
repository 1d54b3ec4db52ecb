// The fault word: the causes that stand at a tick, as the word of their flags, and which of them are live.
ghost use Rattle.std.specs.Prelude.{◌≡◌};
ghost use Rattle.drive.specs.Flags.{alive};
ghost use Rattle.drive.specs.Causes.{causes};

use faults::{flag, live};
use fields::Tick;
use motor::Watched;
use settings::{
    CRITICAL_OV_LEVEL, FAULT_ENABLE, SETTING_COUNT, T_SHUTDOWN, VDC_LV_LEVEL, VDC_OV_LEVEL,
};

// The flags: only these ten of the word's sixteen bits are ever set.
const GATE_KILL: u16 = 1; // bit 0

const CRITICAL_OVER_VOLTAGE: u16 = 2; // bit 1: VdcRaw above CriticalOvLevel

const OVER_VOLTAGE: u16 = 4; // bit 2: VdcFilt above VdcOvLevel

const UNDER_VOLTAGE: u16 = 8; // bit 3: VdcFilt below VdcLvLevel

const FLUX: u16 = 16; // bit 4: eight bad flux slots in a row

const OVER_TEMPERATURE: u16 = 64; // bit 6: temperature above Tshutdown

const ROTOR_LOCK: u16 = 128; // bit 7

pub(crate) const BLOCK_REFUSED: u16 = 4096; // bit 12: no cause sets it, but a block load in IDLE

const HALL_TIMEOUT: u16 = 16384; // bit 14

pub(crate) const HALL_PATTERN: u16 = 32768; // bit 15

#[tactic(auto, unfolding(crate::specs::Causes::causes))]
pub(crate) fn causes(
    settings: [u16; SETTING_COUNT],
    running: bool,
    dead_streak: u32,
    tick: Tick,
    watched: Watched,
) -> u16
    ensures { result ≡ causes settings running dead_streak tick watched }
{
    flag(GATE_KILL, tick.gate_kill == 1)
        | flag(
            CRITICAL_OVER_VOLTAGE,
            settings[CRITICAL_OV_LEVEL] < tick.vdc_raw,
        )
        | flag(OVER_VOLTAGE, settings[VDC_OV_LEVEL] < tick.vdc_filt)
        | flag(UNDER_VOLTAGE, tick.vdc_filt < settings[VDC_LV_LEVEL])
        | flag(FLUX, running & watched.flux)
        | flag(OVER_TEMPERATURE, settings[T_SHUTDOWN] < tick.temperature)
        | flag(ROTOR_LOCK, running & watched.locked)
        | flag(HALL_TIMEOUT, running & watched.timeout)
        | flag(HALL_PATTERN, dead_streak == 2)
}

// Bits 0, 1 and 12, whatever the mask.
const ALWAYS_LIVE: u16 = GATE_KILL | CRITICAL_OVER_VOLTAGE | BLOCK_REFUSED;

pub(crate) fn alive(settings: [u16; SETTING_COUNT], flags: u16) -> u16
    ensures { result ≡ alive settings flags }
{
    live(ALWAYS_LIVE, settings[FAULT_ENABLE], flags)
}
