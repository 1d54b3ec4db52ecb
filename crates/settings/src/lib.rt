// The settings: which of them breaks its rule first.
#![tactic(auto)]

ghost use Rattle.std.specs.Prelude.{◌≡◌, ◌+◌, ◌<◌};
ghost use Rattle.verdicts.specs.Table.{verdict, verdict_of};
ghost use Rattle.settings.specs.Settings.{all_settings, samples};
ghost use Rattle.settings.specs.Rules.{related, rule, setting_rows};

use verdicts::Refusal;

// The settings that the drive state keeps in its array.
pub const SETTING_COUNT: usize = 24;

// With setting 25, the number of Hall sensors.
pub const ALL_SETTINGS: usize = 25;

// Where each setting stands in the array, in the order of the paper, from 0. A load brings them as numbers in a row.
pub const CONTROL_MODE: usize = 0;

pub const FAULT_ENABLE: usize = 1;

pub const VDC_OV_LEVEL: usize = 2;

pub const VDC_LV_LEVEL: usize = 3;

pub const CRITICAL_OV_LEVEL: usize = 4;

pub const T_SHUTDOWN: usize = 5;

pub const ROTOR_LOCK_TIME: usize = 6;

pub const FLUX_FAULT_TIME: usize = 7;

pub const HALL_TIMEOUT_PERIOD: usize = 8;

pub const HALL_ANGLE_OFFSET: usize = 9;

pub const MIN_SPD: usize = 10;

pub const SPD_RAMP_RATE: usize = 11;

pub const MOTOR_LIM: usize = 12;

pub const OFFSET_PSC: usize = 13;

pub const BTS_CHARGE_TIME: usize = 14;

pub const T_CATCH_SPIN: usize = 15;

pub const DIRECT_START_THR: usize = 16;

pub const IS_PULSES: usize = 17;

pub const PARK_TIME: usize = 18;

pub const OPEN_LOOP_RAMP: usize = 19;

pub const CMD_START: usize = 20;

pub const CMD_STOP: usize = 21;

pub const CMD_GAIN: usize = 22;

pub const RETRY_LIMIT: usize = 23;

pub const HALL_SENSORS: usize = 24;

// The number of sensors where a load does not say it.
pub const USUAL_SENSORS: u16 = 3;

// The lowest and the highest value of each setting.
const RANGES: [(u16, u16); ALL_SETTINGS] = [
    (0, 1), // ControlMode
    (0, 65535), // FaultEnable
    (0, 4095), // VdcOvLevel
    (0, 4095), // VdcLvLevel
    (0, 4095), // CriticalOvLevel
    (0, 4095), // Tshutdown
    (1, 65535), // RotorLockTime
    (1, 65535), // FluxFaultTime
    (1, 65535), // HallTimeoutPeriod
    (0, 65535), // HallAngleOffset
    (0, 16383), // MinSpd
    (0, 32767), // SpdRampRate
    (1, 4095), // MotorLim
    (0, 7), // OffsetPsc
    (0, 65535), // BtsChargeTime
    (0, 65535), // TCatchSpin
    (0, 16383), // DirectStartThr
    (0, 255), // IS_Pulses
    (0, 65535), // ParkTime
    (0, 65535), // OpenLoopRamp
    (0, 4095), // CmdStart
    (0, 4095), // CmdStop
    (0, 65535), // CmdGain
    (0, 100), // RetryLimit
    (2, 3), // the number of Hall sensors
];

// Whether a setting stands to others as its rule says.
fn related(settings: [u16; ALL_SETTINGS], i: usize) -> bool
    ensures { result ≡ related settings (i + 1) }
{
    match i {
        VDC_LV_LEVEL => settings[VDC_LV_LEVEL] < settings[VDC_OV_LEVEL],
        CRITICAL_OV_LEVEL => settings[VDC_OV_LEVEL] <= settings[CRITICAL_OV_LEVEL],
        CMD_STOP => settings[CMD_STOP] < settings[CMD_START],
        _ => true,
    }
}

fn rule(settings: [u16; ALL_SETTINGS], i: usize) -> bool
    requires { i < all_settings }
    ensures { result ≡ rule settings i }
{
    let (lowest, highest) = RANGES[i];
    let value = settings[i];
    (lowest <= value) & (value <= highest) & related(settings, i)
}

#[tactic(auto, using(crate::proofs::Places::next_row, crate::proofs::Places::none_left), unfolding(crate::specs::Rules::setting_rows))]
pub fn verdict(settings: [u16; ALL_SETTINGS]) -> Result<(), Refusal>
    ensures { verdict_of result ≡ verdict (setting_rows settings) }
{
    for i in 0..ALL_SETTINGS {
        if !rule(settings, i) {
            return Err(Refusal::Setting((i + 1) as u8));
        }
    }
    Ok(())
}

// How many samples the offsets are measured over by this OffsetPsc: N.
pub fn samples(psc: u16) -> u32
    ensures { result ≡ samples psc }
{
    1 << 13u16.saturating_sub(psc)
}
