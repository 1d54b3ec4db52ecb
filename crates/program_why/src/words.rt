// What may stand behind a sentence, in the words of the papers.
use std::fmt;

const UNKNOWN: &str = "not in document 01";

// What a field of a tick and of a cycle may be, by its place from 1.
const TICK_FIELDS: [&str; 12] = [
    "no field",
    "gate_kill is 0..1",
    "clear is 0..1",
    "command is 0..1",
    "control is 0..4095",
    "VdcRaw is 0..4095",
    "VdcFilt is 0..4095",
    "temperature is 0..4095",
    "Flx_M is 0..65535",
    "TrqRef is -4095..4095",
    "speed is -32767..32767",
    "target is -32767..32767",
];

const CYCLE_FIELDS: [&str; 4] = [
    "no field",
    "pattern is 0..7",
    "first is 0..4095",
    "second is 0..4095",
];

const FEWER_PATTERNS: &str = "pattern is 0..3 with two Hall sensors";

// What a setting may be, by its place from 1; place 0 is all of them.
const SETTINGS: [&str; 26] = [
    "settings are 24 or 25 numbers",
    "ControlMode is 0..1",
    "FaultEnable is any 16-bit number",
    "VdcOvLevel is 0..4095",
    "VdcLvLevel is 0..4095, below VdcOvLevel",
    "CriticalOvLevel is 0..4095, not below VdcOvLevel",
    "Tshutdown is 0..4095",
    "RotorLockTime is 1..65535",
    "FluxFaultTime is 1..65535",
    "HallTimeoutPeriod is 1..65535",
    "HallAngleOffset is any 16-bit number",
    "MinSpd is 0..16383",
    "SpdRampRate is 0..32767",
    "MotorLim is 1..4095",
    "OffsetPsc is 0..7",
    "BtsChargeTime is any 16-bit number",
    "TCatchSpin is any 16-bit number",
    "DirectStartThr is 0..16383",
    "IS_Pulses is 0..255",
    "ParkTime is any 16-bit number",
    "OpenLoopRamp is any 16-bit number",
    "CmdStart is 0..4095",
    "CmdStop is 0..4095, below CmdStart",
    "CmdGain is any 16-bit number",
    "RetryLimit is 0..100",
    "sensors is 2..3",
];

const GATES: [&str; 4] = ["off", "charge", "drive", "all low sides on"];

// What each bit of the live word says, but for bit 15.
const BITS: [&str; 15] = [
    "gate kill is 1 (bit 0)",
    "VdcRaw above CriticalOvLevel (bit 1)",
    "VdcFilt above VdcOvLevel (bit 2)",
    "VdcFilt below VdcLvLevel (bit 3)",
    "Flx_M out of 512..8192 in eight slots in a row (bit 4)",
    "a bit without a meaning (bit 5)",
    "temperature above Tshutdown (bit 6)",
    "rotor locked for RotorLockTime: torque at MotorLim, speed within 4095 (bit 7)",
    "a bit without a meaning (bit 8)",
    "a bit without a meaning (bit 9)",
    "a bit without a meaning (bit 10)",
    "a bit without a meaning (bit 11)",
    "a bit without a meaning (bit 12)",
    "a bit without a meaning (bit 13)",
    "no new Hall pattern for HallTimeoutPeriod (bit 14)",
];

fn word_at(words: &[&'static str], place: u8) -> &'static str {
    words.get(place as usize).copied().unwrap_or(UNKNOWN)
}

pub(crate) fn gate_word(gate: u8) -> &'static str {
    word_at(&GATES, gate)
}

pub(crate) fn setting_word(place: u8) -> &'static str {
    word_at(&SETTINGS, place)
}

pub(crate) fn tick_word(place: u8) -> &'static str {
    word_at(&TICK_FIELDS, place)
}

pub(crate) fn cycle_word(place: u8, two_sensors: bool) -> &'static str {
    if (place == 1) & two_sensors {
        return FEWER_PATTERNS;
    }
    word_at(&CYCLE_FIELDS, place)
}

// The bits of a live word; whether dead samples lit bit 15, and by which pattern it was lit.
#[derive(Clone, Copy)]
pub(crate) struct Bits {
    pub(crate) live: u16,
    pub(crate) dead: bool,
    pub(crate) pattern: u8,
}

impl fmt::Display for Bits {
    // The lowest first, each with a blank in front.
    fn fmt<W: fmt::Write>(&self, f: &mut fmt::Formatter<W>) -> fmt::Result {
        let mut rest = self.live;
        for word in BITS {
            if rest % 2 == 1 {
                let comma = if rest == 1 { "" } else { "," };
                write!(f, " {word}{comma}")?;
            }
            rest /= 2;
        }
        if rest == 0 {
            return Ok(());
        }
        let samples = if self.dead { "two dead" } else { "three stray" };
        let pattern = self.pattern;
        write!(
            f,
            " {samples} Hall samples, last pattern {pattern} (bit 15)"
        )
    }
}
