// The moves: at most one a tick, by the state before it.
#![tactic(auto)]

ghost use Rattle.std.specs.Prelude.{◌≡◌};
ghost use Rattle.states.specs.declared.State.TheVariants.{Fault};
ghost use Rattle.moves.specs.Moves.{from_stop, from_offset_cal, from_bts_charge, from_catch_spin, from_angle_sensing};
ghost use Rattle.moves.specs.Moves.{from_parking, from_open_loop, own, move_of};

use faults::{Exit, from_fault};
use settings::{
    BTS_CHARGE_TIME, CONTROL_MODE, DIRECT_START_THR, IS_PULSES, MIN_SPD, OFFSET_PSC,
    OPEN_LOOP_RAMP, PARK_TIME, RETRY_LIMIT, SETTING_COUNT, T_CATCH_SPIN, samples,
};
use states::State;

// What a tick does to the state: stay, enter another, end OFFSETCAL with the offsets measured, or leave FAULT.
#[derive(Clone, Copy)]
pub enum Move {
    Stay,
    Enter(State),
    Measure,
    Clear,
    Retry,
}

// What a move is decided by.
#[derive(Clone, Copy)]
pub struct Grounds {
    pub state: State, // before the tick
    pub settings: [u16; SETTING_COUNT],
    pub cycles: u32,
    pub measured: bool,
    pub armed: bool,
    pub retries: u32,
    pub nth: u32, // which tick of its state this one is, from 1
    pub clear: u8,
    pub speed: i16,
    pub low: bool,
    pub high: bool,
    pub tripped: bool, // a flag is live, with the causes of this tick
    pub blocked: bool, // a live cause stands
}

fn from_stop(measured: bool, armed: bool, high: bool) -> Move
    ensures { result ≡ from_stop measured armed high }
{
    if !measured {
        Move::Enter(State::OffsetCal)
    } else if armed && high {
        Move::Enter(State::BtsCharge)
    } else {
        Move::Stay
    }
}

fn from_offset_cal(settings: [u16; SETTING_COUNT], cycles: u32) -> Move
    ensures { result ≡ from_offset_cal settings cycles }
{
    if samples(settings[OFFSET_PSC]) <= cycles {
        Move::Measure
    } else {
        Move::Stay
    }
}

fn from_bts_charge(settings: [u16; SETTING_COUNT], cycles: u32) -> Move
    ensures { result ≡ from_bts_charge settings cycles }
{
    if u32::from(settings[BTS_CHARGE_TIME]) <= cycles {
        Move::Enter(State::CatchSpin)
    } else {
        Move::Stay
    }
}

fn from_catch_spin(settings: [u16; SETTING_COUNT], nth: u32, speed: u16) -> Move
    ensures { result ≡ from_catch_spin settings nth speed }
{
    let time = u32::from(settings[T_CATCH_SPIN]);
    if time == 0 {
        Move::Enter(State::AngleSensing)
    } else if nth < time {
        Move::Stay
    } else if settings[DIRECT_START_THR] < speed {
        Move::Enter(State::MotorRun)
    } else {
        Move::Enter(State::AngleSensing)
    }
}

fn from_angle_sensing(settings: [u16; SETTING_COUNT], cycles: u32) -> Move
    ensures { result ≡ from_angle_sensing settings cycles }
{
    let pulses = u32::from(settings[IS_PULSES]);
    if pulses == 0 {
        Move::Enter(State::Parking)
    } else if 6 * pulses <= cycles {
        Move::Enter(State::MotorRun)
    } else {
        Move::Stay
    }
}

fn from_parking(settings: [u16; SETTING_COUNT], nth: u32) -> Move
    ensures { result ≡ from_parking settings nth }
{
    if u32::from(settings[PARK_TIME]) <= nth {
        Move::Enter(State::OpenLoop)
    } else {
        Move::Stay
    }
}

fn from_open_loop(settings: [u16; SETTING_COUNT], speed: u16) -> Move
    ensures { result ≡ from_open_loop settings speed }
{
    if settings[OPEN_LOOP_RAMP] == 0 || settings[MIN_SPD] <= speed {
        Move::Enter(State::MotorRun)
    } else {
        Move::Stay
    }
}

impl Grounds {
    fn leaving(self) -> Move
        ensures { result ≡ own self Fault }
    {
        let timed = self.settings[CONTROL_MODE] == 1;
        let limit = u32::from(self.settings[RETRY_LIMIT]);
        match from_fault(
            timed,
            limit,
            self.nth,
            self.retries,
            self.clear,
            self.blocked,
        ) {
            Exit::Stay => Move::Stay,
            Exit::Clear => Move::Clear,
            Exit::Retry => Move::Retry,
        }
    }

    fn own_move(self) -> Move
        ensures { result ≡ own self self.state }
    {
        let settings = self.settings;
        let speed = self.speed.unsigned_abs();
        match self.state {
            State::Idle | State::MotorRun => Move::Stay,
            State::Stop => from_stop(self.measured, self.armed, self.high),
            State::OffsetCal => from_offset_cal(settings, self.cycles),
            State::BtsCharge => from_bts_charge(settings, self.cycles),
            State::Fault => self.leaving(),
            State::CatchSpin => from_catch_spin(settings, self.nth, speed),
            State::Parking => from_parking(settings, self.nth),
            State::OpenLoop => from_open_loop(settings, speed),
            State::AngleSensing => from_angle_sensing(settings, self.cycles),
        }
    }

    #[tactic(auto, unfolding(crate::specs::Moves::move_of))]
    pub fn move_of(self) -> Move
        ensures { result ≡ move_of self }
    {
        if self.state != State::Fault && self.tripped {
            Move::Enter(State::Fault)
        } else if self.state.is_turning() && self.low {
            Move::Enter(State::Stop)
        } else {
            self.own_move()
        }
    }
}
