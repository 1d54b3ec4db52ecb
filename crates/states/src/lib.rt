// The states of the drive, with the paper's numbers.
#![tactic(auto)]

ghost use Rattle.std.specs.Prelude.{◌≡◌};
ghost use Rattle.states.specs.States.{number_of, turning};

#[derive(Clone, Copy, PartialEq, Eq)]
pub enum State {
    Idle = 0,
    Stop = 1,
    OffsetCal = 2,
    BtsCharge = 3,
    MotorRun = 4,
    Fault = 5,
    CatchSpin = 6,
    Parking = 7,
    OpenLoop = 8,
    AngleSensing = 9,
}

impl State {
    // The paper's number.
    pub fn number(self) -> u8
        ensures { result ≡ number_of self }
    {
        self as u8
    }

    // One of the six starting and running states.
    pub fn is_turning(self) -> bool
        ensures { result ≡ turning self }
    {
        matches!(
            self,
            State::BtsCharge
                | State::MotorRun
                | State::CatchSpin
                | State::Parking
                | State::OpenLoop
                | State::AngleSensing
        )
    }
}
