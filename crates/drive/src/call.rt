// Any call of the three that a record can bring, and its reply.
ghost use Rattle.std.specs.Prelude.{◌≡◌};
ghost use Rattle.drive.specs.AnyCall.{asked, reply};

use crate::Drive;
use crate::answer::Reply;
use fields::{Cycle, Tick};
use settings::ALL_SETTINGS;

// What is asked of the drive: a load of settings, a cycle or a tick. A block load lends an image, and is asked by itself.
#[derive(Clone, Copy)]
pub enum Call {
    Load([u16; ALL_SETTINGS]),
    Cycle(Cycle),
    Tick(Tick),
}

impl Drive {
    pub fn call(self, call: Call) -> Reply
        ensures { result ≡ reply self (asked call) }
    {
        match call {
            Call::Load(settings) => self.load(&settings),
            Call::Cycle(fields) => self.cycle(fields),
            Call::Tick(fields) => self.tick(fields),
        }
    }
}
