// What a cycle and a tick are told, and which of their fields is the first out of its range.
#![tactic(auto)]

ghost use Rattle.std.specs.Prelude.{◌≡◌};
ghost use Rattle.verdicts.specs.Table.{verdict, verdict_of};
ghost use Rattle.fields.specs.Fields.{cycle_fields, tick_fields};

use verdicts::{Refusal, refuse};

#[derive(Clone, Copy)]
pub struct Cycle {
    pub pattern: u8,
    pub first: u16,
    pub second: u16,
}

#[derive(Clone, Copy)]
pub struct Tick {
    pub gate_kill: u8,
    pub clear: u8,
    pub command: u8,
    pub control: u16,
    pub vdc_raw: u16,
    pub vdc_filt: u16,
    pub temperature: u16,
    pub flx_m: u16,
    pub trq_ref: i16,
    pub speed: i16,
    pub target: i16,
}

impl Cycle {
    // The patterns go up to the highest that the motor's sensors can give.
    pub fn verdict(self, highest: u8) -> Result<(), Refusal>
        ensures { verdict_of result ≡ verdict (cycle_fields highest self) }
    {
        refuse(Refusal::Field(1), highest < self.pattern)?;
        refuse(Refusal::Field(2), 4095 < self.first)?;
        refuse(Refusal::Field(3), 4095 < self.second)
    }
}

impl Tick {
    pub fn verdict(self) -> Result<(), Refusal>
        ensures { verdict_of result ≡ verdict (tick_fields self) }
    {
        refuse(Refusal::Field(1), 1 < self.gate_kill)?;
        refuse(Refusal::Field(2), 1 < self.clear)?;
        refuse(Refusal::Field(3), 1 < self.command)?;
        refuse(Refusal::Field(4), 4095 < self.control)?;
        refuse(Refusal::Field(5), 4095 < self.vdc_raw)?;
        refuse(Refusal::Field(6), 4095 < self.vdc_filt)?;
        refuse(Refusal::Field(7), 4095 < self.temperature)?;
        refuse(Refusal::Field(8), 65535 < u32::from(self.flx_m))?;
        refuse(Refusal::Field(9), 4095 < self.trq_ref.unsigned_abs())?;
        refuse(Refusal::Field(10), 32767 < self.speed.unsigned_abs())?;
        refuse(Refusal::Field(11), 32767 < self.target.unsigned_abs())
    }
}
