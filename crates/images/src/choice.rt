// The block that an analog input chooses.
ghost use Rattle.std.specs.Prelude.{◌≡◌};
ghost use Rattle.images.specs.Image.{fifteen};
ghost use Rattle.images.specs.Choice.{choice, choice_of};

use crate::BLOCKS;
use verdicts::{Refusal, refuse};

#[tactic(auto, unfolding(crate::specs::Choice::choice))]
pub fn choose(count: u16) -> Result<u8, Refusal>
    ensures { choice_of result ≡ choice fifteen count }
{
    refuse(Refusal::Field(1), 4095 < count)?;
    Ok(((count as usize) * BLOCKS / 4096) as u8)
}
