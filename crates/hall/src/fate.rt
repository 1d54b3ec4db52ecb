// The judgement of a sample.
ghost use Rattle.std.specs.Prelude.{◌≡◌};
ghost use Rattle.hall.specs.Layout.{layout};
ghost use Rattle.hall.specs.Fate.{fate};

use crate::layout::Sensors;

// What became of a sample.
#[derive(Clone, Copy, PartialEq, Eq, Debug)]
pub enum Fate {
    Dead,
    First,
    Same,
    Forward,
    Back,
    Stray,
}

// A pattern against the kept one. None kept is no number: with two sensors 0 is a good pattern.
#[tactic(auto, using(crate::proofs::Layouts::fate_by_place), unfolding(crate::specs::Fate::beside))]
pub fn judged(sensors: Sensors, pattern: u8, kept: Option<u8>) -> Fate
    ensures { result ≡ fate (layout sensors) pattern kept }
{
    match (sensors.place_of(pattern), kept) {
        (None, _) => Fate::Dead,
        (Some(_), None) => Fate::First,
        (Some(_), Some(held)) if held == pattern => Fate::Same,
        (Some(sector), Some(held)) if held == sector.behind => Fate::Forward,
        (Some(sector), Some(held)) if held == sector.ahead => Fate::Back,
        (Some(_), Some(_)) => Fate::Stray,
    }
}
