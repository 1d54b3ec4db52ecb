// The offsets of the two current samples, measured in OFFSETCAL.
ghost use Rattle.std.specs.Prelude.{◌≡◌, ◌<◌};
ghost use Rattle.drive.specs.Offsets.{added, measured_by, cleared};

#[derive(Clone, Copy, Default)]
pub struct Pair {
    pub first: u32,
    pub second: u32,
}

// Whether the offsets are measured, what they are, and the sums that they are made of. No `Option` of the pair: the answer shows the
// value of any drive, also of one that has not measured it (specs/Answer.antt `answer_telling`).
#[derive(Clone, Copy, Default)]
pub struct Offsets {
    pub measured: bool,
    pub value: Pair,
    pub sum: Pair,
}

impl Offsets {
    pub(crate) fn added(self, first: u16, second: u16) -> Offsets
        ensures { result ≡ added first second self }
    {
        let old = self.sum;
        let sum = Pair {
            first: old.first.wrapping_add(u32::from(first)),
            second: old.second.wrapping_add(u32::from(second)),
        };
        Offsets { sum, ..self }
    }

    pub(crate) fn measured_by(self, n: u32) -> Offsets
        requires { 0 < n }
        ensures { result ≡ measured_by n self }
    {
        let sum = self.sum;
        let value = Pair {
            first: sum.first / n,
            second: sum.second / n,
        };
        Offsets {
            measured: true,
            value,
            sum,
        }
    }

    pub(crate) fn cleared(self) -> Offsets
        ensures { result ≡ cleared self }
    {
        Offsets {
            sum: Pair::default(),
            ..self
        }
    }
}
