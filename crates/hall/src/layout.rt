// The layout of the Hall sensors: what a pattern's sector is, with three sensors and with two.
ghost use Rattle.std.specs.Prelude.{◌≡◌};
ghost use Rattle.hall.specs.Layout.{layout, sector_of, place_of};

// The motor's sensors: H1, H2 and H3, or H1 and H2 only.
#[derive(Clone, Copy, PartialEq, Eq, Debug)]
pub enum Sensors {
    Three,
    Two,
}

// A sector: the pattern before it and the next one, clockwise; in twelfths of a turn its middle and its boundary to the next sector; and
// its width in counts of the position.
#[derive(Clone, Copy, Default)]
pub(crate) struct Sector {
    pub(crate) behind: u8,
    pub(crate) ahead: u8,
    pub(crate) middle: usize,
    pub(crate) boundary: usize,
    pub(crate) width: u32,
}

impl Sensors {
    // The sector of a pattern; none where the pattern is not one of the layout's.
    #[tactic(auto, unfolding(crate::specs::Layout::place_of))]
    pub(crate) fn place_of(self, pattern: u8) -> Option<Sector>
        ensures { result ≡ place_of (layout self) pattern }
    {
        let (behind, ahead, middle, boundary, width) = match (self, pattern) {
            (Sensors::Three, 1) => (5, 3, 11, 0, 1),
            (Sensors::Three, 3) => (1, 2, 1, 2, 1),
            (Sensors::Three, 2) => (3, 6, 3, 4, 1),
            (Sensors::Three, 6) => (2, 4, 5, 6, 1),
            (Sensors::Three, 4) => (6, 5, 7, 8, 1),
            (Sensors::Three, 5) => (4, 1, 9, 10, 1),
            (Sensors::Two, 1) => (0, 3, 10, 0, 2),
            (Sensors::Two, 3) => (1, 2, 1, 2, 1),
            (Sensors::Two, 2) => (3, 0, 4, 6, 2),
            (Sensors::Two, 0) => (2, 1, 7, 8, 1),
            _ => return None,
        };
        Some(Sector {
            behind,
            ahead,
            middle,
            boundary,
            width,
        })
    }

    // All zero where the pattern is none of the layout's.
    #[tactic(auto, using(crate::proofs::Layouts::sector_by_place))]
    pub(crate) fn sector_of(self, pattern: u8) -> Sector
        ensures { result ≡ sector_of (layout self) pattern }
    {
        self.place_of(pattern).unwrap_or_default()
    }
}
