// The angle handed on.
ghost use Rattle.std.specs.Prelude.{◌≡◌};
ghost use Rattle.hall.specs.Angle.{twelfth, with_offset};

// k times 30 degrees, for k from 0 to 11, where a full turn is 65536.
const TWELFTHS: [i16; 12] = [
    0, 5461, 10922, 16384, 21845, 27306, -32768, -27307, -21846, -16384, -10923, -5462,
];

#[tactic(auto, unfolding(crate::specs::Angle::twelfth))]
fn twelfth(k: usize) -> i16
    ensures { result ≡ twelfth k }
{
    TWELFTHS[k % 12]
}

// One of the twelve angles, with the offset: their sum, which wraps. A difference in its place is what cost the customer yarn.
#[tactic(auto, unfolding(crate::specs::Angle::with_offset))]
pub(crate) fn angle_at(k: usize, offset: i16) -> i16
    ensures { result ≡ with_offset (twelfth k) offset }
{
    twelfth(k).wrapping_add(offset)
}
