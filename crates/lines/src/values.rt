// The value of a text: the other way round than the writers of `report`. Bytes that no line has get a value, too, so none of these is a
// `TryFrom`: the line is written again and compared.
ghost use Rattle.std.specs.Prelude.{◌≡◌, ◌^◌, ◌≤◌, ◌<◌, length};
ghost use Rattle.lines.specs.Values.{value_of, value, signed_of, state_of, judged_of};

use hall::fate::Fate;

fn digit(byte: u8) -> u32
    ensures { result ≡ value_of byte }
{
    let low = u32::from(byte);
    if byte < b'A' {
        low % 16
    } else {
        (low + 9) % 16
    }
}

// The value of up to eight digits.
pub(crate) fn value(digits: &[u8], base: u32) -> u32
    requires { (base ≤ 16) × (length digits.now ≤ 8) }
    ensures value { result ≡ value base digits.now }
    ensures below { result < 16 ^ length digits.now }
{
    let mut sum = 0;
    for &byte in digits {
        sum = sum * base + digit(byte);
    }
    sum
}

// A number that no i16 holds is taken for another one: the line shows it not.
pub(crate) fn signed_of(sign: u8, absolute: u32) -> i16
    ensures { result ≡ signed_of sign absolute }
{
    let low = (absolute % 65536) as u16;
    let bits = if sign == b'-' {
        low.wrapping_neg()
    } else {
        low
    };
    bits.cast_signed()
}

pub(crate) fn state_of(first: u8, second: u8) -> u8
    ensures { result ≡ state_of first second }
{
    match (first, second) {
        (b'I', _) => 0,
        (b'S', _) => 1,
        (b'O', b'F') => 2,
        (b'O', _) => 8,
        (b'B', _) => 3,
        (b'M', _) => 4,
        (b'F', _) => 5,
        (b'C', _) => 6,
        (b'P', _) => 7,
        _ => 9,
    }
}

pub(crate) fn judged_of(letter: u8) -> Option<Fate>
    ensures { result ≡ judged_of letter }
{
    match letter {
        b'F' => Some(Fate::First),
        b'S' => Some(Fate::Same),
        b'W' => Some(Fate::Forward),
        b'B' => Some(Fate::Back),
        b'D' => Some(Fate::Dead),
        b'X' => Some(Fate::Stray),
        _ => None,
    }
}
