// What the crates above need of machine numbers, of numbers in bytes and of a choice. Each call takes any value. Where std's method is the
// whole body the name stays, since a promise in the paper's words and its wrong answers go by it (docs/PROMISES.md).
#![tactic(auto)]

ghost use Rattle.std.specs.Prelude.{◌≡◌, ◌+◌, ◌*◌, ◌++◌, cond, min, nat_abs, take, drop, replicate};
ghost use Rattle.std.specs.Int.{w16};
ghost use Rattle.std.proofs.Common.{to_z};
ghost use Rattle.numbers.specs.Count.{up};
ghost use Rattle.numbers.specs.Limit.{limit};
ghost use Rattle.numbers.specs.Bytes.{byte, number, numbers, word};

// A count up by one, and at most `most`.
pub fn count_up(count: u32, most: u32) -> u32
    ensures { result ≡ up most count }
{
    count.saturating_add(1).min(most)
}

// 16 bits read as a signed number, in two's complement.
pub fn signed(bits: u16) -> i16
    ensures { result ≡ to_z w16 bits }
{
    bits.cast_signed()
}

// The absolute value, which for -32768 does not fit an i16.
pub fn absolute(number: i16) -> u16
    ensures { result ≡ nat_abs number }
{
    number.unsigned_abs()
}

// The nearest number from -32767 to 32767.
pub fn limited(number: i32) -> i16
    ensures { result ≡ limit number }
{
    number.clamp(-32767, 32767) as i16
}

// The byte at a place, and 0 past the end.
pub fn byte_at(bytes: &[u8], at: usize) -> u8
    ensures { result ≡ byte at bytes.now }
{
    bytes.get(at).copied().unwrap_or(0)
}

// The number whose first byte stands at a place; bytes past the end are 0.
pub fn number_at(bytes: &[u8], at: usize) -> u16
    ensures { result ≡ number at bytes.now }
{
    u16::from_be_bytes([byte_at(bytes, at), byte_at(bytes, at.saturating_add(1))])
}

// The two bytes of a number, high first.
pub fn word_of(number: u16) -> [u8; 2]
    ensures { result ≡ word number }
{
    number.to_be_bytes()
}

// One of two values, by a test.
pub fn pick<T: Drop>(test: bool, yes: T, no: T) -> T
    ensures { result ≡ cond test yes no }
{
    if test { yes } else { no }
}

// The first of so many numbers, high byte first, as many as there is room for; behind them blanks. Bytes past the end are 0.
pub fn numbers_at<const N: usize>(bytes: &[u8], first: usize, count: usize, blank: u16) -> [u16; N]
    ensures { result ≡ numbers (min count N) first bytes.now ++ drop (min count N) (replicate N blank) }
{
    // A `for` and no `array::from_fn`: of that the result stays open, since its promise follows the closure from step to step.
    let mut numbers = [blank; N];
    for i in 0..count.min(N) {
        numbers[i] = number_at(bytes, first.saturating_add(2 * i));
    }
    numbers
}

// The first of the numbers, as many as there is room for; behind them blanks.
pub fn filled<const N: usize>(numbers: &[u16], blank: u16) -> [u16; N]
    ensures { result ≡ take N (numbers.now ++ replicate N blank) }
{
    let mut all = [blank; N];
    let count = numbers.len().min(N);
    all[..count].copy_from_slice(&numbers[..count]);
    all
}
