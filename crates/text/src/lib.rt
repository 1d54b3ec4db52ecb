// Texts written into lent bytes. Each writer puts what fits from a place on, touches no other byte, and tells the place behind it, so
// that a sentence is a chain of calls. Bytes and place are no struct `Page { lent: &mut [u8], at: usize }`: that was tried, and each writer
// then has to promise besides that the reference in it is the same one.
#![tactic(auto)]

ghost use Rattle.std.specs.Prelude.{◌≡◌, ◌-◌, min};
ghost use Rattle.text.specs.Put.{behind, written};
ghost use Rattle.text.specs.Decimal.{decimal, signed_decimal, column};

// A number of 64 bits has twenty digits at most, and a column is no wider.
const WIDEST: usize = 20;

// Puts the bytes into the lent ones from a place on, as many as fit, and tells the place behind them.
pub fn put(lent: &mut [u8], at: usize, bytes: &[u8]) -> usize
    ensures next { result ≡ behind at bytes.now lent.old }
    ensures lent { lent.new ≡ written at bytes.now lent.old }
{
    if lent.len() <= at {
        return lent.len();
    }
    let count = bytes.len().min(lent.len() - at);
    lent[at..at + count].copy_from_slice(&bytes[..count]);
    at + count
}

// Puts a number in decimal.
#[tactic(auto, using(crate::proofs::Decimals::narrowest))]
pub fn put_decimal(lent: &mut [u8], at: usize, number: u64) -> usize
    ensures next { result ≡ behind at (decimal number) lent.old }
    ensures lent { lent.new ≡ written at (decimal number) lent.old }
{
    put_column(lent, at, number, 0)
}

// Puts a number in decimal, a negative one with a minus before it.
#[tactic(auto, using(crate::proofs::Signed::chained_signs))]
pub fn put_signed(lent: &mut [u8], at: usize, number: i16) -> usize
    ensures next { result ≡ behind at (signed_decimal number) lent.old }
    ensures lent { lent.new ≡ written at (signed_decimal number) lent.old }
{
    let at = if number < 0 { put(lent, at, b"-") } else { at };
    put_decimal(lent, at, u64::from(number.unsigned_abs()))
}

// Puts a number in decimal at the left of a column: blanks behind it, up to a width of twenty at most.
pub fn put_column(lent: &mut [u8], at: usize, number: u64, width: usize) -> usize
    ensures next { result ≡ behind at (column width number) lent.old }
    ensures lent { lent.new ≡ written at (column width number) lent.old }
{
    let mut page = [b' '; WIDEST];
    let count = io::decimal(number, &mut page);
    put(lent, at, &page[..count.max(width.min(WIDEST))])
}
