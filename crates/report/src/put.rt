// Writers of one field each, with the byte that ends it: they put each of these bytes directly in its final place of a lent buffer, touch
// no other byte, and tell the place behind them. A task with little stack calls them, so none collects bytes, and none reads a table:
// Rattle builds an indexed constant array anew on the stack at each use. tools/stack tells what the call takes.
// What they put and the place behind it stand in each contract: as one definition for all, the check no longer sees alone that the next
// field fits.
ghost use Rattle.std.specs.Prelude.{◌≡◌, [], ◌∷◌, ◌++◌, ◌+◌, ◌≤◌, ◌<◌, length};
ghost use Rattle.std.proofs.lemmas.List.Edits.{sets};
ghost use Rattle.report.specs.Text.{digit, digits, sign, signed};
ghost use Rattle.report.specs.Line.{name};

fn digit(value: u32) -> u8
    requires { value < 16 }
    ensures { result ≡ digit value }
{
    if value < 10 {
        return b'0' + value as u8;
    }
    b'A' + (value - 10) as u8
}

// The last `width` digits of a number, from the right.
pub(crate) fn put_digits(
    lent: &mut [u8],
    at: usize,
    number: u32,
    base: u32,
    width: usize,
    end: u8,
) -> usize
    requires base_nonzero { (0 < base) × (base ≤ 16) }
    requires width_in_bounds { at + width < length lent.old }
    ensures next { result ≡ at + width + 1 }
    ensures lent { lent.new ≡ sets lent.old at (digits base width number ++ (end ∷ [])) }
{
    let mut rest = number;
    for i in (0..width).rev() {
        lent[at + i] = digit(rest % base);
        rest /= base;
    }
    lent[at + width] = end;
    at + width + 1
}

fn sign(number: i16) -> u8
    ensures { result ≡ sign number }
{
    if number < 0 { b'-' } else { b'+' }
}

// A sign and five digits.
pub(crate) fn put_signed(lent: &mut [u8], at: usize, number: i16, end: u8) -> usize
    requires { at + 6 < length lent.old }
    ensures next { result ≡ at + 6 + 1 }
    ensures lent { lent.new ≡ sets lent.old at (signed number ++ (end ∷ [])) }
{
    lent[at] = sign(number);
    put_digits(lent, at + 1, numbers::absolute(number) as u32, 10, 5, end)
}

// Bytes as they are.
fn put(lent: &mut [u8], at: usize, bytes: &[u8], end: u8) -> usize
    requires { at + length bytes.now < length lent.old }
    ensures next { result ≡ at + length bytes.now + 1 }
    ensures lent { lent.new ≡ sets lent.old at (bytes.now ++ (end ∷ [])) }
{
    let behind = at + bytes.len();
    lent[at..behind].copy_from_slice(bytes);
    lent[behind] = end;
    behind + 1
}

// The name of a state, padded with full stops to twelve.
pub(crate) fn put_name(lent: &mut [u8], at: usize, state: u8, end: u8) -> usize
    requires state_bound { state ≤ 9 }
    requires at_in_bounds { at + 12 < length lent.old }
    ensures next { result ≡ at + 12 + 1 }
    ensures lent { lent.new ≡ sets lent.old at (name state ++ (end ∷ [])) }
{
    match state {
        0 => put(lent, at, b"IDLE........", end),
        1 => put(lent, at, b"STOP........", end),
        2 => put(lent, at, b"OFFSETCAL...", end),
        3 => put(lent, at, b"BTSCHARGE...", end),
        4 => put(lent, at, b"MOTORRUN....", end),
        5 => put(lent, at, b"FAULT.......", end),
        6 => put(lent, at, b"CATCHSPIN...", end),
        7 => put(lent, at, b"PARKING.....", end),
        8 => put(lent, at, b"OPENLOOP....", end),
        _ => put(lent, at, b"ANGLESENSING", end),
    }
}

// A single byte as it is.
pub(crate) fn put_letter(lent: &mut [u8], at: usize, letter: u8, end: u8) -> usize
    requires { at + 1 < length lent.old }
    ensures next { result ≡ at + 1 + 1 }
    ensures lent { lent.new ≡ sets lent.old at (letter ∷ end ∷ []) }
{
    lent[at] = letter;
    lent[at + 1] = end;
    at + 2
}
