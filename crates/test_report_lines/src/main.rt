// Calls the line writer and prints what happened: number, place and the lent bytes, each of which is a '#' before the call.
#![tactic(auto)]

ghost use Rattle.std.specs.Prelude.{◌≤◌};

use drive::answer::Answer;
use drive::offsets::Pair;
use hall::fate::Fate;
use report::LINE_LENGTH;
use std::io;

// Of lent bytes: one too few for a line, and more than it needs.
const SHORT: usize = LINE_LENGTH - 1;

const SPACIOUS: usize = LINE_LENGTH + 15;

fn call<const LENT: usize>(rt: &impl Print, answer: Answer) -> io::Result<()>
    requires { LENT ≤ 62 }
{
    let mut lent = [b'#'; LENT];
    let (number, place) = match report::line(answer, &mut lent) {
        Ok(()) => (0, 0),
        Err(refusal) => (refusal.number(), refusal.place()),
    };
    print!(rt; "{number} {place} ")?;
    rt.write_all(&lent)?;
    rt.write_all(b"\n")
}

fn call_each(rt: &impl Print, answers: &[Answer]) -> io::Result<()> {
    for &answer in answers {
        call::<LINE_LENGTH>(rt, answer)?;
    }
    Ok(())
}

const ZEROS: Pair = Pair {
    first: 0,
    second: 0,
};

const BLANK: Answer = Answer {
    number: 0,
    place: 0,
    state: 4,
    gate: 2,
    live: 0,
    reference: 0,
    position: 0,
    angle: 0,
    offsets: ZEROS,
    retries: 0,
    judged: None,
};

// An answer that shows no more than these three, one that shows the four behind them, and one that tells of a sample.
fn shows(number: u8, state: u8, gate: u8) -> Answer {
    Answer {
        number,
        state,
        gate,
        ..BLANK
    }
}

fn measured(live: u16, reference: i16, position: u32, angle: i16) -> Answer {
    Answer {
        live,
        reference,
        position,
        angle,
        ..BLANK
    }
}

fn telling(fate: Fate) -> Answer {
    Answer {
        judged: Some(fate),
        ..BLANK
    }
}

fn rooms(rt: &impl Print) -> io::Result<()> {
    call::<SHORT>(rt, shows(0, 1, 0))?;
    call::<LINE_LENGTH>(rt, shows(0, 1, 0))?;
    call::<SPACIOUS>(rt, shows(0, 1, 0))
}

// Each place by itself, and each before the later ones.
fn refusals(rt: &impl Print) -> io::Result<()> {
    call::<SPACIOUS>(rt, shows(16, 9, 3))?;
    call::<SPACIOUS>(rt, shows(15, 10, 3))?;
    call::<SPACIOUS>(rt, shows(15, 9, 4))?;
    call::<SHORT>(rt, shows(16, 10, 4))?;
    call_each(
        rt,
        &[
            shows(255, 255, 255),
            shows(15, 255, 255),
            shows(15, 9, 255),
            shows(15, 9, 3),
        ],
    )
}

fn states(rt: &impl Print) -> io::Result<()> {
    call_each(
        rt,
        &[
            shows(0, 0, 0),
            shows(1, 1, 1),
            shows(2, 2, 2),
            shows(3, 3, 3),
            shows(4, 4, 0),
            shows(9, 5, 0),
            shows(10, 6, 0),
            shows(11, 7, 0),
            shows(12, 8, 0),
            shows(13, 9, 0),
        ],
    )
}

fn fields(rt: &impl Print) -> io::Result<()> {
    call_each(
        rt,
        &[
            measured(0, 0, 0, 0),
            measured(1, 1, 1, 1),
            measured(4, -1, 10, -1),
            measured(0xffff, 32767, 0xffffffff, 32767),
            measured(0x8000, -32767, 0x80000000, -32767),
            measured(0xbeef, -32768, 0xdeadbeef, -32768),
        ],
    )?;
    call::<SPACIOUS>(rt, measured(0x0123, 12345, 0x01234567, -5462))
}

// Each digit at each place of live word and position, and at the last four of reference and angle: from line to line each goes one up.
fn digits(rt: &impl Print) -> io::Result<()> {
    call_each(
        rt,
        &[
            measured(0x0123, 123, 0x01234567, -5678),
            measured(0x1234, 11234, 0x12345678, -16789),
            measured(0x2345, 22345, 0x23456789, -27890),
            measured(0x3456, 3456, 0x3456789a, -8901),
            measured(0x4567, 14567, 0x456789ab, -19012),
            measured(0x5678, 25678, 0x56789abc, -20123),
            measured(0x6789, 6789, 0x6789abcd, -1234),
            measured(0x789a, 17890, 0x789abcde, -12345),
            measured(0x89ab, 28901, 0x89abcdef, -23456),
            measured(0x9abc, 9012, 0x9abcdef0, -4567),
            measured(0xabcd, 10123, 0xabcdef01, -15678),
            measured(0xbcde, 21234, 0xbcdef012, -26789),
            measured(0xcdef, 2345, 0xcdef0123, -7890),
            measured(0xdef0, 13456, 0xdef01234, -18901),
            measured(0xef01, 24567, 0xef012345, -29012),
            measured(0xf012, 5678, 0xf0123456, -123),
        ],
    )
}

fn fates(rt: &impl Print) -> io::Result<()> {
    call_each(
        rt,
        &[
            telling(Fate::First),
            telling(Fate::Same),
            telling(Fate::Forward),
            telling(Fate::Back),
            telling(Fate::Dead),
            telling(Fate::Stray),
            BLANK,
        ],
    )?;
    call::<SPACIOUS>(rt, telling(Fate::Stray))
}

fn main(rt: HostRuntime) -> io::Result<()> {
    rooms(&rt)?;
    refusals(&rt)?;
    states(&rt)?;
    fields(&rt)?;
    digits(&rt)?;
    fates(&rt)
}
