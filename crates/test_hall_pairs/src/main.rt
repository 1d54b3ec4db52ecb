// Runs one sample of each pattern against each kept pattern, with three sensors (0 to 7 against none and 1 to 6) and with two (0 to 3
// against none and 0 to 3), and prints a line for each pair: sensors, pattern, kept pattern (. for none), fate, position after and angle
// after. The Hall part starts at position 0 and at angle 1, which no pattern gives, and the offset is 0.
#![tactic(auto)]

use hall::fate::Fate;
use hall::layout::Sensors;
use hall::{Hall, POWERED_UP};
use std::io;

fn name(fate: Fate) -> &'static str {
    match fate {
        Fate::Dead => "dead",
        Fate::First => "first",
        Fate::Same => "same",
        Fate::Forward => "forward",
        Fate::Back => "back",
        Fate::Stray => "stray",
    }
}

fn print_pair(rt: &impl Print, sensors: Sensors, pattern: u8, kept: Option<u8>) -> io::Result<()> {
    let number_of_sensors = match sensors {
        Sensors::Three => 3,
        Sensors::Two => 2,
    };
    print!(rt; "{number_of_sensors} {pattern} ")?;
    match kept {
        None => print!(rt; ".")?,
        Some(held) => print!(rt; "{held}")?,
    }
    let before = Hall {
        kept,
        angle: 1,
        ..POWERED_UP
    };
    let sampled = before.sampled(sensors, pattern, 0);
    println!(rt;
        " {} {} {:+}",
        name(sampled.fate),
        sampled.hall.position,
        sampled.hall.angle
    )
}

// Each of so many patterns, from 0 on: against none kept, and then against each of the kept ones.
fn print_pairs(rt: &impl Print, sensors: Sensors, patterns: u8, kept: &[u8]) -> io::Result<()> {
    for pattern in 0..patterns {
        print_pair(rt, sensors, pattern, None)?;
        for &held in kept {
            print_pair(rt, sensors, pattern, Some(held))?;
        }
    }
    Ok(())
}

fn main(rt: HostRuntime) -> io::Result<()> {
    print_pairs(&rt, Sensors::Three, 8, &[1, 2, 3, 4, 5, 6])?;
    print_pairs(&rt, Sensors::Two, 4, &[0, 1, 2, 3])
}
