// Runs the stored records once whole and once in two parts for every place where they can be split, with the drive handed on, and
// compares the lines. It prints the lines of the whole run, and how many splits there were and how many gave other lines.
#![tactic(auto)]

ghost use Rattle.std.specs.Prelude.{◌≤◌, length};

use drive::Drive;
use records::{CYCLE_SIZE, run};
use report::LINE_LENGTH;
use std::io;
use std::io::{Input, Read};

// What of the first part is not taken is read again with the second, as the program reads on behind what it holds. A line with
// number 6 ends the run, so nothing behind it is read.
fn in_parts(input: &[u8], split: usize, output: &mut [u8]) -> usize
    requires { split ≤ length input.now }
    ensures { result ≤ length output.old }
{
    let first = run(Drive::power_up(), &input[..split], false, output);
    if first.ended {
        return first.written;
    }
    let second = run(
        first.state,
        &input[first.taken..],
        true,
        &mut output[first.written..],
    );
    first.written + second.written
}

fn differs(input: &[u8], split: usize, lines: &[u8], output: &mut [u8]) -> bool
    requires { split ≤ length input.now }
{
    let written = in_parts(input, split, output);
    lines != &output[..written]
}

fn print_differing(
    rt: &impl Print,
    input: &[u8],
    lines: &[u8],
    output: &mut [u8],
) -> io::Result<()> {
    let splits = input.len() + 1;
    let mut differing: usize = 0;
    for split in 0..splits {
        if differs(input, split, lines, output) {
            differing += 1;
        }
    }
    println!(rt; "{splits} splits, {differing} differ")
}

fn compare(rt: &impl Print, input: &[u8], whole: &mut [u8], parts: &mut [u8]) -> io::Result<()> {
    let ran = run(Drive::power_up(), input, true, whole);
    let written = ran.written;
    rt.write_all(&whole[..written])?;
    print_differing(rt, input, &whole[..written], parts)
}

// How many bytes the second comparison leaves out at the end, so that it ends between two records, and the third, so that it ends in
// a short one.
const UNKNOWN: usize = 4;

const CUT: usize = 20;

const INPUT_SIZE: usize = 1024;

// The lines of everything that the input can ask for: the shortest record is a cycle.
const OUTPUT_SIZE: usize = LINE_LENGTH * (INPUT_SIZE / CYCLE_SIZE + 1);

fn main(rt: HostRuntime) -> io::Result<()> {
    let mut input = [0u8; INPUT_SIZE];
    let mut whole = [0u8; OUTPUT_SIZE];
    let mut parts = [0u8; OUTPUT_SIZE];
    let mut room = &mut input[..];
    io::copy(&mut rt.reader().take(INPUT_SIZE as u64), &mut room)?;
    let count = INPUT_SIZE.saturating_sub(room.len());
    compare(&rt, &input[..count], &mut whole, &mut parts)?;
    if CUT < count {
        compare(&rt, &input[..count - UNKNOWN], &mut whole, &mut parts)?;
        compare(&rt, &input[..count - CUT], &mut whole, &mut parts)?;
    }
    Ok(())
}
