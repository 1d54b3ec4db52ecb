// Runs a stored stream of records in one call and prints its lines. The stream is generated, and the lines that it is held to are the
// independent model's: a fixed part of what tools/compare compares.
#![tactic(auto)]

use drive::Drive;
use records::run;
use report::LINE_LENGTH;
use std::io;
use std::io::{Input, Read};

fn print_lines(rt: &impl Print, input: &[u8], output: &mut [u8]) -> io::Result<()> {
    let ran = run(Drive::power_up(), input, true, output);
    let written = ran.written;
    rt.write_all(&output[..written])
}

// The records of the stored stream, and the bytes that hold them.
const RECORDS: usize = 3000;

const INPUT_SIZE: usize = 32768;

const OUTPUT_SIZE: usize = LINE_LENGTH * RECORDS;

fn main(rt: HostRuntime) -> io::Result<()> {
    let mut input = [0u8; INPUT_SIZE];
    let mut output = [0u8; OUTPUT_SIZE];
    let mut room = &mut input[..];
    io::copy(&mut rt.reader().take(INPUT_SIZE as u64), &mut room)?;
    let count = INPUT_SIZE.saturating_sub(room.len());
    print_lines(&rt, &input[..count], &mut output)
}
