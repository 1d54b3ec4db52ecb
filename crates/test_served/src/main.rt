// Answers a stored stream through `pieces::serve`, which asks records for no run of their own, in buffers so small that a read often
// cuts a record. The lines that it is held to are the independent model's.
#![tactic(auto)]

use drive::Drive;
use pieces::{Names, serve};
use records::{CYCLE_SIZE, Shiftline};
use report::LINE_LENGTH;

// The longest record is a load of 25 numbers, of 51 bytes.
const INPUT_SIZE: usize = 64;

// The lines of everything that the input can ask for: the shortest record is a cycle.
const OUTPUT_SIZE: usize = LINE_LENGTH * (INPUT_SIZE / CYCLE_SIZE + 1);

fn main(rt: HostRuntime) {
    let mut input = [0u8; INPUT_SIZE];
    let mut output = [0u8; OUTPUT_SIZE];
    let names = Names {
        input: b"test_served: standard input",
        output: b"test_served: standard output",
    };
    serve::<Shiftline>(&rt, Drive::power_up(), &mut input, &mut output, names);
}
