// The program: it reads records from standard input and writes a line for each to standard output. What stands in its buffer is
// answered by `blocks`, and the bytes are moved by `pieces`.
#![tactic(auto)]

ghost use Rattle.std.specs.Prelude.{◌≡◌, length};
ghost use Rattle.blocks.specs.Blockline.{input_size, output_size};

use blocks::{Blockline, INPUT_SIZE, OUTPUT_SIZE};
use pieces::{Names, serve_runnable};

// The buffers are those of which the stream's theorems speak.
fn answer(rt: &HostRuntime, input: &mut [u8], output: &mut [u8])
    requires { (length input.old ≡ input_size) × (length output.old ≡ output_size) }
{
    let names = Names {
        input: b"blockline: standard input",
        output: b"blockline: standard output",
    };
    serve_runnable::<Blockline>(rt, (), input, output, names);
}

fn main(rt: HostRuntime) {
    let mut input = [0u8; INPUT_SIZE];
    let mut output = [0u8; OUTPUT_SIZE];
    answer(&rt, &mut input, &mut output);
}
