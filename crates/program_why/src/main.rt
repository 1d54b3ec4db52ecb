// The program `why`: it reads records as shiftline does, and says in sentences what matters of them. The supervisor answers each record,
// the onlooker of demand 3 hears each call with its answer; the rest is words, and the moving of bytes.
#![tactic(auto)]

mod event;
mod happened;
mod places;
mod samples;
mod sentence;
mod shown;
mod turn;
mod words;

use event::Story;
use places::Places;
use records::{INPUT_SIZE, OUTPUT_SIZE};
use std::io::{Cursor, Input};
use turn::turn;

// A record or a read a turn. A proved loop has to end, and nothing says that the input does: the turns are counted up to a number that no
// run uses up.
fn serve(rt: &(impl Input + Print + Eprint), input: &mut [u8], output: &mut [u8]) {
    let mut page = Cursor::new(output);
    let mut story = Story::new();
    let mut places = Places::default();
    for _ in 0..u64::MAX {
        match turn(rt, story, places, input, &mut page) {
            Some((after, next)) => {
                story = after;
                places = next;
            }
            None => return,
        }
    }
}

fn main(rt: HostRuntime) {
    let mut input = [0u8; INPUT_SIZE];
    let mut output = [0u8; OUTPUT_SIZE];
    serve(&rt, &mut input, &mut output);
}
