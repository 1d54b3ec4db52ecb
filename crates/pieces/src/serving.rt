// The loop of a program of records: it reads, answers what has come, writes the lines, and reads on.
ghost use Rattle.std.specs.Prelude.{ℕ, true, ◌≡◌, ◌-◌, ◌^◌, ◌≤◌, length};
ghost use Rattle.pieces.specs.Turn.{Rest, ReadOn, Served};

use crate::{move_to_front, read_behind, write_out};
use std::io::Input;
use std::marker::PhantomData;
use streams::{Ran, Records, Runnable, run};

// What the two streams are called where a failure is told.
#[derive(Clone, Copy)]
pub struct Names<'a> {
    pub input: &'a [u8],
    pub output: &'a [u8],
}

// What the program holds from one read to the next: its state, how many bytes at the front of the buffer are not answered yet, and
// whether there is to be a next read. A flag and no Option, since `read_on` requires it: edit `read_after_the_last`.
#[derive(Clone, Copy)]
pub struct Held<S> {
    pub state: S,
    pub count: usize,
    pub going: bool,
}

// Answers the first `filled` bytes of the buffer, writes the lines, and moves what is left to the front.
fn answer<P: Runnable>(
    rt: &(impl Print + Eprint),
    state: P::State,
    input: &mut [u8],
    filled: usize,
    closed: bool,
    output: &mut [u8],
    name: &[u8],
) -> Held<P::State>
    requires { filled ≤ length input.old }
    ensures within { result.count ≤ length input.old }
    ensures rest { Rest P.program closed (length output.old) filled input.old input.new state result }
{
    let ran = P::run(state, &input[..filled], closed, output);
    let is_written = write_out(rt, &output[..ran.written], name);
    Held {
        state: ran.state,
        count: move_to_front(input, ran.taken, filled),
        going: is_written & !ran.ended & !closed,
    }
}

// Reads once behind the bytes that are held. A read that fails ends the program; one of no bytes is the end of the input.
// It may be called only where there is to be a next read, so no loop around it goes on after a refusal.
fn read_on<P: Runnable>(
    rt: &(impl Input + Print + Eprint),
    held: Held<P::State>,
    input: &mut [u8],
    output: &mut [u8],
    names: Names,
) -> Held<P::State>
    requires { (held.going ≡ true) × (held.count ≤ length input.old) }
    ensures within { result.count ≤ length input.old }
    ensures rest { ReadOn P.program (length output.old) input.old input.new held result }
{
    let Some(brought) = read_behind(rt, input, held.count, names.input) else {
        return Held {
            going: false,
            ..held
        };
    };
    let filled = held.count + brought;
    answer::<P>(
        rt,
        held.state,
        input,
        filled,
        brought == 0,
        output,
        names.output,
    )
}

// Answers the records of standard input on standard output, by their own run, from this state on, until a refusal or the end of the
// input, and tells what it holds then. A proved loop has to end, and nothing says that the input does: the reads are counted to a
// number that no run uses up.
pub fn serve_runnable<P: Runnable>(
    rt: &(impl Input + Print + Eprint),
    state: P::State,
    input: &mut [u8],
    output: &mut [u8],
    names: Names,
) -> Held<P::State>
    ensures { (reads : ℕ)
        × Served P.program (length output.old) input.old (record { state = state; count = 0; going = true }) reads input.new result
        × (result.going ≡ true → reads ≡ 2 ^ 64 - 1) }
{
    let mut held = Held {
        state,
        count: 0,
        going: true,
    };
    for reads in 0..u64::MAX {
        if !held.going {
            return held;
        }
        held = read_on::<P>(rt, held, input, output, names);
    }
    held
}

// The records of P with the run that `streams` has for any, so that one loop, with one invariant, serves these too.
struct Plain<P>(PhantomData<P>);

impl<P: Records> Records for Plain<P> {
    type State = P::State;

    ghost Record = { P.Record };

    ghost program = { P.program };

    fn step(state: P::State, input: &[u8], closed: bool, output: &mut [u8]) -> Ran<P::State> {
        P::step(state, input, closed, output)
    }
}

impl<P: Records> Runnable for Plain<P> {
    fn run(state: P::State, input: &[u8], closed: bool, output: &mut [u8]) -> Ran<P::State> {
        run::<P>(state, input, closed, output)
    }
}

// What `serve_runnable` does, and word for word its promise, of records whose crate gives no run of its own, or whose own is not asked for.
pub fn serve<P: Records>(
    rt: &(impl Input + Print + Eprint),
    state: P::State,
    input: &mut [u8],
    output: &mut [u8],
    names: Names,
) -> Held<P::State>
    ensures { (reads : ℕ)
        × Served P.program (length output.old) input.old (record { state = state; count = 0; going = true }) reads input.new result
        × (result.going ≡ true → reads ≡ 2 ^ 64 - 1) }
{
    serve_runnable::<Plain<P>>(rt, state, input, output, names)
}
