// A run over records that come in pieces, whatever the records are and whatever a program prints of them.
#![tactic(auto)]

ghost use Rattle.std.specs.Prelude.{◌≡◌, ◌≤◌, length};
ghost use Rattle.streams.specs.Run.{Program, rest, runs, run, output_after, ran_of};
ghost use Rattle.streams.specs.Stream.{Lawful};

// Why no whole record stands at the front of the bytes: there is no byte; the bytes begin no record; its last bytes are missing.
#[derive(Clone, Copy, PartialEq, Eq, Debug)]
pub enum Missing {
    End,
    Unknown,
    Short,
}

// What a run has come to: the state that it leaves, how many bytes of the input it took and of the output it wrote, and whether a
// refusal ended it.
#[derive(Clone, Copy)]
pub struct Ran<S> {
    pub state: S,
    pub taken: usize,
    pub written: usize,
    pub ended: bool,
}

impl<S> Ran<S> {
    // Nothing is taken and nothing written.
    pub fn resting(state: S) -> Ran<S>
        ensures { result ≡ ran_of (rest state) }
    {
        Ran {
            state,
            taken: 0,
            written: 0,
            ended: false,
        }
    }
}

// A program of records: its definition, and what it does with one record at most.
pub trait Records {
    type State: Copy;

    ghost Record: { Type 0 };

    ghost program: { Program Self.State Record };

    // The run with fuel for one record. That the program keeps the laws is promised here: the proof of a law of the trait itself may
    // not cite the proofs of its own crate.
    fn step(state: Self::State, input: &[u8], closed: bool, output: &mut [u8]) -> Ran<Self::State>
        ensures result { result ≡ ran_of (runs program 1 closed (length output.old) input.now state) }
        ensures lent { output.new
            ≡ output_after (runs program 1 closed (length output.old) input.now state) output.old }
        ensures lawful { Lawful program };
}

// Records with the run over them that a program calls: each crate of records gives its own `run`. A trait beside `Records`, since that
// run is the one below, at the records: as a method of `Records` it would wait for the proof of the `impl` that it stands in.
pub trait Runnable: Records {
    fn run(state: Self::State, input: &[u8], closed: bool, output: &mut [u8]) -> Ran<Self::State>
        ensures result { result ≡ ran_of (run Self.program closed (length output.old) input.now state) }
        ensures lent { output.new
            ≡ output_after (run Self.program closed (length output.old) input.now state) output.old }
        ensures within { (result.taken ≤ length input.now) × (result.written ≤ length output.old) };
}

// Takes whole records from the front of the input and writes their lines one after the other, until the input holds no whole record
// or the output has no room for a line. `closed` says that no more input will come. How many steps there are only the steps tell.
pub fn run<P: Records>(
    state: P::State,
    input: &[u8],
    closed: bool,
    output: &mut [u8],
) -> Ran<P::State>
    ensures result { result ≡ ran_of (run P.program closed (length output.old) input.now state) }
    ensures lent { output.new
        ≡ output_after (run P.program closed (length output.old) input.now state) output.old }
    ensures within { (result.taken ≤ length input.now) × (result.written ≤ length output.old) }
{
    let mut ran = Ran::resting(state);
    loop {
        let one = P::step(
            ran.state,
            &input[ran.taken..],
            closed,
            &mut output[ran.written..],
        );
        ran = Ran {
            state: one.state,
            taken: ran.taken + one.taken,
            written: ran.written + one.written,
            ended: one.ended,
        };
        if one.taken == 0 {
            return ran;
        }
    }
}
