// The program: records by standard input, and the lines that a board printed for them by descriptor 3, or from the file that the first
// argument names. What stands in its buffers is judged by `judge::run`; here is only the moving of bytes. At the end it says what the
// judge has to say.
#![tactic(auto)]

ghost use Rattle.std.specs.Prelude.{◌≡◌, ◌+◌, ◌^◌, ◌≤◌, ◌<◌, length, take, IfSome};
ghost use Rattle.judge.specs.Sentences.{said, verdict_size};
ghost use Rattle.program_judge.specs.Rest.{Grown, Kept, Left, Rest};

use judge::sentences::{VERDICT_SIZE, verdict};
use judge::{Arrived, Judge, Wants, run};
use pieces::{fail, move_to_front, read_behind, write_out};
use records::{INPUT_SIZE, OUTPUT_SIZE};
use std::env::{Env, FillError};
use std::fs;
use std::io::{Error, ErrorKind, Input, Read};
use std::rt::Files;
use std::str::from_utf8;

// Where the launcher puts the board's lines: descriptor 3.
const LINES_DESCRIPTOR: &str = "/dev/fd/3";

// What is held of a stream from one read to the next: how many bytes at the front of its buffer are not judged yet, and whether no more
// of it will come.
#[derive(Clone, Copy, Default)]
struct Stream {
    held: usize,
    over: bool,
}

impl Stream {
    // Moves what was not taken to the front of the buffer.
    fn left(self, bytes: &mut [u8], taken: usize) -> Stream
        requires { self.held ≤ length bytes.old }
        ensures within { result.held ≤ length bytes.old }
        ensures left { Left taken bytes.old bytes.new self result }
    {
        Stream {
            held: move_to_front(bytes, taken, self.held),
            over: self.over,
        }
    }

    // Reads once behind the bytes that are held. A read of no bytes is the end, and one that fails, told under this name, leaves nothing.
    fn read_on(
        self,
        rt: &impl Eprint,
        from: &mut impl Read,
        bytes: &mut [u8],
        name: &[u8],
    ) -> Option<Stream>
        requires { self.held ≤ length bytes.old }
        ensures within { IfSome result (λ next. next.held ≤ length bytes.old) }
        ensures grown { IfSome result (λ next. Grown self next) }
    {
        let brought = from
            .read(&mut bytes[self.held..])
            .map_err(|error| fail(rt, name, error))
            .ok()?;
        Some(self.grown(brought))
    }

    // With so many bytes more behind those that are held.
    fn grown(self, brought: usize) -> Stream
        requires { self.held + brought < 2 ^ 64 }
        ensures held { result.held ≡ self.held + brought }
        ensures grown { Grown self result }
    {
        Stream {
            held: self.held + brought,
            over: self.over || brought == 0,
        }
    }
}

// What the program holds from one turn to the next, beside the buffers, and what is wanted next.
#[derive(Clone, Copy)]
struct Held {
    judge: Judge,
    records: Stream,
    lines: Stream,
    wants: Wants,
}

impl Held {
    // Reads records once behind those that are held; none where the read fails.
    fn read_records(self, rt: &(impl Input + Eprint), input: &mut [u8]) -> Option<Held>
        requires { self.records.held ≤ length input.old }
        ensures within { IfSome result (λ next. next.records.held ≤ length input.old) }
        ensures kept { IfSome result (λ next. Kept self next × (next.lines ≡ self.lines)) }
        ensures grown { IfSome result (λ next. Grown self.records next.records) }
    {
        let brought = read_behind(rt, input, self.records.held, b"why: standard input")?;
        Some(Held {
            records: self.records.grown(brought),
            ..self
        })
    }

    // The same of the lines.
    fn read_lines(self, rt: &impl Eprint, from: &mut impl Read, lines: &mut [u8]) -> Option<Held>
        requires { self.lines.held ≤ length lines.old }
        ensures within { IfSome result (λ next. next.lines.held ≤ length lines.old) }
        ensures kept { IfSome result (λ next. Kept self next × (next.records ≡ self.records)) }
        ensures grown { IfSome result (λ next. Grown self.lines next.lines) }
    {
        let read = self
            .lines
            .read_on(rt, from, lines, b"why: the board's lines")?;
        Some(Held {
            lines: read,
            ..self
        })
    }
}

// Judges what is held, and moves what is left to the front of each buffer.
fn judged(held: Held, input: &mut [u8], lines: &mut [u8]) -> Held
    requires { (held.records.held ≤ length input.old) × (held.lines.held ≤ length lines.old) }
    ensures within { (result.records.held ≤ length input.old) × (result.lines.held ≤ length lines.old) }
    ensures rest { Rest input.old input.new lines.old lines.new held result }
{
    let records = held.records;
    let printed = held.lines;
    let ran = run(
        held.judge,
        Arrived {
            bytes: &input[..records.held],
            over: records.over,
        },
        Arrived {
            bytes: &lines[..printed.held],
            over: printed.over,
        },
    );
    Held {
        judge: ran.judge,
        records: records.left(input, ran.taken),
        lines: printed.left(lines, ran.lines),
        wants: ran.wants,
    }
}

// Hands on the judge to whom nothing more is wanted, and none where a read fails. A proved loop has to end, and nothing says that the
// input does: no run uses up so many turns.
fn serve(
    rt: &(impl Input + Eprint),
    from: &mut impl Read,
    input: &mut [u8],
    lines: &mut [u8],
) -> Option<Judge> {
    let mut held = Held {
        judge: Judge::new(),
        records: Stream::default(),
        lines: Stream::default(),
        wants: Wants::Turn,
    };
    for _ in 0..u64::MAX {
        held = judged(held, input, lines);
        match held.wants {
            Wants::Turn => {}
            Wants::Records => held = held.read_records(rt, input)?,
            Wants::Lines => held = held.read_lines(rt, from, lines)?,
            Wants::Nothing => return Some(held.judge),
        }
    }
    None
}

// The board's lines, none where they cannot be opened.
fn lines_from<R: Env + Files + Eprint>(rt: &R) -> Option<R::File> {
    let mut argument = [0; 4096];
    let name = match rt.arg(1, &mut argument) {
        Ok(length) => from_utf8(&argument[..length]).map_err(|_| "Invalid UTF-8"),
        Err(FillError::NotPresent) => Ok(LINES_DESCRIPTOR),
        Err(FillError::TooLong) => Err("File name too long"),
    };
    match name {
        Ok(path) => fs::open(rt, path)
            .map_err(|error| fail(rt, b"why: the board's lines", error))
            .ok(),
        Err(words) => {
            let error = Error::new(ErrorKind::InvalidFilename, words);
            fail(rt, b"why: the name of the board's lines", error);
            None
        }
    }
}

// Puts all that the judge has to say into bytes that have room for it.
fn put_verdict(judge: Judge, output: &mut [u8]) -> usize
    requires { length output.old ≡ verdict_size }
    ensures within { result ≤ length output.old }
    ensures all { take result output.new ≡ said judge }
{
    verdict(judge, output)
}

fn tell(rt: &(impl Print + Eprint), judge: Judge) {
    let mut output = [0; VERDICT_SIZE];
    let said = put_verdict(judge, &mut output);
    write_out(rt, &output[..said], b"why: standard output");
}

fn main(rt: HostRuntime) {
    let Some(mut from) = lines_from(&rt) else {
        return;
    };
    let mut input = [0; INPUT_SIZE];
    let mut lines = [0; OUTPUT_SIZE];
    if let Some(judge) = serve(&rt, &mut from, &mut input, &mut lines) {
        tell(&rt, judge);
    }
}
