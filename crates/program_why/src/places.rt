// Where the program is in its input, and how that is filled.
use pieces::{move_to_front, read_behind};
use records::{Missing, Record, read};
use std::io::Input;

// How many bytes of the input are filled, and how many of these are taken; whether no more will come.
#[derive(Clone, Copy, Default)]
pub(crate) struct Places {
    filled: usize,
    taken: usize,
    pub(crate) closed: bool,
}

impl Places {
    // What stands behind the bytes that were taken.
    pub(crate) fn front(self, input: &[u8]) -> Result<Record, Missing> {
        read(&input[..self.filled.min(input.len())], self.taken)
    }

    pub(crate) fn behind(self, record: Record) -> Places {
        Places {
            taken: self.taken.saturating_add(record.size),
            ..self
        }
    }

    // What is left of the input stands in front, and what one read brought behind it. A read of no bytes is the end of the input; none
    // are the places after a read that fails.
    pub(crate) fn read_on(self, rt: &(impl Input + Eprint), input: &mut [u8]) -> Option<Places> {
        let held = move_to_front(input, self.taken, self.filled);
        let brought = read_behind(rt, input, held, b"why: standard input")?;
        Some(Places {
            filled: held.saturating_add(brought),
            taken: 0,
            closed: brought == 0,
        })
    }
}
