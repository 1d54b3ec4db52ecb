// `shiftline` as a program of records.
ghost use Rattle.drive.specs.AnyCall.{Call};
ghost use Rattle.records.specs.Run.{shiftline};

use crate::answers::step;
use crate::run;
use drive::Drive;
use streams::{Ran, Records, Runnable};

pub struct Shiftline;

impl Records for Shiftline {
    type State = Drive;

    ghost Record = { Call };

    ghost program = { shiftline };

    fn step(drive: Drive, input: &[u8], closed: bool, output: &mut [u8]) -> Ran<Drive> {
        step(drive, input, closed, output)
    }
}

impl Runnable for Shiftline {
    fn run(drive: Drive, input: &[u8], closed: bool, output: &mut [u8]) -> Ran<Drive> {
        run(drive, input, closed, output)
    }
}
