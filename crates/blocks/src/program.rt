// `blockline` as a program of records.
ghost use Rattle.blocks.specs.Table.{Record};
ghost use Rattle.blocks.specs.Blockline.{blockline};

use crate::run;
use crate::steps::step;
use streams::{Ran, Records, Runnable};

pub struct Blockline;

impl Records for Blockline {
    type State = ();

    ghost Record = { Record };

    ghost program = { blockline };

    fn step(_state: (), input: &[u8], closed: bool, output: &mut [u8]) -> Ran<()> {
        step(input, closed, output)
    }
}

impl Runnable for Blockline {
    fn run(_state: (), input: &[u8], closed: bool, output: &mut [u8]) -> Ran<()> {
        run(input, closed, output)
    }
}
