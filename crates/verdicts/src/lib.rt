// What a call is told of its refusal: a number and, where the paper names one, a place; of a table the first row that holds.
#![tactic(auto)]

ghost use Rattle.std.specs.Prelude.{cond, ◌≡◌};
ghost use Rattle.verdicts.specs.Table.{number_of, place_of};

// Why a call is refused. The place is that of the first bad field, setting or field of a line, from 1; 0 where a line lacks room.
#[derive(Clone, Copy, PartialEq, Eq, Debug)]
pub enum Refusal {
    Field(u8),
    Setting(u8),
    Idle,
    Running,
    Line(u8),
    Record,
    Image,
    Block,
    Empty,
}

impl Refusal {
    pub fn number(self) -> u8
        ensures { result ≡ number_of self }
    {
        match self {
            Refusal::Field(_) => 1,
            Refusal::Setting(_) => 2,
            Refusal::Idle => 3,
            Refusal::Running => 4,
            Refusal::Line(_) => 5,
            Refusal::Record => 6,
            Refusal::Image => 7,
            Refusal::Block => 8,
            Refusal::Empty => 9,
        }
    }

    pub fn place(self) -> u8
        ensures { result ≡ place_of self }
    {
        match self {
            Refusal::Field(place) | Refusal::Setting(place) | Refusal::Line(place) => place,
            _ => 0,
        }
    }
}

// A row of a table: with `?` behind it the rows stand in the paper's order, and the first that holds refuses.
pub fn refuse(refusal: Refusal, holds: bool) -> Result<(), Refusal>
    ensures { result ≡ cond holds (Err refusal) (Ok tt) }
{
    if holds { Err(refusal) } else { Ok(()) }
}
