// A call made and heard: what the supervisor leaves and answers, and the onlooker who heard the call with that very answer.
ghost use Rattle.std.specs.Prelude.{◌≡◌};
ghost use Rattle.drive.specs.AnyCall.{asked};
ghost use Rattle.onlooker.specs.Witness.{witnessed};

use crate::Onlooker;
use drive::Drive;
use drive::answer::Answer;
use drive::call::Call;

#[derive(Clone, Copy)]
pub struct Heard {
    pub drive: Drive,
    pub onlooker: Onlooker,
    pub answer: Answer,
}

impl Heard {
    pub fn call(self, call: Call) -> Heard
        ensures { result ≡ witnessed self.drive self.onlooker (asked call) }
    {
        let reply = self.drive.call(call);
        Heard {
            drive: reply.drive,
            onlooker: self.onlooker.hear(call, reply.answer),
            answer: reply.answer,
        }
    }
}
