// A record's call, with all that was heard before it and after it.
use drive::Drive;
use drive::answer::{Answer, answered};
use drive::call::Call;
use onlooker::Onlooker;
use onlooker::past::Seen;
use onlooker::plug::Plug;
use onlooker::witness::Heard;
use settings::{CONTROL_MODE, HALL_SENSORS};

// What was heard up to a record: the calls with their answers, and what the answers tell of the plug.
#[derive(Clone, Copy)]
pub(crate) struct Story {
    pub(crate) heard: Heard,
    pub(crate) plug: Plug,
}

impl Story {
    // Before the first call. Nobody has answered yet: what stands for the answer is never read.
    pub(crate) fn new() -> Story {
        let drive = Drive::power_up();
        let heard = Heard {
            drive,
            onlooker: Onlooker::new(),
            answer: answered(drive, 0, 0),
        };
        Story {
            heard,
            plug: Plug::new(),
        }
    }

    // With a call more, which the supervisor answers.
    pub(crate) fn after(self, call: Call) -> Story {
        let heard = self.heard.call(call);
        let loaded = heard.onlooker.seen.loaded;
        let plug = self.plug.hear(loaded, pattern_of(call), heard.answer);
        Story { heard, plug }
    }

    pub(crate) fn count(&self) -> u64 {
        self.heard.onlooker.past.heard
    }

    // What the settings of the last accepted load say.
    pub(crate) fn has_two_sensors(&self) -> bool {
        self.heard.onlooker.memory.numbers[HALL_SENSORS] == 2
    }

    pub(crate) fn retries_itself(&self) -> bool {
        self.heard.onlooker.memory.numbers[CONTROL_MODE] == 1
    }
}

fn pattern_of(call: Call) -> u8 {
    match call {
        Call::Cycle(fields) => fields.pattern,
        _ => 0,
    }
}

#[derive(Clone, Copy)]
pub(crate) struct Event {
    pub(crate) call: Call,
    pub(crate) before: Story,
    pub(crate) after: Story,
}

impl Event {
    pub(crate) fn answer(&self) -> Answer {
        self.after.heard.answer
    }

    // The onlooker's note of the call.
    pub(crate) fn seen(&self) -> Seen {
        self.after.heard.onlooker.seen
    }

    // A cycle's pattern.
    pub(crate) fn pattern(&self) -> u8 {
        pattern_of(self.call)
    }

    // A starting or running state was left.
    pub(crate) fn stops_running(&self) -> bool {
        self.before.heard.onlooker.seen.running & !self.seen().running
    }
}
