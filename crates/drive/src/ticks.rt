// The tick: causes, then the command, then one move.
ghost use Rattle.std.specs.Prelude.{◌≡◌};
ghost use Rattle.drive.specs.Ticks.{arrive, entered, stayed, measured, cleared_trip, retried_trip, moved, ticked, tick};

use crate::Drive;
use crate::answer::{Reply, settle};
use crate::causes::{alive, causes};
use crate::command::{high, low};
use faults::{arms, retried};
use fields::Tick;
use motor::{AT_REST, Run, Watched};
use moves::{Grounds, Move};
use numbers::count_up;
use settings::{OFFSET_PSC, RETRY_LIMIT, samples};
use states::State;

// What a move leaves of a drive whose flags, arming and count of ticks are already those of the tick. What the tick is told and what is
// watched by it stay two parameters: a struct of both would have no name but theirs.
impl Drive {
    // A move into a state, which begins with no cycles and no ticks.
    fn arrive(self, state: State, run: Run) -> Drive
        ensures { result ≡ arrive self state self.flags self.offsets run self.armed self.retries }
    {
        Drive {
            state,
            cycles: 0,
            ticks: 0,
            run,
            ..self
        }
    }

    fn stayed(self, tick: Tick, watched: Watched) -> Drive
        ensures { result ≡ stayed self tick watched self.flags self.armed self.ticks }
    {
        let running = self.state == State::MotorRun;
        Drive {
            run: self.run.after(self.settings, tick, watched, running, false),
            ..self
        }
    }

    fn entered(self, tick: Tick, watched: Watched, state: State) -> Drive
        ensures { result ≡ entered self tick watched self.flags self.armed state }
    {
        let calibrating = state == State::OffsetCal;
        let starts = state == State::MotorRun;
        Drive {
            offsets: if calibrating {
                self.offsets.cleared()
            } else {
                self.offsets
            },
            armed: self.armed && !matches!(state, State::BtsCharge | State::Fault),
            ..self
        }
        .arrive(
            state,
            self.run.after(self.settings, tick, watched, false, starts),
        )
    }

    fn measured(self) -> Drive
        ensures { result ≡ measured self self.flags self.armed }
    {
        Drive {
            offsets: self.offsets.measured_by(samples(self.settings[OFFSET_PSC])),
            ..self
        }
        .arrive(State::Stop, AT_REST)
    }

    fn cleared_trip(self) -> Drive
        ensures { result ≡ cleared_trip self self.armed }
    {
        Drive {
            flags: 0,
            retries: 0,
            ..self
        }
        .arrive(State::Stop, AT_REST)
    }

    fn retried_trip(self) -> Drive
        ensures { result ≡ retried_trip self }
    {
        Drive {
            flags: 0,
            armed: true,
            retries: retried(u32::from(self.settings[RETRY_LIMIT]), self.retries),
            ..self
        }
        .arrive(State::Stop, AT_REST)
    }

    fn moved(self, tick: Tick, watched: Watched, step: Move) -> Drive
        ensures { result ≡ moved self tick watched self.flags self.armed self.ticks step }
    {
        match step {
            Move::Stay => self.stayed(tick, watched),
            Move::Enter(state) => self.entered(tick, watched, state),
            Move::Measure => self.measured(),
            Move::Clear => self.cleared_trip(),
            Move::Retry => self.retried_trip(),
        }
    }

    #[tactic(auto, unfolding(crate::specs::Ticks::ticked))]
    fn ticked(self, tick: Tick) -> Drive
        ensures { result ≡ ticked self tick }
    {
        let low = low(self.settings, tick);
        let watched = self.run.watched(self.settings, tick, self.hall.still_count);
        let standing = causes(
            self.settings,
            self.state == State::MotorRun,
            self.hall.dead_streak,
            tick,
            watched,
        );
        let raised = self.flags | standing;
        let grounds = Grounds {
            state: self.state,
            settings: self.settings,
            cycles: self.cycles,
            measured: self.offsets.measured,
            armed: self.armed,
            retries: self.retries,
            nth: count_up(self.ticks, 65535),
            clear: tick.clear,
            speed: tick.speed,
            low,
            high: high(self.settings, tick),
            tripped: alive(self.settings, raised) != 0,
            blocked: alive(self.settings, standing) != 0,
        };
        Drive {
            flags: raised,
            ticks: grounds.nth,
            armed: arms(self.armed, low, self.state == State::Fault),
            ..self
        }
        .moved(tick, watched, grounds.move_of())
    }

    #[tactic(auto, unfolding(crate::specs::Ticks::tick))]
    pub fn tick(self, fields: Tick) -> Reply
        ensures { result ≡ tick self fields }
    {
        settle(self.refuses_tick(fields), self.ticked(fields), self)
    }
}
