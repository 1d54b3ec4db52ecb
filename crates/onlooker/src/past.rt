// What he keeps of all his notes: enough to judge demand 3 with one note more, and to say by what a start was permitted.
ghost use Rattle.std.specs.Prelude.{◌≡◌};
ghost use Rattle.theorems_history.specs.History.{no_load_nor_start, none_of_these, retried, ends_start};
ghost use Rattle.onlooker.specs.Past.{note_of, permits, next, rules};

// His note of one call and its answer, as the history's rule names it.
#[derive(Clone, Copy, Default)]
pub struct Seen {
    pub loaded: bool,
    pub low: bool,
    pub started: bool,
    pub began: bool,
    pub exited: bool,
    pub clear: bool,
    pub due: bool,
    pub cause_stood: bool,
    pub limit: u16,
    pub live_shown: bool,
    pub running: bool,
    pub turns: bool,
}

// How many calls he heard; a load was accepted; the record of the low, and of the timed retry, that permits the next start; the retries
// counted; a live fault stands; a start was taken and nothing ended it; what came before the last start permitted it.
#[derive(Clone, Copy, Default)]
pub struct Past {
    pub heard: u64,
    pub loaded: bool,
    pub low: Option<u64>,
    pub retry: Option<u64>,
    pub retries: u64,
    pub faulted: bool,
    pub taken: bool,
    pub permitted: bool,
}

// Which of the demand's three rules hold after the newest call.
#[derive(Clone, Copy)]
pub struct Rules {
    pub gates: bool,
    pub exit: bool,
    pub retries: bool,
}

impl Seen {
    fn no_load_nor_start(self) -> bool
        ensures { result ≡ no_load_nor_start (note_of self) }
    {
        !(self.loaded | self.began)
    }

    fn none_of_these(self) -> bool
        ensures { result ≡ none_of_these (note_of self) }
    {
        self.no_load_nor_start() & !self.exited
    }

    fn retried(self) -> bool
        ensures { result ≡ retried (note_of self) }
    {
        self.exited & self.due & !self.clear
    }

    fn ends_start(self) -> bool
        ensures { result ≡ ends_start (note_of self) }
    {
        !(self.running & self.turns) | self.loaded | self.low | self.began & !self.started
    }
}

impl Past {
    // What came before permits a start.
    fn permits(self) -> bool
        ensures { result ≡ permits self }
    {
        self.loaded & (self.low.is_some() | self.retry.is_some())
    }

    // With one note more.
    #[tactic(auto, unfolding(crate::specs::Past::next))]
    pub(crate) fn next(self, seen: Seen) -> Past
        ensures { result ≡ next self (note_of seen) }
    {
        let heard = self.heard.saturating_add(1);
        let none = seen.none_of_these();
        let retried = seen.retried();
        let ended = seen.ends_start();
        let granted = retried & seen.no_load_nor_start();
        let forgotten = seen.loaded | seen.exited & seen.clear;
        let counted = if retried {
            self.retries.saturating_add(1)
        } else {
            self.retries
        };
        let low = seen.low.then_some(heard).or(self.low);
        let retry = granted.then_some(heard).or(self.retry);
        Past {
            heard,
            loaded: seen.loaded | self.loaded,
            low: if none { low } else { None },
            retry: if granted | none { retry } else { None },
            retries: if forgotten { 0 } else { counted },
            faulted: seen.cause_stood
                | seen.live_shown
                | !(seen.loaded | seen.exited) & self.faulted,
            taken: seen.started & !ended | !ended & self.taken,
            permitted: if seen.started {
                self.permits()
            } else {
                self.permitted
            },
        }
    }
}

impl Rules {
    // The demand's three rules after one note more.
    #[tactic(auto, unfolding(crate::specs::Past::rules))]
    pub(crate) fn judged(before: Past, seen: Seen, after: Past) -> Rules
        ensures { result ≡ rules before (note_of seen) after }
    {
        let stood = seen.cause_stood | seen.live_shown;
        Rules {
            gates: !seen.turns | !after.faulted & after.taken & after.permitted,
            exit: !seen.exited | !stood & (seen.clear | seen.due) & before.faulted,
            retries: after.retries <= (seen.limit as u64),
        }
    }
}
