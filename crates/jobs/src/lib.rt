// What a job is, and its limits; the state of the slot that it stands in; and what a logger answers of it.
#![tactic(auto)]

ghost use Rattle.std.specs.Prelude.{◌≡◌, Some};
ghost use Rattle.jobs.specs.Jobs.{after_firing, is_free};
ghost use Rattle.jobs.specs.Text.{action_text};

use std::fmt;

// The slots are numbered from 0 up to this. A table of them is an array of 32, a number that clauses write out too.
pub const LAST_SLOT: usize = 31;

// The largest period and delay.
pub const MOST_TICKS: u64 = (1 << 40) - 1;

pub const MOST_FIRINGS: u32 = 65_535;

pub const MOST_CHANNEL: u8 = 15;

// How often a job fires, and how many ticks apart.
#[derive(Clone, Copy, PartialEq, Eq, Debug)]
pub enum Kind {
    Once,
    Every { period: u64 },
    // the count is of the firings still to come
    Burst { count: u32, period: u64 },
}

// What a firing asks the firmware to do.
#[derive(Clone, Copy, PartialEq, Eq, Debug)]
pub enum Action {
    Read { channel: u8 },
    Mark,
}

#[derive(Clone, Copy, PartialEq, Eq, Debug)]
pub struct Job {
    pub kind: Kind,
    pub action: Action,
}

#[derive(Clone, Copy, PartialEq, Eq, Debug)]
pub enum Slot {
    Free,
    // the next due moment; an errand is a job that a ticket was given for, and a flag, as all but its end is the same
    Standing { due: u64, job: Job, errand: bool },
    // an errand that fired at this due moment, and waits for its ticket
    Waiting { due: u64 },
}

impl Kind {
    // What a firing makes of it: the ticks to the next due moment, and the kind that then stands.
    pub fn after_firing(self) -> Option<(u64, Kind)>
        ensures { result ≡ after_firing self }
    {
        match self {
            Kind::Every { period } => Some((period, self)),
            Kind::Burst { count, period } if count > 1 => {
                let count = count - 1;
                Some((period, Kind::Burst { count, period }))
            }
            Kind::Once | Kind::Burst { .. } => None,
        }
    }
}

impl Slot {
    pub fn is_free(&self) -> bool
        ensures { result ≡ is_free self.now }
    {
        matches!(*self, Slot::Free)
    }
}

// As a script writes it: `read CHANNEL` or `mark`.
impl fmt::Display for Action {
    ghost output = { λ a. Some (action_text a) };

    fn fmt<W: fmt::Write>(&self, f: &mut fmt::Formatter<W>) -> fmt::Result {
        match *self {
            Action::Read { channel } => write!(f, "read {channel}"),
            Action::Mark => write!(f, "mark"),
        }
    }
}

// What `next` answers: the slot that fired, the moment it was due, the moment it was served, and what to do.
#[derive(Clone, Copy, PartialEq, Eq, Debug)]
pub struct Firing {
    pub slot: usize,
    pub due: u64,
    pub at: u64,
    pub action: Action,
}

// What `settle` answers: when the errand was due, and whether it had fired.
#[derive(Clone, Copy, PartialEq, Eq, Debug)]
pub struct Outcome {
    pub due: u64,
    pub fired: bool,
}
