// What `replay` answers to the lines of a log, and the text of each answer.
#![tactic(auto)]

ghost use Rattle.std.specs.Prelude.{◌≡◌, Some};
ghost use Rattle.answers.specs.Text.{yes_no, alarm_text, logger_text, answer_text};
ghost use Rattle.answers.specs.declared.Answer.TheVariants.{Alarm, Logger, Refused};

use fault::Fault;
use jobs::{Firing, Outcome};
use std::fmt;

#[derive(Clone, Copy)]
pub enum Answer {
    // a new clock stands
    Ready,
    Alarm(AlarmAnswer),
    // a logger stands over the clock
    LoggerReady,
    Logger(LoggerAnswer),
    // of an alarm or a logger
    Hold(u64),
    Refused(Fault),
    NoClock,
    // the number of the line
    NotUnderstood(u64),
}

#[derive(Clone, Copy)]
pub enum AlarmAnswer {
    Width(u32),
    Reach(u64),
    Reading(u64),
    // the ticks gained
    Took(u64),
    Set,
    Stopped(bool),
    Claimed(Option<u64>),
}

#[derive(Clone, Copy)]
pub enum LoggerAnswer {
    // the moment
    Served(u64),
    SetUp,
    // a ticket is held for this slot
    Ticket(usize),
    Settled(Outcome),
    NoTicket,
    // the moment at which the job would have been due
    CalledOff(u64),
    Next(Option<Firing>),
    // a script was loaded
    Loaded,
}

// By hand, since the clause `from_gives` says which value comes out; a derived one says nothing of it.
impl From<AlarmAnswer> for Answer {
    ghost from_gives = { λ a r. r ≡ Alarm a };

    fn from(answer: AlarmAnswer) -> Answer {
        Answer::Alarm(answer)
    }
}

impl From<LoggerAnswer> for Answer {
    ghost from_gives = { λ a r. r ≡ Logger a };

    fn from(answer: LoggerAnswer) -> Answer {
        Answer::Logger(answer)
    }
}

impl From<Fault> for Answer {
    ghost from_gives = { λ f r. r ≡ Refused f };

    fn from(fault: Fault) -> Answer {
        Answer::Refused(fault)
    }
}

impl fmt::Display for Answer {
    ghost output = { λ a. Some (answer_text a) };

    fn fmt<W: fmt::Write>(&self, f: &mut fmt::Formatter<W>) -> fmt::Result {
        match *self {
            Answer::Ready => write!(f, "ready"),
            Answer::Alarm(answer) => write!(f, "{answer}"),
            Answer::LoggerReady => write!(f, "logger ready"),
            Answer::Logger(answer) => write!(f, "{answer}"),
            Answer::Hold(ticks) => write!(f, "hold {ticks}"),
            Answer::Refused(fault) => write!(f, "{fault}"),
            Answer::NoClock => write!(f, "no clock yet"),
            Answer::NotUnderstood(line) => write!(f, "line {line} not understood"),
        }
    }
}

impl fmt::Display for AlarmAnswer {
    ghost output = { λ a. Some (alarm_text a) };

    fn fmt<W: fmt::Write>(&self, f: &mut fmt::Formatter<W>) -> fmt::Result {
        match *self {
            AlarmAnswer::Width(bits) => write!(f, "width {bits}"),
            AlarmAnswer::Reach(ticks) => write!(f, "reach {ticks}"),
            AlarmAnswer::Reading(reading) => write!(f, "reading {reading}"),
            AlarmAnswer::Took(gained) => write!(f, "took {gained}"),
            AlarmAnswer::Set => write!(f, "set"),
            AlarmAnswer::Stopped(was) => write!(f, "stopped {}", YesNo(was)),
            AlarmAnswer::Claimed(Some(point)) => write!(f, "claimed {point}"),
            AlarmAnswer::Claimed(None) => write!(f, "claimed none"),
        }
    }
}

impl fmt::Display for LoggerAnswer {
    ghost output = { λ a. Some (logger_text a) };

    fn fmt<W: fmt::Write>(&self, f: &mut fmt::Formatter<W>) -> fmt::Result {
        match *self {
            LoggerAnswer::Served(moment) => write!(f, "served {moment}"),
            LoggerAnswer::SetUp => write!(f, "set up"),
            LoggerAnswer::Ticket(slot) => write!(f, "ticket {slot}"),
            LoggerAnswer::Settled(Outcome { due, fired }) => {
                write!(f, "settled {due} {}", YesNo(fired))
            }
            LoggerAnswer::NoTicket => write!(f, "no ticket"),
            LoggerAnswer::CalledOff(due) => write!(f, "called off {due}"),
            LoggerAnswer::Next(
                Some(
                    Firing {
                        slot,
                        due,
                        at,
                        action,
                    },
                ),
            ) => { write!(f, "fired {slot} {due} {at} {action}") }
            LoggerAnswer::Next(None) => write!(f, "none"),
            LoggerAnswer::Loaded => write!(f, "loaded"),
        }
    }
}

// A bool as it is printed.
#[derive(Clone, Copy)]
pub struct YesNo(pub bool);

impl fmt::Display for YesNo {
    ghost output = { λ y. Some (yes_no y.0) };

    fn fmt<W: fmt::Write>(&self, f: &mut fmt::Formatter<W>) -> fmt::Result {
        f.write_str(if self.0 { "yes" } else { "no" })
    }
}
