// The one appointment of an alarm, and the table of what each event makes of it.
ghost use Rattle.std.specs.Prelude.{◌≡◌};
ghost use Rattle.clock.specs.Appointment.{Sound, Possible, after_gain, placed, requested, told, left_by, stops, claims, after_claim, table};
ghost use Rattle.clock.specs.declared.appointment.Appointment.TheVariants.{Idle, Standing};
ghost use Rattle.clock.specs.declared.appointment.Event.TheVariants.{Take, Set};
ghost use Rattle.clock.specs.declared.appointment.Reply.TheVariants.{Placed};
ghost use Rattle.fault.specs.Table.{not_idle};

use crate::alarm::Clock;
use crate::width::Width;
use fault::{Cause, Fault};

#[derive(Clone, Copy, PartialEq, Eq, Debug)]
pub enum Appointment {
    Idle,
    // so many ticks of the clock are left
    Standing(u64),
    // it fell due at this reading
    Due(u64),
}

// What can happen to an appointment.
#[derive(Clone, Copy)]
pub enum Event {
    Take(Gain),
    Set(Request),
    Stop,
    Claim,
}

// A clock of this width gained ticks, from this reading on.
#[derive(Clone, Copy)]
pub struct Gain {
    pub width: Width,
    pub from: u64,
    pub gained: u64,
}

// An appointment is wanted, on a clock of this width and reading, a delay after a reference.
#[derive(Clone, Copy)]
pub struct Request {
    pub width: Width,
    pub reading: u64,
    pub reference: u64,
    pub delay: u64,
}

impl Request {
    // An appointment is wanted on this clock as it stands.
    pub fn of<C: Clock>(clock: &C, reference: u64, delay: u64) -> Request
        ensures width { result.width.bits ≡ (C.Clock.meaning clock.now).width }
        ensures reading { result.reading ≡ (C.Clock.meaning clock.now).reading }
        ensures reference { result.reference ≡ reference }
        ensures delay { result.delay ≡ delay }
    {
        Request {
            width: Width::of(clock),
            reading: clock.reading(),
            reference,
            delay,
        }
    }
}

// What each event answers.
#[derive(Clone, Copy)]
pub enum Reply {
    Passed,
    Placed(Result<(), Fault>),
    // whether there was anything to stop
    Stopped(bool),
    // the point at which it fell due, if it did
    Claimed(Option<u64>),
}

impl Appointment {
    // The table, a cell for each state and event. Deadlines are judged by the ticks left, never by comparing readings.
    // Inlined, so that of the twelve cells a call keeps the three of its event.
    #[inline]
    fn respond(&mut self, event: Event) -> Reply
        ensures { (self.new, result) ≡ table self.old event }
    {
        let (next, reply) = match (*self, event) {
            (Self::Idle, Event::Take(_)) => (Self::Idle, Reply::Passed),
            (Self::Standing(left), Event::Take(gain)) => (
                Self::run_down(left, gain),
                Reply::Passed,
            ),
            (Self::Due(point), Event::Take(_)) => (Self::Due(point), Reply::Passed),
            (Self::Idle, Event::Set(request)) => (Self::placed(request), Reply::Placed(Ok(()))),
            (Self::Standing(left), Event::Set(_)) => (Self::Standing(left), Self::refused()),
            (Self::Due(point), Event::Set(_)) => (Self::Due(point), Self::refused()),
            (Self::Idle, Event::Stop) => (Self::Idle, Reply::Stopped(false)),
            (Self::Standing(_), Event::Stop) => (Self::Idle, Reply::Stopped(true)),
            (Self::Due(_), Event::Stop) => (Self::Idle, Reply::Stopped(true)),
            (Self::Idle, Event::Claim) => (Self::Idle, Reply::Claimed(None)),
            (Self::Standing(left), Event::Claim) => (Self::Standing(left), Reply::Claimed(None)),
            (Self::Due(point), Event::Claim) => (Self::Idle, Reply::Claimed(Some(point))),
        };
        *self = next;
        reply
    }

    // Only an idle appointment can be set.
    fn refused() -> Reply
        ensures { result ≡ Placed (Err not_idle) }
    {
        Reply::Placed(Err(Fault::in_alarm(Cause::Taken)))
    }

    // A standing appointment falls due where all that was left has passed.
    fn run_down(left: u64, gain: Gain) -> Appointment
        ensures is { result ≡ after_gain gain (Standing left) }
        ensures sound { Possible (Standing left) (Take gain) → Sound gain.width.bits result }
    {
        if gain.gained < left {
            Self::Standing(left - gain.gained)
        } else {
            Self::Due(gain.width.sum(gain.from, left))
        }
    }

    // A new appointment: it stands if the delay is longer than the reference is old.
    fn placed(request: Request) -> Appointment
        ensures is { result ≡ placed request.width.bits request.reading request.reference request.delay }
        ensures sound { Possible Idle (Set request) → Sound request.width.bits result }
    {
        let age = request.width.difference(request.reading, request.reference);
        if age < request.delay {
            Self::Standing(request.delay - age)
        } else {
            Self::Due(request.width.sum(request.reference, request.delay))
        }
    }

    pub fn take(&mut self, gain: Gain)
        ensures after { self.new ≡ after_gain gain self.old }
        ensures sound { Sound gain.width.bits self.old → Sound gain.width.bits self.new }
    {
        let _ = self.respond(Event::Take(gain));
    }

    // Places an appointment where there is none: the two numbers are judged first.
    pub fn set(&mut self, request: Request) -> Result<(), Fault>
        ensures answer { result ≡ told (requested request self.old) }
        ensures after { self.new ≡ left_by (requested request self.old) self.old }
        ensures sound { Sound request.width.bits self.old → Sound request.width.bits self.new }
    {
        let turn = request.width.turn();
        if request.reference >= turn || request.delay >= turn {
            return Err(Fault::in_alarm(Cause::OutOfLimits));
        }
        match self.respond(Event::Set(request)) {
            Reply::Placed(answer) => answer,
            _ => unreachable!(),
        }
    }

    // Gives the appointment up; answers whether there was one.
    pub fn stop(&mut self) -> bool
        ensures answer { result ≡ stops self.old }
        ensures after { self.new ≡ Idle }
    {
        match self.respond(Event::Stop) {
            Reply::Stopped(was) => was,
            _ => unreachable!(),
        }
    }

    // Answers the point of an appointment that is due, and ends it.
    pub fn claim(&mut self) -> Option<u64>
        ensures answer { result ≡ claims self.old }
        ensures after { self.new ≡ after_claim self.old }
    {
        match self.respond(Event::Claim) {
            Reply::Claimed(point) => point,
            _ => unreachable!(),
        }
    }
}
