// The appointment of a layer whose width depends on the alarm below.
//
// The type of a layer cannot say how wide the alarm below is, so the width comes with each call, and an appointment that
// would not fit it counts as none. A layer never keeps such a one: what is kept comes from calls at the same width.
// So a contract says the width beside what is kept, and there is no model: its value could not know that width.
// Each layer is a type of its own over it, since what it makes of a sample and of a reading is its own; the rest is here.
ghost use Rattle.std.specs.Prelude.{◌≡◌, ◌^◌, ◌<◌, ◌≤◌};
ghost use Rattle.clock.specs.Appointment.{Sound, held, left_in, after_gain, requested, told, left_by, stops, claims, after_claim};
ghost use Rattle.clock.specs.Kept.{within};
ghost use Rattle.std.specs.Fn.{FnOnceReturnsAtMut};
ghost use Rattle.clock.specs.declared.appointment.Appointment.TheVariants.{Idle};

use crate::appointment::{Appointment, Gain, Request};
use crate::width::Width;
use fault::Fault;

#[derive(Drop)]
pub struct Kept {
    appointment: Appointment,
    ghost some: { 1 ≤ left_in appointment },
}

impl Kept {
    pub fn new() -> Kept
        ensures { result.appointment ≡ Idle }
    {
        Kept {
            appointment: Appointment::Idle,
        }
    }

    // The appointment of a clock of this width.
    pub fn at(&self, width: Width) -> Appointment
        ensures is { result ≡ within width.bits self.now.appointment }
        ensures sound { Sound width.bits result }
        ensures bound { held result < 2 ^ 48 }
    {
        let turn = width.turn();
        match self.appointment {
            Appointment::Standing(left) if left < turn => Appointment::Standing(left),
            Appointment::Due(point) if point < turn => Appointment::Due(point),
            _ => Appointment::Idle,
        }
    }

    // Lets a call work on the appointment of a clock of this width.
    fn with<R, F: FnOnce(&mut Appointment) -> R>(&mut self, width: Width, call: F) -> R
        requires can { F.IsAlwaysCallable call }
        requires some { (r : R) (a : Appointment) → FnOnceReturnsAtMut F.FnOnce call (within width.bits self.old.appointment) r a → 1 ≤ left_in a }
        ensures { FnOnceReturnsAtMut F.FnOnce call (within width.bits self.old.appointment) result self.new.appointment }
    {
        let mut appointment = self.at(width);
        let answer = call(&mut appointment);
        self.appointment = appointment;
        answer
    }

    pub fn take(&mut self, gain: Gain)
        ensures { within gain.width.bits self.new.appointment ≡ after_gain gain (within gain.width.bits self.old.appointment) }
    {
        self.with(gain.width, |appointment| appointment.take(gain));
    }

    pub fn set(&mut self, request: Request) -> Result<(), Fault>
        ensures answer { result ≡ told (requested request (within request.width.bits self.old.appointment)) }
        ensures after { within request.width.bits self.new.appointment ≡ left_by (requested request (within request.width.bits self.old.appointment)) (within request.width.bits self.old.appointment) }
    {
        self.with(request.width, |appointment| appointment.set(request))
    }

    pub fn stop(&mut self, width: Width) -> bool
        ensures answer { result ≡ stops (within width.bits self.old.appointment) }
        ensures after { within width.bits self.new.appointment ≡ Idle }
    {
        self.with(width, Appointment::stop)
    }

    pub fn claim(&mut self, width: Width) -> Option<u64>
        ensures answer { result ≡ claims (within width.bits self.old.appointment) }
        ensures after { within width.bits self.new.appointment ≡ after_claim (within width.bits self.old.appointment) }
    {
        self.with(width, Appointment::claim)
    }
}
