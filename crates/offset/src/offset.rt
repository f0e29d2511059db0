// A layer that sets the reading of the alarm below forward by a fixed distance.
//
// Its ticks and its width are those below, so it hands its appointment down, with readings turned back on the way down and
// forward on the way up.
ghost use Rattle.std.specs.Prelude.{◌≡◌, ◌^◌, ◌<◌, ◌≤◌};
ghost use Rattle.clock.specs.Calls.{Taken, SetTo};
ghost use Rattle.clock.specs.Wrap.{plus};
ghost use Rattle.offset.specs.Offset.{offset_meaning, shifted};
ghost use Rattle.clock.specs.declared.appointment.Appointment.TheVariants.{Idle};
ghost use Rattle.offset.specs.ShiftedLemmas.{offset_lawful};
ghost use Rattle.std.proofs.Common.{rules};

use crate::shift::Shift;
use clock::alarm::{Alarm, Clock};
use clock::width::Width;
use fault::{Cause, Fault};

#[derive(Drop)]
pub struct Offset<A: Alarm> {
    below: A,
    shift: Shift,
}

impl<A: Alarm> Offset<A> {
    // An idle layer: an appointment that stood below is given up.
    pub fn new(mut below: A, shift: Shift) -> Offset<A>
        ensures clock { ⟦<Offset<A> as Clock>⟧.meaning result ≡ offset_meaning (A.Clock.meaning below) shift.by }
        ensures appointment { ⟦<Offset<A> as Alarm>⟧.appointment result ≡ Idle }
    {
        let _ = below.stop();
        Offset { below, shift }
    }

    // A reading of the alarm below as this clock has it.
    fn forward(&self, reading: u64) -> u64
        ensures { result ≡ plus (A.Clock.meaning self.now.below).width reading self.now.shift.by }
    {
        Width::of(&self.below).sum(reading, self.shift.by)
    }

    // What the alarm below makes of a sample, this one makes of it.
    fn pass_on(&mut self, sample: A::Sample) -> Result<u64, Fault>
        ensures { Taken (⟦<Offset<A> as Clock>⟧.meaning self.old) (⟦<Offset<A> as Alarm>⟧.appointment self.old) sample result (⟦<Offset<A> as Clock>⟧.meaning self.new) (⟦<Offset<A> as Alarm>⟧.appointment self.new) }
    {
        self.below.take(sample)
    }

    // Hands an appointment down, with its reference turned back.
    fn place(&mut self, reference: u64, delay: u64) -> Result<(), Fault>
        requires { reference < 2 ^ (A.Clock.meaning self.old.below).width }
        ensures { SetTo (⟦<Offset<A> as Clock>⟧.meaning self.old) (⟦<Offset<A> as Alarm>⟧.appointment self.old) reference delay result (⟦<Offset<A> as Clock>⟧.meaning self.new) (⟦<Offset<A> as Alarm>⟧.appointment self.new) }
    {
        let width = Width::of(&self.below);
        let back = width.difference(reference, self.shift.by % width.turn());
        self.below.set(back, delay)
    }
}

impl<A: Alarm> Clock for Offset<A> {
    type Sample = A::Sample;

    ghost meaning = { λ x. offset_meaning (A.Clock.meaning x.below) x.shift.by };

    ghost lawful = { λ x. offset_lawful (A.Clock.meaning x.below) (A.Clock.lawful x.below) x.shift.by };

    fn width(&self) -> u32 {
        self.below.width()
    }

    fn reach(&self) -> u64 {
        self.below.reach()
    }

    fn reading(&self) -> u64 {
        let reading = self.below.reading();
        self.forward(reading)
    }
}

impl<A: Alarm> Alarm for Offset<A> {
    ghost appointment = { λ x. shifted (A.Clock.meaning x.below).width x.shift.by (A.Alarm.appointment x.below) };

    ghost sound = { Prim.search rules };

    fn take(&mut self, sample: A::Sample) -> Result<u64, Fault> {
        self.pass_on(sample)
    }

    fn set(&mut self, reference: u64, delay: u64) -> Result<(), Fault> {
        // judged here, since turned back it would look like a good one
        if reference >= Width::of(&self.below).turn() {
            return Err(Fault::in_alarm(Cause::OutOfLimits));
        }
        self.place(reference, delay)
    }

    fn stop(&mut self) -> bool {
        self.below.stop()
    }

    fn claim(&mut self) -> Option<u64> {
        // A match and no map, as a layer takes apart what the alarm below answers: a point is set forward, none stays none.
        match self.below.claim() {
            Some(point) => Some(self.forward(point)),
            None => None,
        }
    }

    fn hold(&mut self) -> u64 {
        self.below.hold()
    }
}
