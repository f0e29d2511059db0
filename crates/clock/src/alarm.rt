// The two interfaces: a clock, and an alarm built on it.
ghost use Rattle.std.specs.Prelude.{◌≡◌};
ghost use Rattle.clock.specs.Meaning.{Meaning, Lawful};
ghost use Rattle.clock.specs.Appointment.{Sound};
ghost use Rattle.clock.specs.Calls.{Taken, SetTo, StoppedBy, ClaimedBy, HeldFor};
ghost use Rattle.clock.specs.declared.appointment.Appointment.{Appointment};

use fault::Fault;

pub trait Clock {
    // What the hardware below is read as.
    type Sample: Copy;

    ghost meaning: { Self → Meaning Self.Sample };

    // The number of bits of a reading.
    fn width(&self) -> u32
        ensures { result ≡ (meaning self.now).width };

    // Samples are told apart while fewer true ticks than this pass between them.
    fn reach(&self) -> u64
        ensures { result ≡ (meaning self.now).reach };

    fn reading(&self) -> u64
        ensures { result ≡ (meaning self.now).reading };

    ghost lawful: { (x : Self) → Lawful (meaning x) };
}

// The clauses tell of clock and appointment side by side, since a clock has its meaning without an appointment.
pub trait Alarm: Clock {
    ghost appointment: { Self → Appointment };

    // Shows the clock a sample; answers the ticks that it gained.
    fn take(&mut self, sample: Self::Sample) -> Result<u64, Fault>
        ensures { Taken (Self.Clock.meaning self.old) (appointment self.old) sample result (Self.Clock.meaning self.new) (appointment self.new) };

    // Makes an appointment for delay ticks after the reference, which may have passed already.
    fn set(&mut self, reference: u64, delay: u64) -> Result<(), Fault>
        ensures { SetTo (Self.Clock.meaning self.old) (appointment self.old) reference delay result (Self.Clock.meaning self.new) (appointment self.new) };

    // Gives the appointment up; answers whether there was one.
    fn stop(&mut self) -> bool
        ensures { StoppedBy (Self.Clock.meaning self.old) (appointment self.old) result (Self.Clock.meaning self.new) (appointment self.new) };

    // The point of an appointment that is due, which is over with that.
    fn claim(&mut self) -> Option<u64>
        ensures { ClaimedBy (Self.Clock.meaning self.old) (appointment self.old) result (Self.Clock.meaning self.new) (appointment self.new) };

    // How many true ticks may pass before the next take. A layer asks the alarm below, so it takes `&mut`.
    fn hold(&mut self) -> u64
        ensures { HeldFor (Self.Clock.meaning self.old) (appointment self.old) result (Self.Clock.meaning self.new) (appointment self.new) };

    ghost sound: { (x : Self) → Sound (Self.Clock.meaning x).width (appointment x) };
}
