// A free-running counter that counts up and wraps at 2^width.
ghost use Rattle.std.specs.Prelude.{◌≡◌, ◌^◌, ◌<◌, ◌≤◌};
ghost use Rattle.clock.specs.Appointment.{Sound};
ghost use Rattle.clock.specs.Calls.{Accepted};
ghost use Rattle.clock.specs.Making.{seen};
ghost use Rattle.clock.specs.Wrap.{minus};
ghost use Rattle.up.specs.Up.{IsWord, up_meaning, up_made};
ghost use Rattle.up.specs.UpCounters.{up_lawful};
ghost use Rattle.std.proofs.Common.{rules, arith};

use clock::alarm::{Alarm, Clock};
use clock::appointment::{Appointment, Gain, Request};
use clock::wait::steady_hold;
use clock::width::Width;
use fault::{Cause, Fault};
use std::num::TryFromIntError;

// A raw reading of the counter's register.
#[derive(Clone, Copy, PartialEq, Eq, Debug)]
pub struct Word(pub u32);

// A raw number, if it has no more bits than the register.
// Each counter's crate has its own: the samples are types of their own, so that none is taken for another's.
impl TryFrom<u64> for Word {
    type Error = TryFromIntError;

    ghost try_from_gives = { IsWord };

    fn try_from(number: u64) -> Result<Word, TryFromIntError> {
        Ok(Word(u32::try_from(number)?))
    }
}

#[derive(Drop)]
pub struct UpCounter {
    width: Width,
    // the last accepted sample, which is the clock's reading
    last: u32,
    tag: u8,
    appointment: Appointment,
    ghost wide: { 8 ≤ width.bits },
    ghost narrow: { width.bits ≤ 32 },
    ghost fits: { last < 2 ^ width.bits },
    ghost sound: { Sound width.bits appointment },
}

impl UpCounter {
    // A counter of so many bits, 8 to 32, that shows `first` now.
    pub fn new(bits: u32, first: Word, tag: u8) -> Result<UpCounter, Fault>
        ensures { seen (λ c. (⟦<UpCounter as Clock>⟧.meaning c, c.appointment)) result ≡ up_made bits first.0 tag }
    {
        if !(8..=32).contains(&bits) {
            return Err(Fault::in_device(Cause::BadSetting, tag));
        }
        let width = Width { bits };
        if u64::from(first.0) >= width.turn() {
            return Err(Fault::in_device(Cause::StraySample, tag));
        }
        Ok(UpCounter {
            width,
            last: first.0,
            tag,
            appointment: Appointment::Idle,
        })
    }

    // Moves on to a sample that the counter can show, this many ticks after the last.
    fn accept(&mut self, sample: Word, gained: u64)
        requires { (sample.0 < 2 ^ self.old.width.bits) × (gained ≡ minus self.old.width.bits sample.0 self.old.last) }
        ensures { Accepted (⟦<UpCounter as Clock>⟧.meaning self.old) self.old.appointment sample gained (⟦<UpCounter as Clock>⟧.meaning self.new) self.new.appointment }
    {
        self.appointment.take(Gain {
            width: self.width,
            from: u64::from(self.last),
            gained,
        });
        self.last = sample.0;
    }
}

impl Clock for UpCounter {
    type Sample = Word;

    ghost meaning = { λ c. up_meaning c.width.bits c.last c.tag };

    ghost lawful = { λ x. up_lawful x.width.bits x.last x.tag x.wide x.narrow x.fits };

    fn width(&self) -> u32 {
        self.width.bits
    }

    fn reach(&self) -> u64 {
        self.width.turn()
    }

    fn reading(&self) -> u64 {
        u64::from(self.last)
    }
}

impl Alarm for UpCounter {
    ghost appointment = { λ c. c.appointment };

    ghost sound = { first_of (Prim.search rules, Prim.grind (arith, Self.row.coded.inj)) };

    fn take(&mut self, sample: Word) -> Result<u64, Fault> {
        let shown = u64::from(sample.0);
        if shown >= self.width.turn() {
            return Err(Fault::in_device(Cause::StraySample, self.tag));
        }
        let gained = self.width.difference(shown, u64::from(self.last));
        self.accept(sample, gained);
        Ok(gained)
    }

    fn set(&mut self, reference: u64, delay: u64) -> Result<(), Fault> {
        let request = Request::of(self, reference, delay);
        self.appointment.set(request)
    }

    fn stop(&mut self) -> bool {
        self.appointment.stop()
    }

    fn claim(&mut self) -> Option<u64> {
        self.appointment.claim()
    }

    fn hold(&mut self) -> u64 {
        steady_hold(self, self.appointment)
    }
}
