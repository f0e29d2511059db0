// A counter that counts from its reload down to 0 and starts again at the reload.
ghost use Rattle.std.specs.Prelude.{◌≡◌, ◌^◌, ◌<◌, ◌≤◌};
ghost use Rattle.clock.specs.Appointment.{Sound};
ghost use Rattle.clock.specs.Calls.{Accepted};
ghost use Rattle.down.specs.Down.{IsCount, down_meaning, down_made, fallen};
ghost use Rattle.clock.specs.Making.{seen};
ghost use Rattle.down.specs.DownCounters.{down_lawful};
ghost use Rattle.std.proofs.Common.{rules, arith};

use clock::alarm::{Alarm, Clock};
use clock::appointment::{Appointment, Gain, Request};
use clock::wait::steady_hold;
use clock::width::Width;
use fault::{Cause, Fault};
use std::num::TryFromIntError;

// A raw count of the counter's register.
#[derive(Clone, Copy, PartialEq, Eq, Debug)]
pub struct Count(pub u32);

// A raw number, if it has no more bits than the register.
// Each counter's crate has its own: the samples are types of their own, so that none is taken for another's.
impl TryFrom<u64> for Count {
    type Error = TryFromIntError;

    ghost try_from_gives = { IsCount };

    fn try_from(number: u64) -> Result<Count, TryFromIntError> {
        Ok(Count(u32::try_from(number)?))
    }
}

// The counts repeat after a round, so the reading is kept apart from them. It grows as the count falls.
const WIDTH: Width = Width { bits: 32 };

#[derive(Drop)]
pub struct DownCounter {
    reload: u32,
    // the count of the last accepted sample
    last: u32,
    reading: u64,
    tag: u8,
    appointment: Appointment,
    ghost low: { 1 ≤ reload },
    ghost high: { reload < 2 ^ 24 },
    ghost within: { last ≤ reload },
    ghost fits: { reading < 2 ^ 32 },
    ghost sound: { Sound 32 appointment },
}

impl DownCounter {
    // Reload from 1 to 2^24 - 1, and a first sample that a counter with that reload can show.
    pub fn new(reload: u32, first: Count, tag: u8) -> Result<DownCounter, Fault>
        ensures { seen (λ c. (⟦<DownCounter as Clock>⟧.meaning c, c.appointment)) result ≡ down_made reload first.0 tag }
    {
        if !(1..1 << 24).contains(&reload) {
            return Err(Fault::in_device(Cause::BadSetting, tag));
        }
        if first.0 > reload {
            return Err(Fault::in_device(Cause::StraySample, tag));
        }
        Ok(DownCounter {
            reload,
            last: first.0,
            reading: 0,
            tag,
            appointment: Appointment::Idle,
        })
    }

    // The true ticks from the last accepted sample to a count. The count 0 takes a tick too, so a round has one more than the
    // reload.
    fn passed(&self, count: u32) -> u32
        requires { count ≤ self.now.reload }
        ensures { result ≡ fallen self.now.reload self.now.last count }
    {
        if self.last < count {
            self.last + (self.reload + 1) - count
        } else {
            self.last - count
        }
    }

    // Moves on to a count that the counter can show, this many ticks after the last.
    fn accept(&mut self, sample: Count, gained: u64)
        requires { (sample.0 ≤ self.old.reload) × (gained ≡ fallen self.old.reload self.old.last sample.0) }
        ensures { Accepted (⟦<DownCounter as Clock>⟧.meaning self.old) self.old.appointment sample gained (⟦<DownCounter as Clock>⟧.meaning self.new) self.new.appointment }
    {
        self.appointment.take(Gain {
            width: WIDTH,
            from: self.reading,
            gained,
        });
        self.reading = WIDTH.sum(self.reading, gained);
        self.last = sample.0;
    }
}

impl Clock for DownCounter {
    type Sample = Count;

    ghost meaning = { λ c. down_meaning c.reload c.last c.reading c.tag };

    ghost lawful = { λ x. down_lawful x.reload x.last x.reading x.tag x.low x.high x.fits };

    fn width(&self) -> u32 {
        WIDTH.bits
    }

    fn reach(&self) -> u64 {
        u64::from(self.reload) + 1
    }

    fn reading(&self) -> u64 {
        self.reading
    }
}

impl Alarm for DownCounter {
    ghost appointment = { λ c. c.appointment };

    ghost sound = { first_of (Prim.search rules, Prim.grind (arith, Self.row.coded.inj)) };

    fn take(&mut self, sample: Count) -> Result<u64, Fault> {
        if sample.0 > self.reload {
            return Err(Fault::in_device(Cause::StraySample, self.tag));
        }
        let gained = u64::from(self.passed(sample.0));
        self.accept(sample, gained);
        Ok(gained)
    }

    fn set(&mut self, reference: u64, delay: u64) -> Result<(), Fault> {
        let request = Request::of(self, reference, delay);
        self.appointment.set(request)
    }

    fn stop(&mut self) -> bool {
        self.appointment.stop()
    }

    fn claim(&mut self) -> Option<u64> {
        self.appointment.claim()
    }

    fn hold(&mut self) -> u64 {
        steady_hold(self, self.appointment)
    }
}
