// A layer that runs slower than the alarm below, by a fixed ratio.
//
// What is left of each division is carried on, so that the gain over many takes is that of one take. Two rates, one above
// the other, round twice: they are not the one rate with their product.
ghost use Rattle.std.specs.Prelude.{◌≡◌, ◌+◌, ◌*◌, ◌/◌, ◌%◌, ◌^◌, ◌<◌, ◌≤◌};
ghost use Rattle.clock.specs.Kept.{within};
ghost use Rattle.rate.specs.Rate.{rate_meaning};
ghost use Rattle.clock.specs.declared.appointment.Appointment.TheVariants.{Idle};
ghost use Rattle.rate.specs.Rated.{rate_lawful};
ghost use Rattle.std.proofs.Common.{rules, arith};

use crate::ratio::Ratio;
use clock::alarm::{Alarm, Clock};
use clock::appointment::{Gain, Request};
use clock::kept::Kept;
use clock::wait::hold_over;
use clock::width::Width;
use fault::Fault;

#[derive(Drop)]
pub struct Rate<A: Alarm> {
    below: A,
    ratio: Ratio,
    // what the ticks so far have left over, in parts of a tick
    remainder: u64,
    // the ticks gained so far: the reading is its low bits, as many as the clock below has
    count: u64,
    kept: Kept,
    ghost small: { remainder < ratio.ticks },
}

impl<A: Alarm> Rate<A> {
    // An idle layer with the reading 0 and no remainder.
    pub fn new(below: A, ratio: Ratio) -> Rate<A>
        ensures clock { ⟦<Rate<A> as Clock>⟧.meaning result ≡ rate_meaning (A.Clock.meaning below) ratio.gains ratio.ticks 0 0 }
        ensures appointment { ⟦<Rate<A> as Alarm>⟧.appointment result ≡ Idle }
    {
        Rate {
            below,
            ratio,
            remainder: 0,
            count: 0,
            kept: Kept::new(),
        }
    }

    // Counts what ticks below bring; answers the ticks of its own.
    fn follow(&mut self, ticks: u64) -> u64
        requires { ticks < 2 ^ 32 }
        ensures gained { result ≡ (self.old.remainder + self.old.ratio.gains * ticks) / self.old.ratio.ticks }
        ensures below { self.new.below ≡ self.old.below }
        ensures ratio { self.new.ratio ≡ self.old.ratio }
        ensures remainder { self.new.remainder ≡ (self.old.remainder + self.old.ratio.gains * ticks) % self.old.ratio.ticks }
        ensures count { self.new.count ≡ (self.old.count + result) % 2 ^ 64 }
        ensures kept { self.new.kept ≡ self.old.kept }
    {
        let parts = self.ratio.brought(self.remainder, ticks);
        let gained = parts / self.ratio.ticks;
        self.remainder = parts % self.ratio.ticks;
        self.count = self.count.wrapping_add(gained);
        gained
    }
}

impl<A: Alarm> Clock for Rate<A> {
    type Sample = A::Sample;

    ghost meaning = { λ x. rate_meaning (A.Clock.meaning x.below) x.ratio.gains x.ratio.ticks x.remainder x.count };

    ghost lawful = { λ x.
        rate_lawful x.ratio.gains x.ratio.ticks x.remainder x.ratio.some x.ratio.slow x.small
        (A.Clock.meaning x.below) (A.Clock.lawful x.below) x.count };

    fn width(&self) -> u32 {
        self.below.width()
    }

    fn reach(&self) -> u64 {
        self.below.reach()
    }

    fn reading(&self) -> u64 {
        self.count % Width::of(&self.below).turn()
    }
}

impl<A: Alarm> Alarm for Rate<A> {
    ghost appointment = { λ x. within (A.Clock.meaning x.below).width x.kept.appointment };

    ghost sound = { first_of (Prim.search rules, Prim.grind (arith, Self.row.coded.inj)) };

    fn take(&mut self, sample: A::Sample) -> Result<u64, Fault> {
        let width = Width::of(self);
        let from = self.reading();
        let ticks = self.below.take(sample)?;
        let gained = self.follow(ticks);
        self.kept.take(Gain {
            width,
            from,
            gained,
        });
        Ok(gained)
    }

    fn set(&mut self, reference: u64, delay: u64) -> Result<(), Fault> {
        let request = Request::of(self, reference, delay);
        self.kept.set(request)
    }

    fn stop(&mut self) -> bool {
        let width = Width::of(self);
        self.kept.stop(width)
    }

    fn claim(&mut self) -> Option<u64> {
        let width = Width::of(self);
        self.kept.claim(width)
    }

    fn hold(&mut self) -> u64 {
        let appointment = self.kept.at(Width::of(self));
        let needed = self.ratio.needed_for(self.remainder, appointment);
        hold_over(&mut self.below, needed)
    }
}
