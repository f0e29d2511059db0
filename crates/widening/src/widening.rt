// A layer that widens the reading of the alarm below: further bits count how often it has wrapped.
ghost use Rattle.std.specs.Prelude.{◌≡◌, ◌+◌, ◌*◌, ◌%◌, ◌^◌, ◌<◌, ◌≤◌};
ghost use Rattle.clock.specs.Kept.{within};
ghost use Rattle.widening.specs.Widening.{widened_width, widening_meaning, carry_after};
ghost use Rattle.clock.specs.declared.appointment.Appointment.TheVariants.{Idle};
ghost use Rattle.widening.specs.WidenedLemmas.{widening_lawful};
ghost use Rattle.std.proofs.Common.{rules, arith};

use crate::bits::Bits;
use clock::alarm::{Alarm, Clock};
use clock::appointment::{Gain, Request};
use clock::kept::Kept;
use clock::wait::hold_over;
use clock::width::{WIDEST, Width};
use fault::Fault;

#[derive(Drop)]
pub struct Widening<A: Alarm> {
    below: A,
    bits: Bits,
    // how often the reading below has wrapped, modulo 2^bits
    carry: u64,
    kept: Kept,
    ghost small: { carry < 2 ^ bits.count },
}

impl<A: Alarm> Widening<A> {
    // An idle layer with no wrap counted yet.
    pub fn new(below: A, bits: Bits) -> Widening<A>
        ensures clock { ⟦<Widening<A> as Clock>⟧.meaning result ≡ widening_meaning (A.Clock.meaning below) bits.count 0 }
        ensures appointment { ⟦<Widening<A> as Alarm>⟧.appointment result ≡ Idle }
    {
        Widening {
            below,
            bits,
            carry: 0,
            kept: Kept::new(),
        }
    }

    // Counts a wrap of the reading below, if there was one.
    fn follow(&mut self, wrapped: bool)
        ensures below { self.new.below ≡ self.old.below }
        ensures bits { self.new.bits.count ≡ self.old.bits.count }
        ensures carry { self.new.carry ≡ carry_after self.old.bits.count self.old.carry wrapped }
        ensures kept { self.new.kept ≡ self.old.kept }
    {
        if wrapped {
            self.carry = (self.carry + 1) % (1 << self.bits.count);
        }
    }
}

// The carry above a reading of `low` bits: as much of it as the width has place for.
fn joined(width: Width, low: Width, carry: u64, reading: u64) -> u64
    requires { (low.bits ≤ width.bits) × (reading < 2 ^ low.bits) }
    ensures { result ≡ (carry * 2 ^ low.bits + reading) % 2 ^ width.bits }
{
    let above = Width {
        bits: width.bits - low.bits,
    };
    (carry % above.turn()) * low.turn() + reading
}

impl<A: Alarm> Clock for Widening<A> {
    type Sample = A::Sample;

    ghost meaning = { λ x. widening_meaning (A.Clock.meaning x.below) x.bits.count x.carry };

    ghost lawful = { λ x. widening_lawful (A.Clock.meaning x.below) (A.Clock.lawful x.below) x.bits.count x.carry };

    fn width(&self) -> u32 {
        WIDEST.min(self.below.width() + self.bits.count)
    }

    fn reach(&self) -> u64 {
        self.below.reach()
    }

    fn reading(&self) -> u64 {
        // By the method itself, since `Width::of(self)` from inside this impl would lead back to it.
        let width = Width { bits: self.width() };
        joined(
            width,
            Width::of(&self.below),
            self.carry,
            self.below.reading(),
        )
    }
}

impl<A: Alarm> Alarm for Widening<A> {
    ghost appointment = { λ x. within (widened_width (A.Clock.meaning x.below).width x.bits.count) x.kept.appointment };

    ghost sound = { first_of (Prim.search rules, Prim.grind (arith, Self.row.coded.inj)) };

    fn take(&mut self, sample: A::Sample) -> Result<u64, Fault> {
        let width = Width::of(self);
        let from = self.reading();
        let turn = Width::of(&self.below).turn();
        let low = self.below.reading();
        let gained = self.below.take(sample)?;
        // fewer ticks than a turn, so the reading below wraps once at most
        let wrapped = low + gained >= turn;
        self.follow(wrapped);
        self.kept.take(Gain {
            width,
            from,
            gained,
        });
        Ok(gained)
    }

    fn set(&mut self, reference: u64, delay: u64) -> Result<(), Fault> {
        let request = Request::of(self, reference, delay);
        self.kept.set(request)
    }

    fn stop(&mut self) -> bool {
        let width = Width::of(self);
        self.kept.stop(width)
    }

    fn claim(&mut self) -> Option<u64> {
        let width = Width::of(self);
        self.kept.claim(width)
    }

    fn hold(&mut self) -> u64 {
        let appointment = self.kept.at(Width::of(self));
        // a tick of this clock is one of the clock below
        hold_over(&mut self.below, appointment)
    }
}
