// An alarm under one more layer, or under none. With the kinds of layer in one type, a stack is of one type whatever its layers.
ghost use Rattle.std.specs.Prelude.{◌≡◌};
ghost use Rattle.widening.specs.WidenedLemmas.{widening_lawful};
ghost use Rattle.rate.specs.Rated.{rate_lawful};
ghost use Rattle.offset.specs.ShiftedLemmas.{offset_lawful};
ghost use Rattle.std.proofs.Common.{rules};
ghost use Rattle.replay.specs.Layered.{under, by_layer, by_layer_law};

use crate::plan::Setting;
use clock::alarm::{Alarm, Clock};
use fault::Fault;
use offset::Offset;
use rate::Rate;
use widening::Widening;

#[derive(Drop)]
pub enum Layered<A: Alarm> {
    Bare(A),
    Widened(Widening<A>),
    Slowed(Rate<A>),
    Shifted(Offset<A>),
}

impl<A: Alarm> Layered<A> {
    pub fn new(alarm: A, setting: Option<Setting>) -> Layered<A>
        ensures { ⟦<Layered<A> as Clock>⟧.meaning result ≡ under setting (A.Clock.meaning alarm) }
    {
        match setting {
            None => Layered::Bare(alarm),
            Some(Setting::Widen(bits)) => Layered::Widened(Widening::new(alarm, bits)),
            Some(Setting::Rate(ratio)) => Layered::Slowed(Rate::new(alarm, ratio)),
            Some(Setting::Offset(shift)) => Layered::Shifted(Offset::new(alarm, shift)),
        }
    }
}

// What the layer answers, whichever it is. The methods are inlined, so that a call through three layers is one piece of code.
// A macro, since the four arms hold alarms of four types, which no one closure can take.
macro_rules! by_layer {
    ($layered:expr, $alarm:ident => $answer:expr) => {
        match $layered {
            Layered::Bare($alarm) => $answer,
            Layered::Widened($alarm) => $answer,
            Layered::Slowed($alarm) => $answer,
            Layered::Shifted($alarm) => $answer,
        }
    };
}

impl<A: Alarm> Clock for Layered<A> {
    type Sample = A::Sample;

    ghost meaning = { by_layer A.Clock.meaning ⟦<Widening<A> as Clock>⟧.meaning ⟦<Rate<A> as Clock>⟧.meaning ⟦<Offset<A> as Clock>⟧.meaning };

    ghost lawful = { by_layer_law _ A.Clock.lawful
        (Prim.search (widening_lawful, A.Clock.lawful))
        (λ x. rate_lawful x.ratio.gains x.ratio.ticks x.remainder x.ratio.some x.ratio.slow x.small (A.Clock.meaning x.below) (A.Clock.lawful x.below) x.count)
        (Prim.search (offset_lawful, A.Clock.lawful)) };

    #[inline(always)]
    fn width(&self) -> u32 {
        by_layer!(self, alarm => alarm.width())
    }

    #[inline(always)]
    fn reach(&self) -> u64 {
        by_layer!(self, alarm => alarm.reach())
    }

    #[inline(always)]
    fn reading(&self) -> u64 {
        by_layer!(self, alarm => alarm.reading())
    }
}

impl<A: Alarm> Alarm for Layered<A> {
    ghost appointment = { by_layer A.Alarm.appointment ⟦<Widening<A> as Alarm>⟧.appointment ⟦<Rate<A> as Alarm>⟧.appointment ⟦<Offset<A> as Alarm>⟧.appointment };

    ghost sound = { by_layer_law _ A.Alarm.sound (Prim.search rules) (Prim.search rules) (Prim.search rules) };

    #[inline(always)]
    fn take(&mut self, sample: A::Sample) -> Result<u64, Fault> {
        by_layer!(self, alarm => alarm.take(sample))
    }

    #[inline(always)]
    fn set(&mut self, reference: u64, delay: u64) -> Result<(), Fault> {
        by_layer!(self, alarm => alarm.set(reference, delay))
    }

    #[inline(always)]
    fn stop(&mut self) -> bool {
        by_layer!(self, alarm => alarm.stop())
    }

    #[inline(always)]
    fn claim(&mut self) -> Option<u64> {
        by_layer!(self, alarm => alarm.claim())
    }

    #[inline(always)]
    fn hold(&mut self) -> u64 {
        by_layer!(self, alarm => alarm.hold())
    }
}
