// The calls of a logger. A refused call changes nothing, but that a ticket is spent.
ghost use Rattle.std.specs.Prelude.{◌≡◌, ℕ, ◌^◌, ◌<◌, true, IfOk};
ghost use Rattle.clock.specs.Calls.{Taken};
ghost use Rattle.slots.specs.Slots.{set_up_slot, coming, fired};
ghost use Rattle.logger.specs.State.{view, slot_of, with_slot};
ghost use Rattle.logger.specs.Calls.{after_set_up, Served, SetUp, Erranded, CalledOff, Settled, Nexted, NextLaw, Held, HoldLaw};
ghost use Rattle.logger.specs.Making.{fresh};
ghost use Rattle.logger.specs.Choice.{Chosen};
ghost use Rattle.logger.specs.Within.{slot_fits, Reached};

use crate::logger::Logger;
use crate::ticket::Ticket;
use clock::alarm::Alarm;
use clock::wait::ticks_until;
use fault::{Cause, Fault};
use jobs::{Action, Firing, Job, Kind, Outcome, Slot};
use slots::moment::{LIMIT, Moment};
use slots::{Entry, Terms};
use table::Table;

// The last moment at which a sample is still taken: a sample brings fewer than 2^32 ticks.
const LAST_SERVED: u64 = LIMIT - (1 << 32);

// The ticks that a sample brings, fewer than 2^32 since they are no more than the true ticks.
fn taken<A: Alarm>(alarm: &mut A, sample: A::Sample) -> Result<u64, Fault>
    ensures taken { Taken (A.Clock.meaning alarm.old) (A.Alarm.appointment alarm.old) sample result (A.Clock.meaning alarm.new) (A.Alarm.appointment alarm.new) }
    ensures few { IfOk result (λ n. n < 2 ^ 32) }
{
    alarm.take(sample)
}

impl<A: Alarm> Logger<A> {
    // A logger over the alarm: its moment is the start, and its slots are free.
    pub fn new(alarm: A, number: u16, start: Moment) -> Logger<A>
        ensures { view A.Clock.meaning result ≡ fresh number start.ticks (A.Clock.meaning alarm) }
    {
        Logger {
            number,
            moment: start,
            table: Table::new(),
            alarm,
        }
    }

    // Puts a slot into a state.
    fn put(&mut self, slot: usize, state: Slot)
        requires { slot_fits state ≡ true }
        ensures { view A.Clock.meaning self.new ≡ with_slot (view A.Clock.meaning self.old) slot state }
    {
        self.table.put(slot, state);
    }

    // Shows the logger a sample; answers the moment then.
    pub fn serve(&mut self, sample: A::Sample) -> Result<u64, Fault>
        ensures { (d : ℕ) × Served (view A.Clock.meaning self.old) d sample result (view A.Clock.meaning self.new) }
    {
        if self.moment.ticks > LAST_SERVED {
            return Err(Fault::in_logger(Cause::MomentLimit));
        }
        let gained = taken(&mut self.alarm, sample)?;
        self.moment.ticks += gained;
        Ok(self.moment.ticks)
    }

    // A slot by its number.
    fn entry(&self, slot: usize) -> Entry
        ensures { result ≡ record { slot = slot; state = slot_of (view A.Clock.meaning self.now) slot } }
    {
        Entry {
            slot,
            state: self.table.state(slot),
        }
    }

    fn stand(&mut self, slot: usize, terms: Terms, errand: bool) -> Result<u64, Fault>
        ensures answer { result ≡ set_up_slot self.old.moment.ticks slot (slot_of (view A.Clock.meaning self.old) slot) terms.reference terms.delay terms.job }
        ensures after { view A.Clock.meaning self.new ≡ after_set_up (view A.Clock.meaning self.old) slot terms.job errand result }
    {
        let due = self.entry(slot).set_up(self.moment, terms)?;
        let job = terms.job;
        self.put(slot, Slot::Standing { due, job, errand });
        Ok(due)
    }

    // Sets a job up in a free slot, first due a delay after the reference; answers that moment.
    pub fn set_up(
        &mut self,
        slot: usize,
        reference: u64,
        delay: u64,
        job: Job,
    ) -> Result<u64, Fault>
        ensures { SetUp (view A.Clock.meaning self.old) slot reference delay job result (view A.Clock.meaning self.new) }
    {
        let terms = Terms {
            reference,
            delay,
            job,
        };
        self.stand(slot, terms, false)
    }

    // Frees a slot that stands; answers the moment at which it would have been due next.
    pub fn call_off(&mut self, slot: usize) -> Result<u64, Fault>
        ensures { CalledOff (view A.Clock.meaning self.old) slot result (view A.Clock.meaning self.new) }
    {
        let due = self.entry(slot).call_off()?;
        self.put(slot, Slot::Free);
        Ok(due)
    }

    // The slot that is to fire, where one is due.
    fn ready(&self) -> Option<usize>
        ensures { Chosen (view A.Clock.meaning self.now) result }
    {
        self.table.ready(self.moment.ticks)
    }

    // The firing of a slot that is due, and the state that it leaves.
    #[tactic(auto, using(crate::proofs::Fitting::fits_at, crate::proofs::Fitting::low_fired, crate::proofs::Fitting::fits_fired))]
    fn firing(&self, slot: usize) -> (Option<Firing>, Slot)
        requires { Reached self.now.moment.ticks (slot_of (view A.Clock.meaning self.now) slot) }
        ensures answer { let state = slot_of (view A.Clock.meaning self.now) slot in result ≡ (coming self.now.moment.ticks slot state, fired state) }
        ensures limits { slot_fits result.1 ≡ true }
    {
        self.entry(slot).fire(self.moment)
    }

    // The next firing that is due, or none. To be called until it answers none.
    #[tactic(auto, using(crate::proofs::Next::law_of_answer))]
    pub fn next(&mut self) -> Option<Firing>
        ensures answer { Nexted (view A.Clock.meaning self.old) result (view A.Clock.meaning self.new) }
        ensures law { NextLaw (view A.Clock.meaning self.old) result }
    {
        let slot = self.ready()?;
        let (firing, after) = self.firing(slot);
        self.put(slot, after);
        firing
    }

    // How many true ticks may pass before the next sample, so that the next firing comes on its moment.
    pub fn hold(&mut self) -> u64
        ensures answer { Held (view A.Clock.meaning self.old) result (view A.Clock.meaning self.new) }
        ensures law { HoldLaw (view A.Clock.meaning self.old) result }
    {
        match self.table.nearest(self.moment.ticks) {
            Some(0) => 0,
            Some(left) => ticks_until(&mut self.alarm, left),
            None => self.alarm.reach() - 1,
        }
    }

    // Sets up a job that fires once, and gives the ticket to settle it by.
    pub fn errand(
        &mut self,
        slot: usize,
        reference: u64,
        delay: u64,
        action: Action,
    ) -> Result<Ticket, Fault>
        ensures { Erranded (view A.Clock.meaning self.old) slot reference delay action result (view A.Clock.meaning self.new) }
    {
        let terms = Terms {
            reference,
            delay,
            job: Job {
                kind: Kind::Once,
                action,
            },
        };
        self.stand(slot, terms, true)?;
        Ok(Ticket {
            number: self.number,
            slot,
            spent: false,
        })
    }

    // Ends an errand, fired or not, and frees its slot. The ticket is spent in any case.
    pub fn settle(&mut self, mut ticket: Ticket) -> Result<Outcome, Fault>
        ensures { Settled (view A.Clock.meaning self.old) ticket result (view A.Clock.meaning self.new) }
    {
        ticket.spent = true;
        let slot = ticket.slot;
        if ticket.number != self.number {
            return Err(Fault::in_slot(Cause::ForeignTicket, slot));
        }
        let outcome = self.entry(slot).settle()?;
        self.put(slot, Slot::Free);
        Ok(outcome)
    }
}
