// One build of the product: a logger over its clocks, and what it has reported so far.
use crate::halt::Halt;
use clock::alarm::Alarm;
use jobs::{Action, Firing, Job, Outcome};
use logger::logger::Logger;
use logger::ticket::Ticket;
use std::alloc::Global;
use std::iter;

// The slot of the job that both builds run.
pub const SHARED_SLOT: usize = 3;

#[derive(Drop)]
pub struct Build<A: Alarm> {
    logger: Logger<A>,
    // the firings of the shared slot
    reports: Vec<Firing>,
    // how many firings of other slots came
    others: u64,
    // the longest wait that `hold` allowed
    longest: u64,
}

impl<A: Alarm> Build<A> {
    pub fn new(heap: Global, logger: Logger<A>) -> Build<A> {
        Build {
            logger,
            reports: Vec::new(heap),
            others: 0,
            longest: 0,
        }
    }

    pub fn logger(&self) -> &Logger<A> {
        &self.logger
    }

    pub fn reports(&self) -> &[Firing] {
        &self.reports
    }

    pub fn others(&self) -> u64 {
        self.others
    }

    pub fn longest(&self) -> u64 {
        self.longest
    }

    // Bounded, since every loop is to end; no run fires so often.
    pub fn empty(&mut self) -> Result<(), Halt> {
        for firing in iter::from_fn(|| self.logger.next()).take(usize::MAX) {
            if firing.slot == SHARED_SLOT {
                self.reports.push(firing)?;
            } else {
                self.others = self.others.saturating_add(1);
            }
        }
        Ok(())
    }

    // The logger, emptied before it is called, as the promise about two loggers asks.
    fn emptied(&mut self) -> Result<&mut Logger<A>, Halt> {
        self.empty()?;
        Ok(&mut self.logger)
    }

    // Also emptied after it, so that what fires at this moment is among the reports.
    pub fn serve(&mut self, sample: A::Sample) -> Result<u64, Halt> {
        let moment = self.emptied()?.serve(sample)?;
        self.empty()?;
        Ok(moment)
    }

    pub fn hold(&mut self) -> Result<(), Halt> {
        self.longest = self.longest.max(self.emptied()?.hold());
        Ok(())
    }

    // Sets a job up, first due a delay from now on.
    pub fn set_up(&mut self, slot: usize, delay: u64, job: Job) -> Result<u64, Halt> {
        let logger = self.emptied()?;
        Ok(logger.set_up(slot, logger.moment(), delay, job)?)
    }

    pub fn call_off(&mut self, slot: usize) -> Result<u64, Halt> {
        Ok(self.emptied()?.call_off(slot)?)
    }

    // Sets an errand up, due a delay from now on.
    pub fn errand(&mut self, slot: usize, delay: u64, action: Action) -> Result<Ticket, Halt> {
        let logger = self.emptied()?;
        Ok(logger.errand(slot, logger.moment(), delay, action)?)
    }

    // The ticket is spent before anything can fail.
    pub fn settle(&mut self, ticket: Ticket) -> Result<Outcome, Halt> {
        let emptied = self.empty();
        let outcome = self.logger.settle(ticket)?;
        emptied?;
        Ok(outcome)
    }
}
