// The tickets that the program holds for its logger.
use crate::lines::Lines;
use answers::{Answer, LoggerAnswer};
use clock::alarm::Alarm;
use fault::Fault;
use logger::logger::Logger;
use logger::ticket::Ticket;
use std::alloc::Global;
use std::collections::BTreeMap;
use std::io;

pub struct Tickets {
    // by their slots
    held: BTreeMap<usize, Ticket>,
}

impl Tickets {
    pub fn new(heap: Global) -> Tickets {
        Tickets {
            held: BTreeMap::new(heap),
        }
    }

    // A ticket that finds no memory is settled at once, since it may not be lost, and so is one that another replaces.
    pub fn keep<A: Alarm>(&mut self, logger: &mut Logger<A>, ticket: Ticket) -> io::Result<()> {
        match self.held.insert(ticket.slot(), ticket) {
            Ok(None) => Ok(()),
            Ok(Some(replaced)) => {
                let _ = logger.settle(replaced);
                Ok(())
            }
            Err(refused) => {
                let (_, ticket) = refused.value;
                let _ = logger.settle(ticket);
                Err(io::ErrorKind::OutOfMemory.into())
            }
        }
    }

    // Settles the errand of a slot by the ticket that is held for it.
    pub fn settle<A: Alarm>(
        &mut self,
        logger: &mut Logger<A>,
        slot: usize,
    ) -> Result<LoggerAnswer, Fault> {
        match self.held.remove(&slot) {
            Some(ticket) => Ok(LoggerAnswer::Settled(logger.settle(ticket)?)),
            None => Ok(LoggerAnswer::NoTicket),
        }
    }

    // Settles what is held, in the order of the slots, and prints each answer; once printing failed, unseen.
    pub fn settle_all<A: Alarm>(self, logger: &mut Logger<A>, lines: &Lines) -> io::Result<()> {
        let Tickets { mut held } = self;
        let mut printed = Ok(());
        while let Some((_, ticket)) = held.pop_first() {
            let answer = match logger.settle(ticket) {
                Ok(outcome) => LoggerAnswer::Settled(outcome).into(),
                Err(fault) => fault.into(),
            };
            if printed.is_ok() {
                printed = lines.print(answer);
            }
        }
        held.destroy_empty();
        printed
    }
}
