// Tickets in right use: a program keeps one on a desk, settles it from there, and sets up another errand.
#![tactic(auto)]

ghost use Rattle.logger.specs.State.{view};
ghost use Rattle.errands.specs.Errands.{PutOff};

use clock::alarm::Alarm;
use fault::Fault;
use logger::logger::Logger;
use logger::ticket::Ticket;

mod desk;

// Puts an errand off: its ticket is settled, and another errand is set up in its slot, due a delay from now.
pub fn put_off<A: Alarm>(
    logger: &mut Logger<A>,
    ticket: Ticket,
    delay: u64,
) -> Result<Ticket, Fault>
    ensures { PutOff (view A.Clock.meaning logger.old) ticket delay result (view A.Clock.meaning logger.new) }
{
    let slot = ticket.slot();
    let mut kept = Some(ticket);
    desk::put_off(logger, &mut kept, slot, delay)
}
