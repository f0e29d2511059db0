// A desk that a ticket is kept on, and settled from.
ghost use Rattle.std.specs.Prelude.{◌≡◌, IfOk, IsSome};
ghost use Rattle.logger.specs.State.{view};
ghost use Rattle.errands.specs.Desk.{SettledFrom, PutOffFrom};

use clock::alarm::Alarm;
use fault::Fault;
use jobs::{Action, Outcome};
use logger::logger::Logger;
use logger::ticket::Ticket;

// Settles the ticket on the desk, which is empty then: a second call has nothing to settle.
pub(crate) fn settle_from<A: Alarm>(
    logger: &mut Logger<A>,
    desk: &mut Option<Ticket>,
) -> Result<Outcome, Fault>
    requires { IsSome desk.old }
    ensures settled { SettledFrom (view A.Clock.meaning logger.old) desk.old result (view A.Clock.meaning logger.new) }
    ensures empty { desk.new ≡ None }
{
    let ticket = desk.take().unwrap();
    logger.settle(ticket)
}

// Puts an errand off: its ticket is settled, and another errand is set up in the slot, due a delay from now.
pub(crate) fn put_off<A: Alarm>(
    logger: &mut Logger<A>,
    desk: &mut Option<Ticket>,
    slot: usize,
    delay: u64,
) -> Result<Ticket, Fault>
    requires { IsSome desk.old }
    ensures put_off { PutOffFrom (view A.Clock.meaning logger.old) desk.old slot delay result (view A.Clock.meaning logger.new) }
    ensures ticket { IfOk result (λ t. t.slot ≡ slot) }
    ensures desk { desk.new ≡ None }
{
    settle_from(logger, desk)?;
    let moment = logger.moment();
    logger.errand(slot, moment, delay, Action::Mark)
}
