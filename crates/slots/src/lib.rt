// One slot: what a call answers for it, what a firing makes of it, and how far off its due moment is.
#![tactic(auto)]

ghost use Rattle.std.specs.Prelude.{◌≡◌, true, OnOk};
ghost use Rattle.fault.specs.Table.{in_slot};
ghost use Rattle.slots.specs.Limits.{kind_fits};
ghost use Rattle.slots.specs.Slots.{set_up_slot, call_off_slot, settle_slot, again, fired, capped, coming, distance};

use crate::limits::fits;
use crate::moment::Moment;
use fault::{Cause, Fault};
use jobs::{Firing, Job, LAST_SLOT, Outcome, Slot};

mod limits;
pub mod moment;

// A slot by its number, and the state that it is in.
#[derive(Clone, Copy, PartialEq, Eq, Debug)]
pub struct Entry {
    pub slot: usize,
    pub state: Slot,
}

// What a set-up asks for: a job that is first due a delay after the reference.
#[derive(Clone, Copy, PartialEq, Eq, Debug)]
pub struct Terms {
    pub reference: u64,
    pub delay: u64,
    pub job: Job,
}

impl Entry {
    fn fault(self, cause: Cause) -> Fault
        ensures { result ≡ in_slot cause self.slot }
    {
        Fault::in_slot(cause, self.slot)
    }

    // The due moment of a job that is set up in the slot, or why it is refused.
    pub fn set_up(self, moment: Moment, terms: Terms) -> Result<u64, Fault>
        ensures answer { result ≡ set_up_slot moment.ticks self.slot self.state terms.reference terms.delay terms.job }
        ensures limits { OnOk result (kind_fits terms.job.kind ≡ true) }
    {
        if self.slot > LAST_SLOT {
            return Err(self.fault(Cause::NoSlot));
        }
        if !self.state.is_free() {
            return Err(self.fault(Cause::Taken));
        }
        if terms.reference > moment.ticks {
            return Err(self.fault(Cause::ReferenceAhead));
        }
        if !fits(terms.job, terms.delay) {
            return Err(self.fault(Cause::OutOfLimits));
        }
        Ok(terms.reference + terms.delay)
    }

    // The due moment that is given up, or why it is not. Who holds the ticket of an errand settles it.
    pub fn call_off(self) -> Result<u64, Fault>
        ensures { result ≡ call_off_slot self.slot self.state }
    {
        if self.slot > LAST_SLOT {
            return Err(self.fault(Cause::NoSlot));
        }
        match self.state {
            Slot::Free => Err(self.fault(Cause::SlotFree)),
            Slot::Standing {
                due,
                errand: false,
                ..
            } => Ok(due),
            Slot::Standing { .. } | Slot::Waiting { .. } => Err(self.fault(Cause::SlotErrand)),
        }
    }

    // What a ticket for this slot is settled for; a slot that holds no errand knows no ticket.
    pub fn settle(self) -> Result<Outcome, Fault>
        ensures { result ≡ settle_slot self.slot self.state }
    {
        match self.state {
            Slot::Standing {
                due,
                errand: true,
                ..
            } => Ok(Outcome { due, fired: false }),
            Slot::Waiting { due } => Ok(Outcome { due, fired: true }),
            Slot::Free | Slot::Standing { .. } => Err(self.fault(Cause::ForeignTicket)),
        }
    }

    // Fires the slot: what `next` answers at this moment, and the state that it leaves.
    pub fn fire(self, moment: Moment) -> (Option<Firing>, Slot)
        ensures { result ≡ (coming moment.ticks self.slot self.state, capped (fired self.state)) }
    {
        match self.state {
            Slot::Standing { due, job, errand } => {
                let firing = Firing {
                    slot: self.slot,
                    due,
                    at: moment.ticks,
                    action: job.action,
                };
                let after = if errand {
                    Slot::Waiting { due }
                } else {
                    stand_again(job, due)
                };
                (Some(firing), after)
            }
            Slot::Free | Slot::Waiting { .. } => (None, self.state),
        }
    }
}

// The slot after a firing that was due at this moment. The period counts from there, however late the firing came.
fn stand_again(job: Job, due: u64) -> Slot
    ensures { result ≡ capped (again due job.action job.kind) }
{
    match job.kind.after_firing() {
        Some((period, kind)) => Slot::Standing {
            due: due.saturating_add(period),
            job: Job { kind, ..job },
            errand: false,
        },
        None => Slot::Free,
    }
}

// The ticks from a moment to the due one, none where that is reached.
pub fn distance(state: Slot, moment: u64) -> Option<u64>
    ensures { result ≡ distance moment state }
{
    match state {
        Slot::Standing { due, .. } => Some(due.saturating_sub(moment)),
        Slot::Free | Slot::Waiting { .. } => None,
    }
}
