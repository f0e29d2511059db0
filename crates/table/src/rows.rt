// A row of slots: one written, and the smallest distance.
ghost use Rattle.std.specs.Prelude.{◌≡◌, ◌<◌, ◌≤◌, length, slice_set};
ghost use Rattle.table.specs.Dues.{due_of, planned};
ghost use Rattle.table.specs.Table.{nearest};

use crate::agenda::Agenda;
use jobs::Slot;
use queue::Due;
use slots::distance;

// The record that the queue keeps of a standing slot.
fn record_of(state: Slot, slot: usize) -> Option<Due>
    requires { slot < 32 }
    ensures { result ≡ due_of slot state }
{
    match state {
        Slot::Standing { due, .. } => Some(Due {
            moment: due,
            // `as`, since the slot is below 32; `try_from` would have a refusal that never comes.
            slot: slot as u8,
        }),
        Slot::Free | Slot::Waiting { .. } => None,
    }
}

// Puts a slot into a state, and keeps the agenda in step; there is none past the row to put.
#[tactic(auto, using(crate::proofs::Planned::planned_less, crate::proofs::Planned::planned_set, crate::proofs::Planned::others_short))]
pub(crate) fn store(slots: &mut [Slot], agenda: &mut Agenda, slot: usize, state: Slot)
    requires size { length slots.old ≤ 32 }
    requires tied { agenda.old ≡ planned slots.old }
    ensures table { slots.new ≡ slice_set slots.old slot state }
    ensures agenda { agenda.new ≡ planned slots.new }
{
    if slot < slots.len() {
        agenda.forget(record_of(slots[slot], slot));
        agenda.note(record_of(state, slot));
        slots[slot] = state;
    }
}

// The smallest distance from the moment to a due moment.
pub(crate) fn shortest(slots: &[Slot], moment: u64) -> Option<u64>
    ensures { result ≡ nearest moment slots.now }
{
    // A loop over the plain slot table, the form in which the hold is to be read.
    let mut least = None;
    for slot in slots {
        if let Some(left) = distance(*slot, moment) {
            least = Some(least.map_or(left, |smallest: u64| smallest.min(left)));
        }
    }
    least
}
