// What a table tells of its slots, and how one is written.
ghost use Rattle.std.specs.Prelude.{◌≡◌, length, replicate, slice_index_or, slice_set};
ghost use Rattle.jobs.specs.declared.Slot.TheVariants.{Free};
ghost use Rattle.queue.specs.Row.{first};
ghost use Rattle.table.specs.Dues.{planned, ready_slot};
ghost use Rattle.table.specs.Table.{nearest};

use crate::Table;
use crate::agenda::Agenda;
use crate::rows::{shortest, store};
use jobs::Slot;
use queue::Due;

impl Table {
    // All slots are free.
    pub fn new() -> Table
        ensures { result ≡ replicate 32 Free }
    {
        Table {
            slots: [Slot::Free; 32],
            agenda: Agenda::new(),
        }
    }

    // The state of one slot; a slot past the table counts as free.
    pub fn state(&self, slot: usize) -> Slot
        ensures state { result ≡ slice_index_or self.now slot Free }
        ensures size { length self.now ≡ 32 }
    {
        self.slots.get(slot).copied().unwrap_or(Slot::Free)
    }

    // Puts a slot into a state; there is none past the table to put.
    pub fn put(&mut self, slot: usize, state: Slot)
        ensures table { self.new ≡ slice_set self.old slot state }
        ensures size { length self.new ≡ 32 }
    {
        store(&mut self.slots, &mut self.agenda, slot, state);
    }

    // The standing slot that comes due first, the lower one on a tie.
    fn earliest(&self) -> Option<Due>
        ensures due { result ≡ first (planned self.now) }
        ensures size { length self.now ≡ 32 }
    {
        self.agenda.least()
    }

    // The slot to fire at a moment, where one is due.
    pub fn ready(&self, moment: u64) -> Option<usize>
        ensures slot { result ≡ ready_slot moment self.now }
        ensures size { length self.now ≡ 32 }
    {
        self.earliest()
            .filter(|due| due.moment <= moment)
            .map(|due| usize::from(due.slot))
    }

    // The smallest distance from a moment to a due one.
    pub fn nearest(&self, moment: u64) -> Option<u64>
        ensures distance { result ≡ nearest moment self.now }
        ensures size { length self.now ≡ 32 }
    {
        shortest(&self.slots, moment)
    }
}
