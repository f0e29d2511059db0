// What a logger tells without being changed.
ghost use Rattle.std.specs.Prelude.{◌≡◌, length};
ghost use Rattle.logger.specs.Look.{look_answer};

use crate::logger::Logger;
use fault::{Cause, Fault};
use jobs::Slot;

impl<A> Logger<A> {
    // The number that its tickets carry.
    pub fn number(&self) -> u16
        ensures { result ≡ self.now.number }
    {
        self.number
    }

    // The moment that was read last, or the start.
    pub fn moment(&self) -> u64
        ensures { result ≡ self.now.moment.ticks }
    {
        self.moment.ticks
    }

    // The state of one slot.
    pub fn slot(&self, slot: usize) -> Result<Slot, Fault>
        ensures { result ≡ look_answer self.now.table slot }
    {
        self.slots()
            .get(slot)
            .copied()
            .ok_or(Fault::in_slot(Cause::NoSlot, slot))
    }

    // The whole table, slot 0 first.
    pub fn slots(&self) -> &[Slot; 32]
        ensures table { result.now ≡ self.now.table }
        ensures size { length result.now ≡ 32 }
    {
        self.table.slots()
    }
}
