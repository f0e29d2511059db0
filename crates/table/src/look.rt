// The table as a whole.
ghost use Rattle.std.specs.Prelude.{◌≡◌, length};

use crate::Table;
use jobs::Slot;

impl Table {
    // The states of all slots, slot 0 first.
    pub fn slots(&self) -> &[Slot; 32]
        ensures table { result.now ≡ self.now }
        ensures size { length result.now ≡ 32 }
    {
        &self.slots
    }
}
