// What the layer is made with. Its limits are judged here, so that the making of a layer cannot be refused.
ghost use Rattle.std.specs.Prelude.{◌≡◌, ◌^◌, ◌<◌};
ghost use Rattle.clock.specs.Making.{seen};
ghost use Rattle.offset.specs.Shift.{shift_made};

use clock::width::WIDEST;
use fault::{Cause, Fault};

// How far a reading is set forward.
#[derive(Clone, Copy)]
pub struct Shift {
    pub(crate) by: u64,
    ghost high: { by < 2 ^ 48 },
}

impl Shift {
    // Below 2^48.
    pub fn new(by: u64) -> Result<Shift, Fault>
        ensures { seen (λ s. s.by) result ≡ shift_made by }
    {
        if by >= 1 << WIDEST {
            return Err(Fault::in_alarm(Cause::BadSetting));
        }
        Ok(Shift { by })
    }
}
