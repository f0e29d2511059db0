// How a moment is made and read.
ghost use Rattle.std.specs.Prelude.{◌≡◌};
ghost use Rattle.slots.specs.Moment.{moment_made, by_ticks};

use super::Moment;
use fault::{Cause, Fault};

// Moments stay below 2^62.
pub const LIMIT: u64 = 1 << 62;

impl Moment {
    pub fn new(ticks: u64) -> Result<Moment, Fault>
        ensures { by_ticks result ≡ moment_made ticks }
    {
        if ticks >= LIMIT {
            return Err(Fault::in_logger(Cause::MomentLimit));
        }
        Ok(Moment { ticks })
    }

    pub fn ticks(self) -> u64
        ensures { result ≡ self.ticks }
    {
        self.ticks
    }
}
