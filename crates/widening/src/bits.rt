// What the layer is made with. Its limits are judged here, so that the making of a layer cannot be refused.
ghost use Rattle.std.specs.Prelude.{◌≡◌, ◌≤◌};
ghost use Rattle.clock.specs.Making.{seen};
ghost use Rattle.widening.specs.Bits.{bits_made};

use fault::{Cause, Fault};

// By how many bits a reading is widened.
#[derive(Clone, Copy)]
pub struct Bits {
    pub(crate) count: u32,
    ghost low: { 1 ≤ count },
    ghost high: { count ≤ 32 },
}

impl Bits {
    // 1 to 32 bits.
    pub fn new(count: u32) -> Result<Bits, Fault>
        ensures { seen (λ b. b.count) result ≡ bits_made count }
    {
        if !(1..=32).contains(&count) {
            return Err(Fault::in_alarm(Cause::BadSetting));
        }
        Ok(Bits { count })
    }
}
