// The width of a clock, and sums and differences of its readings, which wrap.
ghost use Rattle.std.specs.Prelude.{◌≡◌, ◌%◌, ◌^◌, ◌≤◌};
ghost use Rattle.clock.specs.Wrap.{plus, minus};

use crate::alarm::Clock;

// No reading has more bits.
pub const WIDEST: u32 = 48;

#[derive(Clone, Copy)]
pub struct Width {
    pub bits: u32,
    ghost high: { bits ≤ 48 },
}

impl Width {
    pub fn of<C: Clock>(clock: &C) -> Width
        ensures { result.bits ≡ (C.Clock.meaning clock.now).width }
    {
        Width {
            bits: clock.width(),
        }
    }

    // 2^bits, one turn of a counter.
    pub fn turn(self) -> u64
        ensures { result ≡ 2 ^ self.bits }
    {
        1 << self.bits
    }

    // A number modulo a turn.
    fn low_bits(self, n: u64) -> u64
        ensures { result ≡ n % 2 ^ self.bits }
    {
        n % self.turn()
    }

    // (a + b) modulo a turn. It does no harm that the sum wraps at 2^64, which is a number of whole turns.
    pub fn sum(self, a: u64, b: u64) -> u64
        ensures { result ≡ plus self.bits a b }
    {
        self.low_bits(a.wrapping_add(b))
    }

    // (a - b) modulo a turn, for b up to a turn.
    pub fn difference(self, a: u64, b: u64) -> u64
        ensures { result ≡ minus self.bits a b }
    {
        self.sum(a, self.turn().saturating_sub(b))
    }
}
