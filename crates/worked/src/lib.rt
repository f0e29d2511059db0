// The worked numbers of the library: shown against the definitions, and run through the code.
#![tactic(auto)]

ghost use Rattle.std.specs.Prelude.{◌≡◌, length, All, Ok};
ghost use Rattle.worked.specs.Cases.{cases, True};

use clock::alarm::Alarm;
use fault::Fault;
use rate::{Rate, Ratio};
use up::{UpCounter, Word};

#[cfg(test)]
mod tests;

// How many worked numbers there are; each of them holds of the definitions.
pub fn worked_numbers() -> usize
    ensures count { result ≡ length cases }
    ensures all { All True cases }
{
    18
}

// What three true ticks gain at the rate 2/3 above the rate 1/2: each layer rounds for itself, so it is nothing yet.
pub fn two_rates() -> Result<u64, Fault>
    ensures { result ≡ Ok 0 }
{
    let counter = UpCounter::new(8, Word(0), 0)?;
    let half = Rate::new(counter, Ratio::new(1, 2)?);
    let mut third = Rate::new(half, Ratio::new(2, 3)?);
    third.take(Word(3))
}
