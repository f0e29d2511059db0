// A layer over any alarm that widens its reading.
#![tactic(auto)]

mod bits;
mod widening;

pub use bits::Bits;
pub use widening::Widening;
