// A layer over any alarm that runs slower, by a fixed ratio.
#![tactic(auto)]

mod rate;
mod ratio;

pub use rate::Rate;
pub use ratio::Ratio;
