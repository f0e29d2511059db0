// A device: a free-running counter that counts up.
#![tactic(auto)]

mod up;

pub use up::{UpCounter, Word};
