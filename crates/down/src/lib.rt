// A device: a counter that counts down from its reload.
#![tactic(auto)]

mod down;

pub use down::{Count, DownCounter};
