// A layer over any alarm that sets its reading forward.
#![tactic(auto)]

mod offset;
mod shift;

pub use offset::Offset;
pub use shift::Shift;
