// The law of the queue: what is put in comes out in order, all of it, once.
#![tactic(auto)]

mod sorting;

pub use sorting::in_order;
