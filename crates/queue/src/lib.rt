// A queue that gives back the least of its records, over rows that the caller lends.
#![tactic(auto)]

mod dues;
mod queues;
mod rows;

pub use dues::{Due, order_is_total};
pub use queues::Queue;
