// What records are kept in, over rows that the caller lends: a book, a queue, and records put in order by way of it.
// Each is a crate of its own; here they stand together, with their tests.
#![tactic(auto)]

#[cfg(test)]
mod tests;

pub use book::{Book, Firing, Reading};
pub use queue::{Due, Queue, order_is_total};
pub use sorting::in_order;
