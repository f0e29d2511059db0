// Records kept in the order in which they came, over a row that the caller lends.
#![tactic(auto)]

mod books;
mod records;

pub use books::Book;
pub use records::{Firing, Reading};
