// Scripts: text that names a job for each of some slots, what it is read as, and loading it into a logger.
#![tactic(auto)]

mod lines;
mod loading;
mod reading;

pub use line::Line;
pub use lines::Script;
pub use loading::load;
pub use reading::read;
