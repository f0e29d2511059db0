// What one line of a script asks for.
use jobs::Job;

// A job for a slot, first due `delay` ticks after the moment at which the script is loaded.
#[derive(Clone, Copy)]
pub struct Line {
    pub slot: u8,
    pub delay: u64,
    pub job: Job,
}
