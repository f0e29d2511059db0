// A logger of firings: jobs in 32 slots over any alarm, and the tickets of errands.
#![tactic(auto)]

mod calls;
pub mod logger;
pub mod look;
pub mod ticket;
