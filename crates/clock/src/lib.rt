// Clocks that wrap and alarms on them: the two interfaces, and the appointment that every alarm keeps.
#![tactic(auto)]

pub mod alarm;
pub mod appointment;
pub mod kept;
pub mod lead;
pub mod wait;
pub mod width;
