// Samples from the numbers of a log.
use fault::{Cause, Fault};
use std::num::TryFromIntError;

// A number with more bits than a register is a sample that no hardware shows.
pub(crate) fn sample<X: TryFrom<u64, Error = TryFromIntError>>(
    number: u64,
    tag: u8,
) -> Result<X, Fault> {
    X::try_from(number).map_err(|_| Fault::in_device(Cause::StraySample, tag))
}
