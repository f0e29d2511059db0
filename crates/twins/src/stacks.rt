// The clocks of the two builds, which differ in their counters and in their layers.
use crate::samples::{DOWN_FIRST, UP_FIRST};
use down::DownCounter;
use fault::Fault;
use offset::{Offset, Shift};
use rate::{Rate, Ratio};
use up::UpCounter;
use widening::{Bits, Widening};

pub type Up = Rate<Widening<UpCounter>>;

pub type Down = Offset<Rate<DownCounter>>;

pub fn up() -> Result<Up, Fault> {
    let bits = Bits::new(8)?;
    let ratio = Ratio::new(1, 2)?;
    let counter = UpCounter::new(8, UP_FIRST, 1)?;
    Ok(Rate::new(Widening::new(counter, bits), ratio))
}

pub fn down() -> Result<Down, Fault> {
    let ratio = Ratio::new(2, 3)?;
    let shift = Shift::new(5000)?;
    let counter = DownCounter::new(99, DOWN_FIRST, 2)?;
    Ok(Offset::new(Rate::new(counter, ratio), shift))
}
