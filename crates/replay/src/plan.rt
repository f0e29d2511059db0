// A stack of layers over a device, as a line asks for it.
use crate::sample::sample;
use down::{Count, DownCounter};
use fault::Fault;
use offset::Shift;
use rate::Ratio;
use up::{UpCounter, Word};
use widening::Bits;

// The numbers as they stand in the line: the library judges them.
#[derive(Clone, Copy)]
pub struct Plan {
    pub device: Device,
    pub tag: u8,
    // those above the device, the lowest first
    pub layers: [Option<Layer>; 3],
}

#[derive(Clone, Copy)]
pub enum Device {
    Up { width: u64, first: u64 },
    Down { reload: u64, first: u64 },
}

#[derive(Clone, Copy)]
pub enum Layer {
    Widen { bits: u64 },
    Rate { gains: u64, ticks: u64 },
    Offset { by: u64 },
}

// What a layer is made with.
#[derive(Clone, Copy)]
pub enum Setting {
    Widen(Bits),
    Rate(Ratio),
    Offset(Shift),
}

impl TryFrom<Layer> for Setting {
    type Error = Fault;

    fn try_from(layer: Layer) -> Result<Setting, Fault> {
        Ok(match layer {
            Layer::Widen { bits } => Setting::Widen(Bits::new(narrow(bits))?),
            Layer::Rate { gains, ticks } => Setting::Rate(Ratio::new(gains, ticks)?),
            Layer::Offset { by } => Setting::Offset(Shift::new(by)?),
        })
    }
}

// The width is judged before the first sample, also where that has more bits than a register.
pub fn up(width: u64, first: u64, tag: u8) -> Result<UpCounter, Fault> {
    let width = narrow(width);
    let _ = UpCounter::new(width, Word(0), tag)?;
    UpCounter::new(width, sample(first, tag)?, tag)
}

// No reload reaches the largest count, so a first sample of more bits is refused as that one is.
pub fn down(reload: u64, first: u64, tag: u8) -> Result<DownCounter, Fault> {
    DownCounter::new(narrow(reload), Count(narrow(first)), tag)
}

// A number too large for its limits stays too large.
pub(crate) fn narrow(n: u64) -> u32 {
    u32::try_from(n).unwrap_or(u32::MAX)
}
