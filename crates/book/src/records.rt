// The records that the product keeps. A book takes their numbers as they come.

// One report of a slot: the moment at which it was due, and how many ticks later it was reported.
#[derive(Clone, Copy, PartialEq, Eq, Debug)]
pub struct Firing {
    pub slot: u8,
    pub due: u64,
    pub lateness: u64,
}

// What a channel showed at a moment.
#[derive(Clone, Copy, PartialEq, Eq, Debug)]
pub struct Reading {
    pub channel: u8,
    pub moment: u64,
    pub value: i16,
}
