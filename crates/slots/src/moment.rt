// A moment of a logger: a count of its clock's ticks.
ghost use Rattle.std.specs.Prelude.{◌≡◌, ◌^◌, ◌<◌};

pub use making::LIMIT;

mod making;

// Below 2^62, so that a due moment and a period after it still fit 64 bits.
#[derive(Clone, Copy, PartialEq, Eq, Debug)]
pub struct Moment {
    pub ticks: u64,
    ghost early: { ticks < 2 ^ 62 },
}
