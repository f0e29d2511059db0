// A job that waits for its next firing.
ghost use Rattle.std.specs.Prelude.{◌≡◌, ◌+◌, ◌^◌, ◌<◌};
ghost use Rattle.forecasting.specs.Pending.{pending, again, spacing};

use jobs::Kind;
use line::Line;
use queue::Due;

// Ordered by the next firing: two that are due at once in one slot count as the same.
#[derive(Clone, Copy)]
#[derive_where(PartialEq, Eq, PartialOrd, Ord)]
pub(crate) struct Pending {
    pub(crate) due: Due,
    #[derive_where(skip(EqHashOrd))]
    pub(crate) kind: Kind,
}

impl Pending {
    // The job of a line that is loaded at `start`.
    pub(crate) fn of(line: Line, start: u64) -> Pending
        requires { start + line.delay < 2 ^ 64 }
        ensures { result ≡ pending start line }
    {
        Pending {
            due: Due {
                moment: start + line.delay,
                slot: line.slot,
            },
            kind: line.job.kind,
        }
    }

    // What still waits after its firing.
    pub(crate) fn again(self) -> Option<Pending>
        requires { self.due.moment + spacing self.kind < 2 ^ 64 }
        ensures { result ≡ again self.due self.kind }
    {
        let (ticks, kind) = self.kind.after_firing()?;
        Some(Pending {
            due: Due {
                moment: self.due.moment + ticks,
                slot: self.due.slot,
            },
            kind,
        })
    }
}
