// The limits of a job, and of the delay that it is set up with.
ghost use Rattle.std.specs.Prelude.{◌≡◌};
ghost use Rattle.slots.specs.Limits.{period_fits, kind_fits, action_fits, job_fits};

use jobs::{Action, Job, Kind, MOST_CHANNEL, MOST_FIRINGS, MOST_TICKS};

fn period_fits(period: u64) -> bool
    ensures { result ≡ period_fits period }
{
    (1..=MOST_TICKS).contains(&period)
}

fn kind_fits(kind: Kind) -> bool
    ensures { result ≡ kind_fits kind }
{
    match kind {
        Kind::Once => true,
        Kind::Every { period } => period_fits(period),
        Kind::Burst { count, period } => {
            (1..=MOST_FIRINGS).contains(&count) && period_fits(period)
        }
    }
}

fn action_fits(action: Action) -> bool
    ensures { result ≡ action_fits action }
{
    match action {
        Action::Read { channel } => channel <= MOST_CHANNEL,
        Action::Mark => true,
    }
}

pub(crate) fn fits(job: Job, delay: u64) -> bool
    ensures { result ≡ job_fits delay job }
{
    delay <= MOST_TICKS && kind_fits(job.kind) && action_fits(job.action)
}
