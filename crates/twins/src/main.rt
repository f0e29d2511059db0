// The product's two builds side by side: two loggers on different counters and layers, with one job in common.
//
// Both read the same moments, while their samples, their other jobs, their refusals and their holds differ. What
// `start_alike` promises of such a pair is shown here on one run: the job fires alike in both.
#![tactic(auto)]

mod build;
mod halt;
mod report;
mod samples;
mod stacks;
mod twins;

use halt::Halt;
use slots::moment::Moment;
use twins::{START, Twins};

fn main(rt: HostRuntime) -> Result<(), Halt> {
    let start = Moment::new(START)?;
    Twins::new(rt.alloc(), start, stacks::up()?, stacks::down()?).run(&rt)
}
