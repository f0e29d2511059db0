// When the jobs of a script fire.
#![tactic(auto)]

ghost use Rattle.std.specs.Prelude.{◌≡◌, ◌+◌, ◌^◌, length, Ok};
ghost use Rattle.std.specs.List.{AllByRecursion};
ghost use Rattle.forecasting.specs.Forecast.{forecast_of, places, how_many, row_after, ForecastLaw};
ghost use Rattle.forecasting.specs.Pending.{firings, Calm};

use crate::plan::Plan;
use fault::Fault;
use script::read;
use slots::moment::Moment;

mod pending;
mod plan;

// The most firings that a forecast has.
const MOST: usize = 256;

// How many firings both rows have place for.
fn room(moments: &[u64], slots: &[u8]) -> usize
    ensures { result ≡ places moments.now slots.now }
{
    moments.len().min(slots.len()).min(MOST)
}

// Writes the next firings, as many as both rows have place for; answers how many.
fn fill(plan: &mut Plan, moments: &mut [u64], slots: &mut [u8]) -> usize
    requires { AllByRecursion (Calm (2 ^ 62 + 2 ^ 40)) plan.old }
    ensures count { result ≡ length (firings (places moments.old slots.old) plan.old) }
    ensures moments { moments.new ≡ row_after (λ d. d.moment) (Ok (firings (places moments.old slots.old) plan.old)) moments.old }
    ensures slots { slots.new ≡ row_after (λ d. d.slot) (Ok (firings (places moments.old slots.old) plan.old)) slots.old }
{
    let most = room(moments, slots);
    // An index, since of two rows that are written through iter_mut side by side the proof knows nothing.
    for i in 0..most {
        let Some(due) = plan.next() else {
            return i;
        };
        moments[i] = due.moment;
        slots[i] = due.slot;
    }
    most
}

// The first firings of a script that an empty logger would load at `start`, as many as both rows have place for:
// their due moments and slots, in order, the lower slot first on a tie. Answers how many.
// The two rows are the caller's, lent side by side as the interface has them.
pub fn forecast(
    script: &[u8],
    start: Moment,
    moments: &mut [u64],
    slots: &mut [u8],
) -> Result<usize, Fault>
    ensures answer { result ≡ how_many (forecast_of (places moments.old slots.old) start.ticks script.now) }
    ensures moments { moments.new ≡ row_after (λ d. d.moment) (forecast_of (places moments.old slots.old) start.ticks script.now) moments.old }
    ensures slots { slots.new ≡ row_after (λ d. d.slot) (forecast_of (places moments.old slots.old) start.ticks script.now) slots.old }
    ensures law { ForecastLaw (places moments.old slots.old) start.ticks script.now }
{
    let loaded = read(script, &[true; 32])?;
    let mut plan = Plan::of(loaded.lines(), start.ticks());
    Ok(fill(&mut plan, moments, slots))
}
