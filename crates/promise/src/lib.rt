// The promise about two loggers, on the call that answers whether two loggers start alike.
#![tactic(auto)]

ghost use Rattle.std.specs.Prelude.{◌≡◌, T};
ghost use Rattle.std.specs.List.{list_all};
ghost use Rattle.jobs.specs.Jobs.{is_free};
ghost use Rattle.logger.specs.State.{view};
ghost use Rattle.promise.specs.Example.{Occurring};
ghost use Rattle.promise.specs.Promise.{starts_alike, Alike};

use clock::alarm::Alarm;
use jobs::Slot;
use logger::logger::Logger;

// Whether no slot of the table holds a job or waits for a ticket.
fn all_free(slots: &[Slot]) -> bool
    ensures { result ≡ list_all is_free slots.now }
{
    slots.iter().all(|slot| slot.is_free())
}

// Whether every slot of both loggers is free and their moments are equal, as of two fresh loggers with one start.
// Two such loggers keep the promise, whatever stacks they stand on; and there are runs that it speaks of.
#[tactic(auto, using(crate::proofs::Alikeness::each_free, crate::proofs::Occurring::occurring))]
pub fn start_alike<C: Alarm, D: Alarm>(a: &Logger<C>, b: &Logger<D>) -> bool
    ensures answer { result ≡ starts_alike (view C.Clock.meaning a.now) (view D.Clock.meaning b.now) }
    ensures promise { T result → Alike (view C.Clock.meaning a.now) (view D.Clock.meaning b.now) }
    ensures occurs { Occurring }
{
    let free = all_free(a.slots()) && all_free(b.slots());
    free && a.moment() == b.moment()
}
