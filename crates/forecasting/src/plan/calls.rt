// Planning lines, and taking firings from a plan.
ghost use Rattle.std.specs.Prelude.{◌≡◌, ◌+◌, ◌^◌, ◌<◌, ◌≤◌, [], map, length};
ghost use Rattle.std.specs.List.{AllByRecursion};
ghost use Rattle.queue.specs.Order.{inserted, in_order};
ghost use Rattle.queue.specs.Row.{first, later};
ghost use Rattle.forecasting.specs.Pending.{pending, pending_compare, first_due, after_first, Calm};

use super::Plan;
use crate::pending::Pending;
use jobs::Kind;
use line::Line;
use queue::{Due, Queue};

impl Plan {
    fn new() -> Plan
        ensures { result ≡ [] }
    {
        // by hand, since no job is a job by default
        let blank = Pending {
            due: Due { moment: 0, slot: 0 },
            kind: Kind::Once,
        };
        Plan {
            queue: Queue::new(),
            row: [blank; 32],
        }
    }

    #[tactic(auto, using(queue::proofs::Queued::length_queued))]
    fn put(&mut self, pending: Pending)
        requires { length self.old < 32 }
        ensures { self.new ≡ inserted pending_compare pending self.old }
    {
        // it is not refused: there is a place for each slot
        self.queue.add(&mut self.row, pending).unwrap();
    }

    fn take(&mut self) -> Option<Pending>
        ensures answer { result ≡ first self.old }
        ensures left { self.new ≡ later self.old }
        ensures few { length self.old ≤ 32 }
    {
        self.queue.take_least(&mut self.row)
    }

    // The jobs of lines that are loaded at `start`.
    pub(crate) fn of(lines: &[Line], start: u64) -> Plan
        requires few { length lines.now ≤ 32 }
        requires early { AllByRecursion (λ l. start + l.delay < 2 ^ 64) lines.now }
        ensures { result ≡ in_order pending_compare (map (pending start) lines.now) }
    {
        let mut plan = Plan::new();
        for line in lines {
            plan.put(Pending::of(*line, start));
        }
        plan
    }

    // The next firing, after which its job waits for the one that follows.
    pub(crate) fn next(&mut self) -> Option<Due>
        requires { AllByRecursion (Calm (2 ^ 63)) self.old }
        ensures answer { result ≡ first_due self.old }
        ensures after { self.new ≡ after_first self.old }
    {
        let pending = self.take()?;
        if let Some(again) = pending.again() {
            self.put(again);
        }
        Some(pending.due)
    }
}
