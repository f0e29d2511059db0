// The queue of the jobs of a script, with its row.
use crate::pending::Pending;
use queue::Queue;
use std::marker::Model;

// The calls stand apart, since a struct with a model imports all that its file imports.
mod calls;

// The row has a place for each slot. Clauses see the jobs that stand in it, the next to fire first.
// It is no generic struct with the table's agenda: all that the two share is a call of the queue in each method.
#[derive(Drop)]
pub(crate) struct Plan {
    queue: Queue,
    row: [Pending; 32],
}

impl Model for Plan {
    ghost use Rattle.std.specs.Prelude.{◌≤◌, List};
    ghost use Rattle.queue.specs.Queue.{queued};
    ghost use Rattle.forecasting.specs.declared.pending.Pending.{Pending};

    ghost Value = { List Pending };

    ghost view = { λ p. queued p.queue p.row };

    ghost invariant = { λ p. p.queue.count ≤ 32 };
}
