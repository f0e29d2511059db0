// The queue of the standing slots, with its row.
use queue::{Due, Queue};
use std::marker::Model;

// The calls stand apart, since a struct with a model imports all that its file imports.
mod calls;

// The row has a place for each slot. Clauses see the records that stand in it, the next to come due first.
#[derive(Drop)]
pub struct Agenda {
    queue: Queue,
    row: [Due; 32],
}

impl Model for Agenda {
    ghost use Rattle.std.specs.Prelude.{◌≡◌, ◌≤◌, List, length};
    ghost use Rattle.queue.specs.declared.dues.Due.{Due};
    ghost use Rattle.queue.specs.Queue.{queued};

    ghost Value = { List Due };

    ghost view = { λ a. queued a.queue a.row };

    ghost invariant = { λ a. (length a.row ≡ 32) × (a.queue.count ≤ 32) };
}
