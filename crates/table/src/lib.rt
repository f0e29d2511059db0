// The slot table of a logger, with the queue of the slots that stand.
#![tactic(auto)]

use crate::agenda::Agenda;
use jobs::Slot;
use std::marker::Model;

mod agenda;
// The calls stand apart, since a struct with a model imports all that its file imports.
mod calls;
mod look;
mod rows;

// The states of the slots, which is what clauses see. The agenda holds those that stand, the next one to come due first.
#[derive(Drop)]
pub struct Table {
    slots: [Slot; 32],
    agenda: Agenda,
}

impl Model for Table {
    ghost use Rattle.std.specs.Prelude.{◌≡◌, List, length};
    ghost use Rattle.jobs.specs.declared.Slot.{Slot};
    ghost use Rattle.table.specs.Dues.{planned};

    ghost Value = { List Slot };

    ghost view = { λ t. t.slots };

    ghost invariant = { λ t. (length t.slots ≡ 32) × (t.agenda ≡ planned t.slots) };
}
