// What the logger does with its queue.
ghost use Rattle.std.specs.Prelude.{◌≡◌, ◌<◌, [], length};
ghost use Rattle.queue.specs.Row.{first};
ghost use Rattle.table.specs.Dues.{noted, forgotten};

use super::Agenda;
use queue::{Due, Queue};

impl Agenda {
    #[tactic(auto, using(queue::proofs::Queued::queued_none))]
    pub(crate) fn new() -> Agenda
        ensures { result ≡ [] }
    {
        // by hand, since no moment is due by default
        let blank = Due { moment: 0, slot: 0 };
        Agenda {
            queue: Queue::new(),
            row: [blank; 32],
        }
    }

    // The record that comes due first, the lower slot on a tie.
    pub(crate) fn least(&self) -> Option<Due>
        ensures { result ≡ first self.now }
    {
        self.queue.least(&self.row)
    }

    #[tactic(auto, using(queue::proofs::Queued::length_queued))]
    pub(crate) fn note(&mut self, due: Option<Due>)
        requires { length self.old < 32 }
        ensures { self.new ≡ noted due self.old }
    {
        if let Some(due) = due {
            // it is not refused: there is a place for each slot
            self.queue.add(&mut self.row, due).unwrap();
        }
    }

    pub(crate) fn forget(&mut self, due: Option<Due>)
        ensures { self.new ≡ forgotten due self.old }
    {
        if let Some(due) = due {
            self.queue.remove(&mut self.row, due);
        }
    }
}
