// When a slot is next due, as the queue keeps it.
ghost use Rattle.std.specs.Prelude.{◌≡◌, true, Decides};
ghost use Rattle.std.specs.Cmp.{IsTotalOrder};
ghost use Rattle.std.specs.declared.cmp.Ordering.{Ordering};
ghost use Rattle.queue.specs.declared.dues.Due.{Due};
ghost use Rattle.queue.specs.Due.{due_compare, due_orders, due_order, Earlier};
ghost use Rattle.queue.specs.Order.{Strict};

// Ordered by moment, and the lower slot on a tie: the fields stand in that order.
#[derive(Clone, Copy, PartialEq, Eq, PartialOrd, Ord, Debug)]
pub struct Due {
    pub moment: u64,
    pub slot: u8,
}

impl Due {
    // Whether this one comes before the other.
    pub fn is_before(&self, other: &Due) -> bool
        ensures { Decides result (Earlier self.now other.now) }
    {
        self < other
    }
}

// What a queue of due records rests on: their order is total, and ties are the same record.
pub fn order_is_total() -> bool
    ensures answer { result ≡ true }
    ensures derived { (x y : Due) → ⟦<Due as Ord>⟧.cmp x y ≡ due_compare x y }
    ensures total { IsTotalOrder due_compare }
    ensures orders { (x y : Due) (r : Ordering) → due_orders x y r → r ≡ due_compare x y }
    ensures strict { Strict due_compare }
{
    true
}
