// Tickets of errands.
ghost use Rattle.std.specs.Prelude.{◌≡◌, true};

// The right to settle one errand. It cannot be let go until it is spent, and only `settle` spends it.
#[derive(Debug)]
pub struct Ticket {
    pub(crate) number: u16,
    pub(crate) slot: usize,
    pub(crate) spent: bool,
}

impl Ticket {
    // The number of the logger that gave it.
    pub fn number(&self) -> u16
        ensures { result ≡ self.now.number }
    {
        self.number
    }

    // The slot of its errand.
    pub fn slot(&self) -> usize
        ensures { result ≡ self.now.slot }
    {
        self.slot
    }
}

impl Drop for Ticket {
    fn drop(self)
        requires { self.spent ≡ true }
    {
        let Ticket {
            number: _,
            slot: _,
            spent: _,
        } = self;
    }
}
