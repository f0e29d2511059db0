// A word of a script, and what it may stand for.
ghost use Rattle.std.specs.Prelude.{◌≡◌, ◌≤◌, IfOk};
ghost use Rattle.line.specs.Line.{fault_at, number_at, limited, slot_at};

use fault::{Cause, Fault};
use std::marker::Model;
use words::number;

// A word, with its line and the byte of the script at which it begins.
#[derive(Drop)]
pub(crate) struct Word<'a> {
    pub(crate) line: usize,
    pub(crate) byte: usize,
    pub(crate) text: &'a [u8],
}

impl<'a> Model for Word<'a> {
    ghost use Rattle.line.specs.Line.{Placed};

    ghost Value = { Placed };

    ghost view = { λ w. record { line = w.line; byte = w.byte; text = w.text.now } };
}

impl Word<'_> {
    pub(crate) fn fault(&self, cause: Cause) -> Fault
        ensures { result ≡ fault_at cause self.now }
    {
        Fault::in_script(cause, self.line, self.byte)
    }

    // A number of any size.
    fn number(&self) -> Result<u64, Fault>
        ensures { result ≡ number_at self.now }
    {
        number(self.text).ok_or(self.fault(Cause::Grammar))
    }

    // A number that lies within limits.
    pub(crate) fn limited(&self, least: u64, most: u64) -> Result<u64, Fault>
        ensures answer { result ≡ limited least most self.now }
        ensures within { IfOk result (λ n. (least ≤ n) × (n ≤ most)) }
    {
        let n = self.number()?;
        if (least..=most).contains(&n) {
            Ok(n)
        } else {
            Err(self.fault(Cause::OutOfLimits))
        }
    }

    // The number of a slot that is free.
    pub(crate) fn slot(&self, free: &[bool; 32]) -> Result<u8, Fault>
        ensures { result ≡ slot_at free.now self.now }
    {
        let slot = self.number()?;
        match free.get(slot as usize) {
            None => Err(self.fault(Cause::NoSlot)),
            Some(false) => Err(self.fault(Cause::Taken)),
            // `as`, since it is below 32; `try_from` would have a refusal that never comes.
            Some(true) => Ok(slot as u8),
        }
    }
}
