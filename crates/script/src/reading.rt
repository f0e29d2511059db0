// Reading a whole script, line by line from the top.
ghost use Rattle.std.specs.Prelude.{◌≡◌, ◌<◌, ◌≤◌, false, length, slice_set, IfOk};
ghost use Rattle.line.specs.Text.{Lawful};
ghost use Rattle.script.specs.Lines.{read_as};
ghost use Rattle.script.specs.Script.{script_of, ended_line};
ghost use Rattle.script.specs.Text.{Law};

use crate::lines::Script;
use fault::{Cause, Fault};
use line::{Line, line_at};

// The line that begins at this byte, and where the byte 10 that must end it stands.
fn ended_line(
    text: &[u8],
    number: usize,
    byte: usize,
    free: &[bool; 32],
) -> Result<(Line, usize), Fault>
    requires { byte < length text.now }
    ensures answer { result ≡ ended_line number byte free.now text.now }
    ensures within { IfOk result (λ p. (byte ≤ p.1) × (p.1 < length text.now)) }
    ensures lawful { IfOk result (λ p. Lawful free.now p.0) }
{
    let (line, end) = line_at(text, number, byte, free)?;
    if end < text.len() {
        Ok((line, end))
    } else {
        Err(Fault::in_script(Cause::Grammar, number, end))
    }
}

// No later line may have this slot.
fn close(free: &mut [bool; 32], slot: u8)
    requires { slot < 32 }
    ensures { free.new ≡ slice_set free.old slot false }
{
    free[usize::from(slot)] = false;
}

// The lines of a script, where the slots marked in `free` are free at its start.
#[tactic(auto, using(crate::proofs::Laws::law))]
pub fn read(text: &[u8], free: &[bool; 32]) -> Result<Script, Fault>
    ensures answer { read_as result ≡ script_of free.now text.now }
    ensures law { Law free.now text.now }
{
    let mut script = Script::new();
    let mut open = *free;
    let mut byte = 0;
    // Over bytes, since where the next line begins is known only once this one is read.
    while byte < text.len() {
        let number = script.lines().len() + 1;
        let (line, end) = ended_line(text, number, byte, &open)?;
        close(&mut open, line.slot);
        script.add(line);
        byte = end + 1;
    }
    Ok(script)
}
