// One line of a script: its grammar, and what it is read as.
#![tactic(auto)]

ghost use Rattle.std.specs.Prelude.{◌≡◌, ◌+◌, ◌≤◌, length, drop};
ghost use Rattle.words.specs.Cuts.{first_piece};
ghost use Rattle.line.specs.Line.{line_at};

use crate::cursor::Cursor;
use fault::Fault;
use words::piece;

mod cursor;
mod line;
mod word;

pub use line::Line;

// The line that begins at byte `start` of a script, for one of the slots that are free, and the byte at which it ends.
// Where the script ends before, an empty line stands at its end.
pub fn line_at(
    script: &[u8],
    number: usize,
    start: usize,
    free: &[bool; 32],
) -> Result<(Line, usize), Fault>
    ensures { result ≡ line_at number start free.now script.now }
{
    let start = start.min(script.len());
    let text = piece(&script[start..], b'\n');
    let line = Cursor::of(text, number, start).line(free)?;
    Ok((line, start + text.len()))
}
