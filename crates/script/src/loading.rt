// Loading a script into a logger.
ghost use Rattle.std.specs.Prelude.{◌≡◌, length};
ghost use Rattle.logger.specs.Calls.{SetUp};
ghost use Rattle.logger.specs.State.{view};
ghost use Rattle.script.specs.Load.{free_slots, lines_for, load_answer, after_load};

use crate::reading::read;
use clock::alarm::Alarm;
use fault::Fault;
use jobs::Slot;
use line::Line;
use logger::logger::Logger;

fn free_slots(slots: &[Slot; 32]) -> [bool; 32]
    ensures { result ≡ free_slots slots.now }
{
    // A loop, since the library's `map` of an array takes the table by value, slot by slot.
    let mut free = [false; 32];
    for (i, slot) in slots.iter().enumerate() {
        free[i] = slot.is_free();
    }
    free
}

// Sets up the job of a line at the logger's moment.
fn set_up_line<A: Alarm>(logger: &mut Logger<A>, line: Line) -> Result<u64, Fault>
    ensures { SetUp (view A.Clock.meaning logger.old) line.slot logger.old.moment.ticks line.delay line.job result (view A.Clock.meaning logger.new) }
{
    let moment = logger.moment();
    logger.set_up(usize::from(line.slot), moment, line.delay, line.job)
}

// Sets up all lines of the script at the logger's moment; a refused script leaves the logger as it was.
pub fn load<A: Alarm>(logger: &mut Logger<A>, script: &[u8]) -> Result<(), Fault>
    ensures answer { result ≡ load_answer (lines_for (view A.Clock.meaning logger.old) script.now) }
    ensures after { view A.Clock.meaning logger.new ≡ after_load (view A.Clock.meaning logger.old) (lines_for (view A.Clock.meaning logger.old) script.now) }
{
    let free = free_slots(logger.slots());
    let loaded = read(script, &free)?;
    for line in loaded.lines() {
        // it is not refused: the slot is free, and the job keeps its limits
        set_up_line(logger, *line).unwrap();
    }
    Ok(())
}
