// How long a clock takes to gain a number of ticks: what layers and the logger ask of the alarm below them.
ghost use Rattle.std.specs.Prelude.{◌≡◌, ℕ, ◌-◌};
ghost use Rattle.clock.specs.Calls.{SetTo};
ghost use Rattle.clock.specs.Hold.{wait_for, hold_of, Waits};
ghost use Rattle.clock.specs.declared.appointment.Appointment.TheVariants.{Idle};

use crate::alarm::{Alarm, Clock};
use crate::appointment::Appointment;
use fault::Fault;

// The least number of true ticks, below the reach, in which the clock gains `left` ticks of its own; the reach less one
// where none is enough. It works by the alarm's own appointment, so what that was before is given up.
pub fn ticks_until<A: Alarm>(alarm: &mut A, left: u64) -> u64
    ensures answer { result ≡ wait_for (A.Clock.meaning alarm.old) left }
    ensures least { Waits (A.Clock.meaning alarm.old) left result }
    ensures clock { A.Clock.meaning alarm.new ≡ A.Clock.meaning alarm.old }
    ensures appointment { A.Alarm.appointment alarm.new ≡ Idle }
{
    let _ = alarm.stop();
    if left == 0 {
        return 0;
    }
    match appoint(alarm, left) {
        Ok(()) => {
            let wait = alarm.hold();
            let _ = alarm.stop();
            wait
        }
        // more than the clock gains within its reach
        Err(_) => longest(alarm),
    }
}

// Asks for an appointment so many ticks from now.
fn appoint<A: Alarm>(alarm: &mut A, left: u64) -> Result<(), Fault>
    ensures { SetTo (A.Clock.meaning alarm.old) (A.Alarm.appointment alarm.old) (A.Clock.meaning alarm.old).reading left result (A.Clock.meaning alarm.new) (A.Alarm.appointment alarm.new) }
{
    let reading = alarm.reading();
    alarm.set(reading, left)
}

// As many true ticks as may pass between samples.
fn longest<A: Alarm>(alarm: &A) -> u64
    ensures { result ≡ (A.Clock.meaning alarm.now).reach - 1 }
{
    alarm.reach() - 1
}

// The hold of a clock, where it gains a tick with each true tick.
pub fn steady_hold<C: Clock>(clock: &C, appointment: Appointment) -> u64
    ensures { ((d : ℕ) → (C.Clock.meaning clock.now).measure d ≡ d) → result ≡ hold_of (C.Clock.meaning clock.now) appointment }
{
    let longest = clock.reach() - 1;
    match appointment {
        Appointment::Idle => longest,
        Appointment::Standing(left) => left.min(longest),
        Appointment::Due(_) => 0,
    }
}

// The hold of a layer over the alarm below: what stands for the layer is told in ticks of that alarm.
pub fn hold_over<A: Alarm>(below: &mut A, appointment: Appointment) -> u64
    ensures answer { result ≡ hold_of (A.Clock.meaning below.old) appointment }
    ensures clock { A.Clock.meaning below.new ≡ A.Clock.meaning below.old }
{
    match appointment {
        Appointment::Idle => longest(below),
        Appointment::Standing(left) => ticks_until(below, left),
        Appointment::Due(_) => 0,
    }
}
