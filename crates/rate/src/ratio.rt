// What the layer is made with. Its limits are judged here, so that the making of a layer cannot be refused.
ghost use Rattle.std.specs.Prelude.{◌≡◌, ◌+◌, ◌*◌, ◌^◌, ◌<◌, ◌≤◌};
ghost use Rattle.clock.specs.Making.{seen};
ghost use Rattle.rate.specs.Ratio.{ratio_made};
ghost use Rattle.rate.specs.Rate.{needed, needed_for};
ghost use Rattle.clock.specs.Appointment.{Sound};

use clock::appointment::Appointment;
use fault::{Cause, Fault};

// A rate: so many gains for so many ticks of the clock below.
#[derive(Clone, Copy)]
pub struct Ratio {
    pub(crate) gains: u64,
    pub(crate) ticks: u64,
    ghost some: { 1 ≤ gains },
    ghost slow: { gains ≤ ticks },
    ghost high: { ticks ≤ 4096 },
}

impl Ratio {
    // The rate gains/ticks, with 1 <= gains <= ticks <= 4096.
    pub fn new(gains: u64, ticks: u64) -> Result<Ratio, Fault>
        ensures { seen (λ q. (q.gains, q.ticks)) result ≡ ratio_made gains ticks }
    {
        if !(1..=ticks).contains(&gains) || ticks > 4096 {
            return Err(Fault::in_alarm(Cause::BadSetting));
        }
        Ok(Ratio { gains, ticks })
    }

    // What ticks of the clock below bring, with what was left over, in parts of a tick.
    pub(crate) fn brought(self, remainder: u64, ticks: u64) -> u64
        requires { (remainder < self.ticks) × (ticks < 2 ^ 32) }
        ensures { result ≡ remainder + self.gains * ticks }
    {
        remainder + self.gains * ticks
    }

    // How many ticks of the clock below bring what is left: as many as bring the parts that are missing.
    pub(crate) fn needed(self, remainder: u64, left: u64) -> u64
        requires { (remainder < self.ticks) × (1 ≤ left) × (left ≤ 2 ^ 48) }
        ensures { result ≡ needed self.gains self.ticks remainder left }
    {
        (self.ticks * left - remainder).div_ceil(self.gains)
    }

    // An appointment, with what is left in ticks of the clock below.
    pub(crate) fn needed_for(self, remainder: u64, appointment: Appointment) -> Appointment
        requires small { remainder < self.ticks }
        requires sound { Sound 48 appointment }
        ensures { result ≡ needed_for self.gains self.ticks remainder appointment }
    {
        match appointment {
            Appointment::Standing(left) => Appointment::Standing(self.needed(remainder, left)),
            Appointment::Idle | Appointment::Due(_) => appointment,
        }
    }
}
