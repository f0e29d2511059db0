// How far one reading is ahead of another, as serial number arithmetic has it.
//
// The lead tells which of two readings is the later one only while they lie less than half a turn apart. So no deadline is
// judged by it: an appointment counts the ticks that are left.
ghost use Rattle.std.specs.Prelude.{◌≡◌, ◌+◌, ◌^◌, ◌<◌, ◌≤◌};
ghost use Rattle.clock.specs.Lead.{lead_at, lead_of, turned, Serial};

use crate::width::{WIDEST, Width};
use fault::{Cause, Fault};
use std::cmp::Ordering;

// The lead of `a` over `b`, readings of `width` bits, 2 to 48: positive where `a` is ahead, negative where `b` is.
// The other way round it has the other sign, and it is refused for the same reason.
pub fn lead(width: u32, a: u64, b: u64) -> Result<i64, Fault>
    ensures answer { result ≡ lead_of width a b }
    ensures reverse { turned result ≡ lead_of width b a }
    ensures serial { Serial width a b result }
{
    if !(2..=WIDEST).contains(&width) {
        return Err(Fault::in_lead(Cause::BadSetting));
    }
    let whole = Width { bits: width };
    let half = Width { bits: width - 1 };
    let turn = whole.turn();
    if a >= turn || b >= turn {
        return Err(Fault::in_lead(Cause::OutOfLimits));
    }
    signed(half.turn(), whole.difference(a, b))
}

// The lead at a distance up of less than a turn: past half a turn the way down is the shorter one.
fn signed(half: u64, distance: u64) -> Result<i64, Fault>
    requires { (half ≤ 2 ^ 47) × (distance < half + half) }
    ensures { result ≡ lead_at half distance }
{
    match distance.cmp(&half) {
        Ordering::Less => Ok(distance as i64),
        Ordering::Equal => Err(Fault::in_lead(Cause::HalfTurn)),
        Ordering::Greater => Ok(distance as i64 - (half + half) as i64),
    }
}
