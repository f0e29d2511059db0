// The listing of a script: a line for each of its first firings, or the text of its fault.
#![tactic(auto)]

ghost use Rattle.std.specs.Prelude.{◌≡◌, ◌+◌, ◌≤◌, ◌++◌, length};
ghost use Rattle.forecasting.specs.Forecast.{places, how_many, row_after};
ghost use Rattle.listing.specs.Listing.{listed, listing_text, copy_answer, copied};

use crate::page::{Page, refusal, rows};
use fault::{Cause, Fault};
use forecasting::forecast;
use slots::moment::Moment;

mod page;

// No listing is longer: 20 lines of 25 bytes at most, or a refusal.
pub const PAGE: usize = 1024;

// The longest script that is listed.
pub const MOST_BYTES: usize = 4096;

// The most lines of a listing.
const MOST_LINES: usize = 20;

// The first firings from moment 0, into two rows side by side as the forecast has them.
fn list(script: &[u8], moments: &mut [u64], slots: &mut [u8]) -> Result<usize, Fault>
    ensures answer { result ≡ how_many (listed (places moments.old slots.old) script.now) }
    ensures moments { moments.new ≡ row_after (λ d. d.moment) (listed (places moments.old slots.old) script.now) moments.old }
    ensures slots { slots.new ≡ row_after (λ d. d.slot) (listed (places moments.old slots.old) script.now) slots.old }
{
    if script.len() > MOST_BYTES {
        return Err(Fault::in_script(Cause::NoPlace, 0, MOST_BYTES));
    }
    let start = Moment::new(0)?;
    forecast(script, start, moments, slots)
}

// The text of a script's listing, onto the caller's page: to hand a page back would copy all of it at each return.
fn text(page: &mut Page, script: &[u8])
    requires { length page.old.bytes + 500 ≤ 1024 }
    ensures { page.new.bytes ≡ page.old.bytes ++ listing_text script.now }
{
    let mut moments = [0; MOST_LINES];
    let mut slots = [0; MOST_LINES];
    match list(script, &mut moments, &mut slots) {
        Ok(count) => rows(page, &moments[..count], &slots[..count]),
        Err(fault) => refusal(page, fault),
    }
}

// Writes the listing into a buffer, and answers how many bytes it has. A buffer that is too short is left alone.
pub fn listing(script: &[u8], buffer: &mut [u8]) -> Result<usize, Fault>
    ensures answer { result ≡ copy_answer (listing_text script.now) buffer.old }
    ensures buffer { buffer.new ≡ copied (listing_text script.now) buffer.old }
{
    let mut page = Page::new();
    text(&mut page, script);
    let size = page.len();
    if size > buffer.len() {
        return Err(Fault::in_book(Cause::NoPlace, buffer.len()));
    }
    buffer[..size].copy_from_slice(page.as_str().as_bytes());
    Ok(size)
}
