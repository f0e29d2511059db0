// The text of a listing, piece by piece, since no clause says that a `write!` succeeds.
ghost use Rattle.std.specs.Prelude.{◌≡◌, ◌+◌, ◌*◌, ◌≤◌, [], ◌∷◌, ◌++◌, length};
ghost use Rattle.fault.specs.Text.{place_text, where_text, fault_text};
ghost use Rattle.listing.specs.Listing.{row_text, rows_text};

use crate::PAGE;
use arrayvec::ArrayString;
use fault::{Fault, Part, Place};
use itoa::{Buffer, Integer};

pub(crate) type Page = ArrayString<PAGE>;

// A line for each firing.
pub(crate) fn rows(page: &mut Page, moments: &[u64], slots: &[u8])
    requires { length page.old.bytes + 25 * length moments.now ≤ 1024 }
    ensures { page.new.bytes ≡ page.old.bytes ++ rows_text moments.now slots.now }
{
    for (moment, slot) in moments.iter().zip(slots) {
        put_row(page, *moment, *slot);
    }
}

// A firing: its due moment, a space, its slot, and the line's end.
fn put_row(page: &mut Page, moment: u64, slot: u8)
    requires { length page.old.bytes + 25 ≤ 1024 }
    ensures text { page.new.bytes ≡ page.old.bytes ++ row_text moment slot }
    ensures size { length (row_text moment slot) ≤ 25 }
{
    put_number(page, moment);
    page.push(' ');
    put_number(page, slot);
    page.push('\n');
}

// In decimal.
fn put_number<I: Integer>(page: &mut Page, number: I)
    requires { length page.old.bytes + I.MAX_STR_LEN ≤ 1024 }
    ensures text { page.new.bytes ≡ page.old.bytes ++ I.text number }
    ensures size { length (I.text number) ≤ I.MAX_STR_LEN }
{
    page.push_str(Buffer::new().format(number));
}

// The text of a fault, and the line's end.
pub(crate) fn refusal(page: &mut Page, fault: Fault)
    requires { length page.old.bytes + 71 ≤ 1024 }
    ensures { page.new.bytes ≡ page.old.bytes ++ fault_text fault ++ (10 ∷ []) }
{
    page.push_str("refused ");
    put_number(page, fault.cause.number());
    page.push(' ');
    put_where(page, fault.part, fault.place);
    page.push('\n');
}

// A part and its place; a line of a script needs no part beside it.
fn put_where(page: &mut Page, part: Part, place: Place)
    requires { length page.old.bytes + 58 ≤ 1024 }
    ensures text { page.new.bytes ≡ page.old.bytes ++ where_text part place }
    ensures size { length (where_text part place) ≤ 58 }
{
    match place {
        Place::Line { .. } => put_place(page, place),
        _ => {
            page.push_str(part.word());
            page.push(' ');
            put_place(page, place);
        }
    }
}

fn put_place(page: &mut Page, place: Place)
    requires { length page.old.bytes + 51 ≤ 1024 }
    ensures text { page.new.bytes ≡ page.old.bytes ++ place_text place }
    ensures size { length (place_text place) ≤ 51 }
{
    match place {
        Place::Nought => page.push('0'),
        Place::Tag(tag) => put_number(page, tag),
        Place::Slot(number) | Place::Length(number) => put_number(page, number),
        Place::Line { line, byte } => {
            page.push_str("line ");
            put_number(page, line);
            page.push_str(" byte ");
            put_number(page, byte);
        }
    }
}
