// What a refused call answers: why it was refused, in which part, and at which place.
#![tactic(auto)]

ghost use Rattle.std.specs.Prelude.{◌≡◌, ◌≤◌, length, Some};
ghost use Rattle.fault.specs.Table.{number_of, in_device, in_alarm, in_logger, in_slot, in_script, in_book, in_lead};
ghost use Rattle.fault.specs.Text.{part_text, place_text, fault_text};

use std::fmt;

// Why a call was refused. The numbers are part of the interface: `number` answers them.
#[derive(Clone, Copy, PartialEq, Eq, Debug)]
pub enum Cause {
    // a sample that the hardware cannot show now
    StraySample = 1,
    // a width, reload, number of bits, rate or offset outside its limits
    BadSetting = 2,
    // a moment too near 2^62
    MomentLimit = 3,
    // a slot above 31
    NoSlot = 4,
    // an appointment that is not idle, or a slot that is not free
    Taken = 5,
    // a call-off of a free slot
    SlotFree = 6,
    // a call-off of a slot that holds an errand
    SlotErrand = 7,
    // a reference moment that is still to come
    ReferenceAhead = 8,
    // a number outside its limits
    OutOfLimits = 9,
    // a ticket that is not one of this logger's
    ForeignTicket = 10,
    // no place left in a book, a buffer or an input
    NoPlace = 11,
    // a script against its grammar
    Grammar = 12,
    // two readings exactly half a turn apart
    HalfTurn = 13,
}

// The part of the library that refused.
#[derive(Clone, Copy, PartialEq, Eq, Debug)]
pub enum Part {
    Device,
    Alarm,
    Logger,
    Script,
    Book,
    Lead,
}

// Where the refusing part stands.
#[derive(Clone, Copy, PartialEq, Eq, Debug)]
pub enum Place {
    // the tag that a device was made with
    Tag(u8),
    // a part of which there is one only
    Nought,
    Slot(usize),
    // a line of a script, from 1, and a byte of the whole script, from 0
    Line { line: usize, byte: usize },
    // how many records or bytes a row or a buffer has place for
    Length(usize),
}

#[derive(Clone, Copy, PartialEq, Eq, Debug)]
pub struct Fault {
    pub cause: Cause,
    pub part: Part,
    pub place: Place,
}

impl Cause {
    // The number by which people and logs speak of the cause.
    pub fn number(self) -> u8
        ensures { result ≡ number_of self }
    {
        self as u8
    }
}

// A way in for each part, so that no caller pairs a part with a place that it does not have.
impl Fault {
    fn at(cause: Cause, part: Part, place: Place) -> Fault
        ensures { result ≡ record { cause = cause; part = part; place = place } }
    {
        Fault { cause, part, place }
    }

    pub fn in_device(cause: Cause, tag: u8) -> Fault
        ensures { result ≡ in_device cause tag }
    {
        Fault::at(cause, Part::Device, Place::Tag(tag))
    }

    pub fn in_alarm(cause: Cause) -> Fault
        ensures { result ≡ in_alarm cause }
    {
        Fault::at(cause, Part::Alarm, Place::Nought)
    }

    pub fn in_logger(cause: Cause) -> Fault
        ensures { result ≡ in_logger cause }
    {
        Fault::at(cause, Part::Logger, Place::Nought)
    }

    pub fn in_slot(cause: Cause, slot: usize) -> Fault
        ensures { result ≡ in_slot cause slot }
    {
        Fault::at(cause, Part::Logger, Place::Slot(slot))
    }

    pub fn in_script(cause: Cause, line: usize, byte: usize) -> Fault
        ensures { result ≡ in_script cause line byte }
    {
        Fault::at(cause, Part::Script, Place::Line { line, byte })
    }

    pub fn in_book(cause: Cause, length: usize) -> Fault
        ensures { result ≡ in_book cause length }
    {
        Fault::at(cause, Part::Book, Place::Length(length))
    }

    pub fn in_lead(cause: Cause) -> Fault
        ensures { result ≡ in_lead cause }
    {
        Fault::at(cause, Part::Lead, Place::Nought)
    }
}

impl Part {
    pub fn word(self) -> &'static str
        ensures text { result.now ≡ part_text self }
        ensures short { length result.now ≤ 6 }
    {
        match self {
            Part::Device => "device",
            Part::Alarm => "alarm",
            Part::Logger => "logger",
            Part::Script => "script",
            Part::Book => "book",
            Part::Lead => "lead",
        }
    }
}

impl fmt::Display for Part {
    ghost output = { λ p. Some (part_text p) };

    fn fmt<W: fmt::Write>(&self, f: &mut fmt::Formatter<W>) -> fmt::Result {
        let word = self.word();
        write!(f, "{word}")
    }
}

impl fmt::Display for Place {
    ghost output = { λ p. Some (place_text p) };

    fn fmt<W: fmt::Write>(&self, f: &mut fmt::Formatter<W>) -> fmt::Result {
        match *self {
            Place::Nought => write!(f, "0"),
            Place::Tag(tag) => write!(f, "{tag}"),
            Place::Slot(number) | Place::Length(number) => write!(f, "{number}"),
            Place::Line { line, byte } => write!(f, "line {line} byte {byte}"),
        }
    }
}

// `refused NUMBER PART PLACE`, and for a script `refused NUMBER line L byte B`.
impl fmt::Display for Fault {
    ghost output = { λ x. Some (fault_text x) };

    fn fmt<W: fmt::Write>(&self, f: &mut fmt::Formatter<W>) -> fmt::Result {
        let number = self.cause.number();
        let Fault { part, place, .. } = *self;
        match place {
            Place::Line { .. } => write!(f, "refused {number} {place}"),
            _ => write!(f, "refused {number} {part} {place}"),
        }
    }
}
