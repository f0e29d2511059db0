// What a line of the log asks for.
use crate::call::Call;
use crate::plan::{Device, Layer, Plan, narrow};
use jobs::{Action, Job, Kind};
use words::{Words, number};

#[derive(Clone, Copy)]
pub enum Command {
    Build(Plan),
    Ask(Call<u64>),
    Logger { number: u16, start: u64 },
    Log(LogCall),
    // the lines that follow are a script
    Load,
}

// The calls of a logger that an alarm has not. The sample is the number as it stands in the line.
#[derive(Clone, Copy)]
pub enum LogCall {
    Serve(u64),
    SetUp { wanted: Wanted, job: Job },
    Errand { wanted: Wanted, action: Action },
    Settle { slot: usize },
    CallOff { slot: usize },
    Next,
}

// The slot that a job is wanted in, a delay after a reference.
#[derive(Clone, Copy)]
pub struct Wanted {
    pub slot: usize,
    pub reference: u64,
    pub delay: u64,
}

impl Command {
    // None where the line is none of the calls.
    pub fn parse(line: &[u8]) -> Option<Command> {
        let mut words = Words::of(line);
        let name = words.next()?;
        let command = named(name, &mut words)?;
        match words.next() {
            None => Some(command),
            Some(_) => None,
        }
    }
}

fn named(name: &[u8], words: &mut Words) -> Option<Command> {
    Some(match name {
        b"up" => Command::Build(plan(up(words)?, words)?),
        b"down" => Command::Build(plan(down(words)?, words)?),
        b"width" => Command::Ask(Call::Width),
        b"reach" => Command::Ask(Call::Reach),
        b"reading" => Command::Ask(Call::Reading),
        b"take" => Command::Ask(Call::Take(number_of(words)?)),
        b"set" => Command::Ask(set(words)?),
        b"stop" => Command::Ask(Call::Stop),
        b"claim" => Command::Ask(Call::Claim),
        b"hold" => Command::Ask(Call::Hold),
        b"logger" => logger(words)?,
        b"serve" => Command::Log(LogCall::Serve(number_of(words)?)),
        b"setup" => Command::Log(set_up(words)?),
        b"errand" => Command::Log(errand(words)?),
        b"settle" => Command::Log(LogCall::Settle { slot: slot(words)? }),
        b"calloff" => Command::Log(LogCall::CallOff { slot: slot(words)? }),
        b"next" => Command::Log(LogCall::Next),
        b"load" => Command::Load,
        _ => return None,
    })
}

// The readers of two numbers stand apart, since each gives the two their names.
fn up(words: &mut Words) -> Option<Device> {
    let width = number_of(words)?;
    let first = number_of(words)?;
    Some(Device::Up { width, first })
}

fn down(words: &mut Words) -> Option<Device> {
    let reload = number_of(words)?;
    let first = number_of(words)?;
    Some(Device::Down { reload, first })
}

// The tag of a device, and the layers above it.
fn plan(device: Device, words: &mut Words) -> Option<Plan> {
    let tag = u8::try_from(number_of(words)?).ok()?;
    let layers = layers(words)?;
    Some(Plan {
        device,
        tag,
        layers,
    })
}

// Up to three.
fn layers(words: &mut Words) -> Option<[Option<Layer>; 3]> {
    let low = layer(words)?;
    let middle = layer(words)?;
    let high = layer(words)?;
    Some([low, middle, high])
}

// The next layer, if the line does not end before it.
fn layer(words: &mut Words) -> Option<Option<Layer>> {
    match words.next() {
        None => Some(None),
        Some(name) => Some(Some(named_layer(name, words)?)),
    }
}

fn named_layer(name: &[u8], words: &mut Words) -> Option<Layer> {
    match name {
        b"widen" => Some(Layer::Widen {
            bits: number_of(words)?,
        }),
        b"rate" => rate(words),
        b"offset" => Some(Layer::Offset {
            by: number_of(words)?,
        }),
        _ => None,
    }
}

fn rate(words: &mut Words) -> Option<Layer> {
    let gains = number_of(words)?;
    let ticks = number_of(words)?;
    Some(Layer::Rate { gains, ticks })
}

#[inline(always)]
fn set(words: &mut Words) -> Option<Call<u64>> {
    let reference = number_of(words)?;
    let delay = number_of(words)?;
    Some(Call::Set { reference, delay })
}

fn logger(words: &mut Words) -> Option<Command> {
    let number = u16::try_from(number_of(words)?).ok()?;
    let start = number_of(words)?;
    Some(Command::Logger { number, start })
}

fn set_up(words: &mut Words) -> Option<LogCall> {
    let wanted = wanted_of(words)?;
    let kind = kind(words)?;
    let action = action(words)?;
    let job = Job { kind, action };
    Some(LogCall::SetUp { wanted, job })
}

fn errand(words: &mut Words) -> Option<LogCall> {
    let wanted = wanted_of(words)?;
    let action = action(words)?;
    Some(LogCall::Errand { wanted, action })
}

fn wanted_of(words: &mut Words) -> Option<Wanted> {
    let slot = slot(words)?;
    let reference = number_of(words)?;
    let delay = number_of(words)?;
    Some(Wanted {
        slot,
        reference,
        delay,
    })
}

// The words of a job are read here and in crate `line`, where each word has its place and its fault, and the delay comes last.
fn kind(words: &mut Words) -> Option<Kind> {
    match words.next()? {
        b"once" => Some(Kind::Once),
        b"every" => Some(Kind::Every {
            period: number_of(words)?,
        }),
        b"burst" => burst(words),
        _ => None,
    }
}

fn burst(words: &mut Words) -> Option<Kind> {
    let count = narrow(number_of(words)?);
    let period = number_of(words)?;
    Some(Kind::Burst { count, period })
}

fn action(words: &mut Words) -> Option<Action> {
    match words.next()? {
        b"read" => Some(Action::Read {
            channel: u8::try_from(number_of(words)?).unwrap_or(u8::MAX),
        }),
        b"mark" => Some(Action::Mark),
        _ => None,
    }
}

fn slot(words: &mut Words) -> Option<usize> {
    usize::try_from(number_of(words)?).ok()
}

fn number_of(words: &mut Words) -> Option<u64> {
    number(words.next()?)
}
