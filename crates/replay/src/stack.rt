// The lines that are answered by one stack: a device under up to three layers.
use crate::call::Call;
use crate::command::Command;
use crate::failure::Failure;
use crate::layered::Layered;
use crate::lines::Lines;
use crate::plan::{Device, Layer, Plan, Setting};
use crate::sample::sample;
use crate::{call, plan, session};
use answers::Answer;
use clock::alarm::Alarm;
use down::DownCounter;
use fault::Fault;
use logger::logger::Logger;
use slots::moment::Moment;
use std::io;
use std::num::TryFromIntError;
use std::ops::ControlFlow;
use up::UpCounter;

// A stack that was accepted: its device, and the settings of its layers.
#[derive(Drop)]
pub struct Stack {
    counter: Counter,
    tag: u8,
    settings: [Option<Setting>; 3],
}

#[derive(Drop)]
pub enum Counter {
    Up(UpCounter),
    Down(DownCounter),
}

// Refused at the first word that is: the device's before those of the layers.
impl TryFrom<Plan> for Stack {
    type Error = Fault;

    fn try_from(plan: Plan) -> Result<Stack, Fault> {
        let counter = match plan.device {
            Device::Up { width, first } => Counter::Up(plan::up(width, first, plan.tag)?),
            Device::Down { reload, first } => Counter::Down(plan::down(reload, first, plan.tag)?),
        };
        // one by one, since the library's `try_map` of an array takes it apart and puts another together
        let [low, middle, high] = plan.layers;
        let settings = [setting(low)?, setting(middle)?, setting(high)?];
        Ok(Stack {
            counter,
            tag: plan.tag,
            settings,
        })
    }
}

fn setting(layer: Option<Layer>) -> Result<Option<Setting>, Fault> {
    layer.map(Setting::try_from).transpose()
}

impl Stack {
    // Answers lines until another stack is accepted, or the input ends.
    pub(crate) fn answer_lines(self, lines: &mut Lines) -> io::Result<Option<Stack>> {
        let Stack {
            counter,
            tag,
            settings,
        } = self;
        match counter {
            Counter::Up(up) => {
                let alarm = layered(up, settings);
                Standing { alarm, tag }.answer_lines(lines)
            }
            Counter::Down(down) => {
                let alarm = layered(down, settings);
                Standing { alarm, tag }.answer_lines(lines)
            }
        }
    }
}

// A device under its layers, the lowest first.
fn layered<A: Alarm>(device: A, settings: [Option<Setting>; 3]) -> Layered<Layered<Layered<A>>> {
    let [low, middle, high] = settings;
    Layered::new(Layered::new(Layered::new(device, low), middle), high)
}

// The alarm that stands, and the tag of its device.
#[derive(Drop)]
struct Standing<A: Alarm> {
    alarm: A,
    tag: u8,
}

// What ends the lines of a stack: another one, or a logger of this number and start over it.
#[derive(Drop)]
enum Turn {
    Stack(Stack),
    Logger(u16, Moment),
}

impl<A: Alarm + Drop> Standing<A>
where
    A::Sample: TryFrom<u64, Error = TryFromIntError>,
{
    fn answer_lines(mut self, lines: &mut Lines) -> io::Result<Option<Stack>> {
        match lines.answer_each(|_, command| self.answer(command))? {
            None => Ok(None),
            Some(Turn::Stack(stack)) => Ok(Some(stack)),
            Some(Turn::Logger(number, start)) => {
                lines.print(Answer::LoggerReady)?;
                let logger = Logger::new(self.alarm, number, start);
                session::answer_lines(logger, self.tag, lines)
            }
        }
    }

    // A refused stack leaves the one that stands.
    fn answer(&mut self, command: Command) -> Result<ControlFlow<Turn, Answer>, Failure> {
        Ok(match command {
            Command::Ask(call) => ControlFlow::Continue(self.ask(call)?),
            Command::Logger { number, start } => {
                ControlFlow::Break(Turn::Logger(number, Moment::new(start)?))
            }
            Command::Build(plan) => ControlFlow::Break(Turn::Stack(Stack::try_from(plan)?)),
            Command::Log(_) | Command::Load => return Err(Failure::NotUnderstood),
        })
    }

    fn ask(&mut self, call: Call<u64>) -> Result<Answer, Fault> {
        let tag = self.tag;
        let call = call.try_map(|number| sample(number, tag))?;
        call::ask(&mut self.alarm, call)
    }
}
