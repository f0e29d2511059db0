// A logger, and the tickets that the program holds for it.
use crate::call::Call;
use crate::command::{Command, LogCall, Wanted};
use crate::failure::Failure;
use crate::lines::Lines;
use crate::sample::sample;
use crate::stack::Stack;
use crate::tickets::Tickets;
use answers::{Answer, LoggerAnswer};
use clock::alarm::Alarm;
use logger::logger::Logger;
use std::alloc::Global;
use std::io;
use std::num::TryFromIntError;
use std::ops::ControlFlow;

// The logger is lent, since it is large to move.
pub struct Session<'a, A: Alarm> {
    logger: &'a mut Logger<A>,
    tickets: Tickets,
    // of the logger's device
    tag: u8,
}

// Answers lines by a logger until a stack is accepted, or the input ends.
pub(crate) fn answer_lines<A: Alarm + Drop>(
    mut logger: Logger<A>,
    tag: u8,
    lines: &mut Lines,
) -> io::Result<Option<Stack>>
where
    A::Sample: TryFrom<u64, Error = TryFromIntError>,
{
    Session::new(&mut logger, tag, lines.heap()).answer_lines(lines)
}

impl<'a, A: Alarm> Session<'a, A>
where
    A::Sample: TryFrom<u64, Error = TryFromIntError>,
{
    pub(crate) fn new(logger: &'a mut Logger<A>, tag: u8, heap: Global) -> Session<'a, A> {
        let tickets = Tickets::new(heap);
        Session {
            logger,
            tickets,
            tag,
        }
    }

    // Answers lines until a stack is accepted, or the input ends; the tickets held then are settled first.
    pub(crate) fn answer_lines(mut self, lines: &mut Lines) -> io::Result<Option<Stack>> {
        let ended = lines.answer_each(|lines, command| self.answer(lines, command));
        let Session {
            logger,
            tickets,
            tag: _,
        } = self;
        tickets.settle_all(logger, lines)?;
        ended
    }

    fn answer(
        &mut self,
        lines: &mut Lines,
        command: Command,
    ) -> Result<ControlFlow<Stack, Answer>, Failure> {
        Ok(match command {
            Command::Log(call) => ControlFlow::Continue(self.ask(call)?.into()),
            Command::Ask(Call::Hold) => ControlFlow::Continue(Answer::Hold(self.logger.hold())),
            Command::Load => ControlFlow::Continue(self.load(lines)?.into()),
            Command::Build(plan) => ControlFlow::Break(Stack::try_from(plan)?),
            Command::Ask(_) | Command::Logger { .. } => return Err(Failure::NotUnderstood),
        })
    }

    fn ask(&mut self, call: LogCall) -> Result<LoggerAnswer, Failure> {
        Ok(match call {
            LogCall::Serve(number) => {
                LoggerAnswer::Served(self.logger.serve(sample(number, self.tag)?)?)
            }
            LogCall::SetUp { wanted, job } => {
                let Wanted {
                    slot,
                    reference,
                    delay,
                } = wanted;
                self.logger.set_up(slot, reference, delay, job)?;
                LoggerAnswer::SetUp
            }
            LogCall::Errand { wanted, action } => {
                let Wanted {
                    slot,
                    reference,
                    delay,
                } = wanted;
                let ticket = self.logger.errand(slot, reference, delay, action)?;
                self.tickets.keep(self.logger, ticket)?;
                LoggerAnswer::Ticket(slot)
            }
            LogCall::Settle { slot } => self.tickets.settle(self.logger, slot)?,
            LogCall::CallOff { slot } => LoggerAnswer::CalledOff(self.logger.call_off(slot)?),
            LogCall::Next => LoggerAnswer::Next(self.logger.next()),
        })
    }

    // Loads the script that follows, all of it or nothing.
    fn load(&mut self, lines: &mut Lines) -> Result<LoggerAnswer, Failure> {
        let script = lines.script()?.ok_or(Failure::NotUnderstood)?;
        script::load(self.logger, script.as_slice())?;
        Ok(LoggerAnswer::Loaded)
    }
}
