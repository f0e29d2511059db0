// The log: lines in, and answers out, a line for a line.
use crate::command::Command;
use crate::failure::Failure;
use answers::Answer;
use std::alloc::Global;
use std::io;
use std::io::{BufRead, StdinLock};
use std::ops::ControlFlow;

#[derive(Drop)]
pub struct Lines {
    rt: HostRuntime,
    input: StdinLock<'static>,
    line: Vec<u8>,
    // of the line read last, from 1
    number: u64,
}

impl Lines {
    pub fn new(rt: HostRuntime) -> Lines {
        let input = rt.reader();
        let line = Vec::new(rt.alloc());
        Lines {
            rt,
            input,
            line,
            number: 0,
        }
    }

    // The next line, without the byte 10 that ends it, which the last one may lack; none at the end of the input.
    fn next_line(&mut self) -> io::Result<Option<&[u8]>> {
        self.line.clear();
        self.number = self.number.saturating_add(1);
        let read = self.input.read_until(b'\n', &mut self.line)?;
        if read == 0 {
            return Ok(None);
        }
        Ok(Some(match self.line.as_slice() {
            [text @ .., b'\n'] => text,
            text => text,
        }))
    }

    // Answers the lines, each as its command is answered, up to one that breaks off, or to the end of the input.
    pub(crate) fn answer_each<B: Drop, F>(&mut self, mut answer: F) -> io::Result<Option<B>>
    where
        F: FnMut(&mut Lines, Command) -> Result<ControlFlow<B, Answer>, Failure>,
        requires { F.IsAlwaysCallable answer }
    {
        // A count, since nothing measures how much input is left.
        for _ in 0..u64::MAX {
            let Some(line) = self.next_line()? else {
                break;
            };
            let command = Command::parse(line);
            let number = self.number;
            let answered = match command {
                Some(command) => answer(self, command),
                None => Err(Failure::NotUnderstood),
            };
            match answered {
                Ok(ControlFlow::Continue(answer)) => self.print(answer)?,
                Ok(ControlFlow::Break(end)) => return Ok(Some(end)),
                Err(failure) => self.print(failure.answer(number)?)?,
            }
        }
        Ok(None)
    }

    // Reads lines up to one that is a single `.`, and gives them as one text; none where the input ends first.
    pub fn script(&mut self) -> io::Result<Option<Vec<u8>>> {
        let mut script = Vec::new(self.rt.alloc());
        // A count, as in `answer_each`.
        for _ in 0..u64::MAX {
            match self.next_line()? {
                None => break,
                Some(b".") => return Ok(Some(script)),
                Some(_) => script.extend_from_slice(self.line.as_slice())?,
            }
        }
        Ok(None)
    }

    pub fn heap(&self) -> Global {
        self.rt.alloc()
    }

    pub fn print(&self, answer: Answer) -> io::Result<()> {
        println!(self.rt; "{answer}")
    }
}
