// Replays a log of calls: reads one call to a line, and prints one line with what was answered.
#![tactic(auto)]

mod call;
mod command;
mod failure;
mod layered;
mod lines;
mod plan;
mod sample;
mod session;
mod stack;
mod tickets;

use answers::Answer;
use command::Command;
use lines::Lines;
use stack::Stack;
use std::io;
use std::ops::ControlFlow;

fn main(rt: HostRuntime) -> io::Result<()> {
    let mut lines = Lines::new(rt);
    let mut stack = first_stack(&mut lines)?;
    // A count, since nothing measures how much input is left.
    for _ in 0..u64::MAX {
        let Some(standing) = stack else {
            return Ok(());
        };
        lines.print(Answer::Ready)?;
        stack = standing.answer_lines(&mut lines)?;
    }
    Ok(())
}

// Answers lines until a stack is accepted, or the input ends.
fn first_stack(lines: &mut Lines) -> io::Result<Option<Stack>> {
    lines.answer_each(|_, command| {
        Ok(match command {
            Command::Build(plan) => ControlFlow::Break(Stack::try_from(plan)?),
            _ => ControlFlow::Continue(Answer::NoClock),
        })
    })
}
