// Why a line is not answered by what was asked.
ghost use Rattle.std.specs.Prelude.{◌≡◌};
ghost use Rattle.replay.specs.Answers.{Fails};
ghost use Rattle.replay.specs.declared.failure.Failure.TheVariants as fails;

use answers::Answer;
use fault::Fault;
use std::io;

#[derive(Drop)]
pub enum Failure {
    NotUnderstood,
    Refused(Fault),
    // the program cannot go on
    Io(io::Error),
}

impl Failure {
    // What the line of this number is answered all the same.
    pub fn answer(self, line: u64) -> io::Result<Answer>
        ensures { Fails self line result }
    {
        match self {
            Failure::NotUnderstood => Ok(Answer::NotUnderstood(line)),
            Failure::Refused(fault) => Ok(fault.into()),
            Failure::Io(error) => Err(error),
        }
    }
}

// By hand, since the clause `from_gives` says which value comes out; a derived one says nothing of it.
impl From<Fault> for Failure {
    ghost from_gives = { λ f r. r ≡ fails.Refused f };

    fn from(fault: Fault) -> Failure {
        Failure::Refused(fault)
    }
}

impl From<io::Error> for Failure {
    ghost from_gives = { λ e r. r ≡ fails.Io e };

    fn from(error: io::Error) -> Failure {
        Failure::Io(error)
    }
}
