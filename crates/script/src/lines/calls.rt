// What a script that was read tells.
ghost use Rattle.std.specs.Prelude.{◌≡◌, ◌<◌, [], ◌∷◌, ◌++◌, length};
ghost use Rattle.script.specs.Lines.{lines_of};

use super::Script;
use jobs::{Action, Job, Kind};
use line::Line;

impl Script {
    // A script with no line.
    pub(crate) fn new() -> Script
        ensures { lines_of result ≡ [] }
    {
        // by hand, since no job is a job by default
        let blank = Line {
            slot: 0,
            delay: 0,
            job: Job {
                kind: Kind::Once,
                action: Action::Mark,
            },
        };
        Script {
            lines: [blank; 32],
            count: 0,
        }
    }

    pub fn lines(&self) -> &[Line]
        ensures { result.now ≡ lines_of self.now }
    {
        &self.lines[..self.count]
    }

    pub(crate) fn add(&mut self, line: Line)
        requires { length (lines_of self.old) < 32 }
        ensures { lines_of self.new ≡ lines_of self.old ++ line ∷ [] }
    {
        self.lines[self.count] = line;
        self.count += 1;
    }
}
