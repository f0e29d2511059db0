// A cell of the table: what a build reported of the job.
use jobs::Firing;
use std::fmt;

#[derive(Clone, Copy)]
pub struct Report(pub Option<Firing>);

// The due moment and what is to be done then.
impl fmt::Display for Report {
    fn fmt<W: fmt::Write>(&self, f: &mut fmt::Formatter<W>) -> fmt::Result {
        match self.0 {
            None => write!(f, "none"),
            Some(Firing { due, action, .. }) => write!(f, "{due} {action}"),
        }
    }
}
