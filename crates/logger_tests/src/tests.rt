// The worked run, and tickets in use.
use fault::Fault;
use jobs::{Action, Firing, Job, Kind, Outcome};
use logger::logger::Logger;
use slots::moment::Moment;
use std::test::Fail;
use up::{UpCounter, Word};

fn made() -> Result<Logger<UpCounter>, Fault> {
    let counter = UpCounter::new(16, Word(0), 1)?;
    let start = Moment::new(1000)?;
    Ok(Logger::new(counter, 7, start))
}

fn marked(slot: usize, due: u64) -> Option<Firing> {
    Some(Firing {
        slot,
        due,
        at: 1025,
        action: Action::Mark,
    })
}

fn settled(due: u64, fired: bool) -> Outcome {
    Outcome { due, fired }
}

#[test]
fn a_tie_and_a_late_serve(rt: HostRuntime) -> Result<(), Fail> {
    let mut logger = made()?;
    let every = Job {
        kind: Kind::Every { period: 10 },
        action: Action::Mark,
    };
    let once = Job {
        kind: Kind::Once,
        action: Action::Mark,
    };
    assert_eq!(rt; logger.set_up(2, 1000, 10, every)?, 1010);
    assert_eq!(rt; logger.set_up(1, 1000, 20, once)?, 1020);
    assert_eq!(rt; logger.hold(), 10);
    assert_eq!(rt; logger.serve(Word(25))?, 1025);
    assert_eq!(rt; logger.hold(), 0);
    assert_eq!(rt; logger.next(), marked(2, 1010));
    assert_eq!(rt; logger.next(), marked(1, 1020));
    assert_eq!(rt; logger.next(), marked(2, 1020));
    assert_eq!(rt; logger.next(), None);
    assert_eq!(rt; logger.call_off(2)?, 1030);
    Ok(())
}

#[test]
fn one_errand_after_another(rt: HostRuntime) -> Result<(), Fail> {
    let mut logger = made()?;
    let ticket = logger.errand(3, 1000, 10, Action::Mark)?;
    let early = logger.settle(ticket)?;
    let ticket = logger.errand(3, 1000, 20, Action::Mark)?;
    let served = logger.serve(Word(20));
    let firing = logger.next();
    let late = logger.settle(ticket)?;
    assert_eq!(rt; served?, 1020);
    assert!(rt; firing.is_some());
    assert_eq!(rt; early, settled(1010, false));
    assert_eq!(rt; late, settled(1020, true));
    Ok(())
}
