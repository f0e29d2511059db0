// The worked numbers through the code.
use super::*;
use clock::alarm::Clock;
use clock::appointment::Appointment;
use clock::lead::lead;
use down::{Count, DownCounter};
use fault::Cause;
use jobs::{Action, Firing, Job, Kind};
use listing::listing;
use logger::logger::Logger;
use offset::{Offset, Shift};
use slots::moment::Moment;
use std::test::Fail;
use widening::{Bits, Widening};

#[test]
fn counters(rt: HostRuntime) -> Result<(), Fail> {
    let mut up = UpCounter::new(8, Word(250), 0)?;
    assert_eq!(rt;
        up.take(Word(256)),
        Err(Fault::in_device(Cause::StraySample, 0))
    );
    assert_eq!(rt; up.take(Word(4)), Ok(10));
    let mut wide = Widening::new(UpCounter::new(8, Word(250), 0)?, Bits::new(8)?);
    assert_eq!(rt; wide.reading(), 250);
    assert_eq!(rt; wide.take(Word(4)), Ok(10));
    assert_eq!(rt; wide.reading(), 260);
    let mut down = DownCounter::new(99, Count(30), 0)?;
    assert_eq!(rt;
        down.take(Count(100)),
        Err(Fault::in_device(Cause::StraySample, 0))
    );
    assert_eq!(rt; down.take(Count(99)), Ok(31));
    Ok(())
}

#[test]
fn alarms(rt: HostRuntime) -> Result<(), Fail> {
    let mut alarm = UpCounter::new(8, Word(10), 0)?;
    alarm.set(250, 20)?;
    assert_eq!(rt; alarm.hold(), 4);
    assert!(rt; alarm.stop());
    alarm.set(250, 16)?;
    assert_eq!(rt; alarm.claim(), Some(10));
    Ok(())
}

#[test]
fn rates(rt: HostRuntime) -> Result<(), Fail> {
    let mut slow = Rate::new(UpCounter::new(8, Word(0), 0)?, Ratio::new(125, 4096)?);
    slow.set(0, 1)?;
    assert_eq!(rt; slow.hold(), 33);
    assert!(rt; slow.stop());
    slow.set(0, 10)?;
    assert_eq!(rt; slow.hold(), 255);
    assert_eq!(rt; slow.take(Word(32)), Ok(0));
    assert_eq!(rt; slow.take(Word(33)), Ok(1));
    assert_eq!(rt; two_rates(), Ok(0));
    Ok(())
}

#[test]
fn leads(rt: HostRuntime) {
    assert_eq!(rt; lead(8, 5, 250), Ok(11));
    assert_eq!(rt; lead(8, 250, 5), Ok(-11));
    assert_eq!(rt; lead(8, 130, 2), Err(Fault::in_lead(Cause::HalfTurn)));
}

#[test]
fn three_layers_across_wraps(rt: HostRuntime) -> Result<(), Fail> {
    // 1900 true ticks in steps of 100, more than seven turns of the counter
    let wide = Widening::new(UpCounter::new(8, Word(0), 0)?, Bits::new(8)?);
    let mut up = Offset::new(Rate::new(wide, Ratio::new(1, 2)?), Shift::new(1000)?);
    for step in 1..20u32 {
        assert_eq!(rt; up.take(Word(step * 100 % 256)), Ok(50));
    }
    assert_eq!(rt; up.reading(), 1950);
    // 133 true ticks in steps of 7, more than thirteen rounds of ten
    let wide = Widening::new(DownCounter::new(9, Count(9), 0)?, Bits::new(8)?);
    let mut down = Offset::new(Rate::new(wide, Ratio::new(2, 3)?), Shift::new(5)?);
    for step in 1..20u32 {
        let _ = down.take(Count((209 - 7 * step) % 10))?;
    }
    assert_eq!(rt; down.reading(), 93);
    Ok(())
}

fn marks(kind: Kind) -> Job {
    Job {
        kind,
        action: Action::Mark,
    }
}

// Beside the one of the logger's tests, since a test module lends nothing.
fn marked(slot: usize, due: u64) -> Option<Firing> {
    Some(Firing {
        slot,
        due,
        at: 1025,
        action: Action::Mark,
    })
}

#[test]
fn firings(rt: HostRuntime) -> Result<(), Fail> {
    // at half the rate 50 true ticks, past a wrap of the counter, bring 25
    let wide = Widening::new(UpCounter::new(8, Word(250), 0)?, Bits::new(8)?);
    let stack = Rate::new(wide, Ratio::new(1, 2)?);
    let mut logger = Logger::new(stack, 0, Moment::new(1000)?);
    logger.set_up(2, 1000, 10, marks(Kind::Every { period: 10 }))?;
    logger.set_up(1, 1000, 20, marks(Kind::Once))?;
    assert_eq!(rt; logger.serve(Word(44)), Ok(1025));
    assert_eq!(rt; logger.next(), marked(2, 1010));
    assert_eq!(rt; logger.next(), marked(1, 1020));
    assert_eq!(rt; logger.next(), marked(2, 1020));
    assert_eq!(rt; logger.next(), None);
    Ok(())
}

#[test]
fn listings(rt: HostRuntime) {
    let mut buffer = [0u8; 32];
    let script = b"2 burst 3 10 0 read 1\n1 once 10 mark\n";
    assert_eq!(rt; listing(script, &mut buffer), Ok(19));
    assert_eq!(rt; buffer[0], b'0');
    assert_eq!(rt; buffer[18], b'\n');
    assert_eq!(rt; buffer[19], 0);
}
