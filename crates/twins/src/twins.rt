// The two builds, and the table of what they report of the job.
use crate::build::{Build, SHARED_SLOT};
use crate::halt::Halt;
use crate::report::Report;
use crate::samples::{AFTER, BEFORE, DURING, STRAY, Samples};
use answers::{Answer, LoggerAnswer, YesNo};
use clock::alarm::Alarm;
use down::Count;
use jobs::{Action, Firing, Job, Kind};
use logger::logger::Logger;
use promise::start_alike;
use slots::moment::Moment;
use std::alloc::Global;
use std::{fmt, io, iter};
use up::Word;

pub const START: u64 = 1000;

// A job, its slot, and the delay after which it is first due.
#[derive(Clone, Copy)]
struct Plan {
    slot: usize,
    delay: u64,
    job: Job,
}

// The job that both run.
const SHARED: Plan = Plan {
    slot: SHARED_SLOT,
    delay: 25,
    job: Job {
        kind: Kind::Every { period: 25 },
        action: Action::Read { channel: 2 },
    },
};

// The other job of the first build.
const MARKS: Plan = Plan {
    slot: 0,
    delay: 10,
    job: Job {
        kind: Kind::Burst {
            count: 4,
            period: 40,
        },
        action: Action::Mark,
    },
};

// The other jobs of the second build.
const READS: Plan = Plan {
    slot: 2,
    delay: 60,
    job: Job {
        kind: Kind::Every { period: 60 },
        action: Action::Read { channel: 9 },
    },
};

const MARK: Plan = Plan {
    slot: 31,
    delay: 100,
    job: Job {
        kind: Kind::Once,
        action: Action::Mark,
    },
};

#[derive(Drop)]
pub struct Twins<U: Alarm, D: Alarm> {
    up: Build<U>,
    down: Build<D>,
    // how many reports of the job are in the table
    shown: usize,
    // whether both have read the same moments so far; a flag, since a row of moments would grow with each
    together: bool,
}

impl<U: Alarm<Sample = Word>, D: Alarm<Sample = Count>> Twins<U, D> {
    pub fn new(heap: Global, start: Moment, up: U, down: D) -> Twins<U, D> {
        Twins {
            up: Build::new(heap, Logger::new(up, 1, start)),
            down: Build::new(heap, Logger::new(down, 2, start)),
            shown: 0,
            together: true,
        }
    }

    pub fn run(&mut self, rt: &HostRuntime) -> Result<(), Halt> {
        self.begin(rt)?;
        self.rows(rt, &BEFORE)?;
        self.stray(rt)?;
        self.rows_with_errand(rt, &DURING)?;
        self.call_off(rt)?;
        self.rows(rt, &AFTER)?;
        self.finish(rt)
    }

    // Sets the shared job up in both, between other jobs of each.
    pub fn begin(&mut self, rt: &HostRuntime) -> Result<(), Halt> {
        self.show_start(rt)?;
        for Plan { slot, delay, job } in [MARKS, SHARED] {
            self.up.set_up(slot, delay, job)?;
        }
        for Plan { slot, delay, job } in [SHARED, READS, MARK] {
            self.down.set_up(slot, delay, job)?;
        }
        self.down.hold()?;
        println!(rt; "moment | up | down")?;
        Ok(())
    }

    fn show_start(&self, rt: &HostRuntime) -> io::Result<()> {
        let alike = YesNo(start_alike(self.up.logger(), self.down.logger()));
        println!(rt; "start {START}, alike {alike}")
    }

    pub fn rows(&mut self, rt: &HostRuntime, rows: &[Samples]) -> Result<(), Halt> {
        for samples in rows {
            let moment = self.serve(*samples)?;
            self.show(rt, moment)?;
        }
        Ok(())
    }

    fn serve(&mut self, samples: Samples) -> Result<u64, Halt> {
        self.up.hold()?;
        let moment = self.up.serve(samples.up)?;
        self.together &= self.down.serve(samples.down)? == moment;
        Ok(moment)
    }

    // A line for each new report of the job, or one where there is none.
    fn show(&mut self, rt: &HostRuntime, moment: u64) -> io::Result<()> {
        let ups = later(self.up.reports(), self.shown);
        let downs = later(self.down.reports(), self.shown);
        let new = ups.len().max(downs.len());
        let up = ups.iter().copied().map(Some).chain(iter::repeat(None));
        let down = downs.iter().copied().map(Some).chain(iter::repeat(None));
        for (up, down) in up.zip(down).take(new.max(1)) {
            show_row(rt, moment, Report(up), Report(down))?;
        }
        self.shown = self.shown.saturating_add(new);
        Ok(())
    }

    // The second build is shown a sample that its counter never shows.
    fn stray(&mut self, rt: &HostRuntime) -> Result<(), Halt> {
        let answer: Answer = match self.down.serve(STRAY) {
            Ok(moment) => LoggerAnswer::Served(moment).into(),
            Err(Halt::Call(fault)) => fault.into(),
            Err(halt) => return Err(halt),
        };
        println!(rt; "down: {answer}")?;
        Ok(())
    }

    // Rows with an errand in the first build.
    pub fn rows_with_errand(&mut self, rt: &HostRuntime, rows: &[Samples]) -> Result<(), Halt> {
        let ticket = self.up.errand(7, 8, Action::Read { channel: 5 })?;
        let shown = self.rows(rt, rows);
        // before anything can fail, since a ticket cannot be let go
        let outcome = self.up.settle(ticket)?;
        shown?;
        let answer = LoggerAnswer::Settled(outcome);
        println!(rt; "up: {answer}")?;
        Ok(())
    }

    // The second build calls a job of its own off.
    fn call_off(&mut self, rt: &HostRuntime) -> Result<(), Halt> {
        let answer = LoggerAnswer::CalledOff(self.down.call_off(READS.slot)?);
        println!(rt; "down: {answer}")?;
        Ok(())
    }

    // Ends the job in both, and says whether it fired alike.
    pub fn finish(&mut self, rt: &HostRuntime) -> Result<(), Halt> {
        let up = self.up.call_off(SHARED_SLOT)?;
        let down = self.down.call_off(SHARED_SLOT)?;
        show_row(rt, "called off", up, down)?;
        self.show_totals(rt)?;
        Ok(())
    }

    fn show_totals(&self, rt: &HostRuntime) -> io::Result<()> {
        show_row(rt, "other firings", self.up.others(), self.down.others())?;
        show_row(rt, "longest hold", self.up.longest(), self.down.longest())?;
        let agreed = YesNo(self.together && self.up.reports() == self.down.reports());
        println!(rt; "firings agreed: {agreed}")
    }
}

// The reports after those that are in the table.
fn later(reports: &[Firing], shown: usize) -> &[Firing] {
    reports.get(shown..).unwrap_or(&[])
}

fn show_row<H: fmt::Display + Copy, C: fmt::Display + Copy>(
    rt: &HostRuntime,
    head: H,
    up: C,
    down: C,
) -> io::Result<()> {
    println!(rt; "{head} | {up} | {down}")
}
