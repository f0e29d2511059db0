// The words of one line of a script, judged from the left.
ghost use Rattle.std.specs.Prelude.{◌≡◌, ◌+◌, ◌^◌, ◌<◌, ◌≤◌, length, IfOk};
ghost use Rattle.line.specs.Line.{and_rest, whole_line, next, number, delay, period, once, every, burst, timing, reads, action, ending, line_of};

use crate::line::Line;
use crate::word::Word;
use fault::{Cause, Fault};
use jobs::{Action, Job, Kind, MOST_CHANNEL, MOST_FIRINGS, MOST_TICKS};
use std::marker::Model;
use words::Words;

// The words that are still to be judged.
#[derive(Drop)]
pub(crate) struct Cursor<'a> {
    words: Words<'a>,
    // the number of the line, from 1; no pair with a byte, since faults stand at two bytes of the line
    line: usize,
    // where the next word begins, and where the line ends
    byte: usize,
    end: usize,
}

impl<'a> Model for Cursor<'a> {
    ghost use Rattle.std.specs.Prelude.{◌≡◌, ◌+◌, ◌^◌, ◌<◌};
    ghost use Rattle.words.specs.Words.{words_left};
    ghost use Rattle.line.specs.Line.{Rest, extent};

    ghost Value = { Rest };

    ghost view = { λ c. record { line = c.line; byte = c.byte; end = c.end; words = words_left c.words } };

    ghost invariant = { λ c. (c.byte + extent (words_left c.words) ≡ c.end + 1) × (c.end < 2 ^ 63) };
}

impl<'a> Cursor<'a> {
    // Line `line`, which begins at byte `start` of the script.
    pub(crate) fn of(text: &'a [u8], line: usize, start: usize) -> Cursor<'a>
        requires { start + length text.now < 2 ^ 63 }
        ensures { result ≡ whole_line line start text.now }
    {
        Cursor {
            words: Words::of(text),
            line,
            byte: start,
            end: start + text.len(),
        }
    }

    // The next word; where it is missing, the line's end is at fault.
    fn word(&mut self) -> Result<Word<'a>, Fault>
        ensures { and_rest result self.new ≡ next self.old }
    {
        let Some(text) = self.words.next() else {
            return Err(Fault::in_script(Cause::Grammar, self.line, self.end));
        };
        let byte = self.byte;
        self.byte += text.len() + 1;
        Ok(Word {
            line: self.line,
            byte,
            text,
        })
    }

    // Two limits and no range: of a `RangeInclusive` each clause would have to say that it has not run out.
    fn number(&mut self, least: u64, most: u64) -> Result<u64, Fault>
        ensures read { and_rest result self.new ≡ number least most self.old }
        ensures within { IfOk result (λ n. (least ≤ n) × (n ≤ most)) }
    {
        self.word()?.limited(least, most)
    }

    fn delay(&mut self) -> Result<u64, Fault>
        ensures { and_rest result self.new ≡ delay self.old }
    {
        self.number(0, MOST_TICKS)
    }

    fn period(&mut self) -> Result<u64, Fault>
        ensures { and_rest result self.new ≡ period self.old }
    {
        self.number(1, MOST_TICKS)
    }

    fn once(&mut self) -> Result<(Kind, u64), Fault>
        ensures { and_rest result self.new ≡ once self.old }
    {
        let delay = self.delay()?;
        Ok((Kind::Once, delay))
    }

    fn every(&mut self) -> Result<(Kind, u64), Fault>
        ensures { and_rest result self.new ≡ every self.old }
    {
        let period = self.period()?;
        let delay = self.delay()?;
        Ok((Kind::Every { period }, delay))
    }

    fn burst(&mut self) -> Result<(Kind, u64), Fault>
        ensures { and_rest result self.new ≡ burst self.old }
    {
        let firings = self.number(1, u64::from(MOST_FIRINGS))?;
        let period = self.period()?;
        let delay = self.delay()?;
        // `as`, since the limits show that it fits; `try_from` would have a refusal that never comes.
        let count = firings as u32;
        Ok((Kind::Burst { count, period }, delay))
    }

    // The kind of a job, and its delay.
    fn timing(&mut self) -> Result<(Kind, u64), Fault>
        ensures { and_rest result self.new ≡ timing self.old }
    {
        let word = self.word()?;
        match word.text {
            b"once" => self.once(),
            b"every" => self.every(),
            b"burst" => self.burst(),
            _ => Err(word.fault(Cause::Grammar)),
        }
    }

    fn read(&mut self) -> Result<Action, Fault>
        ensures { and_rest result self.new ≡ reads self.old }
    {
        let channel = self.number(0, u64::from(MOST_CHANNEL))?;
        // it fits likewise
        let channel = channel as u8;
        Ok(Action::Read { channel })
    }

    fn action(&mut self) -> Result<Action, Fault>
        ensures { and_rest result self.new ≡ action self.old }
    {
        let word = self.word()?;
        match word.text {
            b"read" => self.read(),
            b"mark" => Ok(Action::Mark),
            _ => Err(word.fault(Cause::Grammar)),
        }
    }

    // No word may follow.
    fn ending(mut self) -> Result<(), Fault>
        ensures { result ≡ ending self.entry }
    {
        match self.words.next() {
            None => Ok(()),
            Some(_) => Err(Fault::in_script(Cause::Grammar, self.line, self.byte)),
        }
    }

    // The whole line, for one of the slots that are free.
    pub(crate) fn line(mut self, free: &[bool; 32]) -> Result<Line, Fault>
        ensures { result ≡ line_of free.now self.entry }
    {
        let slot = self.word()?.slot(free)?;
        let (kind, delay) = self.timing()?;
        let action = self.action()?;
        self.ending()?;
        Ok(Line {
            slot,
            delay,
            job: Job { kind, action },
        })
    }
}
