// A reader: a log and the place reached in it.
ghost use Rattle.std.specs.Prelude.{◌≡◌, ◌-◌, length};
ghost use Rattle.std.specs.Iterator.{at_most};
ghost use Rattle.calllog.specs.CallLog.{read_at, place_after};
ghost use Rattle.calllog.specs.Reader.{Reads};

use crate::call::LogResult;
use crate::decode::{decode, place_after};

// "A reader holds the lent log bytes and the place reached"
#[derive(Clone, Copy, Debug, PartialEq, Eq)]
pub struct LogReader<'a> {
    pub log: &'a [u8],
    pub at: usize,
}

// What stands at a place of a log, a record or a short last part, and what it says.
#[derive(Clone, Copy, Debug, PartialEq, Eq)]
pub struct LogRecord<'a> {
    pub bytes: &'a [u8],
    pub result: LogResult,
}

impl<'a> LogReader<'a> {
    // The reader of a log that has reached a place.
    pub fn at(log: &'a [u8], at: usize) -> LogReader<'a>
        ensures { result ≡ record { log = log.entry; at = at } }
    {
        LogReader { log, at }
    }

    // What the reader yields: "at or past the end it yields the end", else what stands at its place says.
    pub fn current(self) -> LogResult
        ensures { result ≡ read_at self.entry.log.now self.entry.at }
    {
        decode(self.log, self.at)
    }

    // The reader moved on "by 136 bytes, or to the end after a short part".
    pub fn advanced(self) -> LogReader<'a>
        ensures { result ≡ record { log = self.entry.log; at = place_after self.entry.log.now self.entry.at } }
    {
        LogReader {
            log: self.log,
            at: place_after(self.log, self.at),
        }
    }
}

// The records from the place reached to the end, a short last part among them.
impl<'a> Iterator for LogReader<'a> {
    type Item = LogRecord<'a>;

    ghost next_gives = { Reads };

    ghost remaining = { λ s. at_most (length s.log.now - s.at) };

    #[tactic(auto, using(crate::proofs::Laws::what_is_found))]
    fn next(&mut self) -> Option<LogRecord<'a>> {
        let result = self.current();
        if result == LogResult::End {
            return None;
        }
        let after = self.advanced();
        let bytes = &self.log[self.at..after.at];
        *self = after;
        Some(LogRecord { bytes, result })
    }
}
