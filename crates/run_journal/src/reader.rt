//! Reading a journal, one line at a time.
use crate::reading::{after, read_event};
use crate::{Event, HEADER};
use std::marker::Model;
use thiserror::Error;

/// A line of a journal that isn't one.
#[derive(Clone, Copy, Debug, PartialEq, Eq, Error)]
#[error("line {line}")]
pub struct BadLine {
    /// Its number. Lines are counted from 1, and the header is the first.
    pub line: u64,
}

/// Reads a journal that is lent, one line at a time. Nothing is copied but the bytes of a fetch.
#[derive(Drop)]
pub struct Reader<'a> {
    rest: &'a [u8],
    taken: u64,
}

impl<'a> Model for Reader<'a> {
    ghost use Rattle.std.specs.Prelude.{◌<◌, ◌+◌, ◌-◌, ◌^◌, length};
    ghost use Rattle.run_journal.specs.ReaderState.{ReaderState};

    ghost Value = { ReaderState };

    ghost view = { λ r. record { rest = r.rest.now; taken = r.taken } };

    ghost invariant = { λ r. r.taken + length r.rest.now < 2 ^ 64 - 1 };
}

impl<'a> Reader<'a> {
    ghost use Rattle.std.specs.Prelude.{◌≡◌, ◌==◌, if◌then◌else◌, ◌+◌, ◌<◌, ◌^◌, length, None, Ok, IfOk, IfErr, IfSome, OnErr};
    ghost use Rattle.run_journal.specs.Reading.{at_start, HasLines, ReadsEvent, ReadsEnd, IsBad, IsPast};

    /// A reader at the beginning of a journal's text.
    pub fn new(text: &'a [u8]) -> Reader<'a>
        ensures { result ≡ at_start text.now }
    {
        Reader {
            rest: text,
            taken: 0,
        }
    }

    /// How many lines were taken, the header among them. There is a number for one line more.
    pub fn line(&self) -> u64
        ensures taken { result ≡ self.now.taken }
        ensures room { result + 1 < 2 ^ 64 }
    {
        self.taken
    }

    /// The lines of events that are still to be read, and how many lines are before them. It is an error where the
    /// header is still to be read and isn't there.
    fn past_header(&self) -> Result<(&'a [u8], u64), BadLine>
        ensures past { IfOk result (λ found. IsPast self.now found.0.now found.1) }
        ensures bad { IfErr result (IsBad self.now) }
    {
        if self.taken > 0 {
            return Ok((self.rest, self.taken));
        }
        match after(HEADER, self.rest) {
            Some(lines) => Ok((lines, 1)),
            None => Err(BadLine { line: 1 }),
        }
    }

    /// The event of the next line, or `None` at the end, after a whole line; the first call reads the
    /// header, too. No more of the text is looked at than the longest line has bytes.
    ///
    /// # Errors
    /// The next line isn't that of an event, or isn't ended by a line feed; or the header isn't there.
    /// Then the reader is as before, so the same is answered again.
    pub fn next(&mut self) -> Result<Option<Event>, BadLine>
        ensures event { IfOk result (λ found. IfSome found (ReadsEvent self.old self.new)) }
        ensures end { result ≡ Ok None → ReadsEnd self.old self.new }
        ensures bad { IfErr result (IsBad self.old) }
        ensures kept { OnErr result (self.new ≡ self.old) }
        ensures shorter { IfOk result (λ found. IfSome found (λ _. length self.new.rest < length self.old.rest)) }
    {
        let (lines, taken) = self.past_header()?;
        if lines.is_empty() {
            self.rest = lines;
            self.taken = taken;
            return Ok(None);
        }
        match read_event(lines) {
            Some((event, rest)) => {
                self.rest = rest;
                self.taken = taken + 1;
                Ok(Some(event))
            }
            None => Err(BadLine { line: taken + 1 }),
        }
    }
}
