ghost use Rattle.std.specs.Prelude.{◌≡◌, ◌++◌, ◌∷◌, [], ◌+◌, ◌-◌, ◌^◌, ◌<◌, None, IfErr, IfOk};
ghost use Rattle.std.specs.Prelude.{OnOk};
ghost use Rattle.std.specs.Option.{option_to_list};
ghost use Rattle.lq_records.specs.Clean.{text_of_bytes};
ghost use Rattle.lq_log.specs.Book.{last_time};
ghost use Rattle.lq_log.specs.Entries.{entry_of};
ghost use Rattle.lq_log.specs.Log.{ReadsLog, TellsLogFault, line_fault, log_of, skipped_in};
ghost use Rattle.lq_log.specs.Log.{time_of};

use crate::book::LogBook;
use crate::read::entry_of;
use crate::texts::Texts;
use lq_records::{Memory, clean_text};
use lq_text::next_line;
use std::alloc::{AllocError, Global};
use thiserror::Error;

/// The most lines of a log, empty ones and those without a second included. With one more the log
/// is refused.
const MOST_LINES: u64 = 200_000;

/// The most bytes of a line, without its line feed and a carriage return before that. With one more
/// the log is refused.
const LONGEST_LINE: usize = 8192;

/// The bytes of a line that is shorter than most.
const SHORT_LINE: usize = 64;

/// Why the bytes of a log give no book.
#[derive(Debug, Drop, Error)]
pub enum LogErr {
    /// The log has more than 200,000 lines: the number of the first that is too many, from 1.
    #[error("line {line}: too many lines")]
    TooManyLines { line: u64 },
    /// A line has more than 8,192 bytes: its number, from 1.
    #[error("line {line}: line too long")]
    LineTooLong { line: u64 },
    /// Out of memory.
    #[error(transparent)]
    Memory(#[from(alloc)] AllocError),
}

impl LogBook {
    /// The book of a log, as Nagios Core writes it: an entry for each line that begins with a
    /// second in brackets, no earlier than the one before. A carriage return before a line feed
    /// isn't part of its line. Bytes that aren't UTF-8 become U+FFFD.
    ///
    /// `TooManyLines` and `LineTooLong` come exactly where a line passes a limit, with the first
    /// one that does; where it passes both, it is one too many. Any other error is out of memory.
    pub fn read(alloc: Global, b: &[u8]) -> Result<Self, LogErr>
        ensures { ReadsLog result (log_of b.now) }
    {
        let mut book = match LogBook::with_room(alloc, b.len()) {
            Ok(book) => book,
            Err(error) => return Err(LogErr::Memory(error)),
        };
        let mut texts = match Texts::new(alloc) {
            Ok(texts) => texts,
            Err(error) => return Err(LogErr::Memory(error)),
        };
        let mut number = 0;
        let mut at = 0;
        'lines: while let Some((end, next)) = next_line(b, at) {
            number += 1;
            book.add_line(&mut texts, number, &b[at..end])?;
            at = next;
        }
        Ok(book)
    }

    /// An empty book with room for the entries of a log of so many bytes, as far as these can be
    /// foreseen. A book that grows is copied; room that isn't used is never written to.
    fn with_room(alloc: Global, bytes: usize) -> Result<Self, Memory>
        ensures entries { IfOk result (λ book. book.entries ≡ []) }
        ensures skipped { IfOk result (λ book. book.skipped ≡ 0) }
    {
        let mut book = LogBook::empty(alloc);
        book.reserve((bytes / SHORT_LINE).min(MOST_LINES as usize))?;
        Ok(book)
    }

    /// Adds what a line says, by its number from 1.
    fn add_line(&mut self, texts: &mut Texts, number: u64, line: &[u8]) -> Result<(), LogErr>
        requires { self.old.skipped < number }
        ensures fits { OnOk result (line_fault number line.now ≡ None) }
        ensures fault { IfErr result (λ error. TellsLogFault error (line_fault number line.now)) }
        ensures entries { OnOk result (self.new.entries ≡ self.old.entries
            ++ option_to_list (entry_of (text_of_bytes line.now) (last_time self.old.entries))) }
        ensures last { OnOk result (last_time self.new.entries
            ≡ time_of (entry_of (text_of_bytes line.now) (last_time self.old.entries))
            (last_time self.old.entries)) }
        ensures skipped { OnOk result
            (self.new.skipped ≡ self.old.skipped + skipped_in (line.now ∷ [])) }
    {
        if number > MOST_LINES {
            return Err(LogErr::TooManyLines { line: number });
        }
        if line.len() > LONGEST_LINE {
            return Err(LogErr::LineTooLong { line: number });
        }
        match self.add_text(texts, line) {
            Ok(()) => Ok(()),
            Err(error) => Err(LogErr::Memory(error)),
        }
    }

    /// Adds the entry of a line, or counts the line as one without an entry.
    fn add_text(&mut self, texts: &mut Texts, line: &[u8]) -> Result<(), Memory>
        requires { self.old.skipped < 2 ^ 64 - 1 }
        ensures entries { OnOk result (self.new.entries ≡ self.old.entries
            ++ option_to_list (entry_of (text_of_bytes line.now) (last_time self.old.entries))) }
        ensures last { OnOk result (last_time self.new.entries
            ≡ time_of (entry_of (text_of_bytes line.now) (last_time self.old.entries))
            (last_time self.old.entries)) }
        ensures skipped { OnOk result
            (self.new.skipped ≡ self.old.skipped + skipped_in (line.now ∷ [])) }
    {
        let text = clean_text(texts.alloc(), line)?;
        match entry_of(texts, text, self.last_time())? {
            Some(entry) => self.add(entry),
            None => {
                self.skip();
                Ok(())
            }
        }
    }
}
