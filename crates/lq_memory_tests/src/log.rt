//! The lines of a log, and the book that keeps them.

use crate::scarce::{Call, assert_late, is_late, successes};
use lq_events::LogEntry;
use lq_log::{Form, LogBook, LogErr, TIME_LIMIT, make_line, read_line};
use lq_records::Text;
use std::alloc::{AllocError, Global};
use std::process::Abort;
use std::test::Fail;

/// A line is read, and says an output.
#[derive(Clone, Copy)]
struct Read<'a> {
    line: &'a str,
    output: &'a str,
}

impl Call for Read<'_> {
    fn make(&mut self, alloc: Global) -> Result<bool, AllocError> {
        match read_line(alloc, self.line, 0)? {
            Some(entry) => Ok(is_said(&entry, self.line, self.output)),
            None => Ok(false),
        }
    }
}

/// A line is made of a form, and says an output.
#[derive(Clone, Copy)]
struct Written<'a> {
    form: &'a Form,
    line: &'a str,
    output: &'a str,
}

impl Call for Written<'_> {
    fn make(&mut self, alloc: Global) -> Result<bool, AllocError> {
        Ok(is_said(&make_line(alloc, 5, self.form)?, self.line, self.output))
    }
}

fn is_said(entry: &LogEntry, line: &str, output: &str) -> bool {
    entry.message.as_str() == line && entry.output.as_str() == output
}

/// An alert of web1 that is down.
fn alert(alloc: Global, output: &str) -> Result<Form, AllocError> {
    let host = Text::new(alloc, "web1")?;
    let output = Text::new(alloc, output)?;
    Ok(Form::Alert {
        host,
        service: Text::empty(),
        state: 1,
        hard: true,
        attempt: 3,
        output,
    })
}

fn assert_line<R: Abort + AllocGlobal>(rt: &R, line: &str, output: &str) -> Result<(), Fail> {
    assert_late(rt, "read_line", 20, &mut Read { line, output })?;
    let form = alert(rt.alloc(), output)?;
    let mut call = Written {
        form: &form,
        line,
        output,
    };
    assert_late(rt, "make_line", 20, &mut call)
}

#[test]
fn a_line_wants_memory_for_its_texts(rt: HostRuntime) -> Result<(), Fail> {
    let output = "0123456789".repeat(rt.alloc(), 12_000)?;
    let output = output.as_str();
    let line = format!(in rt.alloc(); "[5] HOST ALERT: web1;DOWN;HARD;3;{output}")?;
    assert_line(&rt, line.as_str(), output)
}

/// A whole log is read, each of whose lines has an entry.
#[derive(Clone, Copy)]
struct Whole<'a> {
    log: &'a [u8],
    entries: usize,
}

impl Call for Whole<'_> {
    fn make(&mut self, alloc: Global) -> Result<bool, AllocError> {
        match LogBook::read(alloc, self.log) {
            Ok(book) => Ok(book.len() == self.entries),
            Err(LogErr::Memory(error)) => Err(error),
            Err(LogErr::TooManyLines { .. } | LogErr::LineTooLong { .. }) => Ok(false),
        }
    }
}

#[test]
fn a_log_wants_memory_for_its_entries(rt: HostRuntime) -> Result<(), Fail> {
    let log = "[5] HOST ALERT: web1;DOWN;HARD;3;away\n".repeat(rt.alloc(), 500)?;
    let mut call = Whole {
        log: log.as_bytes(),
        entries: 500,
    };
    assert_late(&rt, "LogBook::read", 20, &mut call)
}

/// A book, and the form of an entry that is made and added to it again and again.
#[derive(Drop)]
struct Added {
    book: LogBook,
    form: Form,
}

impl Added {
    /// A book without entries, and the line of a command.
    fn new(alloc: Global) -> Result<Box<Self>, AllocError> {
        let text = Text::new(alloc, "ENABLE_NOTIFICATIONS")?;
        let form = Form::External { text };
        let book = LogBook::empty(alloc);
        Ok(Box::new(alloc, Added { book, form })?)
    }

    fn is_long(&self, count: usize) -> bool {
        self.book.len() == count && self.book.last_time() == 5
    }
}

/// The line of the second 5 is added.
impl Call for Added {
    fn make(&mut self, alloc: Global) -> Result<bool, AllocError> {
        let entry = make_line(alloc, 5, &self.form)?;
        if self.book.last_time() > entry.time || entry.time >= TIME_LIMIT {
            return Ok(false);
        }
        self.book.add(entry)?;
        Ok(true)
    }
}

/// Adds entries until one finds no memory, and one more.
fn assert_added<R: Abort + AllocGlobal>(rt: &R, call: &mut Added) -> Result<(), Fail> {
    let count = successes(rt.alloc(), 100, call)?;
    assert!(rt; is_late(count) && call.is_long(count), "{count}");
    assert!(rt; call.make(rt.alloc())? && call.is_long(count.saturating_add(1)));
    Ok(())
}

#[test]
fn a_book_that_finds_no_memory_stays_as_it_was(rt: HostRuntime) -> Result<(), Fail> {
    let mut call = Added::new(rt.alloc())?;
    assert_added(&rt, &mut call)
}

/// Room is reserved in a book, for 100 entries more each time.
#[derive(Drop)]
struct Reserved<'a> {
    book: &'a mut LogBook,
    room: usize,
}

impl Call for Reserved<'_> {
    fn make(&mut self, _alloc: Global) -> Result<bool, AllocError> {
        let room = self.room.saturating_add(100);
        self.book.reserve(room)?;
        self.room = room;
        Ok(true)
    }
}

/// A copy of a book is as long, and ends at the same second.
#[derive(Clone, Copy)]
struct Copied<'a>(&'a LogBook);

impl Call for Copied<'_> {
    fn make(&mut self, alloc: Global) -> Result<bool, AllocError> {
        let copy = self.0.copy(alloc)?;
        Ok(copy.len() == self.0.len() && copy.last_time() == 5)
    }
}

fn assert_book<R: Abort + AllocGlobal>(rt: &R, added: &mut Added) -> Result<(), Fail> {
    for _ in 0..1_000 {
        added.make(rt.alloc())?;
    }
    assert!(rt; added.is_long(1_000));
    let mut call = Reserved {
        book: &mut added.book,
        room: 0,
    };
    let count = successes(rt.alloc(), 400, &mut call)?;
    assert!(rt; (3..1_000).contains(&count), "{count}");
    assert!(rt; call.make(rt.alloc())?);
    assert!(rt; added.is_long(1_000));
    assert_late(rt, "LogBook::copy", 20, &mut Copied(&added.book))
}

#[test]
fn room_and_a_copy_want_memory_for_all_entries(rt: HostRuntime) -> Result<(), Fail> {
    let mut added = Added::new(rt.alloc())?;
    assert_book(&rt, &mut added)
}
