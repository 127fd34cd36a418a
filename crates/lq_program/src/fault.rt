ghost use Rattle.std.specs.Prelude.{◌≡◌, ◌++◌, ◌≤◌, drop, OnOk};
ghost use Rattle.std.specs.Fmt.{decimal};
ghost use Rattle.std.specs.Io.KnownBytes.{Appends};
ghost use Rattle.lq_outside.specs.Faults.{HasCause};
ghost use Rattle.lq_program.specs.Faults.{IsStatus, at_line, end_text, log_fault_text};
ghost use Rattle.lq_program.specs.Faults.{objects_fault_text, status_of};

use lq_objects::ObjectsWhat;
use lq_outside::{Failed, Sink, write_all};

/// The most bytes that an object file may have.
pub const OBJECTS_LIMIT: u64 = 67_108_864;

/// What is wrong with an object file.
#[derive(Clone, Copy)]
pub enum ObjectsFault {
    /// The number of a line, from 1, and what is wrong there.
    At { line: u64, what: ObjectsWhat },
    /// The file has more than `OBJECTS_LIMIT` bytes.
    TooLarge,
}

/// The most bytes that a log may have.
pub const LOG_LIMIT: u64 = 67_108_864;

/// What is wrong with a log.
#[derive(Clone, Copy)]
pub enum LogFault {
    /// The number of the first line that is too many, from 1.
    TooManyLines { line: u64 },
    /// The number of the first line that is too long, from 1.
    LineTooLong { line: u64 },
    /// The log has more than `LOG_LIMIT` bytes.
    TooLarge,
}

/// Why the program ends without having done its work.
#[derive(Clone, Copy)]
pub enum Fault<'a> {
    /// The words are outside the grammar.
    Usage,
    /// The object file is refused.
    Objects(ObjectsFault),
    /// The log is refused.
    Log(LogFault),
    /// No file is at this path.
    FileMissing(&'a str),
    /// The file at this path can't be read.
    FileUnreadable(&'a str),
    /// The input can't be read.
    Read,
    /// The output can't be written.
    Write,
    /// Out of memory.
    Memory,
}

impl Fault<'_> {
    /// The status that the program ends with.
    pub fn status(self) -> u8
        ensures code { result ≡ status_of self.entry }
        ensures known { IsStatus result }
    {
        match self {
            Fault::Usage => 1,
            Fault::Objects(_) => 2,
            Fault::Log(_) => 3,
            Fault::FileMissing(_) | Fault::FileUnreadable(_) => 4,
            Fault::Read => 5,
            Fault::Write => 6,
            Fault::Memory => 7,
        }
    }

    /// Writes the fault's text and a line feed. It takes no memory.
    pub fn report<K: Sink>(self, sink: &mut K) -> Result<(), Failed>
        ensures ok { OnOk result
            (Appends (K.held sink.old) (K.held sink.new) (end_text self.entry)) }
        ensures cause { HasCause (K.faults sink.old) (K.faults sink.new) result }
    {
        match self {
            Fault::Usage => write_all(sink, b"usage: lqd ask|replay|serve|load\n"),
            Fault::Objects(fault) => fault.report(sink),
            Fault::Log(fault) => fault.report(sink),
            Fault::FileMissing(path) => write_parts(
                sink,
                b"file: ",
                path.as_bytes(),
                b": missing\n",
            ),
            Fault::FileUnreadable(path) => {
                write_parts(sink, b"file: ", path.as_bytes(), b": cannot be read\n")
            }
            Fault::Read => write_all(sink, b"read fault\n"),
            Fault::Write => write_all(sink, b"write fault\n"),
            Fault::Memory => write_all(sink, b"out of memory\n"),
        }
    }
}

/// Writes three pieces, one after the other.
fn write_parts<K: Sink>(
    sink: &mut K,
    first: &[u8],
    second: &[u8],
    third: &[u8],
) -> Result<(), Failed>
    ensures ok { OnOk result
        (Appends (K.held sink.old) (K.held sink.new) (first.now ++ (second.now ++ third.now))) }
    ensures cause { HasCause (K.faults sink.old) (K.faults sink.new) result }
{
    write_all(sink, first)?;
    write_all(sink, second)?;
    write_all(sink, third)
}

impl ObjectsFault {
    fn report<K: Sink>(self, sink: &mut K) -> Result<(), Failed>
        ensures ok { OnOk result
            (Appends (K.held sink.old) (K.held sink.new) (objects_fault_text self)) }
        ensures cause { HasCause (K.faults sink.old) (K.faults sink.new) result }
    {
        match self {
            ObjectsFault::At { line, what } => {
                report_line(sink, b"objects: line ", line, what.text())
            }
            ObjectsFault::TooLarge => write_all(sink, b"objects: too large\n"),
        }
    }
}

impl LogFault {
    fn report<K: Sink>(self, sink: &mut K) -> Result<(), Failed>
        ensures ok { OnOk result
            (Appends (K.held sink.old) (K.held sink.new) (log_fault_text self)) }
        ensures cause { HasCause (K.faults sink.old) (K.faults sink.new) result }
    {
        match self {
            LogFault::TooManyLines { line } => {
                report_line(sink, b"log: line ", line, "too many lines")
            }
            LogFault::LineTooLong { line } => {
                report_line(sink, b"log: line ", line, "line too long")
            }
            LogFault::TooLarge => write_all(sink, b"log: too large\n"),
        }
    }
}

/// Writes a front, the number of a line and what is wrong there.
fn report_line<K: Sink>(sink: &mut K, front: &[u8], number: u64, what: &str) -> Result<(), Failed>
    ensures ok { OnOk result
        (Appends (K.held sink.old) (K.held sink.new) (front.now ++ at_line number what.now)) }
    ensures cause { HasCause (K.faults sink.old) (K.faults sink.new) result }
{
    let mut digits = [0; DIGITS];
    let start = write_digits(&mut digits, number);
    write_all(sink, front)?;
    write_parts(sink, &digits[start..], b": ", what.as_bytes())?;
    write_all(sink, b"\n")?;
    Ok(())
}

/// How many digits a number below 2 ^ 64 has at most.
const DIGITS: usize = 20;

/// Writes a number's digits at the end of the buffer, and returns where they begin.
fn write_digits(digits: &mut [u8; DIGITS], number: u64) -> usize
    ensures within { result ≤ 20 }
    ensures digits { drop result digits.new ≡ decimal number }
{
    let mut at = DIGITS - 1;
    let mut rest = number;
    'digits: while rest >= 10 {
        digits[at] = b'0' + (rest % 10) as u8;
        rest /= 10;
        at -= 1;
    }
    digits[at] = b'0' + rest as u8;
    at
}
