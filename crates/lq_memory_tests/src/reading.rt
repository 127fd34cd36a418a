//! What is read: an object file, a command, a message.

use crate::scarce::{Call, assert_late};
use crate::site::{COUNT, SMALL, base_of, large};
use lq_commands::{CommandErr, read_command};
use lq_events::Act;
use lq_records::Base;
use lq_request::{Cut, ReadErr, read_request};
use lq_schema::{Col, column_name};
use std::alloc::{AllocError, Global};
use std::process::Abort;
use std::test::Fail;

/// Something is read, and is what it should be.
#[derive(Clone, Copy)]
enum Read<'a> {
    /// The object file of a large site.
    Large(&'a str),
    /// A line of a comment, and its text.
    Comment(&'a Base, &'a str, &'a str),
    /// A cut, into which a whole message goes.
    Cut,
    /// A message that asks the column `state` of hosts many times.
    Columns(&'a Base, &'a str),
    /// A message with many filters that become one, and how many rows it shows at most.
    Filters(&'a Base, &'a str, u64),
    /// A message that asks a table that isn't there, and the table's name.
    Refused(&'a Base, &'a str, &'a str),
}

impl Call for Read<'_> {
    fn make(&mut self, alloc: Global) -> Result<bool, AllocError> {
        match *self {
            Read::Large(objects) => is_read(alloc, objects.as_bytes()),
            Read::Comment(base, line, text) => is_comment(alloc, base, line.as_bytes(), text),
            Read::Cut => Ok(Cut::new(alloc)?.room() == 65_537),
            Read::Columns(base, message) => is_asked(alloc, base, message.as_bytes()),
            Read::Filters(base, message, most) => {
                is_limited(alloc, base, message.as_bytes(), most)
            },
            Read::Refused(base, message, name) => {
                is_refused(alloc, base, message.as_bytes(), name)
            },
        }
    }
}

/// Whether the base of a large site has all its objects.
fn is_large(base: &Base) -> bool {
    let (hosts, services) = (base.hosts.as_slice(), base.services.as_slice());
    let groups = base.host_groups.as_slice();
    hosts.len() == COUNT
        && hosts[999].host_name.as_str() == "h999"
        && services.len() == COUNT + 1
        && services[999].service_description.as_str() == "s999"
        && services[1000].fields.contacts.len() == COUNT
        && groups.len() == 1
        && groups[0].members.len() == COUNT
}

fn is_read(alloc: Global, objects: &[u8]) -> Result<bool, AllocError> {
    match base_of(alloc, objects)? {
        Some(base) => Ok(is_large(&base)),
        None => Ok(false),
    }
}

#[test]
fn an_object_file_wants_memory_for_its_last_objects(rt: HostRuntime) -> Result<(), Fail> {
    let objects = large(rt.alloc())?;
    assert_late(&rt, "read_objects", 200, &mut Read::Large(objects.as_str()))
}

/// Whether a line is read as a comment with a text.
fn is_comment(alloc: Global, base: &Base, line: &[u8], text: &str) -> Result<bool, AllocError> {
    match read_command(alloc, base, line) {
        Ok(order) => Ok(is_comment_of(&order.act, text)),
        Err(CommandErr::Memory) => Err(AllocError),
        Err(CommandErr::NoTime) => Ok(false),
    }
}

fn is_comment_of(act: &Act, expected: &str) -> bool {
    match act {
        Act::AddSvcComment { author, text, .. } => {
            author.as_str() == "anna" && text.as_str() == expected
        }
        _ => false,
    }
}

/// Reads a comment with a long text.
fn assert_comment<R: Abort + AllocGlobal>(rt: &R, base: &Base) -> Result<(), Fail> {
    let text = "0123456789".repeat(rt.alloc(), 6_000)?;
    let text = text.as_str();
    let line = format!(in rt.alloc(); "[100] ADD_SVC_COMMENT;web1;http;1;anna;{text}")?;
    let mut call = Read::Comment(base, line.as_str(), text);
    assert_late(rt, "read_command", 20, &mut call)
}

#[test]
fn a_command_wants_memory_for_its_texts(rt: HostRuntime) -> Result<(), Fail> {
    let base = base_of(rt.alloc(), SMALL)?.ok_or("the object file is refused")?;
    assert_comment(&rt, &base)
}

fn are_states(columns: &[Col]) -> bool {
    columns.len() == 5_120 && column_name(columns[5_119]).name == "state"
}

fn is_asked(alloc: Global, base: &Base, message: &[u8]) -> Result<bool, AllocError> {
    match read_request(alloc, message, base) {
        Ok(request) => Ok(are_states(request.columns.as_slice())),
        Err(ReadErr::Memory) => Err(AllocError),
        Err(ReadErr::Refused { .. }) => Ok(false),
    }
}

/// Whether a message is read, with the most rows that it shows.
fn is_limited(alloc: Global, base: &Base, message: &[u8], most: u64) -> Result<bool, AllocError> {
    match read_request(alloc, message, base) {
        Ok(request) => Ok(request.limit == Some(most)),
        Err(ReadErr::Memory) => Err(AllocError),
        Err(ReadErr::Refused { .. }) => Ok(false),
    }
}

fn is_refused(alloc: Global, base: &Base, message: &[u8], name: &str) -> Result<bool, AllocError> {
    match read_request(alloc, message, base) {
        Ok(_) => Ok(false),
        Err(ReadErr::Memory) => Err(AllocError),
        Err(ReadErr::Refused { refusal, .. }) => Ok(
            refusal.code == 404
                && refusal.text.as_str().strip_prefix("unknown table: ") == Some(name),
        ),
    }
}

/// Reads a message of 256 headers with 20 columns each, and one with a long name of a table.
fn assert_messages<R: Abort + AllocGlobal>(rt: &R, base: &Base) -> Result<(), Fail> {
    let words = " state".repeat(rt.alloc(), 20)?;
    let header = format!(in rt.alloc(); "\nColumns:{}", words.as_str())?;
    let headers = header.repeat(rt.alloc(), 256)?;
    let message = format!(in rt.alloc(); "GET hosts{}", headers.as_str())?;
    assert_late(
        rt,
        "read_request",
        4,
        &mut Read::Columns(base, message.as_str()),
    )?;
    let name = "x".repeat(rt.alloc(), 60_000)?;
    let message = format!(in rt.alloc(); "GET {}", name.as_str())?;
    let mut call = Read::Refused(base, message.as_str(), name.as_str());
    assert_late(rt, "read_request of a long name", 14, &mut call)
}

/// Reads a message of 200 filters, each with a text of 250 bytes.
fn assert_filters<R: Abort + AllocGlobal>(rt: &R, base: &Base) -> Result<(), Fail> {
    let text = "0123456789".repeat(rt.alloc(), 25)?;
    let filter = format!(in rt.alloc(); "\nFilter: name = {}", text.as_str())?;
    let filters = filter.repeat(rt.alloc(), 200)?;
    let message = format!(in rt.alloc(); "GET hosts{}\nOr: 200\nLimit: 7", filters.as_str())?;
    let mut call = Read::Filters(base, message.as_str(), 7);
    assert_late(rt, "read_request of filters", 12, &mut call)
}

#[test]
fn a_message_wants_memory_for_its_columns_and_filters(rt: HostRuntime) -> Result<(), Fail> {
    assert_late(&rt, "Cut::new", 16, &mut Read::Cut)?;
    let base = base_of(rt.alloc(), SMALL)?.ok_or("the object file is refused")?;
    assert_messages(&rt, &base)?;
    assert_filters(&rt, &base)
}
