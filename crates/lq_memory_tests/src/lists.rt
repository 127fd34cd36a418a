//! Texts, lists and names, and what is held and loaded in memory.

ghost use Rattle.std.specs.Prelude.{◌≡◌, ◌++◌, ◌∷◌, [], OnOk};
ghost use Rattle.lq_names.specs.Names.{single};

use crate::scarce::{Call, assert_late, is_late, successes};
use lq_names::{NameIndex, ObjectName};
use lq_outside::{Files, LoadErr, MemFiles, MemSink, MemSource, StdFiles, SteadySource};
use lq_records::{Host, Items, MonitoredItems, NamedItems, ObjectFields, Text, clean_text};
use std::alloc::{AllocError, Global};
use std::process::Abort;
use std::test::Fail;
use std::{env, fs, process};

/// A text of 100,000 bytes.
fn long_text(alloc: Global) -> Result<String, AllocError> {
    "0123456789".repeat(alloc, 10_000)
}

/// A text is made of another one, of a string, or of bytes.
#[derive(Clone, Copy)]
enum Made<'a> {
    Copied(&'a str),
    OfString(&'a str),
    /// The last byte is none of a character.
    Cleaned(&'a [u8]),
}

impl Call for Made<'_> {
    fn make(&mut self, alloc: Global) -> Result<bool, AllocError> {
        match *self {
            Made::Copied(text) => Ok(Text::new(alloc, text)?.as_str() == text),
            Made::OfString(text) => {
                let string = String::from_str(alloc, text)?;
                Ok(Text::from_string(string)?.as_str() == text)
            }
            Made::Cleaned(bytes) => Ok(is_cleaned(clean_text(alloc, bytes)?.as_str(), bytes)),
        }
    }
}

/// Whether a text is all bytes but the last one, and U+FFFD for that.
fn is_cleaned(text: &str, bytes: &[u8]) -> bool {
    match (text.strip_suffix('\u{FFFD}'), bytes.split_last()) {
        (Some(front), Some((_, rest))) => front.as_bytes() == rest,
        _ => false,
    }
}

#[test]
fn texts_want_memory_for_their_bytes(rt: HostRuntime) -> Result<(), Fail> {
    let text = long_text(rt.alloc())?;
    assert_late(&rt, "Text::new", 24, &mut Made::Copied(text.as_str()))?;
    assert_late(
        &rt,
        "Text::from_string",
        24,
        &mut Made::OfString(text.as_str()),
    )?;
    let bytes = [text.as_bytes(), b"\xC3"].concat(rt.alloc())?;
    assert_late(&rt, "clean_text", 24, &mut Made::Cleaned(&bytes))
}

/// The end of a clone of a text is added to others.
#[derive(Drop)]
struct Shared {
    text: Text,
    ends: Vec<Text>,
}

impl Call for Shared {
    fn make(&mut self, alloc: Global) -> Result<bool, AllocError> {
        let clone = self.text.clone()?;
        self.ends
            .push(clone.with_end(alloc, "rack7.room12.example")?)?;
        Ok(true)
    }
}

#[test]
fn clones_and_ends_of_a_text_want_no_memory(rt: HostRuntime) -> Result<(), Fail> {
    let mut call = Shared {
        text: Text::new(rt.alloc(), "web1.rack7.room12.example")?,
        ends: Vec::with_capacity(rt.alloc(), 400)?,
    };
    let count = successes(rt.alloc(), 0, &mut call)?;
    assert!(rt; count == 400 && call.ends.len() == 400, "{count}");
    assert!(rt; call.ends[399].as_str() == "rack7.room12.example");
    assert!(rt; call.make(rt.alloc())? && call.ends.len() == 401);
    Ok(())
}

impl Call for Items<[u64; 4]> {
    fn make(&mut self, alloc: Global) -> Result<bool, AllocError> {
        self.push(alloc, [7; 4])?;
        Ok(true)
    }
}

#[test]
fn a_list_that_finds_no_memory_stays_as_it_was(rt: HostRuntime) -> Result<(), Fail> {
    let mut items = Items::default();
    let count = successes(rt.alloc(), 8, &mut items)?;
    assert!(rt; is_late(count) && items.len() == count, "{count}");
    assert!(rt; items.as_slice().last() == Some(&[7; 4]));
    items.push(rt.alloc(), [8; 4])?;
    assert!(rt; items.len() == count.saturating_add(1));
    assert!(rt; items.as_slice()[count] == [8; 4]);
    Ok(())
}

/// The name of a number.
fn numbered(alloc: Global, number: usize) -> Result<ObjectName, AllocError> {
    Ok(ObjectName::single(Text::from_string(number.to_string(alloc)?)?))
}

/// The name of as many as there are is added.
impl Call for NameIndex {
    fn make(&mut self, alloc: Global) -> Result<bool, AllocError> {
        let name = numbered(alloc, self.len())?;
        if self.contains(&name) || self.len() > 1_000_000 {
            return Ok(false);
        }
        self.push(name)?;
        Ok(true)
    }
}

#[test]
fn names_that_find_no_memory_stay_as_they_were(rt: HostRuntime) -> Result<(), Fail> {
    let mut index = NameIndex::new(rt.alloc());
    let count = successes(rt.alloc(), 64, &mut index)?;
    assert!(rt; is_late(count) && index.len() == count, "{count}");
    assert!(rt; index.find(&numbered(rt.alloc(), 299)?) == Some(299));
    assert!(rt; index.find(&numbered(rt.alloc(), count)?).is_none());
    assert!(rt; index.make(rt.alloc())? && index.len() == count.saturating_add(1));
    assert!(rt; index.find(&numbered(rt.alloc(), count)?).is_some());
    Ok(())
}

/// What a host has that says nothing of itself.
fn no_fields() -> ObjectFields {
    ObjectFields {
        display_name: Text::empty(),
        check_command: Text::empty(),
        check_period: Text::empty(),
        notification_period: Text::empty(),
        max_check_attempts: 1,
        notifications_enabled: 1,
        contacts: Items::default(),
        contact_groups: Items::default(),
        notes: Text::empty(),
        notes_url: Text::empty(),
        action_url: Text::empty(),
        icon_image: Text::empty(),
        custom_variables: Items::default(),
    }
}

/// Adds a name that isn't there to a thousand at most.
fn push_name(names: &mut NameIndex, name: &Text) -> Result<(), AllocError>
    ensures { OnOk result (names.new ≡ names.old ++ single name.now ∷ []) }
{
    let name = ObjectName::single(name.clone()?);
    if names.contains(&name) || names.len() > 1_000 {
        return Err(AllocError);
    }
    names.push(name)
}

/// A thousand hosts whose names are numbers, and the names that are handed on to them.
fn numbered_hosts(alloc: Global) -> Result<NamedItems<Host>, AllocError> {
    let mut names = NameIndex::new(alloc);
    let mut hosts = Vec::new(alloc);
    for number in 0..1_000usize {
        let host_name = Text::from_string(number.to_string(alloc)?)?;
        push_name(&mut names, &host_name)?;
        hosts.push(Host {
            host_name,
            alias: Text::empty(),
            address: Text::empty(),
            parents: Items::default(),
            fields: no_fields(),
        })?;
    }
    Ok(NamedItems::new(hosts, names.into_names()))
}

/// A thousand hosts are found by their names.
#[derive(Clone, Copy)]
struct Named;

impl Call for Named {
    fn make(&mut self, alloc: Global) -> Result<bool, AllocError> {
        let hosts = MonitoredItems::new(alloc, numbered_hosts(alloc)?)?;
        Ok(hosts.find("999").is_some_and(|id| id.0 == 999) && hosts.find("x").is_none())
    }
}

#[test]
fn lists_by_name_want_memory_for_their_contacts(rt: HostRuntime) -> Result<(), Fail> {
    assert_late(&rt, "MonitoredItems::new", 24, &mut Named)
}

/// Each form in memory is made of what it is handed.
#[derive(Clone, Copy)]
struct Forms;

impl Call for Forms {
    fn make(&mut self, alloc: Global) -> Result<bool, AllocError> {
        drop(MemSource::new(Vec::new(alloc), Vec::new(alloc)));
        drop(SteadySource::new(Vec::new(alloc)));
        drop(MemSink::new(alloc, Vec::new(alloc)));
        drop(MemFiles::new(Vec::new(alloc), Vec::new(alloc)));
        Ok(true)
    }
}

#[test]
fn forms_in_memory_hold_what_they_are_handed(rt: HostRuntime) -> Result<(), Fail> {
    let count = successes(rt.alloc(), 0, &mut Forms)?;
    assert!(rt; count == 20_000, "{count}");
    Ok(())
}

/// A file is loaded, and has a text.
#[derive(Drop)]
struct Loaded<'a, F> {
    files: &'a mut F,
    path: &'a str,
    text: &'a str,
}

impl<F: Files> Call for Loaded<'_, F> {
    fn make(&mut self, alloc: Global) -> Result<bool, AllocError> {
        match self.files.load(alloc, self.path, u64::MAX) {
            Ok(bytes) => Ok(bytes.as_slice() == self.text.as_bytes()),
            Err(LoadErr::Memory) => Err(AllocError),
            Err(_) => Ok(false),
        }
    }
}

/// Loads a file, which is no fault.
fn assert_loaded<R: Abort + AllocGlobal, F: Files>(
    rt: &R,
    files: &mut F,
    path: &str,
    text: &str,
) -> Result<(), Fail> {
    let mut call = Loaded { files, path, text };
    assert_late(rt, path, 24, &mut call)
}

#[test]
fn a_load_wants_memory_for_the_file(rt: HostRuntime) -> Result<(), Fail> {
    let text = long_text(rt.alloc())?;
    let path = String::from_str(rt.alloc(), "a")?;
    let bytes = Vec::from_slice(rt.alloc(), text.as_bytes())?;
    let pairs = vec![in rt.alloc(); (path, bytes)]?;
    let mut files = MemFiles::new(pairs, Vec::new(rt.alloc()));
    assert_loaded(&rt, &mut files, "a", text.as_str())?;
    assert!(rt; files.faults() == 0);
    Ok(())
}

#[test]
fn a_load_of_the_system_wants_memory_for_the_file(rt: HostRuntime) -> Result<(), Fail> {
    let text = long_text(rt.alloc())?;
    let folder = env::temp_dir(&rt)?;
    let id = process::id(rt.process());
    let path = format!(in rt.alloc(); "{}/lq_memory-{id}", folder.as_str())?;
    fs::write(&rt, path.as_str(), text.as_bytes())?;
    let mut files = StdFiles::new(&rt);
    assert_loaded(&rt, &mut files, path.as_str(), text.as_str())?;
    assert!(rt; files.faults() == 0);
    fs::remove_file(&rt, path.as_str())?;
    Ok(())
}
