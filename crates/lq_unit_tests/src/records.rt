//! Texts, lists, rules, objects and names.

use lq_names::{NameIndex, ObjectName};
use lq_records::{HostId, Items, Object, ObjectKind, Rules, ServiceId, Text, clean_text};
use std::alloc::{AllocError, Global};
use std::process::Abort;
use std::test::Fail;

const TEXTS: &[&str] = &[
    "",
    "a",
    "web1",
    "Größe 5",
    "a\0b",
    " \t",
    "Größe »17« € 𝄞 in Räumen",
];

/// Whether a copy of a text, one of its string and a clone are the text, the clone also after what
/// it was made from is gone.
fn is_kept(alloc: Global, text: &str) -> Result<bool, AllocError> {
    let copy = Text::new(alloc, text)?;
    let of_string = Text::from_string(String::from_str(alloc, text)?)?;
    let is_same = copy == of_string && copy.as_str() == text && of_string.as_str() == text;
    let shared = copy.clone()?;
    drop(copy);
    Ok(is_same && shared == of_string && shared.as_str() == text)
}

/// Texts, and one that may be their end.
const ENDS: &[(&str, &str)] = &[
    ("", ""),
    ("", "web1"),
    ("web1.rack7.room12", "room12"),
    ("web1.rack7.room12", "web1.rack7.room12"),
    ("web1.rack7.room12", "eb1.rack7.room12"),
    ("web1.rack7.room12", "xx1.rack7.room12"),
    ("web1.rack7.room12", "in web1.rack7.room12"),
    ("web1.rack7.room12", "web1.rack7.room"),
    ("Größe €€", "€€"),
    // The end would begin within a character.
    ("€€€€€€€", "web1.rack7.room1"),
];

/// Whether what may be the end of a text is itself, and so are a clone and an end of it, also after
/// the text is gone.
fn is_end_kept(alloc: Global, (text, end): (&str, &str)) -> Result<bool, AllocError> {
    let text = Text::new(alloc, text)?;
    let part = text.with_end(alloc, end)?;
    let again = part.with_end(alloc, end)?;
    let clone = part.clone()?;
    drop(text);
    Ok(part.as_str() == end && again.as_str() == end && clone == Text::new(alloc, end)?)
}

const EQUAL: &[(&str, &str, bool)] = &[
    ("", "", true),
    ("web1", "web1", true),
    ("web1", "web2", false),
    ("web1", "Web1", false),
    ("web", "web1", false),
    ("", "a", false),
    ("a ", "a", false),
];

fn are_equal<T: PartialEq>(a: &T, b: &T) -> bool {
    a == b
}

/// Whether two texts are equal or not as expected, whichever comes first.
fn is_answer(alloc: Global, (a, b, expected): (&str, &str, bool)) -> Result<bool, AllocError> {
    let first = Text::new(alloc, a)?;
    let second = Text::new(alloc, b)?;
    Ok(are_equal(&first, &second) == expected && are_equal(&second, &first) == expected)
}

/// Bytes, and the text that they become.
const CLEANED: &[(&[u8], &str)] = &[
    (b"", ""),
    (b"web 1;\n", "web 1;\n"),
    (
        b"app \xc2\xbb17\xc2\xab \xe2\x82\xac \xf0\x9d\x84\x9e",
        "app »17« € 𝄞",
    ),
    (b"\xff", "\u{FFFD}"),
    (b"a\x80b\xc3", "a\u{FFFD}b\u{FFFD}"),
    (b"\xc0\xaf", "\u{FFFD}\u{FFFD}"),
    (b"\xe0\x80\xaf", "\u{FFFD}\u{FFFD}\u{FFFD}"),
    (b"\xed\xa0\x80", "\u{FFFD}\u{FFFD}\u{FFFD}"),
    (b"\xf4\x90\x80\x80", "\u{FFFD}\u{FFFD}\u{FFFD}\u{FFFD}"),
    (b"\xe2\x82", "\u{FFFD}\u{FFFD}"),
    (b"\xe2\x82a", "\u{FFFD}\u{FFFD}a"),
    (b"\xf0\x9d\x84\xc3\xa4", "\u{FFFD}\u{FFFD}\u{FFFD}ä"),
    (b"\xc3\xc3\xa4", "\u{FFFD}ä"),
];

/// Whether bytes become a text.
fn becomes(alloc: Global, bytes: &[u8], expected: &str) -> Result<bool, AllocError> {
    Ok(clean_text(alloc, bytes)?.as_str() == expected)
}

/// Whether a long text becomes itself, and is followed by U+FFFD where another byte comes after it.
fn is_long_cleaned(alloc: Global) -> Result<bool, AllocError> {
    let mut expected = "Größe 5 € 𝄞;".repeat(alloc, 9000)?;
    let mut bytes = Vec::from_slice(alloc, expected.as_bytes())?;
    let is_whole = becomes(alloc, &bytes, expected.as_str())?;
    bytes.push(0xC3)?;
    expected.push('\u{FFFD}')?;
    Ok(is_whole && becomes(alloc, &bytes, expected.as_str())?)
}

#[test]
fn texts_keep_their_strings(rt: HostRuntime) -> Result<(), Fail> {
    for text in TEXTS {
        assert!(rt; is_kept(rt.alloc(), *text)?, "at {text:?}");
    }
    for case in ENDS {
        assert!(rt; is_end_kept(rt.alloc(), *case)?, "at {case:?}");
    }
    for case in EQUAL {
        assert!(rt; is_answer(rt.alloc(), *case)?, "at {case:?}");
    }
    for (bytes, expected) in CLEANED {
        assert!(rt; becomes(rt.alloc(), *bytes, *expected)?, "at {bytes:?}");
    }
    assert!(rt; is_long_cleaned(rt.alloc())?);
    Ok(())
}

fn assert_items(rt: &impl Abort, items: &Items<u32>, expected: &[u32]) {
    assert!(rt; items.as_slice() == expected);
    assert!(rt; items.len() == expected.len());
    assert!(rt; items.is_empty() == expected.is_empty());
}

/// Numbers in the order in which they were pushed.
fn assert_numbers<R: Abort + AllocGlobal>(rt: &R) -> Result<(), AllocError> {
    let mut items = Items::default();
    assert_items(rt, &items, &[]);
    for number in [7u32, 3, 3] {
        items.push(rt.alloc(), number)?;
        assert!(rt; !items.is_empty());
    }
    assert_items(rt, &items, &[7, 3, 3]);
    let vector = items.into_vec(rt.alloc());
    assert!(rt; vector.as_slice() == [7, 3, 3].as_slice());
    let mut items = Items::from_vec(vector);
    items.push(rt.alloc(), 9)?;
    assert_items(rt, &items, &[7, 3, 3, 9]);
    Ok(())
}

#[test]
fn items_keep_the_order_in_which_they_came(rt: HostRuntime) -> Result<(), Fail> {
    assert_numbers(&rt)?;
    assert_items(&rt, &Items::from_vec(Vec::new(rt.alloc())), &[]);
    let mut names = Items::default();
    names.push(rt.alloc(), Text::new(rt.alloc(), "web1")?)?;
    names.push(rt.alloc(), Text::new(rt.alloc(), "db")?)?;
    assert!(rt; names.len() == 2);
    assert!(rt; names.as_slice()[0].as_str() == "web1");
    assert!(rt; names.as_slice()[1].as_str() == "db");
    Ok(())
}

fn made<D: Default>() -> D {
    D::default()
}

const HOST: Object = Object::Host(HostId(3));

const SERVICE: Object = Object::Service(ServiceId(3));

/// Two objects, and whether they are the same one, and of one kind.
const OBJECTS: &[(Object, Object, bool, bool)] = &[
    (HOST, HOST, true, true),
    (HOST, Object::Host(HostId(4)), false, true),
    (SERVICE, SERVICE, true, true),
    (SERVICE, Object::Service(ServiceId(0)), false, true),
    (HOST, SERVICE, false, false),
    (SERVICE, HOST, false, false),
];

#[test]
fn objects_of_one_number_differ_by_kind(rt: HostRuntime) {
    for (a, b, is_same, is_same_kind) in OBJECTS {
        assert!(rt; a.is_same(*b) == *is_same);
        assert!(rt; a.kind().is_same(b.kind()) == *is_same_kind);
    }
    assert!(rt; HOST.kind().is_same(ObjectKind::Host));
    assert!(rt; SERVICE.kind().is_same(ObjectKind::Service));
    let rules = made::<Rules>();
    assert!(rt; !rules.service_strict);
    assert!(rt; rules.group_strict);
}

/// A name of two parts.
fn named(alloc: Global, first: &str, second: &str) -> Result<ObjectName, AllocError> {
    Ok(ObjectName::new(Text::new(alloc, first)?, Text::new(alloc, second)?))
}

fn push_new(
    index: &mut NameIndex,
    alloc: Global,
    (first, second): (&str, &str),
) -> Result<(), AllocError> {
    let name = named(alloc, first, second)?;
    if index.contains(&name) || index.len() > 100 {
        return Ok(());
    }
    index.push(name)
}

fn names(alloc: Global) -> Result<NameIndex, AllocError> {
    let mut index = NameIndex::new(alloc);
    for name in [("a", "b"), ("b", "a"), ("a", ""), ("a", "b")] {
        push_new(&mut index, alloc, name)?;
    }
    Ok(index)
}

fn assert_found<R: Abort + AllocGlobal>(rt: &R, index: &NameIndex) -> Result<(), Fail> {
    assert!(rt; index.len() == 3);
    assert!(rt; index.find(&named(rt.alloc(), "b", "a")?) == Some(1));
    let (first, second) = index.parts_at(1);
    assert!(rt; first.as_str() == "b" && second.as_str() == "a");
    let single = ObjectName::single(Text::new(rt.alloc(), "a")?);
    assert!(rt; index.find(&single) == Some(2));
    drop(single);
    assert!(rt; index.find(&named(rt.alloc(), "b", "")?).is_none());
    Ok(())
}

#[test]
fn a_name_is_found_by_both_parts(rt: HostRuntime) -> Result<(), Fail> {
    let index = names(rt.alloc())?;
    assert_found(&rt, &index)
}
