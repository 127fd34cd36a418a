//! What a command line says: its second, its text and what it does.

use crate::fixture::base_of;
use lq_commands::{CommandErr, read_command};
use lq_events::Act;
use lq_records::Base;
use std::alloc::Global;
use std::process::Abort;
use std::test::Fail;

/// The hosts `a` and `b`, and on both the services `x` and `y z`, those of `b` first.
const OBJECTS: &[u8] = b"define host {
 host_name a
 }
define host {
 host_name b
 }
define service {
 host_name b
 service_description x
 }
define service {
 host_name b
 service_description y z
 }
define service {
 host_name a
 service_description x
 }
define service {
 host_name a
 service_description y z
 }
";

/// The words of an act's command.
fn word_of(act: &Act) -> &'static str {
    match act {
        Act::ProcessHostCheckResult { .. } => "PROCESS_HOST_CHECK_RESULT",
        Act::ProcessServiceCheckResult { .. } => "PROCESS_SERVICE_CHECK_RESULT",
        Act::AddHostComment { .. } => "ADD_HOST_COMMENT",
        Act::AddSvcComment { .. } => "ADD_SVC_COMMENT",
        Act::DelHostComment { .. } => "DEL_HOST_COMMENT",
        Act::DelSvcComment { .. } => "DEL_SVC_COMMENT",
        Act::AcknowledgeHostProblem { .. } => "ACKNOWLEDGE_HOST_PROBLEM",
        Act::AcknowledgeSvcProblem { .. } => "ACKNOWLEDGE_SVC_PROBLEM",
        Act::RemoveHostAcknowledgement { .. } => "REMOVE_HOST_ACKNOWLEDGEMENT",
        Act::RemoveSvcAcknowledgement { .. } => "REMOVE_SVC_ACKNOWLEDGEMENT",
        Act::ScheduleHostDowntime { .. } => "SCHEDULE_HOST_DOWNTIME",
        Act::ScheduleSvcDowntime { .. } => "SCHEDULE_SVC_DOWNTIME",
        Act::DelHostDowntime { .. } => "DEL_HOST_DOWNTIME",
        Act::DelSvcDowntime { .. } => "DEL_SVC_DOWNTIME",
        Act::EnableHostNotifications { .. } => "ENABLE_HOST_NOTIFICATIONS",
        Act::DisableHostNotifications { .. } => "DISABLE_HOST_NOTIFICATIONS",
        Act::EnableSvcNotifications { .. } => "ENABLE_SVC_NOTIFICATIONS",
        Act::DisableSvcNotifications { .. } => "DISABLE_SVC_NOTIFICATIONS",
        Act::EnableNotifications => "ENABLE_NOTIFICATIONS",
        Act::DisableNotifications => "DISABLE_NOTIFICATIONS",
        Act::Unknown => "UNKNOWN",
    }
}

/// The number of an act's host or service, or 0.
fn object_of(act: &Act) -> u32 {
    match act {
        Act::ProcessHostCheckResult { host, .. }
        | Act::AddHostComment { host, .. }
        | Act::AcknowledgeHostProblem { host, .. }
        | Act::RemoveHostAcknowledgement { host }
        | Act::ScheduleHostDowntime { host, .. }
        | Act::EnableHostNotifications { host }
        | Act::DisableHostNotifications { host } => host.0,
        Act::ProcessServiceCheckResult { service, .. }
        | Act::AddSvcComment { service, .. }
        | Act::AcknowledgeSvcProblem { service, .. }
        | Act::RemoveSvcAcknowledgement { service }
        | Act::ScheduleSvcDowntime { service, .. }
        | Act::EnableSvcNotifications { service }
        | Act::DisableSvcNotifications { service } => service.0,
        _ => 0,
    }
}

/// An act's other numbers in order, and then zeros.
fn numbers_of(act: &Act) -> [u64; 5] {
    match act {
        Act::ProcessHostCheckResult { code: n, .. }
        | Act::ProcessServiceCheckResult { code: n, .. }
        | Act::AddHostComment { persistent: n, .. }
        | Act::AddSvcComment { persistent: n, .. }
        | Act::DelHostComment { id: n }
        | Act::DelSvcComment { id: n }
        | Act::DelHostDowntime { id: n }
        | Act::DelSvcDowntime { id: n } => [*n, 0, 0, 0, 0],
        Act::AcknowledgeHostProblem {
            sticky,
            notify,
            persistent,
            ..
        }
        | Act::AcknowledgeSvcProblem {
            sticky,
            notify,
            persistent,
            ..
        } => { [*sticky, *notify, *persistent, 0, 0] }
        other => downtime_of(other),
    }
}

/// The numbers of a downtime, or zeros.
fn downtime_of(act: &Act) -> [u64; 5] {
    match act {
        Act::ScheduleHostDowntime {
            start,
            end,
            fixed,
            trigger_id,
            duration,
            ..
        }
        | Act::ScheduleSvcDowntime {
            start,
            end,
            fixed,
            trigger_id,
            duration,
            ..
        } => { [*start, *end, *fixed, *trigger_id, *duration] }
        _ => [0; 5],
    }
}

/// An act's texts in order, and then empty ones.
fn texts_of(act: &Act) -> (&str, &str) {
    match act {
        Act::ProcessHostCheckResult { output, .. }
        | Act::ProcessServiceCheckResult { output, .. } => (output.as_str(), ""),
        Act::AddHostComment { author, text, .. }
        | Act::AddSvcComment { author, text, .. }
        | Act::AcknowledgeHostProblem { author, text, .. }
        | Act::AcknowledgeSvcProblem { author, text, .. }
        | Act::ScheduleHostDowntime { author, text, .. }
        | Act::ScheduleSvcDowntime { author, text, .. } => (author.as_str(), text.as_str()),
        _ => ("", ""),
    }
}

/// The words of a command, the number of its object, its other numbers and its texts.
type Said<'a> = (&'a str, u32, [u64; 5], (&'a str, &'a str));

const NOTHING: Said<'static> = ("UNKNOWN", 0, [0; 5], ("", ""));

fn is_said(act: &Act, (word, object, numbers, texts): Said<'_>) -> bool {
    word_of(act) == word
        && object_of(act) == object
        && numbers_of(act) == numbers
        && texts_of(act) == texts
}

/// Whether a line says a second, a text and an act.
fn is_order(
    alloc: Global,
    base: &Base,
    line: &[u8],
    (time, text, said): (u64, &str, Said<'_>),
) -> bool {
    let Some(order) = read_command(alloc, base, line).ok() else {
        return false;
    };
    let is_same = order.time == time && order.text.as_str() == text && is_said(&order.act, said);
    drop(order);
    is_same
}

/// Compares what a text says after the second 1.
fn assert_said<R: Abort + AllocGlobal>(
    rt: &R,
    base: &Base,
    (front, text): (&str, &str),
    said: Said<'_>,
) -> Result<(), Fail> {
    let line = [front.as_bytes(), text.as_bytes()].concat(rt.alloc())?;
    assert!(rt;
        is_order(rt.alloc(), base, &line, (1, text, said)),
        "at {text:?}"
    );
    Ok(())
}

/// Commands, and what they say.
const SAID: &[(&str, Said<'static>)] = &[
    (
        "PROCESS_HOST_CHECK_RESULT;b;2;down | a=1;2",
        (
            "PROCESS_HOST_CHECK_RESULT",
            1,
            [2, 0, 0, 0, 0],
            ("down | a=1;2", ""),
        ),
    ),
    (
        "ADD_HOST_COMMENT;a;1;me;two; parts ",
        (
            "ADD_HOST_COMMENT",
            0,
            [1, 0, 0, 0, 0],
            ("me", "two; parts "),
        ),
    ),
    (
        "DEL_HOST_COMMENT;18446744073709551615;x",
        (
            "DEL_HOST_COMMENT",
            0,
            [18446744073709551615, 0, 0, 0, 0],
            ("", ""),
        ),
    ),
    (
        "ACKNOWLEDGE_HOST_PROBLEM;a;2;1;0;me;",
        ("ACKNOWLEDGE_HOST_PROBLEM", 0, [2, 1, 0, 0, 0], ("me", "")),
    ),
    (
        "REMOVE_HOST_ACKNOWLEDGEMENT;b",
        ("REMOVE_HOST_ACKNOWLEDGEMENT", 1, [0; 5], ("", "")),
    ),
    (
        "SCHEDULE_HOST_DOWNTIME;b;999999999999;2;3;4;5;me;why",
        (
            "SCHEDULE_HOST_DOWNTIME",
            1,
            [999999999999, 2, 3, 4, 5],
            ("me", "why"),
        ),
    ),
    (
        "DEL_HOST_DOWNTIME;007",
        ("DEL_HOST_DOWNTIME", 0, [7, 0, 0, 0, 0], ("", "")),
    ),
    (
        "ENABLE_HOST_NOTIFICATIONS;a;x",
        ("ENABLE_HOST_NOTIFICATIONS", 0, [0; 5], ("", "")),
    ),
    (
        "DISABLE_HOST_NOTIFICATIONS;b",
        ("DISABLE_HOST_NOTIFICATIONS", 1, [0; 5], ("", "")),
    ),
    (
        "ENABLE_NOTIFICATIONS;x",
        ("ENABLE_NOTIFICATIONS", 0, [0; 5], ("", "")),
    ),
    (
        "DISABLE_NOTIFICATIONS",
        ("DISABLE_NOTIFICATIONS", 0, [0; 5], ("", "")),
    ),
    (
        "PROCESS_SERVICE_CHECK_RESULT;a;x;3",
        ("PROCESS_SERVICE_CHECK_RESULT", 2, [3, 0, 0, 0, 0], ("", "")),
    ),
    (
        "ADD_SVC_COMMENT;a;y z;0;;\u{FFFD}",
        ("ADD_SVC_COMMENT", 3, [0; 5], ("", "\u{FFFD}")),
    ),
    (
        "DEL_SVC_COMMENT;0",
        ("DEL_SVC_COMMENT", 0, [0; 5], ("", "")),
    ),
    (
        "ACKNOWLEDGE_SVC_PROBLEM;b;x;1;2;3;me;text",
        (
            "ACKNOWLEDGE_SVC_PROBLEM",
            0,
            [1, 2, 3, 0, 0],
            ("me", "text"),
        ),
    ),
    (
        "REMOVE_SVC_ACKNOWLEDGEMENT;b;y z;",
        ("REMOVE_SVC_ACKNOWLEDGEMENT", 1, [0; 5], ("", "")),
    ),
    (
        "SCHEDULE_SVC_DOWNTIME;b;x;1;2;3;4;1234567890123;me;why",
        (
            "SCHEDULE_SVC_DOWNTIME",
            0,
            [1, 2, 3, 4, 1234567890123],
            ("me", "why"),
        ),
    ),
    (
        "DEL_SVC_DOWNTIME;8",
        ("DEL_SVC_DOWNTIME", 0, [8, 0, 0, 0, 0], ("", "")),
    ),
    (
        "ENABLE_SVC_NOTIFICATIONS;a;x",
        ("ENABLE_SVC_NOTIFICATIONS", 2, [0; 5], ("", "")),
    ),
    (
        "DISABLE_SVC_NOTIFICATIONS;b;x",
        ("DISABLE_SVC_NOTIFICATIONS", 0, [0; 5], ("", "")),
    ),
];

/// Lines with a word that no command has.
const UNKNOWN: &[&str] = &[
    "",
    "RESTART",
    "enable_notifications",
    "ENABLE_NOTIFICATIONS\r",
    "ENABLE_NOTIFICATIONS ;",
    "; ENABLE_NOTIFICATIONS",
    "DISABLE_NOTIFICATION",
];

fn assert_all_said<R: Abort + AllocGlobal>(rt: &R, base: &Base) -> Result<(), Fail> {
    for (text, said) in SAID {
        assert_said(rt, base, ("[1] ", *text), *said)?;
    }
    for text in UNKNOWN {
        assert_said(rt, base, ("[1] ", *text), NOTHING)?;
    }
    Ok(())
}

#[test]
fn each_command_says_its_fields(rt: HostRuntime) -> Result<(), Fail> {
    let base = base_of(rt.alloc(), OBJECTS)?;
    assert_all_said(&rt, &base)
}

/// The word of each command that has fields, and lists of fields, with bars between them, with
/// which it does nothing: a field that isn't there, an unknown name, a number that is none or out
/// of its range.
const MALFORMED: &[(&str, &str)] = &[
    (
        "PROCESS_HOST_CHECK_RESULT",
        "|a|c;1;up|;1;up|a;;up|a;x;up|a;3;up|a;18446744073709551616;up",
    ),
    (
        "PROCESS_SERVICE_CHECK_RESULT",
        "|a|a;x|c;x;1;up|a;z;1;up|a;x;;up|a;x;-1;up|a;x;4;up",
    ),
    (
        "ADD_HOST_COMMENT",
        "|a|a;1|a;1;me|c;1;me;why|a;x;me;why|a;;me;why|a;18446744073709551616;me;why",
    ),
    (
        "ADD_SVC_COMMENT",
        "|a|a;x|a;x;1|a;x;1;me|c;x;1;me;why|a;z;1;me;why|a;x;y;me;why|\
         a;x;18446744073709551616;me;why",
    ),
    ("DEL_HOST_COMMENT", "|x|-1|1 |18446744073709551616"),
    ("DEL_SVC_COMMENT", "|x|-1|1 |18446744073709551616"),
    (
        "ACKNOWLEDGE_HOST_PROBLEM",
        "|a|a;2|a;2;1|a;2;1;0|a;2;1;0;me|c;2;1;0;me;why|a;x;1;0;me;why|a;2;x;0;me;why|\
         a;2;1;x;me;why|a;18446744073709551616;1;0;me;why",
    ),
    (
        "ACKNOWLEDGE_SVC_PROBLEM",
        "|a|a;x|a;x;2|a;x;2;1|a;x;2;1;0|a;x;2;1;0;me|c;x;2;1;0;me;why|a;z;2;1;0;me;why|\
         a;x;y;1;0;me;why|a;x;2;y;0;me;why|a;x;2;1;y;me;why|a;x;2;1;18446744073709551616;me;why",
    ),
    ("REMOVE_HOST_ACKNOWLEDGEMENT", "|c| a"),
    ("REMOVE_SVC_ACKNOWLEDGEMENT", "|a|c;x|a;z|x;a"),
    (
        "SCHEDULE_HOST_DOWNTIME",
        "|a|a;1|a;1;2|a;1;2;1|a;1;2;1;0|a;1;2;1;0;5|a;1;2;1;0;5;me|c;1;2;1;0;5;me;why|\
         a;x;2;1;0;5;me;why|a;1;x;1;0;5;me;why|a;1;2;x;0;5;me;why|a;1;2;1;x;5;me;why|\
         a;1;2;1;0;x;me;why|a;1234567890123;2;1;0;5;me;why|a;1;0000000000002;1;0;5;me;why|\
         a;1;2;1;0;18446744073709551616;me;why",
    ),
    (
        "SCHEDULE_SVC_DOWNTIME",
        "|a|a;x|a;x;1|a;x;1;2|a;x;1;2;1|a;x;1;2;1;0|a;x;1;2;1;0;5|a;x;1;2;1;0;5;me|\
         c;x;1;2;1;0;5;me;why|a;z;1;2;1;0;5;me;why|a;x;y;2;1;0;5;me;why|a;x;1;y;1;0;5;me;why|\
         a;x;1;2;y;0;5;me;why|a;x;1;2;1;y;5;me;why|a;x;1;2;1;0;y;me;why|\
         a;x;1234567890123;2;1;0;5;me;why|\
         a;x;1;0000000000002;1;0;5;me;why|a;x;1;2;1;0;18446744073709551616;me;why",
    ),
    ("DEL_HOST_DOWNTIME", "|x|-1|1 |18446744073709551616"),
    ("DEL_SVC_DOWNTIME", "|x|-1|1 |18446744073709551616"),
    ("ENABLE_HOST_NOTIFICATIONS", "|c| a"),
    ("DISABLE_HOST_NOTIFICATIONS", "|c| a"),
    ("ENABLE_SVC_NOTIFICATIONS", "|a|c;x|a;z|x;a"),
    ("DISABLE_SVC_NOTIFICATIONS", "|a|c;x|a;z|x;a"),
];

fn assert_malformed<R: Abort + AllocGlobal>(
    rt: &R,
    base: &Base,
    (word, lists): (&str, &str),
) -> Result<(), Fail> {
    assert_said(rt, base, ("[1]", word), NOTHING)?;
    for fields in lists.split('|') {
        let text = format!(in rt.alloc(); "{word};{fields}")?;
        assert_said(rt, base, ("[1] ", text.as_str()), NOTHING)?;
    }
    Ok(())
}

fn assert_all_malformed<R: Abort + AllocGlobal>(rt: &R, base: &Base) -> Result<(), Fail> {
    for malformed in MALFORMED {
        assert_malformed(rt, base, *malformed)?;
    }
    Ok(())
}

#[test]
fn a_command_wants_its_fields(rt: HostRuntime) -> Result<(), Fail> {
    let base = base_of(rt.alloc(), OBJECTS)?;
    assert_all_malformed(&rt, &base)
}

/// Lines, the second and the text that they have, and what they say.
const SECONDS: &[(&[u8], (u64, &str, Said<'static>))] = &[
    (
        b"[999999999999] \t A b;\r",
        (999_999_999_999, "A b;\r", NOTHING),
    ),
    (b"[0]A ", (0, "A ", NOTHING)),
    (b"[000000000012]", (12, "", NOTHING)),
    (b"[1]\xffA\xc3\xa4", (1, "\u{FFFD}Aä", NOTHING)),
    (
        b"[1] ADD_SVC_COMMENT;a;y z;0;;\xff",
        (
            1,
            "ADD_SVC_COMMENT;a;y z;0;;\u{FFFD}",
            ("ADD_SVC_COMMENT", 3, [0; 5], ("", "\u{FFFD}")),
        ),
    ),
    (
        b"[1]  ; ENABLE_NOTIFICATIONS",
        (1, "; ENABLE_NOTIFICATIONS", NOTHING),
    ),
];

const WITHOUT_SECOND: &[&[u8]] = &[
    b"",
    b"ENABLE_NOTIFICATIONS",
    b"[] ENABLE_NOTIFICATIONS",
    b"[1 ENABLE_NOTIFICATIONS",
    b" [1] ENABLE_NOTIFICATIONS",
    b"[-1] ENABLE_NOTIFICATIONS",
    b"[1234567890123] ENABLE_NOTIFICATIONS",
];

fn has_no_second(alloc: Global, base: &Base, line: &[u8]) -> bool {
    match read_command(alloc, base, line).err() {
        Some(CommandErr::NoTime) => true,
        _ => false,
    }
}

fn assert_seconds<R: Abort + AllocGlobal>(rt: &R, base: &Base) {
    for (line, expected) in SECONDS {
        assert!(rt; is_order(rt.alloc(), base, *line, *expected), "at {line:?}");
    }
    for line in WITHOUT_SECOND {
        assert!(rt; has_no_second(rt.alloc(), base, *line), "at {line:?}");
    }
}

#[test]
fn a_line_begins_with_its_second(rt: HostRuntime) -> Result<(), Fail> {
    let base = base_of(rt.alloc(), OBJECTS)?;
    assert_seconds(&rt, &base);
    Ok(())
}
