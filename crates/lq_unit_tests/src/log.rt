//! What log lines say, which lines the program writes, and the book that keeps them.

ghost use Rattle.std.specs.Prelude.{◌≡◌, ◌<◌, IfOk};
ghost use Rattle.lq_log.specs.Entries.{IsOfLine};
ghost use Rattle.lq_log.specs.declared.book.TheConstants.{TIME_LIMIT};

use lq_events::{Kind, LogEntry};
use lq_log::{DowntimeChange, Form, LogBook, LogErr, make_line, read_line};
use lq_records::Text;
use std::alloc::{AllocError, Global};
use std::process::Abort;
use std::test::Fail;

fn kind_name(kind: &Kind) -> &'static str {
    match kind {
        Kind::HostAlert => "HostAlert",
        Kind::ServiceAlert => "ServiceAlert",
        Kind::CurrentHostState => "CurrentHostState",
        Kind::InitialHostState => "InitialHostState",
        Kind::CurrentServiceState => "CurrentServiceState",
        Kind::InitialServiceState => "InitialServiceState",
        Kind::HostDowntimeAlert => "HostDowntimeAlert",
        Kind::ServiceDowntimeAlert => "ServiceDowntimeAlert",
        Kind::HostFlappingAlert => "HostFlappingAlert",
        Kind::ServiceFlappingAlert => "ServiceFlappingAlert",
        Kind::HostNotification => "HostNotification",
        Kind::ServiceNotification => "ServiceNotification",
        Kind::ExternalCommand => "ExternalCommand",
        Kind::PassiveHostCheck => "PassiveHostCheck",
        Kind::PassiveServiceCheck => "PassiveServiceCheck",
        Kind::TimeperiodTransition { .. } => "TimeperiodTransition",
        Kind::Other => "Other",
    }
}

/// The class, kind, state and attempt of an entry, then its other fields with a bar before each:
/// host, service, word, contact, command, output, comment. A transition's own fields follow.
fn shown(alloc: Global, entry: &LogEntry) -> Result<String, AllocError> {
    let kind = kind_name(&entry.kind);
    let mut text = format!(in alloc; "{} {kind} {} {}", entry.class, entry.state, entry.attempt)?;
    let fields = [
        "|",
        entry.host.as_str(),
        "|",
        entry.service.as_str(),
        "|",
        entry.word.as_str(),
        "|",
        entry.contact.as_str(),
        "|",
        entry.command.as_str(),
        "|",
        entry.output.as_str(),
        "|",
        entry.comment.as_str(),
    ];
    text.push_str(fields.concat(alloc)?.as_str())?;
    push_transition(alloc, &mut text, &entry.kind)?;
    Ok(text)
}

fn push_transition(alloc: Global, text: &mut String, kind: &Kind) -> Result<(), AllocError> {
    if let Kind::TimeperiodTransition { name, from, to } = kind {
        let fields = format!(in alloc; " {} {from} {to}", name.as_str())?;
        text.push_str(fields.as_str())?;
    }
    Ok(())
}

fn shown_line(alloc: Global, line: &str) -> Result<String, AllocError> {
    match read_line(alloc, line, 0)? {
        Some(entry) => shown(alloc, &entry),
        None => String::from_str(alloc, "none"),
    }
}

/// Reads a line, and compares what it says.
fn assert_line<R: Abort + AllocGlobal>(rt: &R, line: &str, expected: &str) -> Result<(), Fail> {
    let said = shown_line(rt.alloc(), line)?;
    assert_eq!(rt; said.as_str(), expected, "at {line:?}");
    Ok(())
}

const FORMS: &[(&str, &str)] = &[
    (
        "[5] HOST ALERT: web1;DOWN;HARD;3;no answer; none",
        "1 HostAlert 1 3|web1||HARD|||no answer; none|",
    ),
    (
        "[5] SERVICE ALERT: web1;disk;CRITICAL;SOFT;1;full|x=1",
        "1 ServiceAlert 2 1|web1|disk|SOFT|||full|x=1|",
    ),
    (
        "[5] CURRENT HOST STATE: web1;UP;HARD;1;",
        "6 CurrentHostState 0 1|web1||HARD||||",
    ),
    (
        "[5] INITIAL HOST STATE: web1;UNREACHABLE;SOFT;000000010;away",
        "6 InitialHostState 2 10|web1||SOFT|||away|",
    ),
    (
        "[5] CURRENT SERVICE STATE: web1;disk;UNKNOWN;HARD;1;?",
        "6 CurrentServiceState 3 1|web1|disk|HARD|||?|",
    ),
    (
        "[5] INITIAL SERVICE STATE: web1;disk;WARNING;HARD;999999999;near",
        "6 InitialServiceState 1 999999999|web1|disk|HARD|||near|",
    ),
    (
        "[5] HOST DOWNTIME ALERT: web1;STARTED; work",
        "1 HostDowntimeAlert 0 0|web1||STARTED|||| work",
    ),
    (
        "[5] SERVICE DOWNTIME ALERT: web1;disk;CANCELLED;",
        "1 ServiceDowntimeAlert 0 0|web1|disk|CANCELLED||||",
    ),
    (
        "[5] HOST FLAPPING ALERT: web1;DISABLED;off",
        "1 HostFlappingAlert 0 0|web1||DISABLED||||off",
    ),
    (
        "[5] SERVICE FLAPPING ALERT: web1;disk;STOPPED;calm",
        "1 ServiceFlappingAlert 0 0|web1|disk|STOPPED||||calm",
    ),
    (
        "[5] HOST NOTIFICATION: anna;web1;DOWN;mail;gone",
        "3 HostNotification 1 0|web1||DOWN|anna|mail|gone|",
    ),
    (
        "[5] HOST NOTIFICATION: anna;web1;CRITICAL;mail;gone",
        "3 HostNotification 0 0|web1||CRITICAL|anna|mail|gone|",
    ),
    (
        "[5] SERVICE NOTIFICATION: anna;web1;disk;CRITICAL;mail;full",
        "3 ServiceNotification 2 0|web1|disk|CRITICAL|anna|mail|full|",
    ),
    (
        "[5] SERVICE NOTIFICATION: anna;web1;disk;FLAPPINGSTART (OK);mail;x",
        "3 ServiceNotification 0 0|web1|disk|FLAPPINGSTART (OK)|anna|mail|x|",
    ),
    (
        "[5] EXTERNAL COMMAND: ENABLE_NOTIFICATIONS;1",
        "5 ExternalCommand 0 0|||||||",
    ),
    (
        "[5] PASSIVE HOST CHECK: web1;1;down",
        "4 PassiveHostCheck 1 0|web1|||||down|",
    ),
    (
        "[5] PASSIVE SERVICE CHECK: web1;disk;3;odd",
        "4 PassiveServiceCheck 3 0|web1|disk||||odd|",
    ),
    (
        "[5] TIMEPERIOD TRANSITION: work;-1;1",
        "6 TimeperiodTransition 0 0||||||| work -1 1",
    ),
];

/// Lines that have the name of a form and not its fields.
const FAULTY: &[&str] = &[
    "[5] HOST ALERT: web1;CRITICAL;HARD;1;x",
    "[5] SERVICE ALERT: web1;disk;DOWN;HARD;1;x",
    "[5] SERVICE ALERT: web1;disk;OK;hard;1;x",
    "[5] SERVICE ALERT: web1;disk;OK;HARD;;x",
    "[5] SERVICE ALERT: web1;disk;OK;HARD;1234567890;x",
    "[5] SERVICE ALERT: web1;disk;OK;HARD;+1;x",
    "[5] SERVICE ALERT: web1;disk;OK;HARD;1",
    "[5] HOST ALERT: web1",
    "[5] HOST DOWNTIME ALERT: web1;DISABLED;x",
    "[5] SERVICE FLAPPING ALERT: web1;disk;CANCELLED;x",
    "[5] HOST NOTIFICATION: anna;web1;DOWN;mail",
    "[5] PASSIVE SERVICE CHECK: web1;disk;4;x",
    "[5] PASSIVE HOST CHECK: web1;01;x",
    "[5] TIMEPERIOD TRANSITION: work;0;1;2",
    "[5] TIMEPERIOD TRANSITION: work;9223372036854775808;1",
];

const OTHERS: &[(&str, &str)] = &[
    ("[5] LOG VERSION: 2.0", "2 Other 0 0|||||||"),
    ("[5] LOG ROTATION: DAILY", "2 Other 0 0|||||||"),
    ("[5] Nagios 4.4.6 starting... (PID=1)", "2 Other 0 0|||||||"),
    ("[5] Caught SIGTERM, shutting down...", "2 Other 0 0|||||||"),
    ("[5] Successfully shutdown... (PID=1)", "2 Other 0 0|||||||"),
    ("[5] Bailing out due to errors", "2 Other 0 0|||||||"),
    (
        "[5] Finished daemonizing... (New PID=1)",
        "2 Other 0 0|||||||",
    ),
    (
        "[5] Auto-save of retention data completed",
        "2 Other 0 0|||||||",
    ),
    ("[5] Nagios", "0 Other 0 0|||||||"),
    ("[5] Warning: x", "0 Other 0 0|||||||"),
    ("[5] HOST ALERT:web1;UP;HARD;1;x", "0 Other 0 0|||||||"),
    ("[5] host alert: web1;UP;HARD;1;x", "0 Other 0 0|||||||"),
    ("[5]", "0 Other 0 0|||||||"),
    ("[5] \t ", "0 Other 0 0|||||||"),
];

const SECONDS: &[(&str, &str)] = &[
    ("", "none"),
    (" [5] a", "none"),
    ("[] a", "none"),
    ("[5 a", "none"),
    ("[1234567890123] a", "none"),
    ("[-5] a", "none"),
    ("[5]EXTERNAL COMMAND: a", "5 ExternalCommand 0 0|||||||"),
    (
        "[123456789012] \t EXTERNAL COMMAND:\ta",
        "5 ExternalCommand 0 0|||||||",
    ),
    ("[5] a: b: c", "0 Other 0 0|||||||"),
];

#[test]
fn lines_say_their_fields(rt: HostRuntime) -> Result<(), Fail> {
    for cases in [FORMS, OTHERS, SECONDS] {
        for (line, expected) in cases {
            assert_line(&rt, *line, *expected)?;
        }
    }
    for line in FAULTY {
        assert_line(&rt, *line, "0 Other 0 0|||||||")?;
    }
    Ok(())
}

/// A line, the second of the one before it, and its own.
const MOMENTS: &[(&str, u64, u64)] = &[
    ("[100] é", 0, 100),
    ("[90] é", 100, 100),
    ("[100] é", 100, 100),
    ("[999999999999] é", 5, 999_999_999_999),
    ("[0] é", 0, 0),
];

/// Whether a line after a second gives an entry with a second, whose message is the line.
fn is_at(alloc: Global, line: &str, before: u64, time: u64) -> Result<bool, AllocError> {
    match read_line(alloc, line, before)? {
        Some(entry) => Ok(entry.time == time && entry.message.as_str() == line),
        None => Ok(false),
    }
}

#[test]
fn a_time_is_no_earlier_than_the_one_before(rt: HostRuntime) -> Result<(), Fail> {
    for (line, before, time) in MOMENTS {
        assert!(rt;
            is_at(rt.alloc(), *line, *before, *time)?,
            "at {line:?} after {before}"
        );
    }
    Ok(())
}

// ---- the lines that are written

/// Whether the line of a form at the second 1,700,000,000 has a text, and says its fields.
fn is_written(alloc: Global, form: &Form, (text, said): (&str, &str)) -> Result<bool, AllocError> {
    let entry = make_line(alloc, 1_700_000_000, form)?;
    let shown = shown(alloc, &entry)?;
    let rest = entry.message.as_str().strip_prefix("[1700000000] ");
    Ok(entry.time == 1_700_000_000 && rest == Some(text) && shown.as_str() == said)
}

fn assert_written<R: Abort + AllocGlobal>(
    rt: &R,
    form: Form,
    written: (&str, &str),
) -> Result<(), Fail> {
    let is_same = is_written(rt.alloc(), &form, written)?;
    assert!(rt; is_same, "{}", written.0);
    Ok(())
}

/// An alert of web1 or of a service on it.
fn alert(alloc: Global, service: &str, state: i64) -> Result<Form, AllocError> {
    let host = Text::new(alloc, "web1")?;
    let service = Text::new(alloc, service)?;
    let output = Text::new(alloc, "it; is")?;
    Ok(Form::Alert {
        host,
        service,
        state,
        hard: state == 0,
        attempt: 2,
        output,
    })
}

/// A service's description, a state, and what is written of it.
const ALERTS: &[(&str, i64, (&str, &str))] = &[
    (
        "",
        0,
        (
            "HOST ALERT: web1;UP;HARD;2;it; is",
            "1 HostAlert 0 2|web1||HARD|||it; is|",
        ),
    ),
    (
        "",
        2,
        (
            "HOST ALERT: web1;UNREACHABLE;SOFT;2;it; is",
            "1 HostAlert 2 2|web1||SOFT|||it; is|",
        ),
    ),
    (
        "disk",
        3,
        (
            "SERVICE ALERT: web1;disk;UNKNOWN;SOFT;2;it; is",
            "1 ServiceAlert 3 2|web1|disk|SOFT|||it; is|",
        ),
    ),
    // These say something else than the form, so they are read back.
    (
        "disk;CRITICAL;HARD;7",
        0,
        (
            "SERVICE ALERT: web1;disk;CRITICAL;HARD;7;OK;HARD;2;it; is",
            "1 ServiceAlert 2 7|web1|disk|HARD|||OK;HARD;2;it; is|",
        ),
    ),
    (
        "disk;OK",
        1,
        (
            "SERVICE ALERT: web1;disk;OK;WARNING;SOFT;2;it; is",
            "0 Other 0 0|||||||",
        ),
    ),
    (
        "",
        7,
        ("HOST ALERT: web1;;SOFT;2;it; is", "0 Other 0 0|||||||"),
    ),
];

/// A downtime of web1 or of a service on it.
fn downtime(alloc: Global, service: &str, change: DowntimeChange) -> Result<Form, AllocError> {
    let host = Text::new(alloc, "web1")?;
    let service = Text::new(alloc, service)?;
    Ok(Form::Downtime {
        host,
        service,
        change,
    })
}

/// A service's description, what happens to a downtime, and what is written of it.
const DOWNTIMES: &[(&str, DowntimeChange, (&str, &str))] = &[
    (
        "",
        DowntimeChange::Started,
        (
            "HOST DOWNTIME ALERT: web1;STARTED; Host has entered a period of scheduled downtime",
            "1 HostDowntimeAlert 0 0|web1||STARTED|||| \
             Host has entered a period of scheduled downtime",
        ),
    ),
    (
        "",
        DowntimeChange::Stopped,
        (
            "HOST DOWNTIME ALERT: web1;STOPPED; \
             Host has exited from a period of scheduled downtime",
            "1 HostDowntimeAlert 0 0|web1||STOPPED|||| \
             Host has exited from a period of scheduled downtime",
        ),
    ),
    (
        "",
        DowntimeChange::Cancelled,
        (
            "HOST DOWNTIME ALERT: web1;CANCELLED; Scheduled downtime for host has been cancelled.",
            "1 HostDowntimeAlert 0 0|web1||CANCELLED|||| \
             Scheduled downtime for host has been cancelled.",
        ),
    ),
    (
        "disk",
        DowntimeChange::Started,
        (
            "SERVICE DOWNTIME ALERT: web1;disk;STARTED; \
             Service has entered a period of scheduled downtime",
            "1 ServiceDowntimeAlert 0 0|web1|disk|STARTED|||| \
             Service has entered a period of scheduled downtime",
        ),
    ),
    (
        "disk",
        DowntimeChange::Stopped,
        (
            "SERVICE DOWNTIME ALERT: web1;disk;STOPPED; \
             Service has exited from a period of scheduled downtime",
            "1 ServiceDowntimeAlert 0 0|web1|disk|STOPPED|||| \
             Service has exited from a period of scheduled downtime",
        ),
    ),
    (
        "disk",
        DowntimeChange::Cancelled,
        (
            "SERVICE DOWNTIME ALERT: web1;disk;CANCELLED; \
             Scheduled downtime for service has been cancelled.",
            "1 ServiceDowntimeAlert 0 0|web1|disk|CANCELLED|||| \
             Scheduled downtime for service has been cancelled.",
        ),
    ),
];

const COMMAND: (&str, &str) = (
    "EXTERNAL COMMAND: DEL_HOST_DOWNTIME;1",
    "5 ExternalCommand 0 0|||||||",
);

#[test]
fn commands_alerts_and_downtimes_are_written(rt: HostRuntime) -> Result<(), Fail> {
    let text = Text::new(rt.alloc(), "DEL_HOST_DOWNTIME;1")?;
    assert_written(&rt, Form::External { text }, COMMAND)?;
    for (service, state, written) in ALERTS {
        assert_written(&rt, alert(rt.alloc(), *service, *state)?, *written)?;
    }
    for (service, change, written) in DOWNTIMES {
        assert_written(&rt, downtime(rt.alloc(), *service, *change)?, *written)?;
    }
    Ok(())
}

// ---- the book

fn entry_at(alloc: Global, time: u64) -> Result<LogEntry, AllocError>
    requires { time < TIME_LIMIT }
    ensures time { IfOk result (λ entry. entry.time ≡ time) }
    ensures line { IfOk result IsOfLine }
{
    let text = Text::new(alloc, "ENABLE_NOTIFICATIONS")?;
    make_line(alloc, time, &Form::External { text })
}

#[test]
fn a_book_takes_entries(rt: HostRuntime) -> Result<(), Fail> {
    let alloc = rt.alloc();
    let mut book = LogBook::empty(alloc);
    assert!(rt; book.is_empty());
    book.reserve(2)?;
    assert!(rt; book.len() == 0);
    book.add(entry_at(alloc, 5)?)?;
    book.add(entry_at(alloc, 5)?)?;
    assert!(rt; book.len() == 2);
    book.add(entry_at(alloc, 999_999_999_999)?)?;
    assert!(rt; book.len() == 3);
    assert!(rt; book.reserve((1 << 40) + 1).is_err());
    assert!(rt; book.reserve(usize::MAX).is_err());
    assert!(rt; book.len() == 3);
    assert!(rt; !book.is_empty());
    assert!(rt; book.entries().len() == 3);
    assert!(rt; book.entries().last().map(|entry| entry.time) == Some(999_999_999_999));
    Ok(())
}

// ---- whole logs

/// The seconds and the messages of a log's entries, one a line, and then how many lines have none.
fn read(alloc: Global, log: &[u8]) -> Result<String, Fail> {
    let Ok(book) = LogBook::read(alloc, log) else {
        return Err(Fail::new("the log is refused"));
    };
    let mut text = String::new(alloc);
    for entry in book.entries() {
        let line = format!(in alloc; "{} {}\n", entry.time, entry.message.as_str())?;
        text.push_str(line.as_str())?;
    }
    let skipped = format!(in alloc; "{}", book.skipped())?;
    text.push_str(skipped.as_str())?;
    Ok(text)
}

/// Logs, each with its entries and how many of its lines have none.
const LOGS: &[(&[u8], &str)] = &[
    (b"", "0"),
    (b"\n", "1"),
    (b"[100] a\n[90] b\xff", "100 [100] a\n100 [90] b\u{FFFD}\n0"),
    (b"[5] a\r\n[6] b\r\n", "5 [5] a\n6 [6] b\n0"),
    (b"[5] a\r", "5 [5] a\r\n0"),
    (b"[5] a\r\r\n", "5 [5] a\r\n0"),
    (
        b"x\n\n[5] a\n [6] b\n[7 c\n[] d\n[0]\n[1234567890123] e\n[6]f\n",
        "5 [5] a\n5 [0]\n6 [6]f\n6",
    ),
    (
        b"[9] \xe2\x82\xac \xe2\x82 \xc3\xa9\n",
        "9 [9] \u{20AC} \u{FFFD}\u{FFFD} \u{E9}\n0",
    ),
    (b"[7]\xff a\n[\xff8] b\n", "7 [7]\u{FFFD} a\n1"),
];

#[test]
fn a_log_has_an_entry_for_each_line_with_a_second(rt: HostRuntime) -> Result<(), Fail> {
    for (log, expected) in LOGS {
        let found = read(rt.alloc(), *log)?;
        assert_eq!(rt; found.as_str(), *expected, "at {log:?}");
    }
    Ok(())
}

/// The fault of a log, without a fault how many entries it has.
fn fault(alloc: Global, log: &[u8]) -> Result<String, AllocError> {
    match LogBook::read(alloc, log) {
        Ok(book) => format!(in alloc; "{} entries", book.len()),
        Err(error) => format!(in alloc; "{error}"),
    }
}

/// As many bytes of one kind.
fn push_many(bytes: &mut Vec<u8>, byte: u8, count: usize) -> Result<(), AllocError> {
    for _ in 0..count {
        bytes.push(byte)?;
    }
    Ok(())
}

/// A line of a log with a text of so many bytes, and its end.
fn line_of(alloc: Global, length: usize, end: &[u8]) -> Result<Vec<u8>, AllocError> {
    let mut line = Vec::from_slice(alloc, b"[1] ")?;
    push_many(&mut line, b'x', length.saturating_sub(4))?;
    line.extend_from_slice(end)?;
    Ok(line)
}

/// Reads a log, and compares its fault, or how many entries it has.
fn assert_fault<R: Abort + AllocGlobal>(rt: &R, log: &[u8], expected: &str) -> Result<(), Fail> {
    let found = fault(rt.alloc(), log)?;
    assert_eq!(rt; found.as_str(), expected);
    Ok(())
}

const TOO_LONG: &str = "line 1: line too long";

/// How many bytes a line has, its end, and what a log of this line gives. At the end of the log a
/// carriage return is a part of its line.
const LENGTHS: &[(usize, &[u8], &str)] = &[
    (8192, b"", "1 entries"),
    (8193, b"", TOO_LONG),
    (8192, b"\n", "1 entries"),
    (8193, b"\n", TOO_LONG),
    (8192, b"\r\n", "1 entries"),
    (8193, b"\r\n", TOO_LONG),
    (8192, b"\r", TOO_LONG),
];

/// An empty line, an entry, and two lines that are too long.
fn later_lines(alloc: Global) -> Result<Vec<u8>, AllocError> {
    let mut log = Vec::from_slice(alloc, b"\n[1] a\n")?;
    log.extend_from_slice(&line_of(alloc, 9000, b"\n")?)?;
    log.extend_from_slice(&line_of(alloc, 9001, b"\n")?)?;
    Ok(log)
}

#[test]
fn a_line_of_a_log_has_8_192_bytes_at_most(rt: HostRuntime) -> Result<(), Fail> {
    for (length, end, expected) in LENGTHS {
        let log = line_of(rt.alloc(), *length, *end)?;
        assert_fault(&rt, &log, *expected)?;
    }
    assert_fault(&rt, &later_lines(rt.alloc())?, "line 3: line too long")
}

const TOO_MANY: &str = "line 200001: too many lines";

/// Reads so many empty lines and a last piece, and compares as `assert_fault` does.
fn assert_counted<R: Abort + AllocGlobal>(
    rt: &R,
    count: usize,
    last: &[u8],
    expected: &str,
) -> Result<(), Fail> {
    let mut log = Vec::with_capacity(rt.alloc(), count)?;
    push_many(&mut log, b'\n', count)?;
    log.extend_from_slice(last)?;
    assert_fault(rt, &log, expected)
}

/// Reads a line that is too long, and then one line too many.
fn assert_first_fault<R: Abort + AllocGlobal>(rt: &R, long: &[u8]) -> Result<(), Fail> {
    let mut log = Vec::from_slice(rt.alloc(), long)?;
    push_many(&mut log, b'\n', 200_000)?;
    log.push(b'x')?;
    assert_fault(rt, &log, TOO_LONG)
}

#[test]
fn a_log_has_200_000_lines_at_most(rt: HostRuntime) -> Result<(), Fail> {
    assert_counted(&rt, 199_999, b"[1] a", "1 entries")?;
    assert_counted(&rt, 200_000, b"", "0 entries")?;
    assert_counted(&rt, 200_000, b"x", TOO_MANY)?;
    let long = line_of(rt.alloc(), 9000, b"\n")?;
    // A line that passes both limits is one too many.
    assert_counted(&rt, 200_000, &long, TOO_MANY)?;
    assert_first_fault(&rt, &long)
}

#[test]
fn a_book_keeps_how_many_lines_have_no_entry(rt: HostRuntime) -> Result<(), Fail> {
    let log = b"x\n[5] a\n[3] b\n";
    let Ok(book) = LogBook::read(rt.alloc(), log) else {
        return Err(Fail::new("the log is refused"));
    };
    let mut book = book;
    book.reserve(1)?;
    assert_eq!(rt; book.skipped(), 1);
    assert_eq!(rt; book.copy(rt.alloc())?.skipped(), 1);
    assert_eq!(rt; LogBook::empty(rt.alloc()).skipped(), 0);
    Ok(())
}
