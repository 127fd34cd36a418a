//! Messages cut out of a connection's bytes, and what a query asks or why it is refused.

use lq_objects::read_objects;
use lq_records::Rules;
use lq_request::{Cut, Cutting, ReadErr, Request, read_request, reply_style};
use lq_schema::{Col, Table, column_at, column_count, column_name};
use std::alloc::{AllocError, Global};
use std::process::Abort;
use std::test::Fail;

fn feed(rt: &impl Abort, cut: &mut Cut, piece: &[u8]) {
    assert!(rt; piece.len() <= cut.room());
    cut.feed(piece);
}

fn is_piece(found: Cutting<'_>, expected: Cutting<'_>) -> bool {
    match (found, expected) {
        (Cutting::Query(text), Cutting::Query(same)) => text == same,
        (Cutting::Command(text), Cutting::Command(same)) => text == same,
        (Cutting::TooLong(bytes), Cutting::TooLong(same)) => bytes == same,
        (Cutting::More, Cutting::More) => true,
        (Cutting::Empty, Cutting::Empty) => true,
        _ => false,
    }
}

/// A whole input, and what is cut out of it first and second.
type Whole<'a> = (&'a [u8], Cutting<'a>, Cutting<'a>);

const QUERIES: &[Whole<'static>] = &[
    (b"", Cutting::Empty, Cutting::Empty),
    (b"\n\r\n\n", Cutting::Empty, Cutting::Empty),
    (b"a\nb\n\n", Cutting::Query(b"a\nb\n"), Cutting::Empty),
    (
        b"a\n\nb\n\n",
        Cutting::Query(b"a\n"),
        Cutting::Query(b"b\n"),
    ),
    (
        b"\n\r\n\na\n\n\n\nb",
        Cutting::Query(b"a\n"),
        Cutting::Query(b"b"),
    ),
    (
        b"a\r\nb\r\n\r\n",
        Cutting::Query(b"a\r\nb\r\n"),
        Cutting::Empty,
    ),
    (b"a\nb", Cutting::Query(b"a\nb"), Cutting::Empty),
    (b"a\nb\n", Cutting::Query(b"a\nb\n"), Cutting::Empty),
    (b"a\n\r", Cutting::Query(b"a\n\r"), Cutting::Empty),
    (b"\r", Cutting::Query(b"\r"), Cutting::Empty),
    (b" \n\n", Cutting::Query(b" \n"), Cutting::Empty),
];

const COMMANDS: &[Whole<'static>] = &[
    (b"COMMAND", Cutting::Command(b""), Cutting::Empty),
    (b"COMMAND\n\n", Cutting::Command(b""), Cutting::Empty),
    (
        b"COMMAND a b \r\nc",
        Cutting::Command(b"a b "),
        Cutting::Query(b"c"),
    ),
    (b"COMMAND\t a\n", Cutting::Command(b"a"), Cutting::Empty),
    (b"COMMAND  \t\n", Cutting::Command(b""), Cutting::Empty),
    (b"\r\n\nCOMMAND a", Cutting::Command(b"a"), Cutting::Empty),
    (b"COMMAND a\r", Cutting::Command(b"a\r"), Cutting::Empty),
    (
        b"COMMAND a\nCOMMAND b",
        Cutting::Command(b"a"),
        Cutting::Command(b"b"),
    ),
    (b"COMMAND\r\na", Cutting::Command(b""), Cutting::Query(b"a")),
    (b"COMMAND\r", Cutting::Query(b"COMMAND\r"), Cutting::Empty),
    (
        b"COMMANDX a\n\n",
        Cutting::Query(b"COMMANDX a\n"),
        Cutting::Empty,
    ),
    (b" COMMAND a", Cutting::Query(b" COMMAND a"), Cutting::Empty),
    (b"command a", Cutting::Query(b"command a"), Cutting::Empty),
    (
        b"a\nCOMMAND b\n\n",
        Cutting::Query(b"a\nCOMMAND b\n"),
        Cutting::Empty,
    ),
];

/// A cut that was fed with an input.
fn cut_of(rt: &impl Abort, alloc: Global, input: &[u8]) -> Result<Cut, AllocError> {
    let mut cut = Cut::new(alloc)?;
    feed(rt, &mut cut, input);
    Ok(cut)
}

fn assert_whole<R: Abort + AllocGlobal>(rt: &R, inputs: &[Whole<'_>]) -> Result<(), Fail> {
    for (input, first, second) in inputs {
        let mut cut = cut_of(rt, rt.alloc(), *input)?;
        let is_first = is_piece(cut.next_message(true), *first);
        let is_second = is_piece(cut.next_message(true), *second);
        assert!(rt;
            is_first && is_second,
            "{is_first} {is_second} of {input:?}"
        );
    }
    Ok(())
}

#[test]
fn queries_and_commands_are_cut(rt: HostRuntime) -> Result<(), Fail> {
    assert_whole(&rt, QUERIES)?;
    assert_whole(&rt, COMMANDS)
}

/// Shows each message of an input in a text, where the input comes in pieces of a size. A piece
/// ends at most three messages.
fn messages_in(
    rt: &impl Abort,
    alloc: Global,
    input: &[u8],
    size: usize,
) -> Result<Vec<u8>, AllocError> {
    assert!(rt; size != 0);
    let mut seen = Vec::new(alloc);
    let mut cut = Cut::new(alloc)?;
    for piece in input.chunks(size) {
        feed(rt, &mut cut, piece);
        for _ in 0..3 {
            show_piece(&mut seen, cut.next_message(false))?;
        }
    }
    Ok(seen)
}

fn show_piece(seen: &mut Vec<u8>, found: Cutting<'_>) -> Result<(), AllocError> {
    match found {
        Cutting::Query(text) => show(seen, b"query ", text),
        Cutting::Command(text) => show(seen, b"command ", text),
        _ => Ok(()),
    }
}

fn show(seen: &mut Vec<u8>, kind: &[u8], text: &[u8]) -> Result<(), AllocError> {
    seen.extend_from_slice(kind)?;
    seen.extend_from_slice(text)
}

#[test]
fn messages_are_the_same_however_they_come(rt: HostRuntime) -> Result<(), Fail> {
    let input = b"\nGET a\nb\r\n\nCOMMAND c\r\n\nGET d\n\nCOMMANDe";
    let expected = b"query GET a\nb\r\ncommand cquery GET d\n";
    for size in [1, 2, 3, 7, 100] {
        let seen = messages_in(&rt, rt.alloc(), input, size)?;
        assert!(rt; seen.as_slice() == expected.as_slice(), "size {size}");
    }
    Ok(())
}

/// Compares the next piece of an input that goes on or ends, and how many bytes may be fed then.
fn assert_next(rt: &impl Abort, cut: &mut Cut, is_end: bool, expected: Cutting<'_>, room: usize) {
    assert!(rt; is_piece(cut.next_message(is_end), expected), "room {room}");
    assert!(rt; cut.room() == room);
}

#[test]
fn a_message_comes_byte_by_byte(rt: HostRuntime) -> Result<(), Fail> {
    let mut cut = Cut::new(rt.alloc())?;
    assert!(rt; cut.room() == 65_537);
    for byte in b"\na\r\n\r" {
        feed(&rt, &mut cut, &[*byte]);
        assert!(rt; is_piece(cut.next_message(false), Cutting::More));
    }
    assert!(rt; cut.room() == 65_532);
    feed(&rt, &mut cut, b"\nb");
    assert_next(&rt, &mut cut, false, Cutting::Query(b"a\r\n"), 65_536);
    assert_next(&rt, &mut cut, false, Cutting::More, 65_536);
    assert_next(&rt, &mut cut, true, Cutting::Query(b"b"), 65_537);
    Ok(())
}

/// Bytes: a front, a byte as often as the number says, and an end.
type Padded<'a> = (&'a [u8], u8, usize, &'a [u8]);

fn padded(alloc: Global, (front, byte, count, end): Padded<'_>) -> Result<Vec<u8>, AllocError> {
    let mut bytes = Vec::from_slice(alloc, front)?;
    bytes.extend_from_slice(&vec![in alloc; byte; count]?)?;
    bytes.extend_from_slice(end)?;
    Ok(bytes)
}

/// What a piece is, with other bytes.
fn with_bytes<'a>(piece: Cutting<'_>, bytes: &'a [u8]) -> Cutting<'a> {
    match piece {
        Cutting::Query(_) => Cutting::Query(bytes),
        Cutting::Command(_) => Cutting::Command(bytes),
        Cutting::TooLong(_) => Cutting::TooLong(bytes),
        Cutting::More => Cutting::More,
        Cutting::Empty => Cutting::Empty,
    }
}

/// A whole input, what is cut first out of it, with which bytes, and how many may be fed then.
type Limit<'a> = (Padded<'a>, Cutting<'a>, Padded<'a>, usize);

const LIMITS: &[Limit<'static>] = &[
    (
        (b"", b'a', 65_534, b"\n\n"),
        Cutting::Query(b""),
        (b"", b'a', 65_534, b"\n"),
        65_537,
    ),
    (
        (b"", b'a', 65_535, b"\n\n"),
        Cutting::TooLong(b""),
        (b"", b'a', 65_535, b"\n"),
        65_536,
    ),
    (
        (b"", b'a', 65_535, b"\n"),
        Cutting::Query(b""),
        (b"", b'a', 65_535, b"\n"),
        65_537,
    ),
    (
        (b"", b'\n', 65_536, b""),
        Cutting::Empty,
        (b"", b'a', 0, b""),
        65_537,
    ),
    (
        (b"", b'\n', 65_537, b""),
        Cutting::TooLong(b""),
        (b"", b'\n', 65_536, b""),
        65_536,
    ),
    (
        (b"\r\nCOMMAND ", b'a', 65_525, b"\n"),
        Cutting::Command(b""),
        (b"", b'a', 65_525, b""),
        65_537,
    ),
    (
        (b"\r\nCOMMAND ", b'a', 65_526, b"\n"),
        Cutting::TooLong(b""),
        (b"\r\nCOMMAND ", b'a', 65_526, b""),
        65_536,
    ),
];

/// A cut that was fed with a padded input.
fn cut_of_padded(rt: &impl Abort, alloc: Global, input: Padded<'_>) -> Result<Cut, AllocError> {
    let input = padded(alloc, input)?;
    cut_of(rt, alloc, &input)
}

fn assert_limit<R: Abort + AllocGlobal>(
    rt: &R,
    (input, piece, bytes, room): Limit<'_>,
) -> Result<(), Fail> {
    let mut cut = cut_of_padded(rt, rt.alloc(), input)?;
    let bytes = padded(rt.alloc(), bytes)?;
    let is_same = is_piece(cut.next_message(true), with_bytes(piece, &bytes));
    assert!(rt; is_same && cut.room() == room, "room {room}");
    Ok(())
}

#[test]
fn a_message_ends_within_its_limit(rt: HostRuntime) -> Result<(), Fail> {
    for limit in LIMITS {
        assert_limit(&rt, *limit)?;
    }
    Ok(())
}

// ---- what a message asks

/// What a message asks: its table, `+names` where a line of names comes first, `+keep` where the
/// connection goes on, `+limit` with the most rows where it says them, and its columns. Of a
/// refused one its code, `+keep` and its text.
fn shown(alloc: Global, read: &Result<Request, ReadErr>) -> Result<String, AllocError> {
    match read {
        Ok(request) => shown_request(alloc, request),
        Err(ReadErr::Refused { fixed16: true, .. }) => String::from_str(alloc, "fixed16"),
        Err(ReadErr::Refused { refusal, keep, .. }) => {
            let keep = if *keep { "+keep" } else { "" };
            format!(in alloc; "{}{keep} {}", refusal.code, refusal.text.as_str())
        }
        Err(ReadErr::Memory) => String::from_str(alloc, "out of memory"),
    }
}

fn shown_request(alloc: Global, request: &Request) -> Result<String, AllocError> {
    if request.fixed16 {
        return String::from_str(alloc, "fixed16");
    }
    let names = if request.head { "+names" } else { "" };
    let keep = if request.keep { "+keep" } else { "" };
    let limit = shown_limit(alloc, request.limit)?;
    let columns = shown_columns(alloc, request.table, request.columns.as_slice())?;
    format!(in alloc; "{}{names}{keep}{limit}{columns}", request.table.name())
}

fn shown_limit(alloc: Global, limit: Option<u64>) -> Result<String, AllocError> {
    match limit {
        Some(most) => format!(in alloc; "+limit {most}"),
        None => Ok(String::new(alloc)),
    }
}

/// Whether columns are all those of a table, in order, by their names.
fn are_all(table: Table, columns: &[Col]) -> bool {
    for i in 0..column_count(table) {
        let Some(column) = columns.get(i) else {
            return false;
        };
        let name = column_name(*column);
        let expected = column_name(column_at(table, i));
        if name.prefix != expected.prefix || name.name != expected.name {
            return false;
        }
    }
    columns.len() == column_count(table)
}

/// The names of columns with a blank before each. Where they are many, that they are all of the
/// table, or how many they are.
fn shown_columns(alloc: Global, table: Table, columns: &[Col]) -> Result<String, AllocError> {
    if columns.len() > 4 {
        if are_all(table, columns) {
            return String::from_str(alloc, " all columns");
        }
        return format!(in alloc; " {} columns", columns.len());
    }
    let mut shown = String::new(alloc);
    for column in columns {
        let name = column_name(*column);
        shown.push_str(" ")?;
        shown.push_str(name.prefix)?;
        shown.push_str(name.name)?;
    }
    Ok(shown)
}

/// What a message asks of the empty base.
fn read(alloc: Global, message: &[u8]) -> Result<String, Fail> {
    let base = read_objects(alloc, b"", Rules::default())?;
    let read = read_request(alloc, message, &base);
    drop(base);
    Ok(shown(alloc, &read)?)
}

/// Reads a message, and compares what it asks.
fn assert_read<R: Abort + AllocGlobal>(rt: &R, message: &[u8], expected: &str) -> Result<(), Fail> {
    let shown = read(rt.alloc(), message)?;
    assert_eq!(rt; shown.as_str(), expected, "at {message:?}");
    assert!(rt;
        reply_style(message).keep == expected.contains("+keep"),
        "at {message:?}"
    );
    Ok(())
}

const COLUMNS: &[(&[u8], &str)] = &[
    (b"GET hosts\nColumns: name state", "hosts name state"),
    (
        b"GET hosts\nColumns: alias\nColumnHeaders: on\nColumns: address",
        "hosts+names alias address",
    ),
    (b"GET hosts\nColumns: state host_name", "hosts state name"),
    (b"GET hosts\nColumns: host_alias", "hosts alias"),
    (b"GET hosts\r\nColumns:state\r\n", "hosts state"),
    (
        b"GET hosts\nColumns: state name\nColumns: state\n",
        "hosts state name state",
    ),
    (b"\t GET\thosts \nColumns:\t\tname \t", "hosts name"),
    (b"GET commands\nColumns: name\n\n", "commands name"),
    (b"GET commands\nColumns: name\r\n\r\nFOO", "commands name"),
    (b"GET commands\n\nColumns: name", "commands+names name line"),
    (b"GET hosts\nColumns: name\tname", "hosts name name"),
    (
        b"GET services\nColumns: host_name description state",
        "services host_name description state",
    ),
    (
        b"GET services\nColumns: service_description",
        "services description",
    ),
    (
        b"GET hostgroups\nColumns: hostgroup_worst_host_state",
        "hostgroups worst_host_state",
    ),
    (
        b"GET servicesbyhostgroup\nColumns: hostgroup_name service_state host_name",
        "servicesbyhostgroup hostgroup_name state host_name",
    ),
    (
        b"GET columns\nColumns: table column_table",
        "columns table table",
    ),
];

const ALL_COLUMNS: &[(&[u8], &str)] = &[
    (b"GET hosts", "hosts+names all columns"),
    (b" GET\thosts\r\n", "hosts+names all columns"),
    (b"GET services", "services+names all columns"),
    (b"GET hostgroups", "hostgroups+names all columns"),
    (b"GET servicegroups", "servicegroups+names all columns"),
    (b"GET contacts", "contacts+names all columns"),
    (
        b"GET contactgroups",
        "contactgroups+names name alias members",
    ),
    (b"GET commands", "commands+names name line"),
    (b"GET timeperiods", "timeperiods+names name alias in"),
    (b"GET downtimes", "downtimes+names all columns"),
    (b"GET comments", "comments+names all columns"),
    (b"GET log", "log+names all columns"),
    (b"GET status", "status+names all columns"),
    (b"GET columns", "columns+names table name type description"),
    (b"GET hostsbygroup", "hostsbygroup+names all columns"),
    (b"GET servicesbygroup", "servicesbygroup+names all columns"),
    (
        b"GET servicesbyhostgroup",
        "servicesbyhostgroup+names all columns",
    ),
];

/// Whether the line of names comes first, and whether the connection goes on.
const SWITCHES: &[(&[u8], &str)] = &[
    (b"GET commands\n", "commands+names name line"),
    (
        b"GET commands\nKeepAlive: on",
        "commands+names+keep name line",
    ),
    (b"GET commands\nColumns: name", "commands name"),
    (
        b"GET commands\nColumnHeaders: on",
        "commands+names name line",
    ),
    (b"GET commands\nColumnHeaders: off", "commands name line"),
    (
        b"GET commands\nColumns: name\nColumnHeaders: on",
        "commands+names name",
    ),
    (
        b"GET commands\nColumnHeaders: on\nColumns: name",
        "commands+names name",
    ),
    (
        b"GET commands\nColumns: name\nColumnHeaders: off",
        "commands name",
    ),
    (
        b"GET commands\nColumns: name\nColumnHeaders:\t on \t\r\n",
        "commands+names name",
    ),
    (
        b"GET commands\nColumnHeaders:off \r\n",
        "commands name line",
    ),
    (
        b"GET commands\nColumnHeaders: on\nColumnHeaders: off",
        "commands name line",
    ),
    (
        b"GET commands\nColumnHeaders: off\nColumnHeaders: on\nColumns: name",
        "commands+names name",
    ),
    (
        b"GET commands\nKeepAlive:\ton \r\n",
        "commands+names+keep name line",
    ),
    (
        b"GET commands\nKeepAlive: on\nKeepAlive: off",
        "commands+names name line",
    ),
    (
        b"GET commands\nKeepAlive: off\nKeepAlive: on",
        "commands+names+keep name line",
    ),
    (
        b"GET hosts\nKeepAlive: on\nKeepAlive: no",
        "400+keep bad value for KeepAlive",
    ),
    (
        b"GET hosts\nKeepAlive: off\nKeepAlive: yes\n",
        "400 bad value for KeepAlive",
    ),
    (b"KeepAlive: on\nGET hosts", "452+keep invalid request"),
    (b"FOO\nKeepAlive: on\n\xff", "452+keep invalid request"),
    (b"GET hosts\n\xff\nKeepAlive: on\r", "400 not UTF-8"),
    (
        b"GET hosts\n KeepAlive: on",
        "400 unknown header:  KeepAlive",
    ),
    (b"KeepAlive: on", "452+keep invalid request"),
];

const FIRST_LINES: &[(&[u8], &str)] = &[
    (b"", "452 invalid request"),
    (b" \t", "452 invalid request"),
    (b"FOO", "452 invalid request"),
    (b"get hosts\nColumns: name", "452 invalid request"),
    (b"GETS hosts", "452 invalid request"),
    (b"GET\nColumns: name", "451 missing table name"),
    (b"GET nothing\nColumns: name", "404 unknown table: nothing"),
    (b"GET Hosts\nColumns: name", "404 unknown table: Hosts"),
    (b"GET logs", "404 unknown table: logs"),
    (b"GET statehist", "400 time filter missing"),
    (b"GET statehistory", "404 unknown table: statehistory"),
    (b"GET nothing x", "404 unknown table: nothing"),
    (b"GET hosts x", "400 extra words after the table name"),
    (b"FOO \xff", "400 not UTF-8"),
    (b"GET nothing\nColumns: nope", "404 unknown table: nothing"),
];

const HEADERS: &[(&[u8], &str)] = &[
    (
        b"GET hosts\nColumnHeaders: On",
        "400 bad value for ColumnHeaders",
    ),
    (
        b"GET hosts\nColumnHeaders:",
        "400 bad value for ColumnHeaders",
    ),
    (
        b"GET hosts\nColumnHeaders: on off",
        "400 bad value for ColumnHeaders",
    ),
    (
        b"GET hosts\nColumnHeaders: on\nColumnHeaders: 1\nColumns:",
        "400 bad value for ColumnHeaders",
    ),
    (
        b"GET hosts\nColumnHeaders : on",
        "400 unknown header: ColumnHeaders ",
    ),
    (
        b"GET hosts\ncolumnheaders: on",
        "400 unknown header: columnheaders",
    ),
    (b"GET hosts\nKeepAlive: On", "400 bad value for KeepAlive"),
    (b"GET hosts\nKeepAlive:", "400 bad value for KeepAlive"),
    (
        b"GET hosts\nKeepAlive: on off",
        "400 bad value for KeepAlive",
    ),
    (
        b"GET hosts\nKeepAlive : on",
        "400 unknown header: KeepAlive ",
    ),
    (b"GET hosts\nColumns name", "400 line without a colon"),
    (b"GET hosts\ncolumns: name", "400 unknown header: columns"),
    (b"GET hosts\nColumns : name", "400 unknown header: Columns "),
    (b"GET hosts\n Columns: name", "400 unknown header:  Columns"),
    (
        b"GET hosts\nStatistics: state = 0",
        "400 unknown header: Statistics",
    ),
    (b"GET hosts\n: name", "400 unknown header: "),
    (b"GET hosts\nColumns:", "400 bad value for Columns"),
    (
        b"GET hosts\nColumns: name\nColumns: \t",
        "400 bad value for Columns",
    ),
    (b"GET hosts\nColumns: name \xff", "400 not UTF-8"),
    (b"GET hosts\nColumns: nope \xc0\xaf", "400 not UTF-8"),
    (
        b"GET hosts\nColumns: name\nLimit \xed\xa0\x80",
        "400 not UTF-8",
    ),
    (
        b"GET hosts\nStatistics: state = 0\nColumns: nope",
        "400 unknown header: Statistics",
    ),
];

/// Formats, switches and statistics that aren't well formed, and those that are.
const FORMATS_AND_STATS: &[(&[u8], &str)] = &[
    (
        b"GET hosts\nOutputFormat: python",
        "400 bad value for OutputFormat",
    ),
    (
        b"GET hosts\nOutputFormat: JSON",
        "400 bad value for OutputFormat",
    ),
    (
        b"GET hosts\nSeparators: 10 59 44",
        "400 bad value for Separators",
    ),
    (
        b"GET hosts\nSeparators: 10 59 44 256",
        "400 bad value for Separators",
    ),
    (
        b"GET hosts\nSeparators: 10 59 44 124 9",
        "400 bad value for Separators",
    ),
    (
        b"GET hosts\nResponseHeader: on",
        "400 bad value for ResponseHeader",
    ),
    (b"GET hosts\nLocaltime: -1", "400 bad value for Localtime"),
    (b"GET hosts\nTimelimit:", "400 bad value for Timelimit"),
    (b"GET hosts\nStats:", "400 bad value for Stats"),
    (b"GET hosts\nStats: state", "400 bad value for Stats"),
    (b"GET hosts\nStats: sum", "400 bad value for Stats"),
    (
        b"GET hosts\nStats: sum state state",
        "400 bad value for Stats",
    ),
    (b"GET hosts\nStats: std nope x", "400 bad value for Stats"),
    (
        b"GET hosts\nStats: std state",
        "400 aggregate not supported: std",
    ),
    (
        b"GET hosts\nStats: suminv nope",
        "400 aggregate not supported: suminv",
    ),
    (
        b"GET hosts\nStats: avginv state",
        "400 aggregate not supported: avginv",
    ),
    (b"GET hosts\nStats: sum nope", "450 unknown column: nope"),
    (b"GET hosts\nStats: nope = 0", "450 unknown column: nope"),
    (
        b"GET hosts\nStats: max name",
        "400 operator not allowed for name",
    ),
    (
        b"GET hosts\nStats: state ~ 0",
        "400 operator not allowed for state",
    ),
    (
        b"GET hosts\nStatsAnd: 1",
        "400 stack too short for StatsAnd",
    ),
    (
        b"GET hosts\nStats: state = 0\nStatsOr: 2",
        "400 stack too short for StatsOr",
    ),
    (
        b"GET hosts\nStats: state = 0\nStatsAnd: 0",
        "400 stack too short for StatsAnd",
    ),
    (
        b"GET hosts\nStatsNegate:",
        "400 stack too short for StatsNegate",
    ),
    (
        b"GET hosts\nStats: sum state\nStatsOr: 2",
        "400 stack too short for StatsOr",
    ),
    (
        b"GET hosts\nStats: sum state\nStatsAnd: 1",
        "400 aggregate in StatsAnd",
    ),
    (
        b"GET hosts\nStats: state = 0\nStats: avg state\nStatsOr: 2",
        "400 aggregate in StatsOr",
    ),
    (
        b"GET hosts\nStats: min state\nStatsNegate:",
        "400 aggregate in StatsNegate",
    ),
    (b"GET hosts\nStats: sum state\nStats: name = a", "hosts"),
    (
        b"GET hosts\nColumns: name\nStats: state = 0\nStats: state = 1\nStatsAnd: 2",
        "hosts name",
    ),
    (
        b"GET hosts\nStats: state = 0\nColumnHeaders: on",
        "hosts+names",
    ),
    (
        b"GET hosts\nColumns: nope\nResponseHeader: fixed16",
        "fixed16",
    ),
    (
        b"GET hosts\nColumns: name\nResponseHeader: fixed16\nResponseHeader: off",
        "hosts name",
    ),
    (
        b"GET hosts\nColumns: name\nOutputFormat: json\nSeparators: 0 0 0 0\nLocaltime: 5",
        "hosts name",
    ),
];

const UNKNOWN_COLUMNS: &[(&[u8], &str)] = &[
    (
        b"GET hosts\nColumns: host_host_name",
        "450 unknown column: host_host_name",
    ),
    (
        b"GET hosts\nColumns: name nope no",
        "450 unknown column: nope",
    ),
    (
        b"GET hosts\nColumns: name\nColumns: no nope",
        "450 unknown column: no",
    ),
    (b"GET hosts\nColumns: Name", "450 unknown column: Name"),
    (
        b"GET hosts\nColumns: nope\nLimit \xff",
        "450 unknown column: nope",
    ),
    (b"GET services\nColumns: name", "450 unknown column: name"),
    (
        b"GET services\nColumns: host_host_name",
        "450 unknown column: host_host_name",
    ),
    (
        b"GET contacts\nColumns: contact_name state no",
        "450 unknown column: state",
    ),
    (
        b"GET columns\nColumns: host_name",
        "450 unknown column: host_name",
    ),
];

/// How many rows are shown at most.
const MOST_ROWS: &[(&[u8], &str)] = &[
    (b"GET hosts\nColumns: name\nLimit: 1", "hosts+limit 1 name"),
    (
        b"GET hosts\nColumns: name\nLimit:\t 0 \t\r\n",
        "hosts+limit 0 name",
    ),
    (
        b"GET hosts\nLimit:007\nColumns: name\nKeepAlive: on",
        "hosts+keep+limit 7 name",
    ),
    (
        b"GET hosts\nColumns: name\nLimit: 7\nLimit: 5",
        "hosts+limit 5 name",
    ),
    (
        b"GET hosts\nColumns: name\nLimit: 18446744073709551615",
        "hosts+limit 18446744073709551615 name",
    ),
    (
        b"GET hosts\nLimit: 18446744073709551616",
        "400 bad value for Limit",
    ),
    (b"GET hosts\nLimit: -1", "400 bad value for Limit"),
    (b"GET hosts\nLimit: +1", "400 bad value for Limit"),
    (b"GET hosts\nLimit: 1 1", "400 bad value for Limit"),
    (b"GET hosts\nLimit:", "400 bad value for Limit"),
    (b"GET hosts\nLimit: \t", "400 bad value for Limit"),
    (b"GET hosts\nLimit: x\nLimit: 1", "400 bad value for Limit"),
    (b"GET hosts\nLimit : 1", "400 unknown header: Limit "),
    (b"GET hosts\nlimit: 1", "400 unknown header: limit"),
];

const TESTS: &[(&[u8], &str)] = &[
    (b"GET hosts\nColumns: name\nFilter: state = 0", "hosts name"),
    (b"GET hosts\nFilter:state = 0\nColumns: name", "hosts name"),
    (
        b"GET hosts\nColumns: name\nFilter:\t \tstate\t  >=\t\t 0 \t\r\n",
        "hosts name",
    ),
    (b"GET hosts\nColumns: name\nFilter: name =", "hosts name"),
    (
        b"GET hosts\nColumns: name\nFilter: host_name = a: b",
        "hosts name",
    ),
    (
        b"GET hosts\nColumns: name\nFilter: contacts = \t ",
        "hosts name",
    ),
    (b"GET hosts\nFilter:", "400 bad value for Filter"),
    (b"GET hosts\nFilter: \t", "400 bad value for Filter"),
    (b"GET hosts\nFilter: name", "400 bad value for Filter"),
    (b"GET hosts\nFilter: name \t ", "400 bad value for Filter"),
    (b"GET hosts\nFilter: name=web1", "400 bad value for Filter"),
    (b"GET hosts\nFilter: nope", "400 bad value for Filter"),
    (b"GET hosts\nFilter: nope == x", "450 unknown column: nope"),
    (
        b"GET hosts\nFilter: description = x",
        "450 unknown column: description",
    ),
    (
        b"GET hosts\nFilter: host_host_name = x",
        "450 unknown column: host_host_name",
    ),
    (b"GET hosts\nFilter: Name = x", "450 unknown column: Name"),
    (b"GET hosts\nFilter: name == x", "400 unknown operator: =="),
    (b"GET hosts\nFilter: name =x", "400 unknown operator: =x"),
    (b"GET hosts\nFilter: state <> x", "400 unknown operator: <>"),
    (b"GET hosts\nFilter: name = \xff", "400 not UTF-8"),
    (b"GET hosts\nFilter name = x", "400 line without a colon"),
    (b"GET hosts\nfilter: name = x", "400 unknown header: filter"),
    (
        b"GET hosts\nFilter: state = x\nColumns: nope",
        "400 not a number: x",
    ),
    (
        b"GET hosts\nColumns: nope\nFilter: state = x",
        "450 unknown column: nope",
    ),
];

/// Operators that aren't for a kind of columns.
const NOT_ALLOWED: &[(&[u8], &str)] = &[
    (
        b"GET hosts\nFilter: state ~ x",
        "400 operator not allowed for state",
    ),
    (
        b"GET hosts\nFilter: state !~ 0",
        "400 operator not allowed for state",
    ),
    (
        b"GET hosts\nFilter: state =~ 0",
        "400 operator not allowed for state",
    ),
    (
        b"GET hosts\nFilter: state !=~ 0",
        "400 operator not allowed for state",
    ),
    (
        b"GET hosts\nFilter: state ~~ (",
        "400 operator not allowed for state",
    ),
    (
        b"GET hosts\nFilter: host_state !~~ 0",
        "400 operator not allowed for host_state",
    ),
    (
        b"GET hosts\nFilter: contacts = anna",
        "400 operator not allowed for contacts",
    ),
    (
        b"GET hosts\nFilter: contacts != anna",
        "400 operator not allowed for contacts",
    ),
    (
        b"GET hosts\nFilter: contacts =~ anna",
        "400 operator not allowed for contacts",
    ),
    (
        b"GET hosts\nFilter: contacts =~",
        "400 operator not allowed for contacts",
    ),
    (
        b"GET hosts\nFilter: contacts !=~ anna",
        "400 operator not allowed for contacts",
    ),
    (
        b"GET hosts\nFilter: comments = 1",
        "400 operator not allowed for comments",
    ),
    (
        b"GET hosts\nFilter: downtimes !=~ 1",
        "400 operator not allowed for downtimes",
    ),
    (
        b"GET servicegroups\nFilter: members = a|b",
        "400 operator not allowed for members",
    ),
    (
        b"GET servicegroups\nFilter: members =~ a|b",
        "400 operator not allowed for members",
    ),
];

const OPERANDS: &[(&[u8], &str)] = &[
    (
        b"GET hosts\nColumns: name\nFilter: state = 9223372036854775807",
        "hosts name",
    ),
    (
        b"GET hosts\nColumns: name\nFilter: state != -9223372036854775808",
        "hosts name",
    ),
    (
        b"GET hosts\nFilter: state < 9223372036854775808",
        "400 not a number: 9223372036854775808",
    ),
    (
        b"GET hosts\nFilter: state > -9223372036854775809",
        "400 not a number: -9223372036854775809",
    ),
    (
        b"GET hosts\nColumns: name\nFilter: state = -0",
        "hosts name",
    ),
    (
        b"GET hosts\nColumns: name\nFilter: state = 007",
        "hosts name",
    ),
    (b"GET hosts\nFilter: state = +1", "400 not a number: +1"),
    (b"GET hosts\nFilter: state = - \t", "400 not a number: -"),
    (b"GET hosts\nFilter: state =", "400 not a number: "),
    (b"GET hosts\nFilter: state = \t ", "400 not a number: "),
    (
        b"GET hosts\nFilter: state =  1 \t2 \t",
        "400 not a number: 1 \t2",
    ),
    (b"GET hosts\nFilter: state <= 1.0", "400 not a number: 1.0"),
    (b"GET hosts\nFilter: state >= --1", "400 not a number: --1"),
];

const PATTERNS: &[(&[u8], &str)] = &[
    (b"GET hosts\nColumns: name\nFilter: name ~", "hosts name"),
    (b"GET hosts\nColumns: name\nFilter: name !~ }", "hosts name"),
    (b"GET hosts\nFilter: name ~ (", "400 bad pattern"),
    (b"GET hosts\nFilter: name !~ )", "400 bad pattern"),
    (b"GET hosts\nFilter: name ~~ [", "400 bad pattern"),
    (b"GET hosts\nFilter: name !~~ *", "400 bad pattern"),
    (b"GET hosts\nFilter: name ~ a\\", "400 bad pattern"),
    (b"GET hosts\nFilter: name ~ a{2}", "400 bad pattern"),
    (b"GET hosts\nFilter: name ~ \\{", "400 bad pattern"),
    (b"GET hosts\nFilter: contacts ~ (", "400 bad pattern"),
    (b"GET hosts\nFilter: contacts !~~ {", "400 bad pattern"),
    (b"GET hosts\nColumns: name\nFilter: name = {(", "hosts name"),
    (
        b"GET hosts\nColumns: name\nFilter: contacts >= {(",
        "hosts name",
    ),
];

const JOINS: &[(&[u8], &str)] = &[
    (b"GET hosts\nAnd: 0", "400 stack too short for And"),
    (b"GET hosts\nOr: 0", "400 stack too short for Or"),
    (b"GET hosts\nAnd: 1", "400 stack too short for And"),
    (b"GET hosts\nNegate:", "400 stack too short for Negate"),
    (b"GET hosts\nNegate: 1", "400 stack too short for Negate"),
    (b"GET hosts\nNegate", "400 line without a colon"),
    (
        b"GET hosts\nFilter: state = 0\nAnd: 0",
        "400 stack too short for And",
    ),
    (
        b"GET hosts\nFilter: state = 0\nFilter: state = 1\nAnd: 3",
        "400 stack too short for And",
    ),
    (
        b"GET hosts\nFilter: state = 0\nFilter: state = 1\nOr: 2\nOr: 2",
        "400 stack too short for Or",
    ),
    (
        b"GET hosts\nFilter: state = 0\nNegate:\nAnd: 2",
        "400 stack too short for And",
    ),
    (
        b"GET hosts\nFilter: state = 0\nOr: 18446744073709551615",
        "400 stack too short for Or",
    ),
    (
        b"GET hosts\nOr: 18446744073709551616",
        "400 bad value for Or",
    ),
    (b"GET hosts\nOr: x", "400 bad value for Or"),
    (
        b"GET hosts\nFilter: state = 0\nFilter: state = 1\nOr: 1 1",
        "400 bad value for Or",
    ),
    (b"GET hosts\nAnd:", "400 bad value for And"),
    (
        b"GET hosts\nFilter: state = 0\nAnd: -1",
        "400 bad value for And",
    ),
    (b"GET hosts\nand: 1", "400 unknown header: and"),
    (
        b"GET hosts\nColumns: name\nFilter: state = 0\nAnd: 1\nOr:\t1 \t\nNegate: 9",
        "hosts name",
    ),
    (
        b"GET hosts\nFilter: state = 0\nColumns: name\nFilter: state = 1\nLimit: 3\nOr: 2",
        "hosts+limit 3 name",
    ),
];

#[test]
fn requests_are_read_or_refused(rt: HostRuntime) -> Result<(), Fail> {
    for cases in [
        COLUMNS,
        ALL_COLUMNS,
        SWITCHES,
        FIRST_LINES,
        HEADERS,
        UNKNOWN_COLUMNS,
        FORMATS_AND_STATS,
        MOST_ROWS,
        TESTS,
        NOT_ALLOWED,
        OPERANDS,
        PATTERNS,
        JOINS,
    ] {
        for (message, expected) in cases {
            assert_read(&rt, *message, *expected)?;
        }
    }
    Ok(())
}

/// The front of a query, a part of it as often as the number says, what follows, and what is asked
/// then.
type Repeated<'a> = (&'a [u8], &'a [u8], usize, &'a [u8], &'a str);

const HEADER_LINES: &[Repeated<'static>] = &[
    (
        b"GET hosts",
        b"\nColumns: name",
        256,
        b"",
        "hosts 256 columns",
    ),
    (
        b"GET hosts",
        b"\nColumns: name",
        256,
        b"\nno colon",
        "400 too many headers",
    ),
    (
        b"GET hosts",
        b"\nColumns: name",
        256,
        b"\n\xff\nKeepAlive: on\n",
        "400+keep not UTF-8",
    ),
    (
        b"GET hosts\nColumns: name",
        b"\nFilter: state = 0",
        254,
        b"\nAnd: 254",
        "hosts name",
    ),
    (
        b"GET hosts\nColumns: name",
        b"\nFilter: state = 0",
        254,
        b"\nOr: 255",
        "400 stack too short for Or",
    ),
    (
        b"GET hosts\nColumns: name",
        b"\nFilter: state = 0",
        255,
        b"\nOr: 255",
        "400 too many headers",
    ),
];

/// A query up to a pattern.
const UP_TO_PATTERN: &[u8] = b"GET hosts\nColumns: name\nFilter: name ~ ";

/// A query up to the repetitions in a pattern, each of which nests deeper.
const UP_TO_STARS: &[u8] = b"GET hosts\nColumns: name\nFilter: name ~ a";

/// A query up to its filters.
const UP_TO_FILTERS: &[u8] = b"GET hosts\nColumns: name";

const LONG_AND_MANY_PATTERNS: &[Repeated<'static>] = &[
    (UP_TO_PATTERN, b"a", 200, b"", "hosts name"),
    (UP_TO_PATTERN, b"a", 201, b"", "400 bad pattern"),
    (UP_TO_PATTERN, b" ", 300, b"a", "hosts name"),
    (UP_TO_PATTERN, b"\xc3\xa4", 100, b"", "hosts name"),
    (UP_TO_PATTERN, b"\xc3\xa4", 100, b"a", "400 bad pattern"),
    (UP_TO_PATTERN, b"a", 199, b"{", "400 bad pattern"),
    (
        UP_TO_PATTERN,
        b"(",
        100,
        b"))))))))))))))))))))))))))))))))))))))))))))))))))\
))))))))))))))))))))))))))))))))))))))))))))))))))",
        "hosts name",
    ),
    (UP_TO_PATTERN, b"(", 100, b")", "400 bad pattern"),
    (UP_TO_STARS, b"*", 199, b"", "hosts name"),
    (UP_TO_STARS, b"*", 200, b"", "400 bad pattern"),
    (
        UP_TO_FILTERS,
        b"\nFilter: name ~ a\nFilter: state = 0\nFilter: contacts !~~ b",
        8,
        b"\nFilter: name = a\nAnd: 9",
        "hosts name",
    ),
    (
        UP_TO_FILTERS,
        b"\nFilter: name !~ a",
        16,
        b"\nFilter: name ~~ a",
        "400 too many patterns",
    ),
    (
        UP_TO_FILTERS,
        b"\nFilter: contacts ~~ a",
        16,
        b"\nOr: 16\nFilter: contacts !~ a",
        "400 too many patterns",
    ),
    (
        UP_TO_FILTERS,
        b"\nFilter: name ~ a",
        16,
        b"\nFilter: name ~ (",
        "400 bad pattern",
    ),
];

/// A query with a repeated part.
fn repeated(
    alloc: Global,
    front: &[u8],
    (part, count): (&[u8], usize),
    end: &[u8],
) -> Result<Vec<u8>, AllocError> {
    let mut message = Vec::from_slice(alloc, front)?;
    message.extend_from_slice(&part.repeat(alloc, count)?)?;
    message.extend_from_slice(end)?;
    Ok(message)
}

fn assert_repeated<R: Abort + AllocGlobal>(
    rt: &R,
    (front, part, count, end, expected): Repeated<'_>,
) -> Result<(), Fail> {
    let message = repeated(rt.alloc(), front, (part, count), end)?;
    assert_read(rt, &message, expected)
}

#[test]
fn header_lines_and_patterns_have_their_limits(rt: HostRuntime) -> Result<(), Fail> {
    for cases in [HEADER_LINES, LONG_AND_MANY_PATTERNS] {
        for case in cases {
            assert_repeated(&rt, *case)?;
        }
    }
    Ok(())
}
