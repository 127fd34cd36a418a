//! The faults of object files, each with its line, and the limits.

use lq_objects::{ObjectsErr, read_objects};
use lq_records::Rules;
use std::alloc::{AllocError, Global};
use std::process::Abort;
use std::test::Fail;

/// A file, the line of its first fault and what is wrong there.
type FaultCase<'a> = (&'a [u8], u64, &'a str);

/// The line of a file's first fault and what is wrong there, or 0 and `none`.
fn fault_in(alloc: Global, file: &[u8]) -> (u64, &'static str) {
    match read_objects(alloc, file, Rules::default()).err() {
        None => (0, "none"),
        Some(ObjectsErr::At { line, what }) => (line, what.text()),
        Some(ObjectsErr::Memory(_)) => (0, "out of memory"),
    }
}

fn assert_fault<R: Abort + AllocGlobal>(rt: &R, (file, line, what): FaultCase<'_>) {
    let found = fault_in(rt.alloc(), file);
    assert!(rt; found.0 == line && found.1 == what, "{found:?} in {file:?}");
}

/// Compares the faults of files that stand between others. The lines of the others before them are
/// counted too.
fn assert_faults<R: Abort + AllocGlobal>(
    rt: &R,
    (front, lines, back): (&[u8], u64, &[u8]),
    faults: &[FaultCase<'_>],
) -> Result<(), Fail> {
    for (file, line, what) in faults {
        let whole = [front, *file, back].concat(rt.alloc())?;
        assert_fault(rt, (&whole, line.wrapping_add(lines), *what));
    }
    Ok(())
}

// ---- lines and blocks

const STRAY: &[FaultCase<'static>] = &[
    (b"host_name a\n", 1, "stray line"),
    (b"}\n", 1, "stray line"),
    (b"{\n", 1, "stray line"),
    (b"# comment\n\n \t\nhost_name a\n", 4, "stray line"),
    (b"define host {\nhost_name a\n}\n}\n", 4, "stray line"),
    (
        b"define host {\nhost_name a\n}\nuse t\n}\n",
        4,
        "stray line",
    ),
    (b"x\ndefine host {\nhost_name a\n}\n", 1, "stray line"),
    (b"define\n", 1, "stray line"),
    (b"define host\n{\nhost_name a\n}\n", 1, "stray line"),
    (b"define {\n}\n", 1, "stray line"),
    (b"define{\n}\n", 1, "stray line"),
    (b"define a b {\n}\n", 1, "stray line"),
    (b"definehost {\n}\n", 1, "stray line"),
    (b"Define host {\nhost_name a\n}\n", 1, "stray line"),
    (
        b"define host { # comment\nhost_name a\n}\n",
        1,
        "stray line",
    ),
    (b"define host {\nhost_name a\n}\n\r\r\n", 4, "stray line"),
    (b"define host {\nhost_name a\n}\n\r", 4, "stray line"),
];

const UNCLOSED: &[FaultCase<'static>] = &[
    (b"define host {\nhost_name a", 1, "unclosed"),
    (b"define host {\nhost_name a\n", 1, "unclosed"),
    (b"define host {", 1, "unclosed"),
    (b"\n#\ndefine host{\nhost_name a\n#}\n", 3, "unclosed"),
    (b"define host {\nhost_name a\n}x\n", 1, "unclosed"),
    (b"define host {\nhost_name a }\n", 1, "unclosed"),
    (b"define host {\nhost_name a\n}\r", 1, "unclosed"),
    (
        b"define host {\nhost_name a\n}\n\ndefine host {\nhost_name b\n",
        5,
        "unclosed",
    ),
    (
        b"define host {\nhost_name a\ndefine host {\nhost_name b\n}\n",
        1,
        "unclosed",
    ),
    (
        b"define host {\nhost_name a\ndefine escalation {\n}\n",
        1,
        "unclosed",
    ),
    (b"define escalation {\nx y\n", 1, "unclosed"),
    (
        b"#\ndefine escalation {\nx y\ndefine host {\nhost_name a\n}\n",
        2,
        "unclosed",
    ),
];

/// Of several faults the first line decides, and names that aren't there come after all others.
const FIRST: &[FaultCase<'static>] = &[
    (
        b"define host {\nuse t\nmax_check_attempts 0\n}\n",
        2,
        "not flattened",
    ),
    (
        b"define host {\nmax_check_attempts 0\nuse t\n}\n",
        2,
        "bad number",
    ),
    (
        b"define host {\nmax_check_attempts 0\nmax_check_attempts 3\n}\n",
        2,
        "bad number",
    ),
    (
        b"define host {\nnotifications_enabled 1\nnotifications_enabled 3\n}\n",
        3,
        "bad number",
    ),
    (b"define host {\nalias a\n}\nx\n", 3, "no name"),
    (b"x\ndefine host {\nalias a\n}\n", 1, "stray line"),
    (b"define host {\nuse t\ndefine host {\n", 2, "not flattened"),
    (b"define host {\nmax_check_attempts 0\n", 2, "bad number"),
    (
        b"define host {\ndefine host {\nmax_check_attempts 0\n}\n",
        1,
        "unclosed",
    ),
    (
        b"define escalation {\ndefine host {\nuse t\n}\n",
        1,
        "unclosed",
    ),
    (
        b"define host {\nhost_name a;b\n}\ndefine host {\nhost_name c\n",
        3,
        "bad name",
    ),
    (
        b"define host {\nhost_name a\nparents x\n}\ndefine host {\nhost_name a\n}\n",
        7,
        "twice",
    ),
    (
        b"define host {\nhost_name a\nparents x\n}\nx\n",
        5,
        "stray line",
    ),
];

// ---- templates, numbers and names in each kind

/// A kind that is read, the directives of a name, and the line where a second block with that name
/// closes, if a host `z` stands between the two.
type KindCase<'a> = (&'a [u8], &'a [u8], u64);

const KINDS: &[KindCase<'static>] = &[
    (b"host", b"host_name a\n", 9),
    (b"service", b"host_name a\nservice_description b\n", 11),
    (b"hostgroup", b"hostgroup_name a\n", 9),
    (b"servicegroup", b"servicegroup_name a\n", 9),
    (b"contact", b"contact_name a\n", 9),
    (b"contactgroup", b"contactgroup_name a\n", 9),
    (b"timeperiod", b"timeperiod_name a\n", 9),
    (b"command", b"command_name a\n", 9),
];

const TEMPLATES: &[&[u8]] = &[
    b"use t",
    b"use",
    b"\tregister\t0",
    b"register 1",
    b"register",
];

/// The fault of a file of parts.
fn assert_parts<R: Abort + AllocGlobal>(
    rt: &R,
    parts: &[&[u8]],
    line: u64,
    what: &str,
) -> Result<(), Fail> {
    let file = parts.concat(rt.alloc())?;
    assert_fault(rt, (&file, line, what));
    Ok(())
}

/// Reads blocks of a kind: of a template, without a name, and with one name twice.
fn assert_kind<R: Abort + AllocGlobal>(
    rt: &R,
    (kind, name, line): KindCase<'static>,
) -> Result<(), Fail> {
    for template in TEMPLATES {
        let parts: &[&[u8]] = &[b"define ", kind, b" {\n", *template, b"\n", name, b"}\n"];
        assert_parts(rt, parts, 2, "not flattened")?;
    }
    assert_parts(rt, &[b"define ", kind, b" {\nalias a\n}\n"], 3, "no name")?;
    let between = b"}\ndefine host {\nhost_name z\n}\ndefine ".as_slice();
    let parts: &[&[u8]] = &[
        b"define ", kind, b" {\n", name, between, kind, b" {\n", name, b"}\n",
    ];
    assert_parts(rt, parts, line, "twice")
}

#[test]
fn each_kind_has_names_and_no_templates(rt: HostRuntime) -> Result<(), Fail> {
    for kind in KINDS {
        assert_kind(&rt, *kind)?;
    }
    Ok(())
}

const BAD_NUMBERS: &[&[u8]] = &[
    b"max_check_attempts 0",
    b"max_check_attempts 1000001",
    b"max_check_attempts 4294967297",
    b"max_check_attempts 18446744073709551617",
    b"max_check_attempts x",
    b"max_check_attempts",
    b"max_check_attempts -1",
    b"max_check_attempts 1.0",
    b"max_check_attempts 1 1",
    b"max_check_attempts 1x",
    b"notifications_enabled 2",
    b"notifications_enabled 4294967296",
    b"notifications_enabled 18446744073709551616",
    b"notifications_enabled",
    b"notifications_enabled -1",
    b"notifications_enabled yes",
];

const OF_A_HOST: &[u8] = b"define host {\nhost_name a\n";

const OF_A_SERVICE: &[u8] = b"define host {\nhost_name a\n}
define service {\nhost_name a\nservice_description b\n";

#[test]
fn numbers_outside_their_ranges_are_refused(rt: HostRuntime) -> Result<(), Fail> {
    for number in BAD_NUMBERS {
        assert_parts(&rt, &[OF_A_HOST, *number, b"\n}\n"], 3, "bad number")?;
        assert_parts(&rt, &[OF_A_SERVICE, *number, b"\n}\n"], 7, "bad number")?;
    }
    Ok(())
}

const NO_NAMES: &[FaultCase<'static>] = &[
    (b"define host {\n}\n", 2, "no name"),
    (b"define host {\nhost_name\n}\n", 3, "no name"),
    (b"define host {\nhost_name a\nhost_name\n}\n", 4, "no name"),
    (b"define host {\nhostgroup_name a\n}\n", 3, "no name"),
    (b"define hostgroup {\nhostgroup_name \t\n}\n", 3, "no name"),
    (
        b"define servicegroup {\nservicegroup_name\n}\n",
        3,
        "no name",
    ),
    (b"define contact {\ncontact_name\n}\n", 3, "no name"),
    (
        b"define contactgroup {\ncontactgroup_name\n}\n",
        3,
        "no name",
    ),
    (b"define timeperiod {\ntimeperiod_name\n}\n", 3, "no name"),
    (b"define command {\ncommand_name\n}\n", 3, "no name"),
    (
        b"define host {\nhost_name a\n}\ndefine service {\nhost_name a\n}\n",
        6,
        "no name",
    ),
    (
        b"define host {\nhost_name a\n}\ndefine service {\nservice_description b\n}\n",
        6,
        "no name",
    ),
    (
        b"define host {\nhost_name a\n}\ndefine service {\nhost_name a\nservice_description\n}\n",
        7,
        "no name",
    ),
];

const BAD_NAMES: &[FaultCase<'static>] = &[
    (b"define host {\nhost_name a;b\n}\n", 3, "bad name"),
    (b"define host {\nhost_name ;\n}\n", 3, "bad name"),
    (
        b"define host {\nhost_name a\nhost_name a;\n\n}\n",
        5,
        "bad name",
    ),
    (
        b"define service {\nhost_name a\nservice_description b;c\n}\n",
        4,
        "bad name",
    ),
    (
        b"define service {\nhost_name a;\nservice_description b\n}\n",
        4,
        "bad name",
    ),
];

const TWICE: &[FaultCase<'static>] = &[
    (
        b"define host {\nhost_name a\n}\ndefine host {\nhost_name a\n}\n",
        6,
        "twice",
    ),
    (
        b"define host {\nhost_name a\n}\n#\ndefine host{\nhost_name b\nhost_name\ta\n\n}\n",
        9,
        "twice",
    ),
];

const REPLACED: &[FaultCase<'static>] = &[
    (
        b"define host {\nhost_name a\xff\n}\ndefine host {\nhost_name a\xfe\n}\n",
        6,
        "twice",
    ),
    (
        b"define contact {\ncontact_name \xe2\x82\n}\ndefine contact {\ncontact_name \xff\xff\n}\n",
        6,
        "twice",
    ),
    (
        b"define host {\nhost_name a\xff\n}\ndefine host {\nhost_name b\nparents a\xff\xff\n}\n",
        6,
        "unknown name",
    ),
];

const IN_ORDER: &[FaultCase<'static>] = &[
    (
        b"define service {\nservice_description a;b\n}\n",
        3,
        "no name",
    ),
    (b"define service {\nhost_name a;b\n}\n", 3, "no name"),
];

const HOST: &[u8] = b"define host {\nhost_name a\n}\n";

#[test]
fn lines_blocks_and_names_are_refused(rt: HostRuntime) -> Result<(), Fail> {
    for faults in [
        STRAY, UNCLOSED, FIRST, NO_NAMES, BAD_NAMES, TWICE, REPLACED, IN_ORDER,
    ] {
        assert_faults(&rt, (b"", 0, b""), faults)?;
    }
    assert_faults(&rt, (HOST, 3, b""), BAD_NAMES)
}

// ---- names that aren't there

const THERE: &[u8] = b"define host {\nhost_name a\n}\ndefine contact {\ncontact_name c\n}
define contactgroup {\ncontactgroup_name g\n}
define service {\nhost_name a\nservice_description b\n}\n";

const UNKNOWN: &[FaultCase<'static>] = &[
    (
        b"define host {\nhost_name h\nparents x\n}\n",
        3,
        "unknown name",
    ),
    (
        b"define host {\nhost_name h\nparents a,x,a\n}\n",
        3,
        "unknown name",
    ),
    (
        b"define host {\nhost_name h\nparents A\n}\n",
        3,
        "unknown name",
    ),
    (
        b"define host {\nhost_name h\nparents a a\n}\n",
        3,
        "unknown name",
    ),
    (
        b"define host {\nhost_name h\nparents c\n}\n",
        3,
        "unknown name",
    ),
    (
        b"define host {\nhost_name h\ncontacts x\n}\n",
        3,
        "unknown name",
    ),
    (
        b"define host {\nhost_name h\n\ncontacts c, g\n}\n",
        4,
        "unknown name",
    ),
    (
        b"define host {\nhost_name h\ncontact_groups c\n}\n",
        3,
        "unknown name",
    ),
    (
        b"define service {\nhost_name x\nservice_description s\n}\n",
        2,
        "unknown name",
    ),
    (
        b"define service {\nservice_description s\n#\nhost_name a,a\n}\n",
        4,
        "unknown name",
    ),
    (
        b"define service {\nhost_name a\nservice_description s\ncontacts g\n}\n",
        4,
        "unknown name",
    ),
    (
        b"define service {\nhost_name a\nservice_description s\ncontact_groups g,c\n}\n",
        4,
        "unknown name",
    ),
    (
        b"define hostgroup {\nhostgroup_name h\nmembers a,x\n}\n",
        3,
        "unknown name",
    ),
    (
        b"define contactgroup {\nmembers g\ncontactgroup_name h\n}\n",
        2,
        "unknown name",
    ),
    (
        b"define servicegroup {\nservicegroup_name s\nmembers x,b\n}\n",
        3,
        "unknown name",
    ),
    (
        b"define servicegroup {\nservicegroup_name s\nmembers a,x\n}\n",
        3,
        "unknown name",
    ),
    (
        b"define servicegroup {\nservicegroup_name s\nmembers b,a\n}\n",
        3,
        "unknown name",
    ),
    (
        b"define servicegroup {\nservicegroup_name s\nmembers a,b,a,x\n}\n",
        3,
        "unknown name",
    ),
    (
        b"define servicegroup {\nservicegroup_name s\nmembers a\n}\n",
        3,
        "unknown name",
    ),
    (
        b"define servicegroup {\nservicegroup_name s\nmembers a,b,a\n}\n",
        3,
        "unknown name",
    ),
    (
        b"define servicegroup {\nservicegroup_name s\nmembers a,,b,,a,\n}\n",
        3,
        "unknown name",
    ),
];

/// Of several names the first line decides, and of a repeated directive the last line alone.
const FIRST_UNKNOWN: &[FaultCase<'static>] = &[
    (
        b"define host {\nhost_name a\ncontacts x\nparents x\n}\n",
        3,
        "unknown name",
    ),
    (
        b"define hostgroup {\nhostgroup_name g\nmembers x\n}
define host {\nhost_name a\nparents x\n}\n",
        3,
        "unknown name",
    ),
    (
        b"define host {\nhost_name a\nparents x\nparents y\n}\n",
        4,
        "unknown name",
    ),
    (
        b"define host {\nhost_name a\nparents x\ncontacts x\nparents a\n}\n",
        4,
        "unknown name",
    ),
];

#[test]
fn names_that_are_not_there_are_refused(rt: HostRuntime) -> Result<(), Fail> {
    assert_faults(&rt, (THERE, 13, b""), UNKNOWN)?;
    assert_faults(&rt, (b"", 0, THERE), UNKNOWN)?;
    assert_faults(&rt, (b"", 0, b""), FIRST_UNKNOWN)
}

// ---- what is no fault

const FAULTLESS: &[&[u8]] = &[
    b"define escalation {\nuse t\nregister 0\n}\n",
    b"define hosts {\nuse t\nregister 0\n}\n",
    b"define Host {\nuse t\nregister 0\n}\n",
    b"define host {\nhost_name a\nused t\nuse_case t\nUse t\nregistered 0\n# use t\n}\n",
    b"define contact {\ncontact_name a\nmax_check_attempts x\nnotifications_enabled x\n}\n",
    b"define escalation {\nmax_check_attempts x\n}\n",
    b"define host {\nhost_name a;\nhost_name a\nalias a;b\n}\n",
    b"define hostgroup {\nhostgroup_name a;b\n}\n",
    b"define servicegroup {\nservicegroup_name a;b\n}\n",
    b"define contact {\ncontact_name a;b\n}\n",
    b"define contactgroup {\ncontactgroup_name a;b\n}\n",
    b"define timeperiod {\ntimeperiod_name a;b\n}\n",
    b"define command {\ncommand_name a;b\n}\n",
    b"define host {\nhost_name a\nparents x\nparents a\n}\n",
    b"define host {\nhost_name a\nparents x\nparents\n}\n",
    b"define host {\nhost_name a\ncontacts x\ncontacts\ncontact_groups x\ncontact_groups ,\n}\n",
    b"define servicegroup {\nservicegroup_name a\nmembers x\nmembers\n}\n",
    b"define host {\nhost_name a\n}
define service {\nhost_name x\nservice_description b\nhost_name a\n}\n",
    b"define host {\nhost_name a\nmembers x\n}\n",
    b"define hostgroup {\nhostgroup_name a\nparents x\ncontacts x\ncontact_groups x\n}\n",
    b"define contact {\ncontact_name a\nmembers x\ncontacts x\ncontact_groups x\n}\n",
    b"define host {\nhost_name a\ncheck_command x!1\ncheck_period x\nnotification_period x\n}\n",
    b"define contact {\ncontact_name a\nhost_notification_period x
service_notification_period x\n}\n",
    b"define host {\nhost_name a\nparents a\n}\n",
    // Names of other kinds, of other hosts and in other cases are other names.
    b"define host {\nhost_name b\n}\ndefine host {\nhost_name a\n}\ndefine host {\nhost_name A\n}
define service {\nhost_name a\nservice_description b\n}
define service {\nhost_name b\nservice_description b\n}
define service {\nhost_name b\nservice_description a\n}
define hostgroup {\nhostgroup_name a\n}\ndefine servicegroup {\nservicegroup_name a\n}
define contact {\ncontact_name a\n}\ndefine contactgroup {\ncontactgroup_name a\n}
define timeperiod {\ntimeperiod_name a\n}\ndefine command {\ncommand_name a\n}\n",
];

#[test]
fn other_words_kinds_and_names_are_no_faults(rt: HostRuntime) {
    for file in FAULTLESS {
        assert_fault(&rt, (*file, 0, "none"));
    }
}

// ---- limits

/// A file that begins with `front`, and as many blocks as `count` says. Each begins with `block`,
/// and after it the blocks' numbers stand, from 0.
fn numbered(alloc: Global, front: &[u8], block: &[u8], count: u64) -> Result<Vec<u8>, AllocError> {
    let mut file = Vec::from_slice(alloc, front)?;
    for number in 0..count {
        let number = number.to_string(alloc)?;
        file.extend_from_slice(block)?;
        file.extend_from_slice(number.as_bytes())?;
        file.extend_from_slice(b"\n}\n")?;
    }
    Ok(file)
}

/// The front of a file, a block, how many of them there may be, and the line where one more closes,
/// if each has four lines.
type Limit<'a> = (&'a [u8], &'a [u8], u64, u64);

const LIMITS: &[Limit<'static>] = &[
    (b"", b"define host {\nalias a\nhost_name h", 10_000, 40_004),
    (
        b"",
        b"define contact {\nalias a\ncontact_name c",
        10_000,
        40_004,
    ),
    (
        b"",
        b"define command {\ncommand_line a\ncommand_name c",
        10_000,
        40_004,
    ),
    (
        b"",
        b"define hostgroup {\nalias a\nhostgroup_name g",
        1_000,
        4_004,
    ),
    (
        b"",
        b"define servicegroup {\nalias a\nservicegroup_name g",
        1_000,
        4_004,
    ),
    (
        b"",
        b"define contactgroup {\nalias a\ncontactgroup_name g",
        1_000,
        4_004,
    ),
    (
        b"",
        b"define timeperiod {\nalias a\ntimeperiod_name p",
        1_000,
        4_004,
    ),
];

const SERVICE_LIMIT: Limit<'static> = (
    HOST,
    b"define service {\nhost_name a\nservice_description s",
    60_000,
    240_007,
);

/// Reads as many blocks as there may be, and one more, which closes at a line.
fn assert_limit<R: Abort + AllocGlobal>(
    rt: &R,
    (front, block, most, line): Limit<'_>,
) -> Result<(), Fail> {
    let mut file = numbered(rt.alloc(), front, block, most)?;
    assert!(rt; fault_in(rt.alloc(), &file).1 == "none");
    file.extend_from_slice(block)?;
    file.extend_from_slice(b"x\n}\n")?;
    assert!(rt; fault_in(rt.alloc(), &file) == (line, "too many"));
    Ok(())
}

#[test]
fn there_are_60_000_services_at_most(rt: HostRuntime) -> Result<(), Fail> {
    assert_limit(&rt, SERVICE_LIMIT)
}

#[test]
fn each_kind_has_its_own_limit(rt: HostRuntime) -> Result<(), Fail> {
    for limit in LIMITS {
        assert_limit(&rt, *limit)?;
    }
    let groups = b"define hostgroup {\nalias a\nhostgroup_name g".as_slice();
    let unknown = b"define escalation {\nalias a\nhostgroup_name g".as_slice();
    let periods = b"define timeperiod {\nalias a\ntimeperiod_name p".as_slice();
    let front = numbered(rt.alloc(), b"", groups, 1_000)?;
    let front = numbered(rt.alloc(), &front, unknown, 1_001)?;
    assert_limit(&rt, (&front, periods, 1_000, 12_008))
}

/// The faults of a host after as many as there may be, in their order.
const AFTER_ALL: &[FaultCase<'static>] = &[
    (b"define host {\nhost_name\n}\n", 3, "no name"),
    (b"define host {\nhost_name a;b\n}\n", 3, "bad name"),
    (b"define host {\nhost_name 9999\n}\n", 3, "twice"),
    (b"define host {\nhost_name a\n}\n", 3, "too many"),
];

#[test]
fn faults_of_one_block_go_in_their_order(rt: HostRuntime) -> Result<(), Fail> {
    let block = b"define host {\nalias a\nhost_name ".as_slice();
    let hosts = numbered(rt.alloc(), b"", block, 10_000)?;
    assert_faults(&rt, (&hosts, 40_000, b""), AFTER_ALL)
}
