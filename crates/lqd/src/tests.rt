use lq_outside::{Failed, MemFiles, MemSink, MemSource, Sink, Source};
use lq_program::run;
use std::alloc::{AllocError, Global};
use std::process::Abort;
use std::test::Fail;

/// An object file of two hosts.
const HOSTS: &[u8] = b"define contact {
 contact_name anna
 }
define host {
 host_name web1
 alias Web One
 address 10.0.0.1
 contacts anna
 }
define host {
 host_name web2
 alias Web Two
 address 10.0.0.2
 }
";

/// A log that leaves the second host down.
const LOG: &[u8] = b"[99] Nagios 4.4.6 starting... (PID=1)
[100] HOST ALERT: web2;DOWN;HARD;1;away
[101] HOST ALERT: web9;DOWN;HARD;1;away
";

/// What a program is given, beside its words and its input: its file `f`, its log `l`, and the
/// numbers of the calls that fail.
#[derive(Clone, Copy)]
struct Outside<'a> {
    file: &'a [u8],
    log: &'a [u8],
    fail_load: &'a [u64],
    fail_read: &'a [u64],
    fail_write: &'a [u64],
}

const STEADY: Outside<'static> = Outside {
    file: HOSTS,
    log: LOG,
    fail_load: &[],
    fail_read: &[],
    fail_write: &[],
};

fn texts(alloc: Global, words: &[&str]) -> Result<Vec<String>, AllocError> {
    let mut texts = Vec::new(alloc);
    for word in words {
        texts.push(String::from_str(alloc, word)?)?;
    }
    Ok(texts)
}

fn files(alloc: Global, outside: &Outside<'_>) -> Result<MemFiles, AllocError> {
    let mut pairs = Vec::new(alloc);
    pairs.push((
        String::from_str(alloc, "f")?,
        Vec::from_slice(alloc, outside.file)?,
    ))?;
    pairs.push((
        String::from_str(alloc, "l")?,
        Vec::from_slice(alloc, outside.log)?,
    ))?;
    Ok(MemFiles::new(pairs, Vec::from_slice(alloc, outside.fail_load)?))
}

fn source(alloc: Global, bytes: &[u8], fail_at: &[u64]) -> Result<MemSource, AllocError> {
    Ok(MemSource::new(
        Vec::from_slice(alloc, bytes)?,
        Vec::from_slice(alloc, fail_at)?,
    ))
}

/// What the program is run with: its words, and all that it reads and writes.
struct Process<I, O> {
    words: Vec<String>,
    files: MemFiles,
    input: I,
    output: O,
    faults: O,
}

// Written by hand: where one is dropped a proof then meets a call, and not each of the fields.
impl<I: Drop, O: Drop> Drop for Process<I, O> {
    fn drop(self) {
        let Process {
            words: _words,
            files: _files,
            input: _input,
            output: _output,
            faults: _faults,
        } = self;
    }
}

impl<I: Source, O: Sink> Process<I, O> {
    /// Runs the program, and gives its status. It stands apart so that its clauses are met once,
    /// whatever is read and written, and where nothing is dropped.
    fn run<R: Abort + AllocGlobal>(&mut self, rt: &R) -> u8 {
        run(
            rt,
            rt.alloc(),
            &self.words,
            &mut self.files,
            &mut self.input,
            &mut self.output,
            &mut self.faults,
        )
    }
}

fn process_of(
    alloc: Global,
    words: &[&str],
    outside: &Outside<'_>,
    input: &[u8],
) -> Result<Process<MemSource, MemSink>, AllocError> {
    Ok(Process {
        words: texts(alloc, words)?,
        files: files(alloc, outside)?,
        input: source(alloc, input, outside.fail_read)?,
        output: MemSink::new(alloc, Vec::from_slice(alloc, outside.fail_write)?),
        faults: MemSink::new(alloc, Vec::new(alloc)),
    })
}

/// Runs the program in memory, and compares its status and what both outputs hold.
fn assert_run<R: Abort + AllocGlobal>(
    rt: &R,
    words: &[&str],
    outside: &Outside,
    input: &[u8],
    expected: (u8, &[u8], &[u8]),
) -> Result<(), Fail> {
    let mut process = process_of(rt.alloc(), words, outside, input)?;
    let status = process.run(rt);
    assert_eq!(rt; status, expected.0);
    assert_eq!(rt; process.output.held(), expected.1);
    assert_eq!(rt; process.faults.held(), expected.2);
    Ok(())
}

/// Queries of the two hosts, and the replies.
const QUERIES: &[(&[u8], &[u8])] = &[
    (
        b"GET hosts\nColumns: name alias address state\n\n",
        b"web1;Web One;10.0.0.1;0\nweb2;Web Two;10.0.0.2;0\n",
    ),
    (
        b"GET hosts\nColumns: name state\nColumnHeaders: on\n\n",
        b"name;state\nweb1;0\nweb2;0\n",
    ),
    (b"GET hosts\nColumns: name state\n\n", b"web1;0\nweb2;0\n"),
    (
        b"\r\n\nGET\thosts\r\nColumns:state\r\nColumns: name",
        b"0;web1\n0;web2\n",
    ),
    (
        b"GET hosts\nColumns: name\n\nGET hosts\nColumns: alias\n\n",
        b"web1\nweb2\n",
    ),
    (b"GET nothing\nColumns: name\n\n", b""),
    (b"GET hosts\nColumns: nope\n\n", b""),
    (b"GET hosts x\n\n", b""),
    (b"GET hosts\nStats: state = 0\n\n", b"2\n"),
    (
        b"GET hosts\nColumns: name\nFilter: name ~ ^web[12]$\nLimit: 1\n\n",
        b"web1\n",
    ),
    (b"GET hosts\nColumns: name \xff\n\n", b""),
    (b"GET\n\n", b""),
    (b"FOO\n", b""),
    (b"", b""),
    (
        b"GET hosts\nColumns: name state\nLimit: 1\nResponseHeader: fixed16\n\n",
        b"200           7\nweb1;0\n",
    ),
    (
        b"GET nothing\nResponseHeader: fixed16\n\n",
        b"404          23\nunknown table: nothing\n",
    ),
    (
        b"GET\nResponseHeader: fixed16\n\n",
        b"451          19\nmissing table name\n",
    ),
    (
        b"FOO\nResponseHeader: fixed16\n\n",
        b"452          16\ninvalid request\n",
    ),
    (
        b"GET hosts\nColumns: name nope\nKeepAlive: on\nResponseHeader: fixed16\n\n\
          GET hosts\nColumns: name\nLimit: 1\n\n",
        b"450          21\nunknown column: nope\nweb1\n",
    ),
];

#[test]
fn answers_a_query_on_hosts(rt: HostRuntime) -> Result<(), Fail> {
    for (input, output) in QUERIES {
        assert_run(&rt, &["ask", "f"], &STEADY, *input, (0, *output, b""))?;
    }
    Ok(())
}

/// Two hosts, three services, two groups of hosts and one of services.
const SERVICES: &[u8] = b"define timeperiod {
 timeperiod_name always
 alias Always
 }
define contact {
 contact_name anna
 alias Anna
 }
define contact {
 contact_name bert
 alias Bert
 }
define contactgroup {
 contactgroup_name ops
 members anna
 }
define host {
 host_name web1
 alias Web One
 address 10.0.0.1
 contacts anna
 notification_period always
 }
define host {
 host_name web2
 alias Web Two
 address 10.0.0.2
 contacts bert
 }
define service {
 host_name web1
 service_description http
 max_check_attempts 3
 contact_groups ops
 }
define service {
 host_name web1
 service_description disk
 contacts bert
 }
define service {
 host_name web2
 service_description ping
 contacts bert
 }
define hostgroup {
 hostgroup_name web
 members web1,web2
 }
define hostgroup {
 hostgroup_name empty
 }
define servicegroup {
 servicegroup_name sg
 members web1,http,web2,ping
 }
";

/// Queries over all kinds of objects, and the replies.
const TABLES: &[(&[u8], &[u8])] = &[
    (
        b"GET services\nColumns: host_name description state\n\n",
        b"web1;http;0\nweb1;disk;0\nweb2;ping;0\n",
    ),
    (
        b"GET hostgroups\nColumns: name members num_services\n\n",
        b"web;web1,web2;3\nempty;;0\n",
    ),
    (
        b"GET hostsbygroup\nColumns: hostgroup_name name\n\n",
        b"web;web1\nweb;web2\n",
    ),
    (b"GET commands\n\n", b"name;line\n"),
    (b"GET commands\nColumnHeaders: off\n\n", b""),
    (
        b"GET servicegroups\nColumns: name members num_services_pending\n\n",
        b"sg;web1|http,web2|ping;2\n",
    ),
    (
        b"GET contacts\nColumns: name alias email\n\n",
        b"anna;Anna;\nbert;Bert;\n",
    ),
    (
        b"GET contactgroups\n\n",
        b"name;alias;members\nops;ops;anna\n",
    ),
    (b"GET timeperiods\n\n", b"name;alias;in\nalways;Always;1\n"),
    (
        b"GET status\n\n",
        b"program_version;enable_notifications;num_hosts;num_services;present_second\nlqd 1;1;2;3;0\n",
    ),
    (
        b"GET servicesbygroup\nColumns: servicegroup_name host_name service_description\n\n",
        b"sg;web1;http\nsg;web2;ping\n",
    ),
    (
        b"GET servicesbyhostgroup\nColumns: hostgroup_name host_name service_description\nColumnHeaders: on\n\n",
        b"hostgroup_name;host_name;description\nweb;web1;http\nweb;web1;disk\nweb;web2;ping\n",
    ),
    (
        b"GET services\nColumns: description contacts host_contacts max_check_attempts\n\n",
        b"http;anna;anna;3\ndisk;bert;anna;1\nping;bert;bert;1\n",
    ),
    (
        b"GET services\nColumns: host_name description\nAuthUser: anna\n\n",
        b"web1;http\nweb1;disk\n",
    ),
    (
        b"GET hostgroups\nColumns: name members\nAuthUser: anna\n\n",
        b"",
    ),
    (b"GET hosts\nAuthUser: nobody\nColumns: name\n\n", b""),
    (
        b"GET hosts\nColumns: name num_services services\nAuthUser: anna\n\n",
        b"web1;2;http,disk\n",
    ),
    (
        b"GET services\nColumns: host_name description state has_been_checked state_type \
current_attempt max_check_attempts plugin_output perf_data acknowledged scheduled_downtime_depth \
is_flapping notifications_enabled contacts\nAuthUser: anna\nKeepAlive: on\nLocaltime: 1700000000
OutputFormat: json\nResponseHeader: fixed16\n\n",
        b"200         101\n[[\"web1\",\"http\",0,0,1,1,3,\"\",\"\",0,0,0,1,[\"anna\"]],
[\"web1\",\"disk\",0,0,1,1,1,\"\",\"\",0,0,0,1,[\"bert\"]]]\n",
    ),
    (b"GET statehist\n\n", b""),
    (b"GET services\nColumns: name\n\n", b""),
    (b"GET services\nColumnHeaders: yes\n\n", b""),
];

/// Commands and then queries, and the replies.
const CHANGED: &[(&[u8], &[u8])] = &[
    (
        b"COMMAND [100] PROCESS_SERVICE_CHECK_RESULT;web1;http;2;bad|x=1
GET services\nColumns: state state_type current_attempt plugin_output perf_data\nKeepAlive: on\n
COMMAND [101] PROCESS_SERVICE_CHECK_RESULT;web1;http;2;bad|x=1
COMMAND [102] PROCESS_SERVICE_CHECK_RESULT;web1;http;2;bad|x=1
GET services\nColumns: state state_type current_attempt plugin_output perf_data\nKeepAlive: on\n
COMMAND [103] PROCESS_SERVICE_CHECK_RESULT;web1;http;0;fine
GET services\nColumns: state state_type current_attempt plugin_output perf_data\n\n",
        b"2;0;1;bad;x=1\n0;1;1;;\n0;1;1;;\n2;1;3;bad;x=1\n0;1;1;;\n0;1;1;;\n0;1;1;fine;\n0;1;1;;\n0;1;1;;\n",
    ),
    (
        b"COMMAND [150] SCHEDULE_HOST_DOWNTIME;web1;200;300;1;0;100;anna;work
COMMAND [199] ENABLE_NOTIFICATIONS
GET hosts\nColumns: scheduled_downtime_depth downtimes\nKeepAlive: on\n
COMMAND [200] ENABLE_NOTIFICATIONS
GET hosts\nColumns: scheduled_downtime_depth downtimes\nKeepAlive: on\n
GET downtimes\nColumns: id author comment entry_time start_time end_time fixed duration triggered_by is_service host_name service_description\nKeepAlive: on\n
COMMAND [300] ENABLE_NOTIFICATIONS
GET hosts\nColumns: scheduled_downtime_depth downtimes\nKeepAlive: on\n
COMMAND [301] DEL_HOST_DOWNTIME;1
GET hosts\nColumns: scheduled_downtime_depth downtimes\nKeepAlive: on\n
GET status\nColumns: present_second\n\n",
        b"0;1\n0;\n1;1\n0;\n1;anna;work;150;200;300;1;100;0;0;web1;\n0;\n0;\n0;\n0;\n301\n",
    ),
    (
        b"COMMAND [100] ADD_HOST_COMMENT;web1;1;anna;say it
COMMAND [101] ADD_SVC_COMMENT;web2;ping;0;bert;late
GET comments\nColumns: id author comment entry_time entry_type persistent is_service host_alias service_description\nKeepAlive: on\n
GET services\nColumns: description comments\n\n",
        b"1;anna;say it;100;1;1;0;Web One;\n2;bert;late;101;1;0;1;Web Two;ping\nhttp;\ndisk;\nping;2\n",
    ),
    (
        b"COMMAND [100] PROCESS_SERVICE_CHECK_RESULT;web1;disk;3;x
COMMAND [101] PROCESS_SERVICE_CHECK_RESULT;web2;ping;2;x
GET hostgroups\nColumns: name num_services num_services_ok num_services_crit num_services_unknown num_services_pending worst_service_state num_hosts_pending worst_host_state\n\n",
        b"web;3;0;1;1;1;2;2;0\nempty;0;0;0;0;0;0;0;0\n",
    ),
    (
        b"COMMAND [100] PROCESS_SERVICE_CHECK_RESULT;web1;http;0;x
COMMAND [101] PROCESS_SERVICE_CHECK_RESULT;web1;disk;1;x
COMMAND [102] PROCESS_SERVICE_CHECK_RESULT;web2;ping;2;x
GET hosts\nColumns: name num_services num_services_ok num_services_warn num_services_crit num_services_unknown num_services_pending worst_service_state\n\n",
        b"web1;2;1;1;0;0;0;1\nweb2;1;0;0;1;0;0;2\n",
    ),
];

const WITH_SERVICES: Outside<'static> = Outside {
    file: SERVICES,
    ..STEADY
};

#[test]
fn each_table_is_answered(rt: HostRuntime) -> Result<(), Fail> {
    for (input, output) in TABLES {
        assert_run(
            &rt,
            &["ask", "f"],
            &WITH_SERVICES,
            *input,
            (0, *output, b""),
        )?;
    }
    Ok(())
}

#[test]
fn commands_change_each_table(rt: HostRuntime) -> Result<(), Fail> {
    for (input, output) in CHANGED {
        assert_run(
            &rt,
            &["ask", "f"],
            &WITH_SERVICES,
            *input,
            (0, *output, b""),
        )?;
    }
    Ok(())
}

const QUERY: &[u8] = b"GET hosts\nColumns: name state\n\n";

const ROWS: &[u8] = b"web1;0\nweb2;0\n";

#[test]
fn words_decide_what_is_done(rt: HostRuntime) -> Result<(), Fail> {
    let cases: &[(&[&str], (u8, &[u8], &[u8]))] = &[
        (&["ask", "f"], (0, ROWS, b"")),
        (&["ask", "--", "f"], (0, ROWS, b"")),
        (&["ask", "f", "--"], (0, ROWS, b"")),
        (&["ask", "nowhere"], (4, b"", b"file: nowhere: missing\n")),
        (&["ask"], (1, b"", USAGE)),
        (&["ask", "-f"], (1, b"", USAGE)),
        (&["ask", "f", "f"], (1, b"", USAGE)),
        (&["serve", "f"], (1, b"", USAGE)),
    ];
    for (words, expected) in cases {
        assert_run(&rt, *words, &STEADY, QUERY, *expected)?;
    }
    Ok(())
}

/// The lines of two workloads, whose replies another program generated and counted.
const LOAD_1_000_000: &[u8] =
    b"hosts 100 services 1000 lines 2000 commands 50 queries 20 bytes 3632 sum 224053\n";

const LOAD_7: &[u8] =
    b"hosts 100 services 1000 lines 2000 commands 50 queries 20 bytes 2999 sum 184313\n";

/// Words that ask for a load, with the status and the two outputs.
const LOADS: &[(&[&str], (u8, &[u8], &[u8]))] = &[
    (&["load", "7"], (0, LOAD_7, b"")),
    (&["load", "7"], (0, LOAD_7, b"")),
    (&["load", "--", "0007"], (0, LOAD_7, b"")),
    (&["load", "1000000"], (0, LOAD_1_000_000, b"")),
    (&["load"], (1, b"", USAGE)),
    (&["load", ""], (1, b"", USAGE)),
    (&["load", "x"], (1, b"", USAGE)),
    (&["load", "+7"], (1, b"", USAGE)),
    (&["load", "7 "], (1, b"", USAGE)),
    (&["load", "7", "7"], (1, b"", USAGE)),
    (&["load", "--", "-7"], (1, b"", USAGE)),
    (&["load", "1000001"], (1, b"", USAGE)),
    (&["load", "18446744073709551623"], (1, b"", USAGE)),
    (&["load", "7", "--log=l"], (1, b"", USAGE)),
    (&["load", "--service-auth=loose", "7"], (1, b"", USAGE)),
];

#[test]
fn a_load_is_told_in_one_line(rt: HostRuntime) -> Result<(), Fail> {
    for (words, expected) in LOADS {
        assert_run(&rt, *words, &STEADY, QUERY, *expected)?;
    }
    let full = Outside {
        fail_write: &[0],
        ..STEADY
    };
    assert_run(
        &rt,
        &["load", "7"],
        &full,
        QUERY,
        (6, b"", b"write fault\n"),
    )
}

/// The services, and then the host groups, that anna sees.
const SEEN: &[u8] = b"GET services\nColumns: description\nAuthUser: anna\nKeepAlive: on\n
GET hostgroups\nColumns: name members\nAuthUser: anna\n\n";

/// Options before and after the object file, and what anna sees under their rules.
const RULES: &[(&[&str], &[u8])] = &[
    (&["ask", "f"], b"http\ndisk\n"),
    (&["ask", "f", "--service-auth", "strict"], b"http\n"),
    (&["ask", "--service-auth=strict", "f"], b"http\n"),
    (
        &["ask", "--group-auth", "loose", "f"],
        b"http\ndisk\nweb;web1\n",
    ),
    (
        &[
            "ask",
            "--group-auth=loose",
            "--service-auth=strict",
            "--",
            "f",
        ],
        b"http\nweb;web1\n",
    ),
    (
        &["ask", "--service-auth", "loose", "f", "--group-auth=strict"],
        b"http\ndisk\n",
    ),
];

/// Words outside the grammar.
const FAULTY: &[&[&str]] = &[
    &["ask", "f", "--service-auth"],
    &["ask", "--service-auth", "f"],
    &[
        "ask",
        "--service-auth=strict",
        "--service-auth",
        "loose",
        "f",
    ],
    &["ask", "--group-auth=maybe", "f"],
    &["ask", "--", "f", "--group-auth=loose"],
    &["ask", "--group-auth=loose"],
    &["ask", "--service-auth", "--", "f"],
    &["ask", "--help"],
];

#[test]
fn options_choose_the_rules_of_rights(rt: HostRuntime) -> Result<(), Fail> {
    for (words, expected) in RULES {
        assert_run(&rt, *words, &WITH_SERVICES, SEEN, (0, *expected, b""))?;
    }
    let usage = b"usage: lqd ask|replay|serve|load\n".as_slice();
    for words in FAULTY {
        assert_run(&rt, *words, &WITH_SERVICES, SEEN, (1, b"", usage))?;
    }
    Ok(())
}

#[test]
fn faults_have_their_status_and_text(rt: HostRuntime) -> Result<(), Fail> {
    let unclosed = Outside {
        file: b"define host {\n host_name a",
        ..STEADY
    };
    let unread = Outside {
        fail_load: &[0],
        ..STEADY
    };
    let cut_off = Outside {
        fail_read: &[0],
        ..STEADY
    };
    let full = Outside {
        fail_write: &[0],
        ..STEADY
    };
    let cases: [(&Outside, (u8, &[u8])); 4] = [
        (&unclosed, (2, b"objects: line 1: unclosed\n")),
        (&unread, (4, b"file: f: cannot be read\n")),
        (&cut_off, (5, b"read fault\n")),
        (&full, (6, b"write fault\n")),
    ];
    for (outside, (status, text)) in cases {
        assert_run(&rt, &["ask", "f"], outside, QUERY, (status, b"", text))?;
    }
    Ok(())
}

/// A query whose connection goes on.
const KEPT: &[u8] = b"GET hosts\nColumns: name state\nKeepAlive: on\n\n";

#[test]
fn commands_change_what_is_answered(rt: HostRuntime) -> Result<(), Fail> {
    let cases: &[(&[u8], &[u8])] = &[
        (
            b"GET hosts\nColumns: name state\nKeepAlive: on\n\n\
COMMAND [100] PROCESS_HOST_CHECK_RESULT;web2;1;down\n\nGET hosts\nColumns: name state\n\n",
            b"web1;0\nweb2;0\nweb1;0\nweb2;1\n",
        ),
        (
            b"COMMAND\t[100] PROCESS_HOST_CHECK_RESULT;web1;2;away\r\nGET hosts\nColumns: state\n",
            b"2\n0\n",
        ),
        (
            b"COMMAND PROCESS_HOST_CHECK_RESULT;web1;2;away\nGET hosts\nColumns: state\n\n",
            b"0\n0\n",
        ),
        (
            b"COMMAND [1] PROCESS_HOST_CHECK_RESULT;web1;2;a\nCOMMAND [2] PROCESS_HOST_CHECK_RESULT;web1;0;b\n\
GET hosts\nColumns: state\n\n",
            b"0\n0\n",
        ),
        (
            b"COMMAND [100] PROCESS_HOST_CHECK_RESULT;web1;2;bad|x=1\nGET hosts\nColumns: state\nKeepAlive: on\n\n\
COMMAND [103] PROCESS_HOST_CHECK_RESULT;web1;0;fine\nGET hosts\nColumns: name state\n\n",
            b"2\n0\nweb1;0\nweb2;0\n",
        ),
        (
            b"COMMAND [150] SCHEDULE_HOST_DOWNTIME;web1;200;300;1;0;100;anna;work\n\
COMMAND [200] ENABLE_NOTIFICATIONS\nCOMMAND [210] PROCESS_HOST_CHECK_RESULT;web1;1;down\n\
COMMAND [300] ENABLE_NOTIFICATIONS\nCOMMAND [301] DEL_HOST_DOWNTIME;1\nGET hosts\nColumns: name state\n\n",
            b"web1;1\nweb2;0\n",
        ),
        (b"COMMAND [100] PROCESS_HOST_CHECK_RESULT;web2;1;down", b""),
    ];
    for (input, output) in cases {
        assert_run(&rt, &["ask", "f"], &STEADY, *input, (0, *output, b""))?;
    }
    Ok(())
}

#[test]
fn a_query_ends_a_connection_that_it_does_not_keep(rt: HostRuntime) -> Result<(), Fail> {
    let cases: &[(&[u8], &[u8])] = &[
        (
            b"GET hosts\nColumns: name\nKeepAlive: off\n\nGET hosts\nColumns: alias\n\n",
            b"web1\nweb2\n",
        ),
        (
            b"GET hosts\nColumns: name\nKeepAlive: on\n\nGET hosts\nColumns: state\n\n",
            b"web1\nweb2\n0\n0\n",
        ),
        (
            b"GET hosts\nColumns: name nope\nKeepAlive: on\n\nGET hosts\nColumns: name\n\n",
            b"web1\nweb2\n",
        ),
        (
            b"GET hosts\nColumns: name nope\n\nGET hosts\nColumns: name\n\n",
            b"",
        ),
        (
            b"GET hosts\nColumns: state\nKeepAlive: on\n\n\n\n",
            b"0\n0\n",
        ),
    ];
    for (input, output) in cases {
        assert_run(&rt, &["ask", "f"], &STEADY, *input, (0, *output, b""))?;
    }
    Ok(())
}

/// Runs the program on a file that it refuses.
fn assert_refused<R: Abort + AllocGlobal>(rt: &R, file: &[u8], text: &[u8]) -> Result<(), Fail> {
    let outside = Outside { file, ..STEADY };
    assert_run(rt, &["ask", "f"], &outside, QUERY, (2, b"", text))
}

#[test]
fn a_line_at_fault_is_told(rt: HostRuntime) -> Result<(), Fail> {
    let cases: &[(&[u8], &[u8])] = &[
        (b"\nhost_name a\n", b"objects: line 2: stray line\n"),
        (
            b"define host {\nhost_name a\n}\n}\n",
            b"objects: line 4: stray line\n",
        ),
        (
            b"define host {\nhost_name a",
            b"objects: line 1: unclosed\n",
        ),
        (
            b"#\ndefine host {\nhost_name a\ndefine host {\n}\n",
            b"objects: line 2: unclosed\n",
        ),
        (
            b"define host {\nhost_name a\nuse t\n}",
            b"objects: line 3: not flattened\n",
        ),
        (
            b"define command {\nregister\t0\n}",
            b"objects: line 2: not flattened\n",
        ),
        (
            b"define host {\nhost_name a\nmax_check_attempts 0\n}",
            b"objects: line 3: bad number\n",
        ),
    ];
    for (file, text) in cases {
        assert_refused(&rt, *file, *text)?;
    }
    Ok(())
}

#[test]
fn a_name_at_fault_is_told(rt: HostRuntime) -> Result<(), Fail> {
    let cases: &[(&[u8], &[u8])] = &[
        (b"define host {\nalias a\n}", b"objects: line 3: no name\n"),
        (
            b"define host {\nhost_name a;b\n}",
            b"objects: line 3: bad name\n",
        ),
        (
            b"define host {\nhost_name a\n}\ndefine host {\nhost_name a\n}",
            b"objects: line 6: twice\n",
        ),
        (
            b"define host {\nhost_name a\nparents b\n}",
            b"objects: line 3: unknown name\n",
        ),
        (
            b"define host {\nhost_name a\n}\ndefine service {\nhost_name a\nservice_description b\n}
define servicegroup {\nservicegroup_name c\nmembers a,b,a\n}",
            b"objects: line 10: unknown name\n",
        ),
        (
            b"define host {\nhost_name a\nparents b\n}\ndefine host {\nhost_name a\n}",
            b"objects: line 7: twice\n",
        ),
    ];
    for (file, text) in cases {
        assert_refused(&rt, *file, *text)?;
    }
    Ok(())
}

#[test]
fn other_bytes_and_kinds_are_read_over(rt: HostRuntime) -> Result<(), Fail> {
    let outside = Outside {
        file: b"# \xff
define escalation {
use t
}
define host {
host_name b\xc3\xbc\xff
parents a, ,b\xc3\xbc\xff,a
alias \xc2\xbb17\xc2\xab\xff \"quoted\"
}
define host {
host_name a
address  10.0.0.1\t
}
",
        ..STEADY
    };
    assert_run(
        &rt,
        &["ask", "f"],
        &outside,
        b"GET hosts\nColumns: name alias address\n\n",
        (
            0,
            b"b\xc3\xbc\xef\xbf\xbd;\xc2\xbb17\xc2\xab\xef\xbf\xbd \"quoted\";\na;a;10.0.0.1\n",
            b"",
        ),
    )
}

/// Host blocks of three lines, with the numbers from 0 as their names.
fn host_blocks(alloc: Global, count: u64) -> Result<Vec<u8>, AllocError> {
    let mut file = Vec::new(alloc);
    for number in 0..count {
        let name = number.to_string(alloc)?;
        file.extend_from_slice(b"define host {\nhost_name ")?;
        file.extend_from_slice(name.as_bytes())?;
        file.extend_from_slice(b"\n}\n")?;
    }
    Ok(file)
}

#[test]
fn a_file_has_10_000_hosts_at_most(rt: HostRuntime) -> Result<(), Fail> {
    let alloc = rt.alloc();
    let most = host_blocks(alloc, 10_000)?;
    let within = Outside {
        file: most.as_slice(),
        ..STEADY
    };
    let query = b"GET hosts\nColumns: state\n\n";
    let reply = b"0\n".repeat(alloc, 10_000)?;
    assert_run(
        &rt,
        &["ask", "f"],
        &within,
        query,
        (0, reply.as_slice(), b""),
    )?;
    let more = host_blocks(alloc, 10_001)?;
    assert_refused(&rt, &more, b"objects: line 30003: too many\n")
}

/// A source that gives one byte a read.
#[derive(Drop)]
struct OneByte {
    inner: MemSource,
}

impl Source for OneByte {
    ghost use Rattle.std.specs.Prelude.{◌≡◌, None};
    ghost use Rattle.lq_outside.specs.Faults.{next_count};

    ghost left = { λ _. None };

    ghost faults = { λ s. s.inner.faults };

    ghost one_read = { λ old new. new.inner.calls ≡ next_count old.inner.calls };

    ghost other_side = { λ _. (None, 0) };

    fn read(&mut self, buf: &mut [u8]) -> Result<usize, Failed> {
        let most = buf.len().min(1);
        self.inner.read(&mut buf[..most])
    }
}

/// A sink that takes three bytes a write at most.
#[derive(Drop)]
struct Narrow {
    inner: MemSink,
}

impl Sink for Narrow {
    ghost use Rattle.std.specs.Prelude.{None};

    ghost held = { λ _. None };

    ghost faults = { λ s. s.inner.faults };

    ghost other_side = { λ _. (None, 0) };

    fn write(&mut self, piece: &[u8]) -> Result<usize, Failed> {
        let most = piece.len().min(3);
        self.inner.write(&piece[..most])
    }
}

/// Two queries, with a command between them.
const STREAM: &[u8] = b"\r\n\nGET hosts\nColumns: name state\nKeepAlive: on\n\n\n\
COMMAND [100] PROCESS_HOST_CHECK_RESULT;web2;1;down\n\nGET hosts\nColumns: name state\n\n";

fn narrow_sink(alloc: Global) -> Narrow {
    Narrow {
        inner: MemSink::new(alloc, Vec::new(alloc)),
    }
}

fn process_in_pieces(
    alloc: Global,
    file: &[u8],
    bytes: &[u8],
) -> Result<Process<OneByte, Narrow>, AllocError> {
    Ok(Process {
        words: texts(alloc, &["ask", "f"])?,
        files: files(alloc, &Outside { file, ..STEADY })?,
        input: OneByte {
            inner: source(alloc, bytes, &[])?,
        },
        output: narrow_sink(alloc),
        faults: narrow_sink(alloc),
    })
}

/// Runs the program on a file, with one byte a read and three a write at most.
fn assert_pieces<R: Abort + AllocGlobal>(
    rt: &R,
    file: &[u8],
    bytes: &[u8],
    expected: &[u8],
) -> Result<(), Fail> {
    let mut process = process_in_pieces(rt.alloc(), file, bytes)?;
    let status = process.run(rt);
    assert_eq!(rt; status, 0);
    assert_eq!(rt; process.output.inner.held(), expected);
    assert_eq!(rt; process.faults.inner.held(), b"".as_slice());
    Ok(())
}

/// Streams over the two hosts, and the replies.
const STREAMS: &[(&[u8], &[u8])] = &[
    (QUERY, ROWS),
    (STREAM, b"web1;0\nweb2;0\nweb1;0\nweb2;1\n"),
    (
        b"GET hosts\nColumns: name nope\nKeepAlive: on\n\nGET hosts\nColumns: name\n\n",
        b"web1\nweb2\n",
    ),
    (b"GET nothing\n\n", b""),
    (b"GET\n\n", b""),
    (b"FOO\n\n", b""),
    (b"", b""),
];

fn assert_all_pieces<R: Abort + AllocGlobal>(
    rt: &R,
    file: &[u8],
    streams: &[(&[u8], &[u8])],
) -> Result<(), Fail> {
    for (bytes, expected) in streams {
        assert_pieces(rt, file, *bytes, *expected)?;
    }
    Ok(())
}

#[test]
fn pieces_change_nothing(rt: HostRuntime) -> Result<(), Fail> {
    assert_all_pieces(&rt, HOSTS, STREAMS)?;
    assert_all_pieces(&rt, SERVICES, TABLES)?;
    assert_all_pieces(&rt, SERVICES, CHANGED)
}

#[test]
fn a_read_fault_leaves_what_was_written(rt: HostRuntime) -> Result<(), Fail> {
    let broken = Outside {
        fail_read: &[1],
        ..STEADY
    };
    assert_run(
        &rt,
        &["ask", "f"],
        &broken,
        KEPT,
        (5, ROWS, b"read fault\n"),
    )
}

#[test]
fn a_write_fault_leaves_the_replies_before_it(rt: HostRuntime) -> Result<(), Fail> {
    let full = Outside {
        fail_write: &[1],
        ..STEADY
    };
    assert_run(
        &rt,
        &["ask", "f"],
        &full,
        STREAM,
        (6, ROWS, b"write fault\n"),
    )
}

/// The piece a number of times, and the query after it.
fn after_many(alloc: Global, piece: &[u8], count: usize) -> Result<Vec<u8>, AllocError> {
    let mut bytes = piece.repeat(alloc, count)?;
    bytes.extend_from_slice(QUERY)?;
    Ok(bytes)
}

#[test]
fn a_connection_has_10_000_messages_at_most(rt: HostRuntime) -> Result<(), Fail> {
    let alloc = rt.alloc();
    let most = after_many(alloc, b"COMMAND [1] X\n", 9_999)?;
    assert_run(&rt, &["ask", "f"], &STEADY, &most, (0, ROWS, b""))?;
    let more = after_many(alloc, b"COMMAND [1] X\n", 10_000)?;
    assert_run(&rt, &["ask", "f"], &STEADY, &more, (0, b"", b""))
}

/// The bytes with a number of copies of one byte between the other two parts.
fn with_padding(
    alloc: Global,
    front: &[u8],
    byte: u8,
    count: usize,
    back: &[u8],
) -> Result<Vec<u8>, AllocError> {
    let mut bytes = Vec::from_slice(alloc, front)?;
    bytes.extend_from_slice(&vec![in alloc; byte; count]?)?;
    bytes.extend_from_slice(back)?;
    Ok(bytes)
}

#[test]
fn a_file_has_67_108_864_bytes_at_most(rt: HostRuntime) -> Result<(), Fail> {
    let alloc = rt.alloc();
    let front = b"define host {\n host_name a\n}\n#";
    let most = with_padding(alloc, front, b'-', 67_108_864 - front.len(), b"")?;
    let within = Outside {
        file: most.as_slice(),
        ..STEADY
    };
    assert_run(&rt, &["ask", "f"], &within, QUERY, (0, b"a;0\n", b""))?;
    let more = with_padding(alloc, front, b'-', 67_108_865 - front.len(), b"")?;
    let past = Outside {
        file: more.as_slice(),
        ..STEADY
    };
    assert_run(
        &rt,
        &["ask", "f"],
        &past,
        QUERY,
        (2, b"", b"objects: too large\n"),
    )
}

/// A format, what the largest body of one name has before it, how long that name is, and what the
/// body has after it.
type Largest<'a> = (&'a [u8], &'a [u8], usize, &'a [u8]);

const LARGEST_BODIES: [Largest<'static>; 3] = [
    (b"csv", b"", 8_388_607, b"\n"),
    (b"CSV", b"", 8_388_606, b"\r\n"),
    (b"json", b"[[\"", 8_388_601, b"\"]]\n"),
];

/// Asks for the name of one host in a format, with a body of the most bytes and of one more.
fn assert_largest<R: Abort + AllocGlobal>(
    rt: &R,
    (format, before, count, after): Largest<'_>,
) -> Result<(), Fail> {
    let alloc = rt.alloc();
    let mut query = Vec::from_slice(alloc, b"GET hosts\nColumns: name\nOutputFormat: ")?;
    query.extend_from_slice(format)?;
    query.extend_from_slice(b"\nResponseHeader: fixed16\n\n")?;
    let front = b"define host {\n host_name ";
    let most = with_padding(alloc, front, b'a', count, b"\n}")?;
    let within = Outside {
        file: most.as_slice(),
        ..STEADY
    };
    let mut head = Vec::from_slice(alloc, b"200     8388608\n")?;
    head.extend_from_slice(before)?;
    let reply = with_padding(alloc, &head, b'a', count, after)?;
    assert_run(
        rt,
        &["ask", "f"],
        &within,
        &query,
        (0, reply.as_slice(), b""),
    )?;
    let more = with_padding(alloc, front, b'a', count.saturating_add(1), b"\n}")?;
    let past = Outside {
        file: more.as_slice(),
        ..STEADY
    };
    let refused = b"413          16\nreply too large\n";
    assert_run(rt, &["ask", "f"], &past, &query, (0, refused, b""))
}

#[test]
fn a_reply_has_8_388_608_bytes_at_most(rt: HostRuntime) -> Result<(), Fail> {
    for largest in LARGEST_BODIES {
        assert_largest(&rt, largest)?;
    }
    Ok(())
}

#[test]
fn a_message_has_65_536_bytes_at_most(rt: HostRuntime) -> Result<(), Fail> {
    let alloc = rt.alloc();
    let front = b"GET hosts\nColumns: name";
    let most = with_padding(alloc, front, b' ', 65_536 - front.len() - 2, b"\n\n")?;
    assert_run(
        &rt,
        &["ask", "f"],
        &STEADY,
        &most,
        (0, b"web1\nweb2\n", b""),
    )?;
    let back = b"\n\nGET hosts\nColumns: name\n\n";
    let more = with_padding(alloc, front, b' ', 65_536 - front.len() - 1, back)?;
    assert_run(&rt, &["ask", "f"], &STEADY, &more, (0, b"", b""))?;
    assert_told(&rt)
}

/// The same where the query asks for the line of 16 bytes: the message has 65 bytes and the name.
fn assert_told<R: Abort + AllocGlobal>(rt: &R) -> Result<(), Fail> {
    let alloc = rt.alloc();
    let front = b"GET hosts\nResponseHeader: fixed16\nColumns: name\nFilter: name = ";
    let most = with_padding(alloc, front, b'a', 65_471, b"\n\n")?;
    let none = b"200           0\n";
    assert_run(rt, &["ask", "f"], &STEADY, &most, (0, none, b""))?;
    let more = with_padding(alloc, front, b'a', 65_472, b"\n\n")?;
    let refused = b"413          18\nrequest too large\n";
    assert_run(rt, &["ask", "f"], &STEADY, &more, (0, refused, b""))
}

/// The size of the first blocks that are taken: half of what a process can address.
const LARGEST: usize = 1 << 46;

/// The most blocks that are taken of one size.
const MOST_BLOCKS: usize = 1 << 18;

/// Takes all the memory that the process may still have, in blocks of ever smaller sizes.
fn take_all(alloc: Global, blocks: &mut Vec<Vec<u8>>) {
    for halvings in 0..43u32 {
        take_blocks(alloc, blocks, LARGEST >> halvings);
    }
}

/// Takes as many blocks of a size as there are.
fn take_blocks(alloc: Global, blocks: &mut Vec<Vec<u8>>, size: usize) {
    for _ in 0..MOST_BLOCKS {
        if take_block(alloc, blocks, size).is_err() {
            return;
        }
    }
}

fn take_block(alloc: Global, blocks: &mut Vec<Vec<u8>>, size: usize) -> Result<(), AllocError> {
    let block = Vec::with_capacity(alloc, size)?;
    Ok(blocks.push(block)?)
}

/// Whether memory ends. It doesn't where `rt try` runs the tests, by an allocator of its own.
fn has_memory_an_end(alloc: Global) -> Result<bool, AllocError> {
    let mut blocks = Vec::with_capacity(alloc, MOST_BLOCKS)?;
    take_all(alloc, &mut blocks);
    let more: Result<Vec<u8>, AllocError> = Vec::with_capacity(alloc, 1);
    Ok(more.is_err())
}

/// A source that gives some first bytes, and takes all memory before it gives more.
#[derive(Drop)]
struct Greedy {
    inner: MemSource,
    alloc: Global,
    first: usize,
    blocks: Vec<Vec<u8>>,
}

impl Source for Greedy {
    ghost use Rattle.std.specs.Prelude.{◌≡◌, None};
    ghost use Rattle.lq_outside.specs.Faults.{next_count};

    ghost left = { λ _. None };

    ghost faults = { λ s. s.inner.faults };

    ghost one_read = { λ old new. new.inner.calls ≡ next_count old.inner.calls };

    ghost other_side = { λ _. (None, 0) };

    fn read(&mut self, buf: &mut [u8]) -> Result<usize, Failed> {
        if self.first == 0 {
            take_all(self.alloc, &mut self.blocks);
            return self.inner.read(buf);
        }
        let most = buf.len().min(self.first);
        self.first -= most;
        self.inner.read(&mut buf[..most])
    }
}

/// A sink that took its room beforehand.
#[derive(Drop)]
struct Roomy {
    bytes: Vec<u8>,
    faults: u64,
}

impl Sink for Roomy {
    ghost use Rattle.std.specs.Prelude.{None};

    ghost held = { λ _. None };

    ghost faults = { λ s. s.faults };

    ghost other_side = { λ _. (None, 0) };

    fn write(&mut self, piece: &[u8]) -> Result<usize, Failed> {
        if self.bytes.extend_from_slice(piece).is_err() {
            self.faults = self.faults.saturating_add(1);
            return Err(Failed);
        }
        Ok(piece.len())
    }
}

fn roomy_sink(alloc: Global) -> Result<Roomy, AllocError> {
    Ok(Roomy {
        bytes: Vec::with_capacity(alloc, 256)?,
        faults: 0,
    })
}

/// A source of `KEPT` and then messages, which takes all memory between the two.
fn greedy_source(alloc: Global, messages: &[u8]) -> Result<Greedy, AllocError> {
    let mut bytes = Vec::from_slice(alloc, KEPT)?;
    bytes.extend_from_slice(messages)?;
    Ok(Greedy {
        inner: source(alloc, &bytes, &[])?,
        alloc,
        first: KEPT.len(),
        blocks: Vec::with_capacity(alloc, MOST_BLOCKS)?,
    })
}

fn greedy_process(alloc: Global, messages: &[u8]) -> Result<Process<Greedy, Roomy>, AllocError> {
    Ok(Process {
        words: texts(alloc, &["ask", "f"])?,
        files: files(alloc, &STEADY)?,
        input: greedy_source(alloc, messages)?,
        output: roomy_sink(alloc)?,
        faults: roomy_sink(alloc)?,
    })
}

/// Runs the program on a query whose reply finds memory, and on messages that find none.
fn assert_scarce<R: Abort + AllocGlobal>(
    rt: &R,
    messages: &[u8],
    replies: &[u8],
) -> Result<(), Fail> {
    let mut process = greedy_process(rt.alloc(), messages)?;
    let status = process.run(rt);
    process.input.blocks.clear();
    assert_eq!(rt; status, 7);
    assert_eq!(rt; process.output.bytes.as_slice(), replies);
    assert_eq!(rt;
        process.faults.bytes.as_slice(),
        b"out of memory\n".as_slice()
    );
    Ok(())
}

/// The reply to `KEPT`, and that to a query with codes which finds no memory.
const REFUSED: &[u8] = b"web1;0\nweb2;0\n500          14\nout of memory\n";

#[test]
fn a_message_without_memory_is_refused_in_its_style(rt: HostRuntime) -> Result<(), Fail> {
    let alloc = rt.alloc();
    if !has_memory_an_end(alloc)? {
        return Ok(());
    }
    let front = b"GET hosts\nResponseHeader: fixed16\nColumns: name";
    let too_long = with_padding(alloc, front, b' ', 65_536, b"\n\n")?;
    let cases: [(&[u8], &[u8]); 5] = [
        (
            b"GET hosts\nResponseHeader: fixed16\nKeepAlive: on\n\nGET hosts\n\n",
            REFUSED,
        ),
        (b"GET hosts\nKeepAlive: on\n\nGET hosts\n\n", ROWS),
        (b"GET nothing\nResponseHeader: fixed16\n\n", REFUSED),
        (
            b"COMMAND [1] ADD_HOST_COMMENT;web1;1;anna;say it\n\nGET hosts\n\n",
            ROWS,
        ),
        (&too_long, REFUSED),
    ];
    for (messages, replies) in cases {
        assert_scarce(&rt, messages, replies)?;
    }
    Ok(())
}

// ---- the log

const AFTER_LOG: &[u8] = b"web1;0\nweb2;1\n";

const USAGE: &[u8] = b"usage: lqd ask|replay|serve|load\n";

/// Words that speak of a log, with the status and the two outputs.
const LOG_WORDS: &[(&[&str], (u8, &[u8], &[u8]))] = &[
    (&["ask", "f", "--log", "l"], (0, AFTER_LOG, b"")),
    (&["ask", "--log=l", "f"], (0, AFTER_LOG, b"")),
    (
        &[
            "ask",
            "--group-auth",
            "loose",
            "--log",
            "l",
            "--service-auth=strict",
            "--",
            "f",
        ],
        (0, AFTER_LOG, b""),
    ),
    // No line of the object file begins with a second.
    (&["ask", "f", "--log", "f"], (0, ROWS, b"")),
    (
        &["ask", "f", "--log", "nowhere"],
        (4, b"", b"file: nowhere: missing\n"),
    ),
    (
        &["ask", "nowhere", "--log", "gone"],
        (4, b"", b"file: nowhere: missing\n"),
    ),
    (&["ask", "f", "--log="], (4, b"", b"file: : missing\n")),
    (&["ask", "f", "--log=-x"], (4, b"", b"file: -x: missing\n")),
    (
        &["ask", "f", "--log=a=b"],
        (4, b"", b"file: a=b: missing\n"),
    ),
    (&["ask", "f", "--log", "-"], (4, b"", b"file: -: missing\n")),
    (&["ask", "f", "--log"], (1, b"", USAGE)),
    (&["ask", "--log", "l"], (1, b"", USAGE)),
    (&["ask", "f", "--log", "-x"], (1, b"", USAGE)),
    (&["ask", "f", "--log", "--", "l"], (1, b"", USAGE)),
    (&["ask", "f", "--", "--log", "l"], (1, b"", USAGE)),
    (&["ask", "f", "--log", "l", "--log=l"], (1, b"", USAGE)),
    (&["ask", "f", "--logs", "l"], (1, b"", USAGE)),
    (&["ask", "f", "--logs=l"], (1, b"", USAGE)),
    (&["ask", "f", "-l"], (1, b"", USAGE)),
];

#[test]
fn a_log_says_where_the_state_begins(rt: HostRuntime) -> Result<(), Fail> {
    for (words, expected) in LOG_WORDS {
        assert_run(&rt, *words, &STEADY, QUERY, *expected)?;
    }
    let input = b"COMMAND [50] PROCESS_HOST_CHECK_RESULT;web1;1;away
GET hosts\nColumns: name state last_check plugin_output\n\n";
    let rows = b"web1;1;101;away\nweb2;1;100;away\n";
    assert_run(
        &rt,
        &["ask", "f", "--log", "l"],
        &STEADY,
        input,
        (0, rows, b""),
    )
}

/// The same lines over and over.
fn lines_repeated(alloc: Global, lines: &[u8], count: usize) -> Result<Vec<u8>, AllocError> {
    let mut bytes = Vec::with_capacity(alloc, lines.len().saturating_mul(count))?;
    for _ in 0..count {
        bytes.extend_from_slice(lines)?;
    }
    Ok(bytes)
}

/// Runs the program on a log, and compares its status and what the fault sink holds. No reply is
/// written.
fn assert_log_refused<R: Abort + AllocGlobal>(
    rt: &R,
    outside: &Outside<'_>,
    status: u8,
    text: &[u8],
) -> Result<(), Fail> {
    assert_run(
        rt,
        &["ask", "f", "--log", "l"],
        outside,
        QUERY,
        (status, b"", text),
    )
}

#[test]
fn a_log_at_fault_is_told(rt: HostRuntime) -> Result<(), Fail> {
    let many = lines_repeated(rt.alloc(), b"[1] x\n", 200_001)?;
    let too_many = Outside {
        log: &many,
        ..STEADY
    };
    assert_log_refused(&rt, &too_many, 3, b"log: line 200001: too many lines\n")?;
    let unread = Outside {
        fail_load: &[1],
        ..too_many
    };
    assert_log_refused(&rt, &unread, 4, b"file: l: cannot be read\n")?;
    let both = Outside {
        file: b"define host {\n host_name a",
        ..too_many
    };
    assert_log_refused(&rt, &both, 2, b"objects: line 1: unclosed\n")?;
    let long = with_padding(rt.alloc(), b"[1] a\n", b'x', 8193, b"\n")?;
    let too_long = Outside {
        log: &long,
        ..STEADY
    };
    assert_log_refused(&rt, &too_long, 3, b"log: line 2: line too long\n")
}

#[test]
fn a_log_has_67_108_864_bytes_at_most(rt: HostRuntime) -> Result<(), Fail> {
    let most = with_padding(rt.alloc(), b"", b'x', 67_108_864, b"")?;
    let within = Outside {
        log: &most,
        ..STEADY
    };
    assert_log_refused(&rt, &within, 3, b"log: line 1: line too long\n")?;
    let more = with_padding(rt.alloc(), b"", b'x', 67_108_865, b"")?;
    let past = Outside {
        log: &more,
        ..STEADY
    };
    assert_log_refused(&rt, &past, 3, b"log: too large\n")
}
