//! The table of the log: the columns of each form, the objects that are joined to its lines, and
//! the lines that commands write.

use crate::fixture::{Asked, SITE, Site, assert_replies, assert_same, assert_site};
use std::process::Abort;
use std::test::Fail;

/// A line of each form, of a form with fields that it hasn't, and of none.
const LINES: &[u8] = b"[100] HOST ALERT: web1;DOWN;SOFT;1;away
[101] SERVICE ALERT: web1;http;CRITICAL;HARD;3;bad
[102] CURRENT HOST STATE: web1;UP;HARD;1;fine
[103] INITIAL HOST STATE: web2;UNREACHABLE;HARD;1;
[104] CURRENT SERVICE STATE: web1;http;OK;HARD;1;
[105] INITIAL SERVICE STATE: web2;ping;UNKNOWN;SOFT;2;(null)
[106] HOST DOWNTIME ALERT: web1;STARTED; Host has entered
[107] SERVICE DOWNTIME ALERT: web1;http;CANCELLED;gone
[108] HOST FLAPPING ALERT: web1;DISABLED;off
[109] SERVICE FLAPPING ALERT: web1;disk;STARTED;on
[110] HOST NOTIFICATION: anna;web1;DOWN;mail;away
[111] SERVICE NOTIFICATION: bert;web2;ping;ACKNOWLEDGEMENT (CRITICAL);page;lost
[112] EXTERNAL COMMAND: ADD_HOST_COMMENT;web1;1;anna;x
[113] PASSIVE HOST CHECK: web2;1;away
[114] PASSIVE SERVICE CHECK: web1;disk;3;odd
[115] TIMEPERIOD TRANSITION: days;-1;1
[116] LOG VERSION: 2.0
[117] Caught SIGTERM, shutting down...
[118] HOST ALERT: web1;LOST;HARD;1;x
[119] Warning: x: y
";

/// All columns but the message and the options, whose values have semicolons.
const FORMS: &str = "GET log
Columns: time class type comment plugin_output state state_type attempt
Columns: contact_name command_name host_name service_description";

const OF_FORMS: &[(&str, &str)] = &[
    (
        "\nFilter: time <= 109",
        "100;1;HOST ALERT;;away;1;SOFT;1;;;web1;
101;1;SERVICE ALERT;;bad;2;HARD;3;;;web1;http
102;6;CURRENT HOST STATE;;fine;0;HARD;1;;;web1;
103;6;INITIAL HOST STATE;;;2;HARD;1;;;web2;
104;6;CURRENT SERVICE STATE;;;0;HARD;1;;;web1;http
105;6;INITIAL SERVICE STATE;;(null);3;SOFT;2;;;web2;ping
106;1;HOST DOWNTIME ALERT; Host has entered;;0;STARTED;0;;;web1;
107;1;SERVICE DOWNTIME ALERT;gone;;0;CANCELLED;0;;;web1;http
108;1;HOST FLAPPING ALERT;off;;0;DISABLED;0;;;web1;
109;1;SERVICE FLAPPING ALERT;on;;0;STARTED;0;;;web1;disk
",
    ),
    (
        "\nFilter: time > 109",
        "110;3;HOST NOTIFICATION;;away;1;DOWN;0;anna;mail;web1;
111;3;SERVICE NOTIFICATION;;lost;0;ACKNOWLEDGEMENT (CRITICAL);0;bert;page;web2;ping
112;5;EXTERNAL COMMAND;;;0;;0;;;;
113;4;PASSIVE HOST CHECK;;away;1;;0;;;web2;
114;4;PASSIVE SERVICE CHECK;;odd;3;;0;;;web1;disk
115;6;TIMEPERIOD TRANSITION;;;0;;0;;;;
116;2;LOG VERSION;;;0;;0;;;;
117;2;Caught SIGTERM, shutting down...;;;0;;0;;;;
118;0;HOST ALERT;;;0;;0;;;;
119;0;Warning;;;0;;0;;;;
",
    ),
];

const TYPES: &str = "GET log\nColumns: type options message";

const OF_TYPES: &[(&str, &str)] = &[(
    "\nFilter: time >= 116",
    "LOG VERSION;2.0;[116] LOG VERSION: 2.0
Caught SIGTERM, shutting down...;;[117] Caught SIGTERM, shutting down...
HOST ALERT;web1;LOST;HARD;1;x;[118] HOST ALERT: web1;LOST;HARD;1;x
Warning;x: y;[119] Warning: x: y
",
)];

/// Lines, statistics and a window of time.
const CHOSEN: &str = "GET log\n";

const OF_CHOSEN: &[(&str, &str)] = &[
    (
        "Stats: class = 1\nStats: class = 3\nStats: time > 0",
        "6;2;20\n",
    ),
    (
        "Columns: time\nFilter: time >= 113\nFilter: time < 115",
        "113\n114\n",
    ),
    ("Columns: log_time\nFilter: log_message ~ SIGTERM", "117\n"),
    (
        "Columns: time\nFilter: state_type = STARTED\nLimit: 1",
        "106\n",
    ),
    (
        "Columns: time\nFilter: host_name = web2\nFilter: state = 3",
        "105\n",
    ),
];

/// The objects that lines are about, as they are now.
const JOINED: &str = "GET log
Columns: time current_host_name current_host_alias current_host_state
Columns: current_service_description current_service_state current_service_plugin_output";

const OF_JOINED: &[(&str, &str)] = &[
    (
        "\nFilter: class = 1",
        "100;web1;Web One;0;;0;
101;web1;Web One;0;http;0;
106;web1;Web One;0;;0;
107;web1;Web One;0;http;0;
108;web1;Web One;0;;0;
109;web1;Web One;0;disk;2;full
200;web1;Web One;0;disk;2;full
",
    ),
    (
        "\nFilter: class = 4",
        "113;web2;web2;2;;0;\n114;web1;Web One;0;disk;2;full\n",
    ),
    ("\nFilter: time = 112", "112;;;0;;0;\n"),
    ("\nFilter: time = 118", "118;;;0;;0;\n"),
    (
        "\nFilter: current_service_description = ping",
        "105;web2;web2;2;ping;3;(null)\n111;web2;web2;2;ping;3;(null)\n",
    ),
];

#[test]
fn lines_of_each_form_have_its_columns(rt: HostRuntime) -> Result<(), Fail> {
    let site = Site::after_log(rt.alloc(), SITE, LINES)?;
    let queries = &[(FORMS, OF_FORMS), (TYPES, OF_TYPES), (CHOSEN, OF_CHOSEN)];
    assert_site(&rt, site, "", queries)
}

#[test]
fn lines_are_joined_to_what_they_are_about(rt: HostRuntime) -> Result<(), Fail> {
    let site = Site::after_log(rt.alloc(), SITE, LINES)?;
    let full = "[200] PROCESS_SERVICE_CHECK_RESULT;web1;disk;2;full";
    let joined: &[Asked<'_>] = &[(JOINED, OF_JOINED)];
    assert_site(&rt, site, full, joined)
}

/// Logs, each with what its lines are shown as.
const WRITTEN: &[(&[u8], &str)] = &[
    // Bytes that aren't UTF-8, and a second before that of the line before.
    (
        b"[100] a\n[90] b\xff",
        "100;a;;[100] a\n100;b\u{fffd};;[90] b\u{fffd}\n",
    ),
    // A type goes up to a colon with a blank or a tab after it.
    (b"[1]a: b", "1;a;b;[1]a: b\n"),
    (b"[1] \t a:\tb: c", "1;a;b: c;[1] \t a:\tb: c\n"),
    (b"[1] a:b", "1;a:b;;[1] a:b\n"),
    (b"[1] : b", "1;;b;[1] : b\n"),
    (b"[1] a:", "1;a:;;[1] a:\n"),
    (b"[1] a: ", "1;a;;[1] a: \n"),
    (b"[1]", "1;;;[1]\n"),
    // What begins with no second has no row.
    (b"a: b\n[] c\n\n[2] d", "2;d;;[2] d\n"),
];

#[test]
fn lines_are_shown_as_they_are_written(rt: HostRuntime) -> Result<(), Fail> {
    for (log, expected) in WRITTEN {
        let site = Site::after_log(rt.alloc(), SITE, *log)?;
        let found = site.ask(rt.alloc(), "GET log\nColumns: time type options message")?;
        assert_same(&rt, found.as_str(), *expected, log);
    }
    Ok(())
}

/// A downtime that begins and ends, and is removed afterwards.
const DOWNTIME: &str = "[150] SCHEDULE_HOST_DOWNTIME;web1;200;300;1;0;100;anna;work
[199] ENABLE_NOTIFICATIONS
[200] ENABLE_NOTIFICATIONS
[300] ENABLE_NOTIFICATIONS
[301] DEL_HOST_DOWNTIME;1";

#[test]
fn commands_write_lines_of_the_log(rt: HostRuntime) -> Result<(), Fail> {
    let cases = &[
        (
            "GET log\nColumns: time type state_type\nFilter: class = 1",
            "200;HOST DOWNTIME ALERT;STARTED\n300;HOST DOWNTIME ALERT;STOPPED\n",
        ),
        (
            "GET log\nColumns: time class type options\nFilter: class != 1\nFilter: time < 200",
            "150;5;EXTERNAL COMMAND;SCHEDULE_HOST_DOWNTIME;web1;200;300;1;0;100;anna;work
199;5;EXTERNAL COMMAND;ENABLE_NOTIFICATIONS\n",
        ),
    ];
    assert_replies(&rt, SITE, DOWNTIME, cases)
}

/// What logs last tell of flapping and of time periods: each with the columns `is_flapping` and
/// `in_notification_period` of the two hosts, of http, ping and disk, and `in` of both periods.
/// web1 has the period days, http the period always, the others none.
const LAST: &[(&str, &str)] = &[
    ("", "0;1\n0;1\n0;1\n0;1\n0;1\n1\n1\n"),
    (
        "[1] HOST FLAPPING ALERT: web1;STARTED;x\n[1] SERVICE FLAPPING ALERT: web1;disk;STARTED;x",
        "1;1\n0;1\n0;1\n0;1\n1;1\n1\n1\n",
    ),
    (
        "[1] HOST FLAPPING ALERT: web1;STARTED;x\n[2] HOST FLAPPING ALERT: web1;STOPPED;x
[3] SERVICE FLAPPING ALERT: web2;ping;STARTED;x\n[4] SERVICE FLAPPING ALERT: web2;ping;DISABLED;x
[5] SERVICE FLAPPING ALERT: web1;http;STOPPED;x\n[6] SERVICE FLAPPING ALERT: web1;http;STARTED;x",
        "0;1\n0;1\n1;1\n0;1\n0;1\n1\n1\n",
    ),
    // Lines that tell nothing of these objects, or nothing of flapping.
    (
        "[1] HOST FLAPPING ALERT: web9;STARTED;x\n[1] SERVICE FLAPPING ALERT: web2;http;STARTED;x
[1] HOST FLAPPING ALERT: web2;BEGUN;x\n[1] HOST DOWNTIME ALERT: web2;STARTED;x
[1] EXTERNAL COMMAND: HOST FLAPPING ALERT: web2;STARTED;x",
        "0;1\n0;1\n0;1\n0;1\n0;1\n1\n1\n",
    ),
    (
        "[1] TIMEPERIOD TRANSITION: days;-1;0\n[2] TIMEPERIOD TRANSITION: always;-1;1",
        "0;0\n0;1\n0;1\n0;1\n0;1\n1\n0\n",
    ),
    (
        "[1] TIMEPERIOD TRANSITION: days;-1;0\n[2] TIMEPERIOD TRANSITION: always;1;0
[3] TIMEPERIOD TRANSITION: days;0;1\n[4] TIMEPERIOD TRANSITION: nights;0;0
[5] TIMEPERIOD TRANSITION: ;1;0\n[6] TIMEPERIOD TRANSITION: days;0;x",
        "0;1\n0;1\n0;0\n0;1\n0;1\n0\n1\n",
    ),
    // Inside is 1 alone.
    (
        "[1] TIMEPERIOD TRANSITION: days;0;2\n[2] TIMEPERIOD TRANSITION: always;0;-1",
        "0;0\n0;1\n0;0\n0;1\n0;1\n0\n0\n",
    ),
];

const LAST_QUERIES: &str = "GET hosts\nColumns: is_flapping in_notification_period\n
GET services\nColumns: is_flapping in_notification_period\n
GET timeperiods\nColumns: in";

#[test]
fn the_last_lines_tell_of_flapping_and_periods(rt: HostRuntime) -> Result<(), Fail> {
    for (log, expected) in LAST {
        let site = Site::after_log(rt.alloc(), SITE, log.as_bytes())?;
        let found = site.ask(rt.alloc(), LAST_QUERIES)?;
        assert_same(&rt, found.as_str(), *expected, log);
    }
    Ok(())
}

/// A log in which disk begins to flap, goes wrong and is well again while web1 is in a downtime.
const FLAPS: &[u8] = b"[99] SERVICE FLAPPING ALERT: web1;disk;STARTED;x
[100] HOST DOWNTIME ALERT: web1;STARTED;w
[150] SERVICE ALERT: web1;disk;WARNING;HARD;1;a
[150] SERVICE ALERT: web1;disk;CRITICAL;HARD;1;b
[180] HOST DOWNTIME ALERT: web1;STOPPED;w
[200] SERVICE ALERT: web1;disk;OK;HARD;1;c
";

const OF_FLAPS: &[(&str, &str)] = &[
    (
        "services\nColumns: description state is_flapping\nFilter: host_name = web1",
        "http;0;0\ndisk;0;1\n",
    ),
    (
        "log\nColumns: time current_service_state plugin_output\nFilter: state > 0",
        "150;0;a\n150;0;b\n",
    ),
];

/// Filters and statistics over these columns, own and joined.
const FLAPPING: &[(&str, &str)] = &[
    ("hosts\nColumns: name\nFilter: is_flapping = 1", "web1\n"),
    (
        "hosts\nColumns: name\nFilter: in_notification_period = 0",
        "web1\n",
    ),
    (
        "services\nStats: is_flapping = 1\nStats: host_is_flapping = 1",
        "1;2\n",
    ),
    ("timeperiods\nColumns: name\nFilter: in = 0", "days\n"),
    ("timeperiods\nStats: sum in", "1\n"),
    (
        "log\nColumns: time current_host_is_flapping current_service_is_flapping\nLimit: 2",
        "1;1;0\n2;0;1\n",
    ),
];

#[test]
fn flapping_and_periods_are_filtered_and_counted(rt: HostRuntime) -> Result<(), Fail> {
    let log = b"[1] HOST FLAPPING ALERT: web1;STARTED;x
[2] SERVICE FLAPPING ALERT: web2;ping;STARTED;x
[3] TIMEPERIOD TRANSITION: days;1;0
";
    let site = Site::after_log(rt.alloc(), SITE, log)?;
    assert_site(&rt, site, "", &[("GET ", FLAPPING)])?;
    let site = Site::after_log(rt.alloc(), SITE, FLAPS)?;
    assert_site(&rt, site, "", &[("GET ", OF_FLAPS)])
}
