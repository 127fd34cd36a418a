//! The table of histories: what slices tell of an interval, and who sees them.

use crate::fixture::{Site, assert_same};
use std::process::Abort;
use std::test::Fail;

const OBJECTS: &[u8] = b"define timeperiod {
 timeperiod_name always
 }
define contact {
 contact_name anna
 }
define contact {
 contact_name bert
 }
define host {
 host_name web1
 alias Web One
 contacts anna
 notification_period always
 }
define host {
 host_name web2
 contacts bert
 }
define service {
 host_name web1
 service_description http
 max_check_attempts 3
 contacts anna
 }
define service {
 host_name web1
 service_description disk
 contacts bert
 notification_period nights
 }
define service {
 host_name web2
 service_description ping
 contacts bert
 }
";

const LOG: &str = "[99] SERVICE FLAPPING ALERT: web1;disk;STARTED;x
[100] HOST DOWNTIME ALERT: web1;STARTED;w
[150] SERVICE ALERT: web1;disk;WARNING;HARD;1;a
[150] SERVICE ALERT: web1;disk;CRITICAL;HARD;1;b
[180] HOST DOWNTIME ALERT: web1;STOPPED;w
[200] SERVICE ALERT: web1;disk;OK;HARD;1;c
";

/// A log, the lines of a query, and its answer.
type Case<'a> = (&'a str, &'a str, &'a str);

const DISK: &str = "Columns: from until state in_host_downtime is_flapping duration_part log_output
Filter: host_name = web1
Filter: service_description = disk
";

/// Intervals, with what disk is shown as.
const INTERVALS: &[(&str, &str)] = &[
    (
        "Filter: time >= 100\nFilter: time < 200",
        "100;150;-1;1;1;500000;\n150;180;2;1;1;300000;b\n180;200;2;0;1;200000;b\n",
    ),
    (
        "Filter: time > 99\nFilter: time <= 199",
        "100;150;-1;1;1;500000;\n150;180;2;1;1;300000;b\n180;200;2;0;1;200000;b\n",
    ),
    // An interval of one second, and none.
    ("Filter: time = 150", "150;151;2;1;1;1000000;b\n"),
    (
        "Filter: time >= 150\nFilter: time < 151",
        "150;151;2;1;1;1000000;b\n",
    ),
    ("Filter: time >= 100\nFilter: time < 100", ""),
    ("Filter: time > 100\nFilter: time < 100", ""),
    // Before the first line, and after the last one.
    (
        "Filter: time >= 0\nFilter: time < 99",
        "0;99;-1;0;0;1000000;\n",
    ),
    (
        "Filter: time >= 200\nFilter: time < 300",
        "200;300;0;0;1;1000000;c\n",
    ),
    // The tightest bounds hold, and without an upper one the present second is the end.
    (
        "Filter: time < 500\nFilter: time >= 0\nFilter: time >= 150\nFilter: time < 180",
        "150;180;2;1;1;1000000;b\n",
    ),
    ("Filter: statehist_time >= 180", "180;200;2;0;1;1000000;b\n"),
    // Bounds before the first second, and after the greatest one.
    (
        "Filter: time >= -5\nFilter: time < 99",
        "0;99;-1;0;0;1000000;\n",
    ),
    (
        "Filter: time > 999999999998\nFilter: time < 9223372036854775807",
        "999999999999;1000000000000;0;0;1;1000000;c\n",
    ),
    ("Filter: time >= 9223372036854775807", ""),
    // A third of the interval is rounded down.
    (
        "Filter: time >= 148\nFilter: time < 151",
        "148;150;-1;1;1;666666;\n150;151;2;1;1;333333;b\n",
    ),
];

/// What lines tell, of logs that each tell something of its own.
const FACTS: &[Case<'_>] = &[
    // Equal facts from two lines with one output are one slice, with another output two.
    (
        "[100] SERVICE ALERT: web1;http;WARNING;SOFT;1;slow
[110] SERVICE ALERT: web1;http;WARNING;SOFT;2;slow
[120] SERVICE ALERT: web1;http;WARNING;HARD;3;slower
[130] CURRENT SERVICE STATE: web1;http;OK;HARD;1;
",
        "Columns: from until state log_output duration_ok duration_warning duration_unmonitored
Filter: service_description = http
Filter: time >= 90
Filter: time < 140",
        "90;100;-1;;0;0;10\n100;120;1;slow;0;20;0\n120;130;1;slower;0;10;0\n130;140;0;;10;0;0\n",
    ),
    // Flapping that is switched off, and a downtime that is cancelled.
    (
        "[100] HOST FLAPPING ALERT: web1;STARTED;x
[110] HOST FLAPPING ALERT: web1;DISABLED;x
[120] SERVICE DOWNTIME ALERT: web1;http;STARTED;x
[130] SERVICE DOWNTIME ALERT: web1;http;CANCELLED;x
",
        "Columns: service_description from until is_flapping in_downtime in_host_downtime
Filter: host_name = web1
Filter: service_description != disk
Filter: time >= 100
Filter: time < 140",
        ";100;110;1;0;0\n;110;140;0;0;0
http;100;120;0;0;0\nhttp;120;130;0;1;0\nhttp;130;140;0;0;0\n",
    ),
    // A downtime of a host is one of itself, and the host's of its services.
    (
        "[100] HOST DOWNTIME ALERT: web2;STARTED;x\n",
        "Columns: host_name service_description from in_downtime in_host_downtime
Filter: in_host_downtime = 1
Filter: time >= 90
Filter: time < 110",
        "web2;;100;1;1\nweb2;ping;100;0;1\n",
    ),
    // A host that is down or unreachable, and its services.
    (
        "[100] HOST ALERT: web1;DOWN;SOFT;1;away
[110] HOST ALERT: web1;UNREACHABLE;HARD;1;far
[120] HOST ALERT: web1;UP;HARD;1;back
[125] HOST ALERT: web9;DOWN;HARD;1;away
",
        "Columns: service_description from until state host_down duration_warning duration_critical
Filter: host_name = web1
Filter: service_description != disk
Filter: time >= 90
Filter: time < 130",
        ";90;100;-1;0;0;0\n;100;110;1;1;10;0\n;110;120;2;1;0;10\n;120;130;0;0;0;0
http;90;100;-1;0;0;0\nhttp;100;120;-1;1;0;0\nhttp;120;130;-1;0;0;0\n",
    ),
    // A time period that goes over, one of which no line tells, and none.
    (
        "[100] TIMEPERIOD TRANSITION: always;1;0
[110] TIMEPERIOD TRANSITION: always;0;1
[115] TIMEPERIOD TRANSITION: ;1;0
",
        "Columns: host_name service_description notification_period from until
Columns: in_notification_period
Filter: service_description !~ http
Filter: time >= 90
Filter: time < 120",
        "web1;;always;90;100;1\nweb1;;always;100;110;0\nweb1;;always;110;120;1
web2;;;90;120;1\nweb1;disk;nights;90;120;1\nweb2;ping;;90;120;1\n",
    ),
];

/// All columns that the name doesn't tell, and the objects as they are now.
const WHOLE: &[Case<'_>] = &[
    (
        LOG,
        "Columns: from until state in_downtime\nFilter: time >= 90\nFilter: time < 210
Filter: host_name = web1\nFilter: service_description =",
        "90;100;-1;0\n100;180;-1;1\n180;210;-1;0\n",
    ),
    (
        LOG,
        "Stats: sum duration\nFilter: time >= 90\nFilter: time < 210\nFilter: host_name = web1",
        "360\n",
    ),
    (
        LOG,
        "Columns: time duration duration_critical current_host_alias current_service_description
Columns: current_service_state current_host_state
Filter: service_description = disk\nFilter: time >= 140\nFilter: time < 160",
        "140;10;0;Web One;disk;0;0\n150;10;10;Web One;disk;0;0\n",
    ),
    // Filters of other columns may stand in groups, and times are counted as any number.
    (
        LOG,
        "Columns: from host_name\nFilter: host_name = web2\nFilter: host_name = web1\nOr: 2
Filter: service_description =\nFilter: time >= 170\nFilter: time < 190",
        "170;web1\n180;web1\n170;web2\n",
    ),
    (
        LOG,
        "Stats: time >= 180\nStats: time < 180\nStatsOr: 2\nStats: time = 100
Filter: time >= 90\nFilter: time < 210",
        "14;3\n",
    ),
];

/// What contacts see.
const RIGHTS: &[Case<'_>] = &[
    (
        LOG,
        "AuthUser: anna\nColumns: host_name service_description from
Filter: time >= 90\nFilter: time < 110",
        "web1;;90\nweb1;;100\nweb1;http;90\nweb1;http;100
web1;disk;90\nweb1;disk;99\nweb1;disk;100\n",
    ),
    (
        LOG,
        "AuthUser: bert\nColumns: host_name service_description from
Filter: time >= 90\nFilter: time < 110",
        "web2;;90\nweb1;disk;90\nweb1;disk;99\nweb1;disk;100\nweb2;ping;90\n",
    ),
    (LOG, "AuthUser: carl\nColumns: from\nFilter: time >= 90", ""),
];

fn assert_case<R: Abort + AllocGlobal>(
    rt: &R,
    (log, query, expected): Case<'_>,
) -> Result<(), Fail> {
    let site = Site::after_log(rt.alloc(), OBJECTS, log.as_bytes())?;
    let whole = format!(in rt.alloc(); "GET statehist\n{query}")?;
    let found = site.ask(rt.alloc(), whole.as_str())?;
    assert_same(rt, found.as_str(), expected, &query);
    Ok(())
}

#[test]
fn slices_tile_the_interval_that_is_asked(rt: HostRuntime) -> Result<(), Fail> {
    for (interval, expected) in INTERVALS {
        let query = format!(in rt.alloc(); "{DISK}{interval}")?;
        assert_case(&rt, (LOG, query.as_str(), *expected))?;
    }
    Ok(())
}

#[test]
fn slices_tell_what_the_lines_do(rt: HostRuntime) -> Result<(), Fail> {
    for case in FACTS {
        assert_case(&rt, *case)?;
    }
    Ok(())
}

#[test]
fn slices_have_columns_and_filters(rt: HostRuntime) -> Result<(), Fail> {
    for case in WHOLE {
        assert_case(&rt, *case)?;
    }
    Ok(())
}

#[test]
fn slices_are_seen_with_their_objects(rt: HostRuntime) -> Result<(), Fail> {
    for case in RIGHTS {
        assert_case(&rt, *case)?;
    }
    Ok(())
}
