//! The state that a log leaves: which of its lines say the state of an object, and which say
//! nothing of a status.

use crate::fixture::{Site, assert_same};
use std::process::Abort;
use std::test::Fail;

const OBJECTS: &[u8] = b"define host {
 host_name web1
 }
define host {
 host_name web2
 }
define service {
 host_name web1
 service_description http
 max_check_attempts 3
 }
define service {
 host_name web2
 service_description ping
 }
";

/// All columns that a check result changes, and which are about a service's first row.
const OF_SERVICES: &str = "GET services
Columns: state state_type hard_state last_hard_state has_been_checked current_attempt last_check \
last_state_change last_hard_state_change plugin_output perf_data
Limit: 1";

const OF_HOSTS: &str = "GET hosts
Columns: state state_type hard_state last_hard_state has_been_checked current_attempt last_check \
last_state_change last_hard_state_change plugin_output perf_data";

/// Logs, each with what is known of the first service after it.
const SERVICE_LOGS: &[(&str, &str)] = &[
    ("", "0;1;0;0;0;1;0;0;0;;\n"),
    (
        "[100] SERVICE ALERT: web1;http;WARNING;SOFT;1;slow|t=9\n",
        "1;0;0;0;1;1;100;100;0;slow;t=9\n",
    ),
    (
        "[100] SERVICE ALERT: web1;http;WARNING;SOFT;1;slow
[110] SERVICE ALERT: web1;http;WARNING;SOFT;2;slower\n",
        "1;0;0;0;1;2;110;100;0;slower;\n",
    ),
    (
        "[100] SERVICE ALERT: web1;http;WARNING;SOFT;1;slow
[110] SERVICE ALERT: web1;http;WARNING;SOFT;2;slow
[120] SERVICE ALERT: web1;http;CRITICAL;HARD;3;down;far\n",
        "2;1;2;2;1;3;120;120;120;down;far;\n",
    ),
    (
        "[100] SERVICE ALERT: web1;http;CRITICAL;HARD;3;down
[130] SERVICE ALERT: web1;http;OK;HARD;3;fine|a|b\n",
        "0;1;0;0;1;1;130;130;130;fine;a|b\n",
    ),
    (
        "[100] SERVICE ALERT: web1;http;UNKNOWN;SOFT;1;gone
[110] SERVICE ALERT: web1;http;OK;SOFT;2;fine\n",
        "0;1;0;0;1;1;110;110;0;fine;\n",
    ),
    (
        "[90] INITIAL SERVICE STATE: web1;http;OK;HARD;1;(null)
[95] CURRENT SERVICE STATE: web1;http;OK;HARD;1;\n",
        "0;1;0;0;1;1;95;90;90;;\n",
    ),
    (
        "[120] SERVICE ALERT: web1;http;CRITICAL;HARD;3;down
[110] SERVICE ALERT: web1;http;WARNING;HARD;999999999;slow\n",
        "1;1;1;1;1;999999999;120;120;120;slow;\n",
    ),
    // Lines that say nothing of a status, or nothing of this one.
    (
        "[100] PASSIVE SERVICE CHECK: web1;http;2;down
[100] SERVICE NOTIFICATION: anna;web1;http;CRITICAL;notify;down
[100] SERVICE FLAPPING ALERT: web1;http;STARTED; flaps
[100] SERVICE DOWNTIME ALERT: web1;http;STARTED; is down
[100] EXTERNAL COMMAND: PROCESS_SERVICE_CHECK_RESULT;web1;http;2;down
[100] EXTERNAL COMMAND: ACKNOWLEDGE_SVC_PROBLEM;web1;http;2;1;0;anna;mine
[100] SERVICE ALERT: web1;http;LOST;HARD;1;down
[100] SERVICE ALERT: web1;http;CRITICAL;HARD;;down
[100] SERVICE ALERT: web1;http;CRITICAL;HARD;1
[100] SERVICE ALERT: web2;http;CRITICAL;HARD;1;down
[100] SERVICE ALERT: web2;ping;CRITICAL;HARD;1;down
[100] SERVICE ALERT: web9;http;CRITICAL;HARD;1;down
[100] HOST ALERT: web1;DOWN;HARD;1;down
SERVICE ALERT: web1;http;CRITICAL;HARD;1;down\n",
        "0;1;0;0;0;1;0;0;0;;\n",
    ),
];

/// Logs, each with what is known of the hosts after it.
const HOST_LOGS: &[(&str, &str)] = &[
    (
        "[100] HOST ALERT: web1;DOWN;SOFT;1;away
[101] CURRENT HOST STATE: web2;UNREACHABLE;HARD;1;behind|x",
        "1;0;0;0;1;1;100;100;0;away;\n2;1;2;2;1;1;101;101;101;behind;x\n",
    ),
    (
        "[100] INITIAL HOST STATE: web2;UP;HARD;1;(null)\r
[100] HOST ALERT: web9;DOWN;HARD;1;away\r
[100] SERVICE ALERT: web1;http;CRITICAL;HARD;1;down\r\n",
        "0;1;0;0;0;1;0;0;0;;\n0;1;0;0;1;1;100;100;100;(null);\n",
    ),
];

fn assert_opening<R: Abort + AllocGlobal>(
    rt: &R,
    query: &str,
    (log, expected): (&str, &str),
) -> Result<(), Fail> {
    let site = Site::after_log(rt.alloc(), OBJECTS, log.as_bytes())?;
    let found = site.ask(rt.alloc(), query)?;
    assert_same(rt, found.as_str(), expected, &log);
    Ok(())
}

#[test]
fn a_log_leaves_the_states_that_its_lines_tell(rt: HostRuntime) -> Result<(), Fail> {
    for log in SERVICE_LOGS {
        assert_opening(&rt, OF_SERVICES, *log)?;
    }
    for log in HOST_LOGS {
        assert_opening(&rt, OF_HOSTS, *log)?;
    }
    Ok(())
}

/// What else a log leaves: the present second, and no acknowledgement, downtime or comment.
const LEFT: &str = "GET status
Columns: present_second enable_notifications

GET services
Columns: acknowledged scheduled_downtime_depth comments downtimes notifications_enabled
Limit: 1

GET comments
Columns: id

GET downtimes
Columns: id";

const REMARKS: &str = "[50] DISABLE_NOTIFICATIONS
[60] ADD_SVC_COMMENT;web1;http;1;anna;first
[70] SCHEDULE_SVC_DOWNTIME;web1;http;200;300;1;0;100;anna;later";

#[test]
fn commands_go_on_from_what_a_log_left(rt: HostRuntime) -> Result<(), Fail> {
    let log = b"[120] SERVICE ALERT: web1;http;CRITICAL;HARD;3;down
[90] EXTERNAL COMMAND: DISABLE_NOTIFICATIONS
[90] EXTERNAL COMMAND: ADD_SVC_COMMENT;web1;http;1;anna;lost
[90] SERVICE DOWNTIME ALERT: web1;http;STARTED; is down
";
    let mut site = Site::after_log(rt.alloc(), OBJECTS, log)?;
    let found = site.ask(rt.alloc(), LEFT)?;
    assert_same(&rt, found.as_str(), "120;1\n0;0;;;1\n", &"the log");
    site.play(rt.alloc(), REMARKS)?;
    let query = "GET status\nColumns: present_second enable_notifications\n\n\
GET comments\nColumns: id entry_time comment\n\nGET downtimes\nColumns: id entry_time start_time";
    let found = site.ask(rt.alloc(), query)?;
    assert_same(
        &rt,
        found.as_str(),
        "120;0\n1;120;first\n1;120;200\n",
        &"the commands",
    );
    Ok(())
}
