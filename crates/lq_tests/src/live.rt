//! What each command does to hosts, services, downtimes, comments and switches, and how many lines
//! it writes.

use crate::fixture::{SITE, Site, Step, assert_steps};
use lq_events::Act;
use lq_records::{HostId, ServiceId, Text};
use std::alloc::{AllocError, Global};
use std::process::Abort;
use std::test::Fail;

/// One service whose trouble is hard at its third result, and one where it is at its first.
const SERVICES: &[u8] = b"define host {
 host_name web1
 }
define service {
 host_name web1
 service_description http
 max_check_attempts 3
 }
define service {
 host_name web1
 service_description disk
 }
";

/// The second and the code of a result, how many lines it writes, and what a query is answered
/// then.
type Checked = (u64, u64, usize, &'static str);

/// Plays a result of a command, and compares what it leaves.
fn assert_result<R: Abort + AllocGlobal>(
    rt: &R,
    site: &mut Site,
    (query, command): (&str, &str),
    (second, code, lines, expected): Checked,
) -> Result<(), Fail> {
    let line = format!(in rt.alloc(); "[{second}] {command};{code};said")?;
    site.assert_step(rt, query, (line.as_str(), lines, expected))
}

fn assert_each<R: Abort + AllocGlobal>(
    rt: &R,
    site: &mut Site,
    asked: (&str, &str),
    results: &[Checked],
) -> Result<(), Fail> {
    for result in results {
        assert_result(rt, site, asked, *result)?;
    }
    Ok(())
}

/// Plays results one after another. A query and the command come first.
fn assert_results<R: Abort + AllocGlobal>(
    rt: &R,
    asked: (&str, &str),
    results: &[Checked],
) -> Result<(), Fail> {
    let mut site = Site::open(rt.alloc(), SERVICES, SERVICES)?;
    assert_each(rt, &mut site, asked, results)
}

const OF_SERVICES: &str = "GET services\nColumns: state state_type current_attempt";

const OF_HOSTS: &str = "GET hosts\nColumns: state state_type current_attempt";

const THREE_ATTEMPTS: &[Checked] = &[
    (100, 2, 2, "2;0;1\n0;1;1\n"),
    (100, 2, 2, "2;0;2\n0;1;1\n"),
    (100, 2, 2, "2;1;3\n0;1;1\n"),
    (100, 2, 1, "2;1;3\n0;1;1\n"),
    (100, 1, 2, "1;1;3\n0;1;1\n"),
    (100, 0, 2, "0;1;1\n0;1;1\n"),
    (100, 0, 1, "0;1;1\n0;1;1\n"),
    (100, 3, 2, "3;0;1\n0;1;1\n"),
    (100, 1, 2, "1;0;2\n0;1;1\n"),
    (100, 0, 2, "0;1;1\n0;1;1\n"),
    (100, 0, 1, "0;1;1\n0;1;1\n"),
    (100, 1, 2, "1;0;1\n0;1;1\n"),
    (100, 0, 2, "0;1;1\n0;1;1\n"),
    (100, 0, 1, "0;1;1\n0;1;1\n"),
];

const ONE_ATTEMPT: &[Checked] = &[
    (100, 0, 1, "0;1;1\n0;1;1\n"),
    (100, 1, 2, "0;1;1\n1;1;1\n"),
    (100, 1, 1, "0;1;1\n1;1;1\n"),
    (100, 3, 2, "0;1;1\n3;1;1\n"),
    (100, 0, 2, "0;1;1\n0;1;1\n"),
    (100, 0, 1, "0;1;1\n0;1;1\n"),
];

const OF_A_HOST: &[Checked] = &[
    (100, 0, 1, "0;1;1\n"),
    (100, 1, 2, "1;1;1\n"),
    (100, 1, 1, "1;1;1\n"),
    (100, 2, 2, "2;1;1\n"),
    (100, 0, 2, "0;1;1\n"),
    (100, 0, 1, "0;1;1\n"),
];

const HTTP: &str = "PROCESS_SERVICE_CHECK_RESULT;web1;http";

const DISK: &str = "PROCESS_SERVICE_CHECK_RESULT;web1;disk";

const WEB1: &str = "PROCESS_HOST_CHECK_RESULT;web1";

#[test]
fn results_are_soft_up_to_the_largest_number_of_attempts(rt: HostRuntime) -> Result<(), Fail> {
    assert_results(&rt, (OF_SERVICES, HTTP), THREE_ATTEMPTS)?;
    assert_results(&rt, (OF_SERVICES, DISK), ONE_ATTEMPT)?;
    assert_results(&rt, (OF_HOSTS, WEB1), OF_A_HOST)
}

const SECONDS_OF_HTTP: &str =
    "GET services\nColumns: last_check last_state_change last_hard_state_change last_hard_state \
hard_state has_been_checked";

/// disk is never checked.
const SECONDS: &[Checked] = &[
    (100, 0, 1, "100;100;100;0;0;1\n0;0;0;0;0;0\n"),
    (110, 2, 2, "110;110;100;0;0;1\n0;0;0;0;0;0\n"),
    (120, 2, 2, "120;110;100;0;0;1\n0;0;0;0;0;0\n"),
    (130, 2, 2, "130;110;130;2;2;1\n0;0;0;0;0;0\n"),
    (140, 2, 1, "140;110;130;2;2;1\n0;0;0;0;0;0\n"),
    (150, 1, 2, "150;150;150;1;1;1\n0;0;0;0;0;0\n"),
    (160, 0, 2, "160;160;160;0;0;1\n0;0;0;0;0;0\n"),
    (170, 1, 2, "170;170;160;0;0;1\n0;0;0;0;0;0\n"),
    (180, 0, 2, "180;180;160;0;0;1\n0;0;0;0;0;0\n"),
];

/// What a check of web1 said, and its two parts.
const OUTPUTS: &[Step<'static>] = &[
    (
        "[100] PROCESS_HOST_CHECK_RESULT;web1;1;bad|x=1",
        2,
        "bad;x=1\n",
    ),
    ("[100] PROCESS_HOST_CHECK_RESULT;web1;1;fine", 1, "fine;\n"),
    ("[100] PROCESS_HOST_CHECK_RESULT;web1;1;a|b|c", 1, "a;b|c\n"),
    ("[100] PROCESS_HOST_CHECK_RESULT;web1;1;|x", 1, ";x\n"),
    ("[100] PROCESS_HOST_CHECK_RESULT;web1;1;x|", 1, "x;\n"),
    ("[100] PROCESS_HOST_CHECK_RESULT;web1;1;", 1, ";\n"),
    ("[100] PROCESS_HOST_CHECK_RESULT;web1;1", 1, ";\n"),
];

const SAID: &str = "GET hosts\nColumns: plugin_output perf_data";

#[test]
fn a_result_is_recorded_with_its_second_and_output(rt: HostRuntime) -> Result<(), Fail> {
    assert_results(&rt, (SECONDS_OF_HTTP, HTTP), SECONDS)?;
    assert_steps(&rt, SERVICES, SAID, OUTPUTS)
}

// ---- comments and acknowledgements

/// Which of web1, http and disk are acknowledged and how, and the comments.
const REMARKS: &str = "GET hosts\nColumns: acknowledged acknowledgement_type\n
GET services\nColumns: acknowledged acknowledgement_type\n
GET comments\nColumns: id host_name service_description entry_type persistent entry_time";

const NONE: &str = "0;0\n0;0\n0;0\n";

const COMMENTS: &[Step<'static>] = &[
    (
        "[100] ADD_HOST_COMMENT;web1;2;anna;one",
        1,
        "0;0\n0;0\n0;0\n1;web1;;1;1;100\n",
    ),
    (
        "[101] ADD_SVC_COMMENT;web1;disk;0;bert;two",
        1,
        "0;0\n0;0\n0;0\n1;web1;;1;1;100\n2;web1;disk;1;0;101\n",
    ),
    (
        "[102] DEL_SVC_COMMENT;1\n[103] DEL_HOST_COMMENT;2\n[103] DEL_HOST_COMMENT;3",
        3,
        "0;0\n0;0\n0;0\n1;web1;;1;1;100\n2;web1;disk;1;0;101\n",
    ),
    (
        "[104] DEL_HOST_COMMENT;1",
        1,
        "0;0\n0;0\n0;0\n2;web1;disk;1;0;101\n",
    ),
    (
        "[105] ADD_HOST_COMMENT;web1;1;anna;three",
        1,
        "0;0\n0;0\n0;0\n2;web1;disk;1;0;101\n3;web1;;1;1;105\n",
    ),
    (
        "[106] DEL_SVC_COMMENT;2",
        1,
        "0;0\n0;0\n0;0\n3;web1;;1;1;105\n",
    ),
];

const STICKY: &[Step<'static>] = &[
    (
        "[100] ACKNOWLEDGE_SVC_PROBLEM;web1;http;2;1;1;anna;why",
        1,
        NONE,
    ),
    ("[101] PROCESS_SERVICE_CHECK_RESULT;web1;http;1;x", 2, NONE),
    (
        "[102] ACKNOWLEDGE_SVC_PROBLEM;web1;http;2;1;0;anna;why",
        1,
        "0;0\n1;2\n0;0\n1;web1;http;4;0;102\n",
    ),
    (
        "[103] PROCESS_SERVICE_CHECK_RESULT;web1;http;2;x",
        2,
        "0;0\n1;2\n0;0\n1;web1;http;4;0;102\n",
    ),
    ("[104] PROCESS_SERVICE_CHECK_RESULT;web1;http;0;x", 2, NONE),
    ("[105] PROCESS_SERVICE_CHECK_RESULT;web1;http;1;x", 2, NONE),
    (
        "[106] ACKNOWLEDGE_SVC_PROBLEM;web1;http;3;1;5;anna;why",
        1,
        "0;0\n1;1\n0;0\n2;web1;http;4;1;106\n",
    ),
    (
        "[107] PROCESS_SERVICE_CHECK_RESULT;web1;http;1;x",
        2,
        "0;0\n1;1\n0;0\n2;web1;http;4;1;106\n",
    ),
    (
        "[108] ACKNOWLEDGE_SVC_PROBLEM;web1;http;2;1;0;anna;why",
        1,
        "0;0\n1;2\n0;0\n2;web1;http;4;1;106\n3;web1;http;4;0;108\n",
    ),
    (
        "[109] PROCESS_SERVICE_CHECK_RESULT;web1;http;2;x",
        2,
        "0;0\n1;2\n0;0\n2;web1;http;4;1;106\n3;web1;http;4;0;108\n",
    ),
    (
        "[110] REMOVE_SVC_ACKNOWLEDGEMENT;web1;http",
        1,
        "0;0\n0;0\n0;0\n2;web1;http;4;1;106\n",
    ),
];

const NORMAL: &[Step<'static>] = &[
    (
        "[100] ADD_SVC_COMMENT;web1;disk;0;anna;why
[101] ADD_SVC_COMMENT;web1;http;0;anna;why
[102] PROCESS_SERVICE_CHECK_RESULT;web1;http;1;x",
        4,
        "0;0\n0;0\n0;0\n1;web1;disk;1;0;100\n2;web1;http;1;0;101\n",
    ),
    (
        "[103] ACKNOWLEDGE_SVC_PROBLEM;web1;http;1;1;0;anna;why",
        1,
        "0;0\n1;1\n0;0\n1;web1;disk;1;0;100\n2;web1;http;1;0;101\n3;web1;http;4;0;103\n",
    ),
    (
        "[104] PROCESS_SERVICE_CHECK_RESULT;web1;http;1;x",
        2,
        "0;0\n1;1\n0;0\n1;web1;disk;1;0;100\n2;web1;http;1;0;101\n3;web1;http;4;0;103\n",
    ),
    (
        "[105] PROCESS_SERVICE_CHECK_RESULT;web1;http;2;x",
        2,
        "0;0\n0;0\n0;0\n1;web1;disk;1;0;100\n2;web1;http;1;0;101\n",
    ),
    (
        "[106] ACKNOWLEDGE_SVC_PROBLEM;web1;http;1;1;1;anna;why",
        1,
        "0;0\n1;1\n0;0\n1;web1;disk;1;0;100\n2;web1;http;1;0;101\n4;web1;http;4;1;106\n",
    ),
    (
        "[107] PROCESS_SERVICE_CHECK_RESULT;web1;http;0;x",
        2,
        "0;0\n0;0\n0;0\n1;web1;disk;1;0;100\n2;web1;http;1;0;101\n4;web1;http;4;1;106\n",
    ),
];

const ON_A_HOST: &[Step<'static>] = &[
    ("[99] ACKNOWLEDGE_HOST_PROBLEM;web1;2;1;0;anna;why", 1, NONE),
    ("[100] PROCESS_HOST_CHECK_RESULT;web1;1;x", 2, NONE),
    (
        "[101] ACKNOWLEDGE_HOST_PROBLEM;web1;2;1;0;anna;why",
        1,
        "1;2\n0;0\n0;0\n1;web1;;4;0;101\n",
    ),
    (
        "[102] REMOVE_SVC_ACKNOWLEDGEMENT;web1;http",
        1,
        "1;2\n0;0\n0;0\n1;web1;;4;0;101\n",
    ),
    ("[103] REMOVE_HOST_ACKNOWLEDGEMENT;web1", 1, NONE),
    (
        "[104] ACKNOWLEDGE_HOST_PROBLEM;web1;1;1;1;anna;why",
        1,
        "1;1\n0;0\n0;0\n2;web1;;4;1;104\n",
    ),
    (
        "[105] PROCESS_HOST_CHECK_RESULT;web1;2;x",
        2,
        "0;0\n0;0\n0;0\n2;web1;;4;1;104\n",
    ),
    (
        "[106] ACKNOWLEDGE_HOST_PROBLEM;web1;1;1;0;anna;why\n[107] DEL_HOST_COMMENT;3",
        2,
        "1;1\n0;0\n0;0\n2;web1;;4;1;104\n",
    ),
];

const OF_ANOTHER_HOST: &[Step<'static>] = &[(
    "[100] PROCESS_HOST_CHECK_RESULT;web1;1;x
[101] ACKNOWLEDGE_HOST_PROBLEM;web1;2;1;0;anna;why
[102] REMOVE_HOST_ACKNOWLEDGEMENT;web2",
    4,
    "1\n0\n",
)];

#[test]
fn comments_and_acknowledgements_come_and_go(rt: HostRuntime) -> Result<(), Fail> {
    for steps in [COMMENTS, STICKY, NORMAL, ON_A_HOST] {
        assert_steps(&rt, SERVICES, REMARKS, steps)?;
    }
    assert_steps(
        &rt,
        SITE,
        "GET hosts\nColumns: acknowledged",
        OF_ANOTHER_HOST,
    )
}

// ---- downtimes

/// How many downtimes of web1, http and disk are active, and all downtimes.
const DOWNTIMES: &str = "GET hosts\nColumns: scheduled_downtime_depth\n
GET services\nColumns: scheduled_downtime_depth\n
GET downtimes\nColumns: id host_name service_description start_time end_time entry_time";

const BEGUN_AND_ENDED: &[Step<'static>] = &[
    (
        "[150] SCHEDULE_HOST_DOWNTIME;web1;200;300;1;0;100;anna;work",
        1,
        "0\n0\n0\n1;web1;;200;300;150\n",
    ),
    (
        "[199] ENABLE_NOTIFICATIONS",
        1,
        "0\n0\n0\n1;web1;;200;300;150\n",
    ),
    (
        "[200] ENABLE_NOTIFICATIONS",
        2,
        "1\n0\n0\n1;web1;;200;300;150\n",
    ),
    (
        "[299] ENABLE_NOTIFICATIONS",
        1,
        "1\n0\n0\n1;web1;;200;300;150\n",
    ),
    ("[300] ENABLE_NOTIFICATIONS", 2, "0\n0\n0\n"),
    ("[301] DEL_HOST_DOWNTIME;1", 1, "0\n0\n0\n"),
    (
        "[302] SCHEDULE_HOST_DOWNTIME;web1;400;500;1;0;100;anna;work",
        1,
        "0\n0\n0\n2;web1;;400;500;302\n",
    ),
    ("[500] ENABLE_NOTIFICATIONS", 3, "0\n0\n0\n"),
    (
        "[501] SCHEDULE_SVC_DOWNTIME;web1;http;501;502;1;0;100;anna;work",
        2,
        "0\n1\n0\n3;web1;http;501;502;501\n",
    ),
    ("[502] ENABLE_NOTIFICATIONS", 2, "0\n0\n0\n"),
];

const OVER_ONE_OBJECT: &[Step<'static>] = &[
    (
        "[150] SCHEDULE_HOST_DOWNTIME;web1;300;400;1;0;100;anna;work",
        1,
        "0\n0\n0\n1;web1;;300;400;150\n",
    ),
    (
        "[200] SCHEDULE_HOST_DOWNTIME;web1;200;300;1;0;100;anna;work",
        2,
        "1\n0\n0\n1;web1;;300;400;150\n2;web1;;200;300;200\n",
    ),
    (
        "[300] ENABLE_NOTIFICATIONS",
        3,
        "1\n0\n0\n1;web1;;300;400;150\n",
    ),
    (
        "[301] SCHEDULE_HOST_DOWNTIME;web1;0;500;1;0;100;anna;work",
        1,
        "2\n0\n0\n1;web1;;300;400;150\n3;web1;;0;500;301\n",
    ),
    (
        "[302] SCHEDULE_SVC_DOWNTIME;web1;http;0;600;1;0;100;anna;work",
        2,
        "2\n1\n0\n1;web1;;300;400;150\n3;web1;;0;500;301\n4;web1;http;0;600;302\n",
    ),
    (
        "[400] ENABLE_NOTIFICATIONS",
        1,
        "1\n1\n0\n3;web1;;0;500;301\n4;web1;http;0;600;302\n",
    ),
    (
        "[500] ENABLE_NOTIFICATIONS",
        2,
        "0\n1\n0\n4;web1;http;0;600;302\n",
    ),
];

const REMOVED: &[Step<'static>] = &[
    (
        "[150] SCHEDULE_HOST_DOWNTIME;web1;200;300;1;0;100;anna;work",
        1,
        "0\n0\n0\n1;web1;;200;300;150\n",
    ),
    (
        "[151] DEL_SVC_DOWNTIME;1",
        1,
        "0\n0\n0\n1;web1;;200;300;150\n",
    ),
    ("[152] DEL_HOST_DOWNTIME;1", 1, "0\n0\n0\n"),
    (
        "[153] SCHEDULE_HOST_DOWNTIME;web1;100;500;1;0;100;anna;work",
        2,
        "1\n0\n0\n2;web1;;100;500;153\n",
    ),
    (
        "[154] SCHEDULE_HOST_DOWNTIME;web1;100;600;1;0;100;anna;work",
        1,
        "2\n0\n0\n2;web1;;100;500;153\n3;web1;;100;600;154\n",
    ),
    (
        "[155] DEL_SVC_DOWNTIME;2",
        1,
        "2\n0\n0\n2;web1;;100;500;153\n3;web1;;100;600;154\n",
    ),
    (
        "[156] DEL_HOST_DOWNTIME;2",
        1,
        "1\n0\n0\n3;web1;;100;600;154\n",
    ),
    ("[157] DEL_HOST_DOWNTIME;3", 2, "0\n0\n0\n"),
    (
        "[158] SCHEDULE_SVC_DOWNTIME;web1;http;100;600;1;0;100;anna;work",
        2,
        "0\n1\n0\n4;web1;http;100;600;158\n",
    ),
    (
        "[159] DEL_HOST_DOWNTIME;4",
        1,
        "0\n1\n0\n4;web1;http;100;600;158\n",
    ),
    ("[160] DEL_SVC_DOWNTIME;4", 2, "0\n0\n0\n"),
];

/// Of the downtimes that are asked for at second 100, only the last two are to come.
const TO_COME: &[Step<'static>] = &[
    (
        "[100] SCHEDULE_HOST_DOWNTIME;web1;200;300;0;0;100;anna;work
[100] SCHEDULE_HOST_DOWNTIME;web1;200;300;2;0;100;anna;work
[100] SCHEDULE_HOST_DOWNTIME;web1;200;300;1;1;100;anna;work
[100] SCHEDULE_HOST_DOWNTIME;web1;200;200;1;0;100;anna;work
[100] SCHEDULE_HOST_DOWNTIME;web1;300;200;1;0;100;anna;work
[100] SCHEDULE_HOST_DOWNTIME;web1;50;100;1;0;100;anna;work",
        6,
        "0\n0\n0\n",
    ),
    (
        "[100] SCHEDULE_SVC_DOWNTIME;web1;http;200;300;0;0;100;anna;work
[100] SCHEDULE_SVC_DOWNTIME;web1;http;200;300;2;0;100;anna;work
[100] SCHEDULE_SVC_DOWNTIME;web1;http;200;300;1;1;100;anna;work
[100] SCHEDULE_SVC_DOWNTIME;web1;http;200;200;1;0;100;anna;work
[100] SCHEDULE_SVC_DOWNTIME;web1;http;300;200;1;0;100;anna;work
[100] SCHEDULE_SVC_DOWNTIME;web1;http;50;100;1;0;100;anna;work",
        6,
        "0\n0\n0\n",
    ),
    (
        "[100] SCHEDULE_HOST_DOWNTIME;web1;50;101;1;0;100;anna;work
[100] SCHEDULE_HOST_DOWNTIME;web1;200;300;1;0;100;anna;work",
        3,
        "1\n0\n0\n1;web1;;50;101;100\n2;web1;;200;300;100\n",
    ),
    (
        "[100] SCHEDULE_SVC_DOWNTIME;web1;http;50;101;1;0;100;anna;work
[100] SCHEDULE_SVC_DOWNTIME;web1;http;200;300;1;0;100;anna;work",
        3,
        "1\n1\n0\n1;web1;;50;101;100\n2;web1;;200;300;100\n\
3;web1;http;50;101;100\n4;web1;http;200;300;100\n",
    ),
];

#[test]
fn downtimes_begin_and_end(rt: HostRuntime) -> Result<(), Fail> {
    for steps in [BEGUN_AND_ENDED, OVER_ONE_OBJECT, REMOVED, TO_COME] {
        assert_steps(&rt, SERVICES, DOWNTIMES, steps)?;
    }
    Ok(())
}

// ---- switches, seconds, and commands without effect

/// The program's switch, and those of web1, web2, http, ping and disk.
const SWITCHES: &str = "GET status\nColumns: enable_notifications\n
GET hosts\nColumns: notifications_enabled\n
GET services\nColumns: notifications_enabled";

const SWITCHED: &[Step<'static>] = &[
    ("", 0, "1\n1\n0\n1\n0\n1\n"),
    (
        "[100] DISABLE_HOST_NOTIFICATIONS;web1",
        1,
        "1\n0\n0\n1\n0\n1\n",
    ),
    (
        "[100] ENABLE_SVC_NOTIFICATIONS;web2;ping",
        1,
        "1\n0\n0\n1\n1\n1\n",
    ),
    ("[100] DISABLE_NOTIFICATIONS", 1, "0\n0\n0\n1\n1\n1\n"),
    (
        "[100] ENABLE_HOST_NOTIFICATIONS;web1",
        1,
        "0\n1\n0\n1\n1\n1\n",
    ),
    (
        "[100] DISABLE_SVC_NOTIFICATIONS;web2;ping",
        1,
        "0\n1\n0\n1\n0\n1\n",
    ),
    ("[100] ENABLE_NOTIFICATIONS", 1, "1\n1\n0\n1\n0\n1\n"),
];

const MOMENTS: &str = "GET status\nColumns: present_second\n\nGET hosts\nColumns: last_check";

/// The largest second in a command has 12 digits.
const MOVED_ON: &[Step<'static>] = &[
    ("", 0, "0\n0\n0\n"),
    ("[0] PROCESS_HOST_CHECK_RESULT;web1;1;x", 2, "0\n0\n0\n"),
    (
        "[100] PROCESS_HOST_CHECK_RESULT;web1;1;x",
        1,
        "100\n100\n0\n",
    ),
    (
        "[50] PROCESS_HOST_CHECK_RESULT;web1;1;x",
        1,
        "100\n100\n0\n",
    ),
    (
        "[101] PROCESS_HOST_CHECK_RESULT;web2;1;x",
        2,
        "101\n100\n101\n",
    ),
    (
        "[999999999999] PROCESS_HOST_CHECK_RESULT;web1;1;x",
        1,
        "999999999999\n999999999999\n101\n",
    ),
    (
        "[100] PROCESS_HOST_CHECK_RESULT;web2;1;x",
        1,
        "999999999999\n999999999999\n999999999999\n",
    ),
];

/// The present second moves on to the largest one of a command.
fn assert_last_second<R: Abort + AllocGlobal>(rt: &R, site: &mut Site) -> Result<(), Fail> {
    for second in [1_000_000_000_000, u64::MAX] {
        site.apply(second, Text::empty(), Act::Unknown)?;
        assert!(rt; site.live.now() == 999_999_999_999);
    }
    Ok(())
}

#[test]
fn switches_and_the_present_second_move(rt: HostRuntime) -> Result<(), Fail> {
    assert_steps(&rt, SITE, SWITCHES, SWITCHED)?;
    assert_steps(&rt, SITE, MOMENTS, MOVED_ON)?;
    let mut site = Site::open(rt.alloc(), SITE, SITE)?;
    assert_last_second(&rt, &mut site)
}

/// Each command that no object takes: its code is out of range, its object isn't in the state,
/// nothing has its id, or its word is unknown.
const WITHOUT_EFFECT: &str = "[100] PROCESS_HOST_CHECK_RESULT;web1;3;x
[101] PROCESS_HOST_CHECK_RESULT;web3;1;x
[102] PROCESS_SERVICE_CHECK_RESULT;web1;http;4;x
[103] PROCESS_SERVICE_CHECK_RESULT;web1;late;1;x
[104] ADD_HOST_COMMENT;web3;1;anna;why
[105] ADD_SVC_COMMENT;web1;late;1;anna;why
[106] ACKNOWLEDGE_HOST_PROBLEM;web3;2;1;1;anna;why
[107] ACKNOWLEDGE_SVC_PROBLEM;web1;late;2;1;1;anna;why
[108] SCHEDULE_HOST_DOWNTIME;web3;50;9000;1;0;100;anna;why
[109] SCHEDULE_SVC_DOWNTIME;web1;late;50;9000;1;0;100;anna;why
[110] REMOVE_HOST_ACKNOWLEDGEMENT;web3
[111] REMOVE_SVC_ACKNOWLEDGEMENT;web1;late
[112] DISABLE_HOST_NOTIFICATIONS;web3
[113] DISABLE_SVC_NOTIFICATIONS;web1;late
[114] DEL_HOST_COMMENT;1
[115] DEL_SVC_DOWNTIME;1
[116] RESTART";

/// A host and a service that the commands name, and the state doesn't know.
const LATE: &[u8] = b"define host {
 host_name web3
 }
define service {
 host_name web1
 service_description late
 }
";

const ALL: &str = "GET hosts\n\nGET services\n\nGET downtimes\n\nGET comments";

/// A site whose commands know more objects than its state.
fn behind(alloc: Global) -> Result<Box<Site>, Fail> {
    let names = [SITE, LATE].concat(alloc)?;
    Site::open(alloc, &names, SITE)
}

/// Results whose codes no command has.
fn apply_codes(site: &mut Site) -> Result<(), AllocError> {
    let act = Act::ProcessHostCheckResult {
        host: HostId(0),
        code: 3,
        output: Text::empty(),
    };
    site.apply(117, Text::empty(), act)?;
    let act = Act::ProcessServiceCheckResult {
        service: ServiceId(0),
        code: 4,
        output: Text::empty(),
    };
    site.apply(118, Text::empty(), act)
}

fn assert_without_effect<R: Abort + AllocGlobal>(rt: &R, site: &mut Site) -> Result<(), Fail> {
    let before = site.ask(rt.alloc(), ALL)?;
    site.assert_step(rt, ALL, (WITHOUT_EFFECT, 17, before.as_str()))?;
    assert!(rt; site.live.now() == 116);
    apply_codes(site)?;
    site.assert_step(rt, ALL, ("", 0, before.as_str()))?;
    assert!(rt; site.live.now() == 118);
    assert!(rt; site.live.count() == 19);
    assert!(rt; site.live.log().len() == 19);
    Ok(())
}

#[test]
fn a_command_without_effect_writes_its_line_alone(rt: HostRuntime) -> Result<(), Fail> {
    let mut site = behind(rt.alloc())?;
    assert_without_effect(&rt, &mut site)
}
