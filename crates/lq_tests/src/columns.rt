//! The columns of hosts and services, each with a value that isn't its default, and the counters of
//! groups.

use crate::fixture::{SITE, Site, Step, assert_replies, assert_steps};
use lq_auth::View;
use lq_columns::{HostRow, ServiceRow};
use lq_live::Live;
use lq_records::{
    CommandId, ContactGroupId, ContactId, HostGroupId, HostId, PeriodId, ServiceGroupId, ServiceId,
};
use lq_schema::{Table, Val, column, column_at, column_count, column_name, tables};
use lq_tables::{Row, cell};
use std::alloc::{AllocError, Global};
use std::process::Abort;
use std::test::Fail;

/// web1 is down, http critical and soft, disk unknown and hard; web2 and ping were never checked.
/// Both troubled hosts and http have downtimes and comments, and are acknowledged.
const TROUBLE: &str = "[100] PROCESS_HOST_CHECK_RESULT;web1;1;down|x=1
[100] PROCESS_SERVICE_CHECK_RESULT;web1;http;2;bad|t=2
[100] PROCESS_SERVICE_CHECK_RESULT;web1;disk;3;odd|t=3
[100] SCHEDULE_HOST_DOWNTIME;web1;500;900;1;0;100;anna;move
[100] SCHEDULE_SVC_DOWNTIME;web1;http;50;900;1;0;100;anna;move
[100] SCHEDULE_HOST_DOWNTIME;web1;50;900;1;0;100;anna;move
[100] ADD_SVC_COMMENT;web1;http;1;anna;seen
[100] ACKNOWLEDGE_HOST_PROBLEM;web1;2;1;1;anna;known
[100] ACKNOWLEDGE_SVC_PROBLEM;web1;http;2;1;1;anna;known";

const HOSTS: (&str, &str) = (
    "GET hosts\nColumnHeaders: off",
    "web1;Web One;10.0.0.1;First;look!3;always;days;3;Mind it;/notes;/do;a.png;bert,anna,carl;\
all,ops;web,first;SITE,_RACK,A;north,r2,;;web2;http,disk;1;1;1;1;1;1;100;100;100;down;x=1;\
1;2;1;0;1;1;2;1,3;2;0;0;1;1;0;2
web2;web2;;web2;;;;1;;;;;;;web,second;;;web1;;ping;0;1;0;0;0;1;0;0;0;;;0;0;0;0;0;1;;;1;0;0;0;0;1;0
",
);

const SERVICES: (&str, &str) = (
    "GET services\nColumns: description display_name check_command check_period notification_period
Columns: max_check_attempts notes notes_url action_url icon_image contacts contact_groups groups
Columns: custom_variable_names custom_variable_values state state_type hard_state last_hard_state
Columns: has_been_checked current_attempt last_check last_state_change last_hard_state_change
Columns: plugin_output perf_data acknowledged acknowledgement_type scheduled_downtime_depth
Columns: notifications_enabled comments downtimes",
    "http;Pages;fetch!5;days;always;3;Read it;/read;/act;b.png;carl,anna;ops;sg;PORT,_KIND;80,;\
2;0;0;0;1;1;100;100;0;bad;t=2;1;2;1;1;1,3;2
ping;ping;;;;4;;;;;;nobody;sg,rest;;;0;1;0;0;0;1;0;0;0;;;0;0;0;0;;
disk;disk;;;;1;;;;;;;rest;;;3;1;3;3;1;1;100;100;100;odd;t=3;0;0;0;1;;
",
);

#[test]
fn hosts_and_services_show_their_columns(rt: HostRuntime) -> Result<(), Fail> {
    assert_replies(&rt, SITE, TROUBLE, &[HOSTS, SERVICES])
}

/// The counters of services, of hosts, of groups of hosts and of groups of services.
const SERVICE_COUNTERS: &str =
    "GET hosts\nColumns: name num_services num_services_ok num_services_warn num_services_crit
Columns: num_services_unknown num_services_pending worst_service_state\n
GET hostgroups\nColumns: name num_services num_services_ok num_services_warn num_services_crit
Columns: num_services_unknown num_services_pending worst_service_state\n
GET servicegroups\nColumns: name num_services num_services_ok num_services_warn num_services_crit
Columns: num_services_unknown num_services_pending worst_service_state";

const SERVICES_CHECKED: &[Step<'static>] = &[
    (
        "",
        0,
        "web1;2;0;0;0;0;2;0
web2;1;0;0;0;0;1;0
web;3;0;0;0;0;3;0
second;1;0;0;0;0;1;0
first;2;0;0;0;0;2;0
empty;0;0;0;0;0;0;0
sg;2;0;0;0;0;2;0
rest;2;0;0;0;0;2;0
void;0;0;0;0;0;0;0
",
    ),
    (
        "[100] PROCESS_SERVICE_CHECK_RESULT;web1;http;2;x
[100] PROCESS_SERVICE_CHECK_RESULT;web1;disk;3;x",
        4,
        "web1;2;0;0;1;1;0;2
web2;1;0;0;0;0;1;0
web;3;0;0;1;1;1;2
second;1;0;0;0;0;1;0
first;2;0;0;1;1;0;2
empty;0;0;0;0;0;0;0
sg;2;0;0;1;0;1;2
rest;2;0;0;0;1;1;3
void;0;0;0;0;0;0;0
",
    ),
    (
        "[100] PROCESS_SERVICE_CHECK_RESULT;web1;http;0;x
[100] PROCESS_SERVICE_CHECK_RESULT;web2;ping;1;x",
        4,
        "web1;2;1;0;0;1;0;3
web2;1;0;1;0;0;0;1
web;3;1;1;0;1;0;3
second;1;0;1;0;0;0;1
first;2;1;0;0;1;0;3
empty;0;0;0;0;0;0;0
sg;2;1;1;0;0;0;1
rest;2;0;1;0;1;0;3
void;0;0;0;0;0;0;0
",
    ),
];

const HOST_COUNTERS: &str =
    "GET hostgroups\nColumns: name num_hosts num_hosts_up num_hosts_down num_hosts_unreach
Columns: num_hosts_pending worst_host_state";

const HOSTS_CHECKED: &[Step<'static>] = &[
    (
        "",
        0,
        "web;2;0;0;0;2;0\nsecond;1;0;0;0;1;0\nfirst;1;0;0;0;1;0\nempty;0;0;0;0;0;0\n",
    ),
    (
        "[100] PROCESS_HOST_CHECK_RESULT;web1;1;x",
        2,
        "web;2;0;1;0;1;1\nsecond;1;0;0;0;1;0\nfirst;1;0;1;0;0;1\nempty;0;0;0;0;0;0\n",
    ),
    (
        "[100] PROCESS_HOST_CHECK_RESULT;web2;2;x",
        2,
        "web;2;0;1;1;0;1\nsecond;1;0;0;1;0;2\nfirst;1;0;1;0;0;1\nempty;0;0;0;0;0;0\n",
    ),
    (
        "[100] PROCESS_HOST_CHECK_RESULT;web2;0;x",
        2,
        "web;2;1;1;0;0;1\nsecond;1;1;0;0;0;0\nfirst;1;0;1;0;0;1\nempty;0;0;0;0;0;0\n",
    ),
];

#[test]
fn hosts_and_services_count_under_their_states(rt: HostRuntime) -> Result<(), Fail> {
    assert_steps(&rt, SITE, SERVICE_COUNTERS, SERVICES_CHECKED)?;
    assert_steps(&rt, SITE, HOST_COUNTERS, HOSTS_CHECKED)
}

// ---- rows and ids that name nothing

/// The place after the last one of all columns of all tables.
fn place_after_columns() -> u64 {
    let mut place = 0u64;
    for table in tables() {
        place = place.saturating_add(column_count(*table) as u64);
    }
    place
}

/// Rows that no table gives.
fn rows_of_nothing() -> [(Table, Row); 15] {
    [
        (Table::Hosts, Row::Host(HostId(2))),
        (Table::Services, Row::Service(ServiceId(3))),
        (Table::HostGroups, Row::HostGroup(HostGroupId(4))),
        (Table::ServiceGroups, Row::ServiceGroup(ServiceGroupId(3))),
        (Table::Contacts, Row::Contact(ContactId(3))),
        (Table::ContactGroups, Row::ContactGroup(ContactGroupId(3))),
        (Table::Commands, Row::Command(CommandId(1))),
        (Table::TimePeriods, Row::Period(PeriodId(2))),
        (Table::Downtimes, Row::Downtime(1)),
        (Table::Comments, Row::Comment(1)),
        (Table::Log, Row::Line(1)),
        (Table::Columns, Row::Column(place_after_columns())),
        (Table::HostsByGroup, Row::HostOf(HostGroupId(4), HostId(2))),
        (
            Table::ServicesByGroup,
            Row::ServiceOf(ServiceGroupId(3), ServiceId(3)),
        ),
        (
            Table::ServicesByHostGroup,
            Row::GroupService(HostGroupId(4), ServiceId(3)),
        ),
    ]
}

/// Whether a value is 0, an empty text or an empty list.
fn is_nothing(value: &Val<'_>) -> bool {
    match value {
        Val::Int(number) => *number == 0,
        Val::Str(text) => text.is_empty(),
        Val::Own(text) => text.as_str().is_empty(),
        Val::List(texts) => texts.is_empty(),
        Val::Micro(micro) => micro.millionths == 0,
        Val::Nums(numbers) => numbers.is_empty(),
        Val::Pairs(pairs) => pairs.is_empty(),
    }
}

/// The first column of a row that has something, if one has.
fn something(
    alloc: Global,
    live: &Live,
    table: Table,
    row: &Row,
) -> Result<Option<&'static str>, AllocError> {
    for i in 0..column_count(table) {
        let column = column_at(table, i);
        if !is_nothing(&cell(alloc, live, table, column, row, &View::All)?) {
            return Ok(Some(column_name(column).name));
        }
    }
    Ok(None)
}

/// Reads each such row.
fn assert_empty_rows<R: Abort + AllocGlobal>(rt: &R, live: &Live) -> Result<(), Fail> {
    for (table, row) in &rows_of_nothing() {
        let found = something(rt.alloc(), live, *table, row)?;
        assert!(rt; found.is_none(), "{} has {found:?}", table.name());
    }
    Ok(())
}

/// Reads the host and the service after the last ones, and a column of services of a host, which
/// has none.
fn assert_nothing<R: Abort + AllocGlobal>(rt: &R, live: &Live) -> Result<(), Fail> {
    assert!(rt; HostRow::at(live, HostId(2)).is_none());
    assert!(rt; ServiceRow::at(live, ServiceId(3)).is_none());
    let description = column(Table::Services, "description").ok_or("no column")?;
    let host = Row::Host(HostId(0));
    assert!(rt;
        is_nothing(&cell(
            rt.alloc(),
            live,
            Table::Hosts,
            description,
            &host,
            &View::All
        )?)
    );
    Ok(())
}

#[test]
fn rows_that_name_nothing_are_empty(rt: HostRuntime) -> Result<(), Fail> {
    let site = Site::open(rt.alloc(), SITE, SITE)?;
    assert_empty_rows(&rt, &site.live)?;
    assert_nothing(&rt, &site.live)
}
