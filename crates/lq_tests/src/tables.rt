//! The rows of each table in order, and the columns that are joined to them.

use crate::fixture::{SITE, assert_replies};
use std::test::Fail;

/// The names in each table's rows.
const ROWS: &[(&str, &str)] = &[
    ("GET hosts\nColumns: name", "web1\nweb2\n"),
    (
        "GET services\nColumns: host_name description",
        "web1;http\nweb2;ping\nweb1;disk\n",
    ),
    (
        "GET hostgroups\nColumns: name",
        "web\nsecond\nfirst\nempty\n",
    ),
    ("GET servicegroups\nColumns: name", "sg\nrest\nvoid\n"),
    ("GET contacts\nColumns: name", "anna\nbert\ncarl\n"),
    ("GET contactgroups\nColumns: name", "ops\nall\nnobody\n"),
    ("GET commands\nColumns: name", "look\n"),
    ("GET timeperiods\nColumns: name", "always\ndays\n"),
    ("GET downtimes\nColumns: id", "1\n2\n"),
    ("GET comments\nColumns: id", "1\n2\n"),
    ("GET status\nColumns: num_hosts", "2\n"),
    (
        "GET hostsbygroup\nColumns: hostgroup_name name",
        "web;web2\nweb;web1\nsecond;web2\nfirst;web1\n",
    ),
    (
        "GET servicesbygroup\nColumns: servicegroup_name host_name description",
        "sg;web2;ping\nsg;web1;http\nrest;web1;disk\nrest;web2;ping\n",
    ),
    (
        "GET servicesbyhostgroup\nColumns: hostgroup_name host_name description",
        "web;web2;ping\nweb;web1;http\nweb;web1;disk\nsecond;web2;ping
first;web1;http\nfirst;web1;disk\n",
    ),
];

const CELLS: &[(&str, &str)] = &[
    (
        "GET hostgroups\nColumns: name alias notes notes_url action_url members
Columns: num_hosts num_hosts_pending num_services num_services_pending worst_host_state",
        "web;Web;Both;/web;/all;web2,web1;2;2;3;3;0
second;second;;;;web2;1;1;1;1;0
first;first;;;;web1;1;1;2;2;0
empty;empty;;;;;0;0;0;0;0
",
    ),
    (
        "GET servicegroups\nColumns: name alias notes notes_url action_url members
Columns: num_services num_services_ok",
        "sg;Some;Two of them;/some;/sum;web2|ping,web1|http;2;0
rest;rest;;;;web1|disk,web2|ping;2;0
void;void;;;;;0;0
",
    ),
    (
        "GET contacts",
        "name;alias;email;pager;host_notification_period;service_notification_period
anna;Anna A.;anna@site.example;12;always;days
bert;bert;;;;
carl;carl;;;;
",
    ),
    (
        "GET contactgroups",
        "name;alias;members\nops;Operators;anna,carl\nall;all;carl,bert\nnobody;nobody;\n",
    ),
    ("GET commands", "name;line\nlook;look -x $HOSTADDRESS$;1\n"),
    (
        "GET timeperiods",
        "name;alias;in\nalways;Always;1\ndays;days;1\n",
    ),
    (
        "GET hostsbygroup\nColumns: name alias hostgroup_name hostgroup_alias hostgroup_members",
        "web2;web2;web;Web;web2,web1
web1;Web One;web;Web;web2,web1
web2;web2;second;second;web2
web1;Web One;first;first;web1
",
    ),
    (
        "GET servicesbygroup
Columns: description host_alias servicegroup_notes servicegroup_members",
        "ping;web2;Two of them;web2|ping,web1|http
http;Web One;Two of them;web2|ping,web1|http
disk;Web One;;web1|disk,web2|ping
ping;web2;;web1|disk,web2|ping
",
    ),
    (
        "GET servicesbyhostgroup
Columns: description host_alias hostgroup_alias hostgroup_num_hosts",
        "ping;web2;Web;2
http;Web One;Web;2
disk;Web One;Web;2
ping;web2;second;1
http;Web One;first;1
disk;Web One;first;1
",
    ),
];

/// A downtime of web1 and one of ping, a comment on web2 and one on disk.
const REMARKS: &str = "[100] SCHEDULE_HOST_DOWNTIME;web1;50;900;1;0;60;anna;repair
[100] SCHEDULE_SVC_DOWNTIME;web2;ping;500;800;1;0;70;bert;move
[100] ADD_HOST_COMMENT;web2;1;bert;new disk
[100] ADD_SVC_COMMENT;web1;disk;0;anna;full";

const REMARKED: &[(&str, &str)] = &[
    (
        "GET downtimes\nColumns: id author comment entry_time start_time end_time fixed duration
Columns: triggered_by is_service host_name host_downtimes service_description
Columns: service_max_check_attempts service_contacts service_downtimes",
        "1;anna;repair;100;50;900;1;60;0;0;web1;1;;0;;
2;bert;move;100;500;800;1;70;0;1;web2;;ping;4;;2
",
    ),
    (
        "GET comments\nColumns: id author comment entry_time entry_type persistent is_service
Columns: host_name host_comments service_description service_comments",
        "1;bert;new disk;100;1;1;0;web2;1;;
2;anna;full;100;1;0;1;web1;;disk;2
",
    ),
    (
        "GET status",
        "program_version;enable_notifications;num_hosts;num_services;present_second
lqd 1;1;2;3;100
",
    ),
];

#[test]
fn tables_have_their_rows_in_order(rt: HostRuntime) -> Result<(), Fail> {
    for cases in [ROWS, CELLS, REMARKED] {
        assert_replies(&rt, SITE, REMARKS, cases)?;
    }
    Ok(())
}
