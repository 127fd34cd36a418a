//! What queries with a user show: rows, members and counters, under each of the rules.

use crate::fixture::{Asked, Site, assert_site};
use lq_records::Rules;
use std::process::Abort;
use std::test::Fail;

/// web1 above web2 and web3, web2 above web3. anna and eve are contacts of web1, bert of web2, eve
/// and carl of web3, carl also by the group night. http is seen by anna, who is in ops, disk and
/// ping by bert; load has no contact of its own. dora is a contact of nothing.
const SITE: &[u8] = b"define contact {
 contact_name anna
 }
define contact {
 contact_name bert
 }
define contact {
 contact_name carl
 }
define contact {
 contact_name dora
 }
define contact {
 contact_name eve
 }
define contactgroup {
 contactgroup_name ops
 members anna
 }
define contactgroup {
 contactgroup_name night
 members carl
 }
define host {
 host_name web1
 contacts anna,eve
 }
define host {
 host_name web2
 parents web1
 contacts bert
 }
define host {
 host_name web3
 parents web1,web2
 contacts carl,eve
 contact_groups night
 }
define service {
 host_name web1
 service_description http
 contact_groups ops
 }
define service {
 host_name web1
 service_description disk
 contacts bert
 }
define service {
 host_name web2
 service_description ping
 contacts bert
 }
define service {
 host_name web3
 service_description load
 }
define hostgroup {
 hostgroup_name web
 members web1,web2
 }
define hostgroup {
 hostgroup_name third
 members web3
 }
define hostgroup {
 hostgroup_name empty
 }
define hostgroup {
 hostgroup_name all
 members web1,web2,web3
 }
define servicegroup {
 servicegroup_name sg
 members web1,http,web2,ping
 }
define servicegroup {
 servicegroup_name berts
 members web1,disk,web2,ping
 }
define servicegroup {
 servicegroup_name void
 }
";

/// web2 is down, disk is critical, ping is in a warning. Each has a comment or a downtime.
const STATE: &str = "[100] PROCESS_HOST_CHECK_RESULT;web2;1;down
[100] PROCESS_SERVICE_CHECK_RESULT;web1;disk;2;full
[100] PROCESS_SERVICE_CHECK_RESULT;web2;ping;1;slow
[100] ADD_HOST_COMMENT;web1;1;anna;one
[100] ADD_SVC_COMMENT;web2;ping;1;bert;two
[100] ADD_SVC_COMMENT;web1;disk;1;bert;three
[100] SCHEDULE_HOST_DOWNTIME;web2;50;900;1;0;100;bert;move
[100] SCHEDULE_SVC_DOWNTIME;web1;http;50;900;1;0;100;anna;move";

/// Services are also seen by the contacts of their hosts, groups by those who see all members.
const USUAL: Rules = Rules {
    service_strict: false,
    group_strict: true,
};

/// Services are seen by their own contacts alone.
const STRICT: Rules = Rules {
    service_strict: true,
    group_strict: true,
};

/// Groups are seen by those who see one member.
const LOOSE: Rules = Rules {
    service_strict: false,
    group_strict: false,
};

const HOSTS: &str = "GET hosts\nColumns: name childs parents services num_services\nAuthUser: ";

const OF_HOSTS: &[(&str, &str)] = &[
    ("anna", "web1;;;http,disk;2\n"),
    ("bert", "web2;;;ping;1\n"),
    ("carl", "web3;;;load;1\n"),
    ("eve", "web1;web3;;http,disk;2\nweb3;;web1;load;1\n"),
    ("dora", ""),
    ("nobody", ""),
    ("Anna", ""),
    ("", ""),
    (" \t", ""),
    (" anna \t", "web1;;;http,disk;2\n"),
    ("nobody\nAuthUser: carl", "web3;;;load;1\n"),
    ("carl\nAuthUser:", ""),
    ("eve\nFilter: childs =", "web3;;web1;load;1\n"),
    ("eve\nFilter: num_services = 1", "web3;;web1;load;1\n"),
];

const COUNTERS: &str = "GET hosts
Columns: num_services_ok num_services_warn num_services_crit
Columns: num_services_pending worst_service_state
AuthUser: ";

const OF_COUNTERS: &[(&str, &str)] = &[
    ("anna", "0;0;1;1;2\n"),
    ("bert", "0;1;0;0;1\n"),
    ("eve", "0;0;1;1;2\n0;0;0;1;0\n"),
];

const SERVICES: &str = "GET services\nColumns: host_name description\nAuthUser: ";

const OF_SERVICES: &[(&str, &str)] = &[
    ("anna", "web1;http\nweb1;disk\n"),
    ("bert", "web1;disk\nweb2;ping\n"),
    ("carl", "web3;load\n"),
    ("eve", "web1;http\nweb1;disk\nweb3;load\n"),
    ("dora", ""),
    ("nobody", ""),
    ("", ""),
    // The limit counts rows that are seen.
    ("bert\nLimit: 1", "web1;disk\n"),
    ("bert\nLimit: 1\nFilter: state = 1", "web2;ping\n"),
    ("carl\nLimit: 0", ""),
];

/// What a service is joined to is cut too: its host need not be seen.
const JOINED: &str = "GET services
Columns: description host_name host_services host_num_services host_childs host_groups
AuthUser: ";

const OF_JOINED: &[(&str, &str)] = &[(
    "bert",
    "disk;web1;disk;1;web2;web,all\nping;web2;ping;1;;web,all\n",
)];

const COUNTED: &str =
    "GET services\nStats: state = 0\nStats: state > 0\nStats: sum state\nAuthUser: ";

const OF_COUNTED: &[(&str, &str)] = &[
    ("anna", "1;1;2\n"),
    ("bert", "0;2;3\n"),
    ("nobody", "0;0;0\n"),
    ("dora", "0;0;0\n"),
    ("", "0;0;0\n"),
    ("anna\nColumns: host_name", "web1;1;1;2\n"),
];

const COMMENTS: &str = "GET comments\nColumns: id\nAuthUser: ";

const OF_COMMENTS: &[(&str, &str)] = &[
    ("anna", "1\n3\n"),
    ("bert", "2\n3\n"),
    ("carl", ""),
    ("nobody", ""),
    ("dora", ""),
    ("", ""),
];

const DOWNTIMES: &str = "GET downtimes\nColumns: id\nAuthUser: ";

const OF_DOWNTIMES: &[(&str, &str)] = &[
    ("anna", "2\n"),
    ("bert", "1\n"),
    ("carl", ""),
    ("nobody", ""),
    ("dora", ""),
    ("", ""),
];

const HOST_GROUPS: &str = "GET hostgroups
Columns: name members num_hosts num_hosts_down worst_host_state num_services num_services_crit
AuthUser: ";

const OF_HOST_GROUPS: &[(&str, &str)] = &[
    ("anna", ""),
    ("bert", ""),
    ("carl", "third;web3;1;0;0;1;0\n"),
    ("dora", ""),
    ("nobody", ""),
    ("", ""),
];

const SERVICE_GROUPS: &str = "GET servicegroups
Columns: name members num_services num_services_warn worst_service_state
AuthUser: ";

const OF_SERVICE_GROUPS: &[(&str, &str)] = &[
    ("anna", ""),
    ("bert", "berts;web1|disk,web2|ping;2;1;2\n"),
    ("carl", ""),
    ("nobody", ""),
    ("dora", ""),
    ("", ""),
];

const HOSTS_BY_GROUP: &str = "GET hostsbygroup\nColumns: hostgroup_name name\nAuthUser: ";

const OF_HOSTS_BY_GROUP: &[(&str, &str)] = &[
    ("anna", ""),
    ("carl", "third;web3\n"),
    ("eve", "third;web3\n"),
    ("nobody", ""),
    ("dora", ""),
    ("", ""),
];

const SERVICES_BY_GROUP: &str =
    "GET servicesbygroup\nColumns: servicegroup_name description\nAuthUser: ";

const OF_SERVICES_BY_GROUP: &[(&str, &str)] = &[
    ("anna", ""),
    ("bert", "berts;disk\nberts;ping\n"),
    ("nobody", ""),
    ("dora", ""),
    ("", ""),
];

const SERVICES_BY_HOST_GROUP: &str =
    "GET servicesbyhostgroup\nColumns: hostgroup_name description\nAuthUser: ";

const OF_SERVICES_BY_HOST_GROUP: &[(&str, &str)] = &[
    ("anna", ""),
    ("carl", "third;load\n"),
    ("nobody", ""),
    ("dora", ""),
    ("", ""),
];

/// Tables that show all to each, and cells that aren't cut.
const WHOLE: &[(&str, &str)] = &[
    (
        "contacts\nColumns: name\nAuthUser: nobody",
        "anna\nbert\ncarl\ndora\neve\n",
    ),
    (
        "contactgroups\nColumns: name members\nAuthUser: nobody",
        "ops;anna\nnight;carl\n",
    ),
    (
        "status\nColumns: num_hosts num_services\nAuthUser: nobody",
        "3;4\n",
    ),
    (
        "columns\nColumns: name\nFilter: table = commands\nAuthUser: nobody",
        "name\nline\n",
    ),
    (
        "hosts\nColumns: name groups contacts comments\nAuthUser: anna",
        "web1;web,all;anna,eve;1\n",
    ),
    ("services\nColumns: groups downtimes\nAuthUser: carl", ";\n"),
];

#[test]
fn a_user_sees_its_own_rows_and_members(rt: HostRuntime) -> Result<(), Fail> {
    let site = Site::under(rt.alloc(), SITE, USUAL)?;
    let queries = [
        (HOSTS, OF_HOSTS),
        (COUNTERS, OF_COUNTERS),
        (SERVICES, OF_SERVICES),
        (JOINED, OF_JOINED),
        (COUNTED, OF_COUNTED),
        (COMMENTS, OF_COMMENTS),
        (DOWNTIMES, OF_DOWNTIMES),
        (HOST_GROUPS, OF_HOST_GROUPS),
        (SERVICE_GROUPS, OF_SERVICE_GROUPS),
        (HOSTS_BY_GROUP, OF_HOSTS_BY_GROUP),
        (SERVICES_BY_GROUP, OF_SERVICES_BY_GROUP),
        (SERVICES_BY_HOST_GROUP, OF_SERVICES_BY_HOST_GROUP),
        ("GET ", WHOLE),
    ];
    assert_site(&rt, site, STATE, &queries)
}

const OF_SERVICES_STRICTLY: &[(&str, &str)] = &[
    ("anna", "web1;http\n"),
    ("bert", "web1;disk\nweb2;ping\n"),
    ("carl", ""),
    ("eve", ""),
];

const OF_HOSTS_STRICTLY: &[(&str, &str)] = &[
    ("anna", "web1;;;http;1\n"),
    ("carl", "web3;;;;0\n"),
    ("eve", "web1;web3;;;0\nweb3;;web1;;0\n"),
];

const OF_COMMENTS_STRICTLY: &[(&str, &str)] = &[("anna", "1\n"), ("bert", "2\n3\n")];

const OF_HOST_GROUPS_LOOSELY: &[(&str, &str)] = &[
    ("anna", "web;web1;1;0;0;2;1\nall;web1;1;0;0;2;1\n"),
    ("bert", "web;web2;1;1;1;2;1\nall;web2;1;1;1;2;1\n"),
    ("carl", "third;web3;1;0;0;1;0\nall;web3;1;0;0;1;0\n"),
    ("dora", ""),
    ("nobody", ""),
    ("", ""),
];

const OF_SERVICE_GROUPS_LOOSELY: &[(&str, &str)] = &[
    ("anna", "sg;web1|http;1;0;0\nberts;web1|disk;1;0;2\n"),
    (
        "bert",
        "sg;web2|ping;1;1;1\nberts;web1|disk,web2|ping;2;1;2\n",
    ),
    ("carl", ""),
];

const OF_HOSTS_BY_GROUP_LOOSELY: &[(&str, &str)] = &[("anna", "web;web1\nall;web1\n")];

const OF_SERVICES_BY_GROUP_LOOSELY: &[(&str, &str)] = &[("anna", "sg;http\nberts;disk\n")];

/// The host of a service that is seen need not be.
const OF_SERVICES_BY_HOST_GROUP_LOOSELY: &[(&str, &str)] = &[
    ("bert", "web;disk\nweb;ping\nall;disk\nall;ping\n"),
    ("carl", "third;load\nall;load\n"),
];

#[test]
fn rules_are_strict_or_loose(rt: HostRuntime) -> Result<(), Fail> {
    let strictly: &[Asked<'_>] = &[
        (SERVICES, OF_SERVICES_STRICTLY),
        (HOSTS, OF_HOSTS_STRICTLY),
        (COMMENTS, OF_COMMENTS_STRICTLY),
    ];
    let loosely: &[Asked<'_>] = &[
        (HOST_GROUPS, OF_HOST_GROUPS_LOOSELY),
        (SERVICE_GROUPS, OF_SERVICE_GROUPS_LOOSELY),
        (HOSTS_BY_GROUP, OF_HOSTS_BY_GROUP_LOOSELY),
        (SERVICES_BY_GROUP, OF_SERVICES_BY_GROUP_LOOSELY),
        (SERVICES_BY_HOST_GROUP, OF_SERVICES_BY_HOST_GROUP_LOOSELY),
    ];
    assert_site(&rt, Site::under(rt.alloc(), SITE, STRICT)?, STATE, strictly)?;
    assert_site(&rt, Site::under(rt.alloc(), SITE, LOOSE)?, STATE, loosely)
}

/// Lines of each class, about objects of the base, about others and about none.
const LOG: &[u8] = b"[100] LOG VERSION: 2.0
[101] something else
[102] TIMEPERIOD TRANSITION: days;-1;1
[103] HOST ALERT: web2;DOWN;HARD;1;down
[104] SERVICE ALERT: web1;disk;CRITICAL;HARD;1;full
[105] HOST NOTIFICATION: anna;web1;DOWN;mail;away
[106] PASSIVE SERVICE CHECK: web2;ping;1;slow
[107] EXTERNAL COMMAND: ADD_HOST_COMMENT;web1;1;anna;one
[108] CURRENT HOST STATE: web3;UP;HARD;1;
[109] HOST ALERT: web9;DOWN;HARD;1;gone
[110] HOST ALERT: web1;LOST;HARD;1;away
[111] SERVICE FLAPPING ALERT: web1;http;STARTED; flaps
[112] PASSIVE HOST CHECK: web9;1;away
[113] HOST NOTIFICATION: anna;web9;DOWN;mail;away
[114] CURRENT SERVICE STATE: web2;http;OK;HARD;1;
";

const LINES: &str = "GET log\nColumns: time\nAuthUser: ";

/// What a contact sees of the log: what is about its objects, and the lines 100 to 102 and 110,
/// which are about none and open to all.
const OF_LINES: &[(&str, &str)] = &[
    ("anna", "100\n101\n102\n104\n105\n110\n111\n"),
    ("bert", "100\n101\n102\n103\n104\n106\n110\n"),
    ("carl", "100\n101\n102\n108\n110\n"),
    ("eve", "100\n101\n102\n104\n105\n108\n110\n111\n"),
    ("dora", "100\n101\n102\n110\n"),
    ("nobody", ""),
    ("", ""),
    ("anna\nLimit: 1\nFilter: class = 1", "104\n"),
];

/// What is joined to a line is cut too: the host of the service that it is about need not be seen.
const JOINED_LINES: &str = "GET log
Columns: time current_host_name current_service_description current_host_services
Filter: class = 1
AuthUser: ";

const OF_JOINED_LINES: &[(&str, &str)] = &[
    ("bert", "103;web2;;ping\n104;web1;disk;disk\n"),
    ("anna", "104;web1;disk;http,disk\n111;web1;http;http,disk\n"),
];

const COUNTED_LINES: &str = "GET log\nStats: class = 1\nStats: time > 0\nAuthUser: ";

const OF_COUNTED_LINES: &[(&str, &str)] = &[
    ("anna", "2;7\n"),
    ("dora", "0;4\n"),
    ("nobody", "0;0\n"),
];

const OF_ALL_LINES: &[(&str, &str)] = &[("", "15\n")];

#[test]
fn a_user_sees_the_lines_of_its_objects(rt: HostRuntime) -> Result<(), Fail> {
    let site = Site::after_log(rt.alloc(), SITE, LOG)?;
    let queries = [
        (LINES, OF_LINES),
        (JOINED_LINES, OF_JOINED_LINES),
        (COUNTED_LINES, OF_COUNTED_LINES),
        ("GET log\nStats: time > 0", OF_ALL_LINES),
    ];
    assert_site(&rt, site, "", &queries)
}

/// Two hosts of one contact each, two services of the first one, and groups of both.
const SMALL: &[u8] = b"define contact {
 contact_name anna
 }
define contact {
 contact_name bert
 }
define contactgroup {
 contactgroup_name ops
 members anna
 }
define host {
 host_name web1
 contacts anna
 }
define host {
 host_name web2
 contacts bert
 }
define service {
 host_name web1
 service_description http
 contact_groups ops
 }
define service {
 host_name web1
 service_description disk
 contacts bert
 }
define service {
 host_name web2
 service_description ping
 contacts bert
 }
define hostgroup {
 hostgroup_name web
 members web1,web2
 }
define hostgroup {
 hostgroup_name empty
 }
define servicegroup {
 servicegroup_name sg
 members web1,http,web2,ping
 }
";

const SMALL_USUALLY: &[(&str, &str)] = &[
    (
        "services\nColumns: host_name description\nAuthUser: anna",
        "web1;http\nweb1;disk\n",
    ),
    (
        "hosts\nColumns: name num_services services\nAuthUser: anna",
        "web1;2;http,disk\n",
    ),
    ("hostgroups\nColumns: name members\nAuthUser: anna", ""),
    ("hosts\nColumns: name\nAuthUser: nobody", ""),
];

const SMALL_STRICTLY: &[(&str, &str)] = &[
    (
        "services\nColumns: host_name description\nAuthUser: anna",
        "web1;http\n",
    ),
    (
        "hosts\nColumns: name num_services services\nAuthUser: anna",
        "web1;1;http\n",
    ),
];

const SMALL_LOOSELY: &[(&str, &str)] = &[
    (
        "hostgroups\nColumns: name members\nAuthUser: anna",
        "web;web1\n",
    ),
    (
        "servicegroups\nColumns: name members\nAuthUser: bert",
        "sg;web2|ping\n",
    ),
];

#[test]
fn a_small_site_is_seen_under_each_rule(rt: HostRuntime) -> Result<(), Fail> {
    for (rules, queries) in [
        (USUAL, SMALL_USUALLY),
        (STRICT, SMALL_STRICTLY),
        (LOOSE, SMALL_LOOSELY),
    ] {
        let site = Site::under(rt.alloc(), SMALL, rules)?;
        assert_site(&rt, site, "", &[("GET ", queries)])?;
    }
    Ok(())
}
