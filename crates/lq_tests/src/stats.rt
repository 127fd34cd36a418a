//! Statistics: counts and aggregates, over all rows and over groups of them.

use crate::fixture::{Asked, SITE, assert_asked};
use std::test::Fail;

/// web2 is down, since second 100. disk of web1 and ping of web2 are in a warning.
const STATE: &str = "[100] PROCESS_HOST_CHECK_RESULT;web2;1;down
[200] PROCESS_SERVICE_CHECK_RESULT;web1;disk;1;full
[300] PROCESS_SERVICE_CHECK_RESULT;web2;ping;1;slow";

const HOSTS: &str = "GET hosts\n";

const OF_HOSTS: &[(&str, &str)] = &[
    // over no row
    (
        "Stats: state = 0\nStats: avg state\nFilter: name = nobody",
        "0;0.000000\n",
    ),
    (
        "Stats: sum last_check\nStats: min state\nStats: max state\nFilter: name = nobody",
        "0;0;0\n",
    ),
    ("Columns: name\nStats: state = 0\nFilter: name = nobody", ""),
    // over one
    (
        "Stats: sum last_check
Stats: min last_check
Stats: max last_check
Stats: avg last_check
Filter: name = web2",
        "100;100;100;100.000000\n",
    ),
    // over two
    (
        "Stats: state = 0\nStats: state = 1\nStats: state = 2",
        "1;1;0\n",
    ),
    (
        "Stats: sum state\nStats: min state\nStats: max state\nStats: avg state",
        "1;0;1;0.500000\n",
    ),
    ("Stats: sum last_check\nStats: sum num_services", "100;3\n"),
    (
        "Stats: min num_services\nStats: avg num_services",
        "1;1.500000\n",
    ),
    ("Stats: name ~ web", "2\n"),
    ("Stats:  sum \t state ", "1\n"),
    // joined counts
    ("Stats: state = 0\nStats: state = 1\nStatsAnd: 2", "0\n"),
    ("Stats: state = 0\nStats: state = 1\nStatsOr: 2", "2\n"),
    ("Stats: state = 0\nStatsNegate:", "1\n"),
    (
        "Stats: max state\nStats: state = 0\nStats: name = web1\nStatsAnd: 2\nStats: min state",
        "1;1;0\n",
    ),
    (
        "Stats: name = web1
Stats: state = 0
Stats: name = web2
StatsOr: 2
StatsNegate:
Stats: state >= 0",
        "1;0;2\n",
    ),
    (
        "Stats: state = 0
Stats: name = web1
Stats: state = 1
Stats: name = web2
StatsAnd: 2
StatsOr: 3",
        "2\n",
    ),
    // of groups
    ("Columns: state\nStats: state >= 0", "0;1\n1;1\n"),
    ("Columns: name\nStats: max state", "web1;0\nweb2;1\n"),
    (
        "Columns: contacts\nStats: state >= 0",
        "bert,anna,carl;1\n;1\n",
    ),
    // with a limit, and with names
    ("Columns: name\nStats: max state\nLimit: 1", "web1;0\n"),
    ("Columns: name\nStats: max state\nLimit: 0", ""),
    ("Stats: state = 0\nLimit: 0", ""),
    ("Stats: state = 0\nLimit: 1", "1\n"),
    (
        "Columns: state\nStats: state >= 0\nStats: max state\nColumnHeaders: on",
        "state;stats_1;stats_2\n0;1;0\n1;1;1\n",
    ),
    ("Stats: state = 0\nColumnHeaders: on", "stats_1\n1\n"),
    (
        "Columns: name\nStats: avg state\nColumnHeaders: on\nLimit: 1\nOutputFormat: json",
        "[[\"name\",\"stats_1\"],\n[\"web1\",0.000000]]\n",
    ),
    (
        "Columns: contacts\nStats: state >= 0\nOutputFormat: CSV",
        "\"bert,anna,carl\",1\r\n,1\r\n",
    ),
    (
        "Stats: state = 0\nResponseHeader: fixed16",
        "200           2\n1\n",
    ),
];

/// The services are http of web1, ping of web2 and disk of web1.
const SERVICES: &str = "GET services\n";

const OF_SERVICES: &[(&str, &str)] = &[
    ("Stats: avg state", "0.666667\n"),
    ("Columns: state\nStats: state >= 0", "0;1\n1;2\n"),
    ("Columns: state\nStats: state >= 0\nLimit: 1", "0;1\n"),
    // web1 comes back after web2
    ("Columns: host_name\nStats: state = 1", "web1;1\nweb2;1\n"),
    ("Columns: host_name\nStats: state >= 0", "web1;2\nweb2;1\n"),
    (
        "Columns: host_name\nStats: max last_check",
        "web1;200\nweb2;300\n",
    ),
    (
        "Columns: host_name\nStats: avg state",
        "web1;0.500000\nweb2;1.000000\n",
    ),
    (
        "Columns: host_name state\nStats: state >= 0\nFilter: state = 1",
        "web2;1;1\nweb1;1;1\n",
    ),
];

/// Lists of services as keys: sg has ping of web2 and http of web1, rest has disk of web1 and ping
/// of web2, void has none.
const GROUPS: &str = "GET servicegroups\n";

const OF_GROUPS: &[(&str, &str)] = &[(
    "Columns: members\nStats: num_services > 0",
    "web2|ping,web1|http;1\nweb1|disk,web2|ping;1\n;0\n",
)];

#[test]
fn rows_are_counted_and_taken_together(rt: HostRuntime) -> Result<(), Fail> {
    let queries: [Asked<'_>; 3] = [
        (HOSTS, OF_HOSTS),
        (SERVICES, OF_SERVICES),
        (GROUPS, OF_GROUPS),
    ];
    assert_asked(&rt, SITE, STATE, &queries)
}
