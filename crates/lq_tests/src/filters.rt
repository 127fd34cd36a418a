//! The rows that filters choose: by operators and the kinds of columns, by patterns and by filters
//! that are joined; and how many of them are shown.

ghost use Rattle.std.specs.Prelude.{⊤};
ghost use Rattle.lq_schema.specs.Value.{Number};

use crate::fixture::{
    Asked, SITE, Site, Step, assert_asked, assert_same, assert_steps, base_of, push_all,
};
use lq_filter::{Cells, Filter};
use lq_records::{Base, Memory};
use lq_request::read_request;
use lq_schema::{Col, Val};
use std::alloc::{AllocError, Global};
use std::process::Abort;
use std::test::Fail;

// ---- operators

/// web2 is down. web1 has two comments and http one; the text of the first ends with a blank. ping
/// has a downtime.
const STATE: &str = "[100] PROCESS_HOST_CHECK_RESULT;web2;1;down
[100] ADD_HOST_COMMENT;web1;1;anna;one \n\
[100] ADD_SVC_COMMENT;web1;http;1;anna;two
[100] ADD_HOST_COMMENT;web1;1;bert;Three
[100] SCHEDULE_SVC_DOWNTIME;web2;ping;50;900;1;0;100;anna;move";

const HOSTS: &str = "GET hosts\nColumns: name\nFilter: ";

/// The state of web1 is 0, the one of web2 is 1.
const NUMBERS: &[(&str, &str)] = &[
    ("state = 1", "web2\n"),
    ("state = 2", ""),
    ("state != 1", "web1\n"),
    ("state != 2", "web1\nweb2\n"),
    ("state < 1", "web1\n"),
    ("state < 0", ""),
    ("state > 0", "web2\n"),
    ("state > -1", "web1\nweb2\n"),
    ("state <= 0", "web1\n"),
    ("state <= 1", "web1\nweb2\n"),
    ("state >= 1", "web2\n"),
    ("state >= 2", ""),
    ("state = -1", ""),
    ("state = -0", "web1\n"),
    ("state = 001", "web2\n"),
    ("state <= 9223372036854775807", "web1\nweb2\n"),
    ("state > 9223372036854775807", ""),
    ("state >= -9223372036854775808", "web1\nweb2\n"),
    ("state < -9223372036854775808", ""),
    ("state = 1 \t ", "web2\n"),
    ("\t state  =\t\t1", "web2\n"),
    ("host_state\t=\t1", "web2\n"),
    ("num_services > 1", "web1\n"),
    ("last_check = 100", "web2\n"),
];

/// web1 has an address, web2 has none. The alias of web1 is `Web One`, the one of web2 its name.
const TEXTS: &[(&str, &str)] = &[
    ("address = 10.0.0.1", "web1\n"),
    ("address =", "web2\n"),
    ("address = \t ", "web2\n"),
    ("address != 10.0.0.1", "web2\n"),
    ("address !=", "web1\n"),
    ("address < 10.0.0.1", "web2\n"),
    ("address < 10.0.0.10", "web1\nweb2\n"),
    ("address <", ""),
    ("address > 10.0.0", "web1\n"),
    ("address > 10.0.0.1", ""),
    ("address >", "web1\n"),
    ("address <= 10.0.0.1", "web1\nweb2\n"),
    ("address <=", "web2\n"),
    ("address >= 10.0.0.1", "web1\n"),
    ("address >= 10.0.0.2", ""),
    ("address >=", "web1\nweb2\n"),
    ("alias < a", "web1\n"),
    ("alias = web one", ""),
    ("alias =~ wEB oNE", "web1\n"),
    ("alias =~ WEB", ""),
    ("address =~", "web2\n"),
    ("address =~ 10.0.0.1", "web1\n"),
    ("alias !=~ web ONE", "web2\n"),
    ("address !=~", "web1\n"),
    ("address !=~ 10.0.0.1", "web2\n"),
    ("name !=~ WEB2", "web1\n"),
    ("name = web1 ", ""),
    ("name != web1 ", "web1\nweb2\n"),
    ("name = web1\t", ""),
    ("  name \t =  \t web1", "web1\n"),
    ("alias = Web One", "web1\n"),
    ("alias = Web  One", ""),
    ("host_alias = Web One", "web1\n"),
];

/// Patterns in the same texts.
const MATCHES: &[(&str, &str)] = &[
    ("name ~ ^web[12]$", "web1\nweb2\n"),
    ("name ~ 2", "web2\n"),
    ("name ~ WEB", ""),
    ("name ~ 1 ", ""),
    ("name ~", "web1\nweb2\n"),
    ("address ~ ^$", "web2\n"),
    ("address ~ 0.0", "web1\n"),
    ("name !~ 2", "web1\n"),
    ("address !~ .", "web2\n"),
    ("address !~", ""),
    ("name ~~ WEB2", "web2\n"),
    ("name ~~ x", ""),
    ("address ~~ ^$", "web2\n"),
    ("address ~~ 0", "web1\n"),
    ("name !~~ WEB2", "web1\n"),
    ("alias !~~ ONE$", "web2\n"),
    ("address !~~ ^$", "web1\n"),
    ("address !~~ 0", "web2\n"),
    (
        "name ~ b\nFilter: alias ~~ one|two\nFilter: address !~ ^11\nFilter: contacts ~ ^a",
        "web1\n",
    ),
];

/// The contacts of web1 are bert, anna and carl; web2 has none. A custom variable of web1 is empty.
const LISTS: &[(&str, &str)] = &[
    ("contacts =", "web2\n"),
    ("contacts = \t ", "web2\n"),
    ("contacts !=", "web1\n"),
    ("contacts >= anna", "web1\n"),
    ("contacts >= ann", ""),
    ("contacts >= ANNA", ""),
    ("contacts >= anna ", ""),
    ("contacts >=", ""),
    ("custom_variable_values >=", "web1\n"),
    ("contacts < anna", "web2\n"),
    ("contacts < ann", "web1\nweb2\n"),
    ("contacts <= ANNA", "web1\n"),
    ("contacts <= dora", ""),
    ("contacts > ANNA", "web2\n"),
    ("contacts > dora", "web1\nweb2\n"),
    ("contacts ~ ^a", "web1\n"),
    ("contacts ~ ^A", ""),
    ("contacts ~ anna,carl", ""),
    ("contacts ~", "web1\n"),
    ("contacts !~ ^anna$", "web2\n"),
    ("contacts !~ ^A", "web1\nweb2\n"),
    ("contacts !~", "web2\n"),
    ("contacts ~~ ^A", "web1\n"),
    ("contacts ~~ x", ""),
    ("contacts !~~ ^A", "web2\n"),
    ("contacts !~~ x", "web1\nweb2\n"),
];

/// The comments of web1 are 1 and 3; web2 has none.
const NUMBER_LISTS: &[(&str, &str)] = &[
    ("comments =", "web2\n"),
    ("comments !=", "web1\n"),
    ("comments >= 3", "web1\n"),
    ("comments >= 2", ""),
    ("comments >= 03", ""),
    ("comments >= 3 ", ""),
    ("comments < 3", "web2\n"),
    ("comments < 2", "web1\nweb2\n"),
    ("comments <= 3", "web1\n"),
    ("comments <= 2", ""),
    ("comments > 3", "web2\n"),
    ("comments > x", "web1\nweb2\n"),
    ("comments ~ ^[13]$", "web1\n"),
    ("comments ~ 2", ""),
    ("comments !~ 1", "web2\n"),
    ("comments !~ 2", "web1\nweb2\n"),
    ("comments ~~ ^3$", "web1\n"),
    ("comments ~~ x", ""),
    ("comments !~~ 3", "web2\n"),
    ("comments !~~ 2", "web1\nweb2\n"),
];

const GROUPS: &str = "GET servicegroups\nColumns: name\nFilter: ";

/// The members of sg are ping of web2 and http of web1, those of rest disk of web1 and ping of
/// web2; void has none.
const PAIR_LISTS: &[(&str, &str)] = &[
    ("members =", "void\n"),
    ("members !=", "sg\nrest\n"),
    ("members >= web1|http", "sg\n"),
    ("members >= web1;http", ""),
    ("members >= http", ""),
    ("members < web1|http", "rest\nvoid\n"),
    ("members < web1", "sg\nrest\nvoid\n"),
    ("members <= WEB1|Http", "sg\n"),
    ("members <= web1|ping", ""),
    ("members > WEB1|Http", "rest\nvoid\n"),
    ("members > web1|ping", "sg\nrest\nvoid\n"),
    ("members ~ ^web1\\|disk$", "rest\n"),
    ("members ~ DISK", ""),
    ("members !~ disk", "sg\nvoid\n"),
    ("members !~ DISK", "sg\nrest\nvoid\n"),
    ("members ~~ DISK", "rest\n"),
    ("members ~~ x", ""),
    ("members !~~ WEB.*P", "void\n"),
    ("members !~~ x", "sg\nrest\nvoid\n"),
];

const COMMENTS: &str = "GET comments\nColumns: id\nFilter: ";

/// The first and the third comment are on web1, the second is on http.
const OF_COMMENTS: &[(&str, &str)] = &[
    ("comment = one ", "1\n"),
    ("comment = one", ""),
    ("comment = one  ", ""),
    ("comment ~ e $", "1\n"),
    ("service_description =", "1\n3\n"),
    ("service_description !=", "2\n"),
    ("service_description = http", "2\n"),
    ("service_description ~ ^$", "1\n3\n"),
    ("host_name = web1", "1\n2\n3\n"),
    ("service_state = 0", "1\n2\n3\n"),
    ("service_max_check_attempts = 0", "1\n3\n"),
    ("service_max_check_attempts > 0", "2\n"),
    ("service_contacts =", "1\n3\n"),
    ("service_contacts >= carl", "2\n"),
    ("service_contacts < carl", "1\n3\n"),
    ("service_comments !=", "2\n"),
    ("service_comments < 2", "1\n3\n"),
];

/// Cells that are counted, joined or made for the test.
const OTHER_TABLES: &[(&str, &str)] = &[
    (
        "services\nColumns: description\nFilter: downtimes >= 1",
        "ping\n",
    ),
    (
        "services\nColumns: description\nFilter: downtimes =",
        "http\ndisk\n",
    ),
    (
        "services\nColumns: description\nFilter: host_state = 1",
        "ping\n",
    ),
    (
        "hostgroups\nColumns: name\nFilter: num_hosts_down > 0",
        "web\nsecond\n",
    ),
    (
        "servicesbygroup\nColumns: servicegroup_name description
Filter: servicegroup_members >= web1|disk",
        "rest;disk\nrest;ping\n",
    ),
    ("status\nColumns: num_hosts\nFilter: num_hosts = 2", "2\n"),
    ("status\nColumns: num_hosts\nFilter: num_hosts = 3", ""),
    (
        "columns\nColumns: name type\nFilter: table = contactgroups\nFilter: type = list",
        "members;list\n",
    ),
    (
        "columns\nColumns: name\nFilter: table =~ CONTACTS\nFilter: name ~ ^host_",
        "host_notification_period\n",
    ),
];

#[test]
fn operators_choose_rows_by_the_kinds_of_columns(rt: HostRuntime) -> Result<(), Fail> {
    let queries = [
        (HOSTS, NUMBERS),
        (HOSTS, TEXTS),
        (HOSTS, MATCHES),
        (HOSTS, LISTS),
        (HOSTS, NUMBER_LISTS),
        (GROUPS, PAIR_LISTS),
        (COMMENTS, OF_COMMENTS),
        ("GET ", OTHER_TABLES),
    ];
    assert_asked(&rt, SITE, STATE, &queries)
}

// ---- characters

/// Two hosts with one contact each. The alias of the first one is `Äb`; the one of the second has a
/// byte that isn't UTF-8.
const TWO: &[u8] = b"define contact {
 contact_name anna
 }
define contact {
 contact_name bert
 }
define host {
 host_name web1
 alias \xc3\x84b
 contacts anna
 }
define host {
 host_name web2
 alias x\xffy
 contacts bert
 }
";

const CHARACTERS: &[(&str, &str)] = &[
    ("contacts >= anna", "web1\n"),
    ("contacts =", ""),
    ("alias ~~ ä", "web1\n"),
    ("alias ~~ äB", "web1\n"),
    ("alias ~ ä", ""),
    ("alias ~ Ä", "web1\n"),
    ("alias !~~ ä", "web2\n"),
    ("alias !~ ä", "web1\nweb2\n"),
    ("alias =~ ÄB", "web1\n"),
    ("alias =~ äb", ""),
    ("alias !=~ äb", "web1\nweb2\n"),
    ("alias !=~ ÄB", "web2\n"),
    ("alias ~ ^..$", "web1\n"),
    ("alias ~ ^x.y$", "web2\n"),
    ("alias = x\u{fffd}y", "web2\n"),
    ("alias =~ X\u{fffd}Y", "web2\n"),
    ("alias ~ \u{fffd}", "web2\n"),
    ("alias = xy", ""),
    ("alias > z", "web1\n"),
];

// ---- filters that are joined

const SERVICES: &str = "GET services\nColumns: description\nFilter: ";

/// The services are http of web1, ping of web2 and disk of web1.
const JOINED: &[(&str, &str)] = &[
    ("host_name = web1\nFilter: description = http", "http\n"),
    ("host_name = web2\nFilter: description = http", ""),
    (
        "host_name = web2\nFilter: description = http\nOr: 2",
        "http\nping\n",
    ),
    (
        "host_name = web1\nFilter: description = http\nAnd: 2\nNegate:",
        "ping\ndisk\n",
    ),
    ("host_name = web1\nAnd: 1", "http\ndisk\n"),
    ("host_name = web1\nOr: 1\nNegate: 7", "ping\n"),
    ("host_name = web1\nNegate:\nNegate:", "http\ndisk\n"),
    (
        "host_name = web1\nFilter: host_name = web1\nFilter: description = ping\nOr: 2",
        "http\ndisk\n",
    ),
    (
        "host_name = web1
Filter: description = ping
Filter: description = http
And: 2
Or: 2",
        "http\ndisk\n",
    ),
    (
        "host_name = web1
Filter: description = ping
Or: 2
Filter: description = http
And: 2",
        "http\n",
    ),
    (
        "host_name = web1
Filter: description = http
Filter: description = ping
Or: 2
And: 2
Filter: description = ping
Or: 2",
        "http\nping\n",
    ),
    (
        "host_name = web1
Filter: description = http
Filter: description = ping
Or: 2
Filter: description = ping
Or: 2
And: 2",
        "http\n",
    ),
    (
        "host_name = web1
Filter: description = ping
Filter: description = http
Or: 2
Negate:
And: 2
Negate:",
        "http\nping\n",
    ),
    (
        "host_name = web1
Filter: description = ping
Negate:
Filter: description = http
Or: 2
And: 2
Negate:",
        "ping\n",
    ),
    (
        "description = http\nFilter: description = ping\nFilter: description = disk\nOr: 3",
        "http\nping\ndisk\n",
    ),
    (
        "description ~ p\nFilter: host_name = web1\nFilter: state = 0\nAnd: 3",
        "http\n",
    ),
];

/// web1 is up, web2 is down.
const OF_HOSTS: &[(&str, &str)] = &[
    ("state = 0\nFilter: state = 2\nOr: 2\nNegate:", "web2\n"),
    ("state = 0\nFilter: state = 2\nOr: 2", "web1\n"),
];

// ---- how many rows are shown

const ALL_SERVICES: &str = "GET services\nColumns: description";

const LIMITED: &[(&str, &str)] = &[
    ("\nLimit: 0", ""),
    ("\nLimit: 1", "http\n"),
    ("\nLimit: 2", "http\nping\n"),
    ("\nLimit: 3", "http\nping\ndisk\n"),
    ("\nLimit: 4", "http\nping\ndisk\n"),
    ("\nLimit: 18446744073709551615", "http\nping\ndisk\n"),
    ("\nLimit: 3\nLimit: 1", "http\n"),
    ("\nLimit: 0\nLimit: 2", "http\nping\n"),
    ("\nColumnHeaders: on\nLimit: 0", "description\n"),
    ("\nColumnHeaders: on\nLimit: 1", "description\nhttp\n"),
    (
        "\nColumnHeaders: on\nLimit: 9\nFilter: description = disk",
        "description\ndisk\n",
    ),
    ("\nLimit: 1\nFilter: description = disk", "disk\n"),
    ("\nFilter: host_name = web1\nLimit: 1", "http\n"),
    ("\nFilter: host_name = web1\nLimit: 2", "http\ndisk\n"),
    ("\nFilter: host_name = web1\nLimit: 0", ""),
    (
        "\nFilter: description = x\nColumnHeaders: on\nLimit: 2",
        "description\n",
    ),
];

const COMMANDS: &str = "GET commands\nLimit: ";

const NAMES_ALONE: &[(&str, &str)] = &[("0", "name;line\n")];

/// Results of http, and what it is after each.
const CHECKED: &[Step<'static>] = &[
    (
        "[100] PROCESS_SERVICE_CHECK_RESULT;web1;http;2;bad|x=1",
        2,
        "2;0;1;bad;x=1\n",
    ),
    (
        "[101] PROCESS_SERVICE_CHECK_RESULT;web1;http;2;bad|x=1",
        2,
        "2;0;2;bad;x=1\n",
    ),
    (
        "[102] PROCESS_SERVICE_CHECK_RESULT;web1;http;2;bad|x=1",
        2,
        "2;1;3;bad;x=1\n",
    ),
    (
        "[103] PROCESS_SERVICE_CHECK_RESULT;web1;http;0;fine",
        2,
        "0;1;1;fine;\n",
    ),
];

const OF_HTTP: &str = "GET services
Columns: state state_type current_attempt plugin_output perf_data
Filter: host_name = web1
Filter: description = http";

#[test]
fn rows_are_chosen_by_joined_filters_and_limited(rt: HostRuntime) -> Result<(), Fail> {
    let queries = [
        (SERVICES, JOINED),
        (HOSTS, OF_HOSTS),
        (ALL_SERVICES, LIMITED),
        (COMMANDS, NAMES_ALONE),
    ];
    assert_asked(&rt, SITE, STATE, &queries)?;
    assert_asked(&rt, TWO, "", &[(HOSTS, CHARACTERS)])?;
    assert_steps(&rt, SITE, OF_HTTP, CHECKED)
}

// ---- many rows

/// How many hosts a large site has.
const MANY: usize = 1_100;

/// Hosts `h0`, `h1` and so on, whose aliases are `0`, `1` and `2` in turn.
fn many_hosts(alloc: Global) -> Result<String, AllocError> {
    let mut objects = String::new(alloc);
    for number in 0..MANY {
        let alias = number % 3;
        let host = format!(in alloc; "h{number}\nalias {alias}\n")?;
        push_all(
            &mut objects,
            &["define host {\nhost_name ", host.as_str(), "}\n"],
        )?;
    }
    Ok(objects)
}

/// The names of every third host, as many as that at most.
fn third_hosts(alloc: Global, most: usize) -> Result<String, AllocError> {
    let mut lines = String::new(alloc);
    let mut left = most;
    for number in 0..MANY {
        if number % 3 == 0 && left > 0 {
            left -= 1;
            let line = format!(in alloc; "h{number}\n")?;
            lines.push_str(line.as_str())?;
        }
    }
    Ok(lines)
}

/// Queries that choose every third host, up to the largest number of rows.
const THIRDS: &[&str] = &[
    "GET hosts\nColumns: name\nFilter: alias = 0\nLimit: ",
    "GET hosts\nColumns: name\nFilter: alias ~ ^[12]$\nNegate:\nLimit: ",
    "GET hosts
Columns: name
Filter: alias = 0
Filter: alias < 1
Filter: name ~ 9$
And: 2
Or: 2
Limit: ",
    "GET hosts
Columns: name
Filter: name ~ [02468]$
Filter: contacts !=
Or: 2
Negate:
Filter: state = 0
Filter: name ~ [02468]$
And: 2
Or: 2
Filter: alias = 1
Filter: alias = 2
Or: 2
Negate:
Limit: ",
];

/// 171 of the first 512 hosts are chosen, 342 of the first 1,024, and 367 of all.
const LIMITS: &[usize] = &[0, 1, 170, 171, 172, 250, 341, 342, 343, 366, 367, 368];

fn assert_limits<R: Abort + AllocGlobal>(rt: &R, site: &Site, front: &str) -> Result<(), Fail> {
    for most in LIMITS {
        let query = format!(in rt.alloc(); "{front}{most}")?;
        let replies = site.ask(rt.alloc(), query.as_str())?;
        let expected = third_hosts(rt.alloc(), *most)?;
        assert_same(rt, replies.as_str(), expected.as_str(), &query.as_str());
    }
    Ok(())
}

#[test]
fn many_rows_are_chosen_up_to_a_limit(rt: HostRuntime) -> Result<(), Fail> {
    let objects = many_hosts(rt.alloc())?;
    let site = Site::open(rt.alloc(), objects.as_bytes(), objects.as_bytes())?;
    for front in THIRDS {
        assert_limits(&rt, &site, *front)?;
    }
    Ok(())
}

// ---- one row

/// A row with one number in each column, which it gives as a value alone.
#[derive(Clone, Copy)]
struct Alike {
    number: i64,
}

impl Cells for Alike {
    ghost has = { λ _ _. ⊤ };

    ghost cell = { λ row _. Number row.number };

    fn get(&self, _: Global, _: Col) -> Result<Val<'_>, Memory> {
        Ok(Val::Int(i128::from(self.number)))
    }

    fn number(&self, _: Col) -> Option<i128> {
        None
    }

    fn text(&self, _: Col) -> Option<&str> {
        None
    }
}

/// The headers of filters, and which of the rows with 3, 4 and 5 they choose.
const OF_ROWS: &[(&str, &[i64])] = &[
    ("", &[3, 4, 5]),
    ("\nFilter: state = 4", &[4]),
    ("\nFilter: state = 4\nNegate:", &[3, 5]),
    ("\nFilter: state > 3\nFilter: last_check != 4", &[5]),
    (
        "\nFilter: state > 4\nFilter: last_check < 4\nOr: 2",
        &[3, 5],
    ),
];

/// Compares which rows a filter chooses, by itself and made ready.
fn assert_chosen<R: Abort + AllocGlobal>(
    rt: &R,
    filter: &Filter,
    chosen: &[i64],
    case: &str,
) -> Result<(), Fail> {
    let mut ready = filter.ready(rt.alloc())?;
    for number in 3..6i64 {
        let row = Alike { number };
        let is_chosen = filter.holds(rt.alloc(), &row)?;
        let is_chosen_ready = ready.holds(rt.alloc(), &row)?;
        let expected = chosen.contains(&number);
        assert!(rt;
            is_chosen == expected && is_chosen_ready == expected,
            "{number} at {case}"
        );
    }
    Ok(())
}

/// Reads the filter of a query, and compares which rows it chooses.
fn assert_filter<R: Abort + AllocGlobal>(
    rt: &R,
    base: &Base,
    (headers, chosen): (&str, &[i64]),
) -> Result<(), Fail> {
    let query = format!(in rt.alloc(); "GET hosts{headers}")?;
    match read_request(rt.alloc(), query.as_str().as_bytes(), base) {
        Ok(request) => assert_chosen(rt, &request.filter, chosen, headers),
        Err(_) => Err(Fail::new("a query is refused")),
    }
}

#[test]
fn a_filter_tells_of_one_row_whether_it_is_chosen(rt: HostRuntime) -> Result<(), Fail> {
    let base = base_of(rt.alloc(), TWO)?;
    for case in OF_ROWS {
        assert_filter(&rt, &base, *case)?;
    }
    Ok(())
}
