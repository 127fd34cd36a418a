//! What object files say, asked by queries.

use crate::fixture::{asked, assert_same};
use std::process::Abort;
use std::test::Fail;

/// Compares what queries are answered about an object file.
fn assert_asked<R: Abort + AllocGlobal>(
    rt: &R,
    objects: &[u8],
    queries: &str,
    expected: &str,
) -> Result<(), Fail> {
    let replies = asked(rt.alloc(), objects, "", queries)?;
    assert_same(rt, replies.as_str(), expected, &objects);
    Ok(())
}

/// An object file, queries and what they are answered.
type Asked<'a> = (&'a [u8], &'a str, &'a str);

fn assert_all_asked<R: Abort + AllocGlobal>(rt: &R, cases: &[Asked<'_>]) -> Result<(), Fail> {
    for (objects, queries, expected) in cases {
        assert_asked(rt, *objects, *queries, *expected)?;
    }
    Ok(())
}

/// The two parts of a file between which a line stands, and what is asked then.
type Around<'a> = (&'a [u8], &'a [u8], &'a str);

/// Puts a line into a file, and compares what is answered then.
fn assert_line<R: Abort + AllocGlobal>(
    rt: &R,
    (front, back, queries): Around<'_>,
    (line, expected): (&[u8], &str),
) -> Result<(), Fail> {
    let objects = [front, line, back].concat(rt.alloc())?;
    assert_asked(rt, &objects, queries, expected)
}

/// Puts lines into a file, one after another.
fn assert_lines<R: Abort + AllocGlobal>(
    rt: &R,
    around: Around<'_>,
    lines: &[(&[u8], &str)],
) -> Result<(), Fail> {
    for line in lines {
        assert_line(rt, around, *line)?;
    }
    Ok(())
}

// ---- each kind with all its directives, and without any

/// The directives that hosts and services share, each with a value of its own, and what follows
/// them.
const SHARED: &[u8] = b"display_name\tShown name
check_command\tcheck_it!5!a;b
check_period\tnever
notification_period\tworkhours
max_check_attempts\t5
notifications_enabled\t0
contacts\tc2,c1
contact_groups\tg1,g2
notes\tRack 4, left
notes_url\thttps://notes.example/?a={b}
action_url\thttps://action.example/
icon_image\ticon.png
_SITE\tcellar 2
_EMPTY
_Site\tattic
}
define contact {\ncontact_name c0\n}\ndefine contact {\ncontact_name c1\n}
define contact {\ncontact_name c2\n}\ndefine contactgroup {\ncontactgroup_name g0\n}
define contactgroup {\ncontactgroup_name g1\n}\ndefine contactgroup {\ncontactgroup_name g2\n}
";

const HOSTS: Around<'static> = (
    b"define host {\nhost_name first\n}\ndefine host {\nhost_name\tweb1\nalias\tWeb server 1
address\t10.0.0.1\nparents\tlast,first\n",
    b"define host {\nhost_name last\n}\n",
    "GET hosts\nColumns: name alias address parents display_name check_command check_period
Columns: notification_period max_check_attempts notifications_enabled contacts contact_groups
Columns: notes notes_url action_url icon_image custom_variable_names custom_variable_values",
);

const SERVICES: Around<'static> = (
    b"define service {\nhost_name\ta\nservice_description\tb\n}
define service {\nhost_name\tb\nservice_description\tDisk /\n",
    b"define host {\nhost_name a\n}\ndefine host {\nhost_name b\n}\n",
    "GET services\nColumns: host_name description display_name check_command check_period
Columns: notification_period max_check_attempts notifications_enabled contacts contact_groups
Columns: notes notes_url action_url icon_image custom_variable_names custom_variable_values",
);

const OF_HOSTS: &str = "first;first;;;first;;;;1;1;;;;;;;;
web1;Web server 1;10.0.0.1;last,first;Shown name;check_it!5!a;b;never;workhours;5;0;c2,c1;g1,g2;\
Rack 4, left;https://notes.example/?a={b};https://action.example/;icon.png;SITE,EMPTY,Site;\
cellar 2,,attic
last;last;;;last;;;;1;1;;;;;;;;
";

const OF_SERVICES: &str = "a;b;b;;;;1;1;;;;;;;;
b;Disk /;Shown name;check_it!5!a;b;never;workhours;5;0;c2,c1;g1,g2;\
Rack 4, left;https://notes.example/?a={b};https://action.example/;icon.png;SITE,EMPTY,Site;\
cellar 2,,attic
";

const OTHER_KINDS: &[Asked<'static>] = &[
    (
        b"define hostgroup {\nhostgroup_name hg\nalias Hosts\nmembers b,a
notes Host notes\nnotes_url https://hosts.example/\naction_url https://act.example/h\n}
define hostgroup {\nhostgroup_name bare\n}
define servicegroup {\nservicegroup_name sg\nalias Services\nmembers b,s, a,t
notes Service notes\nnotes_url https://services.example/\naction_url https://act.example/s\n}
define servicegroup {\nservicegroup_name plain\n}
define service {\nhost_name a\nservice_description s\n}
define service {\nhost_name a\nservice_description t\n}
define service {\nhost_name b\nservice_description s\n}
define host {\nhost_name a\n}\ndefine host {\nhost_name b\n}\n",
        "GET hostgroups\nColumns: name alias members notes notes_url action_url\n
GET servicegroups\nColumns: name alias members notes notes_url action_url",
        "hg;Hosts;b,a;Host notes;https://hosts.example/;https://act.example/h
bare;bare;;;;
sg;Services;b|s,a|t;Service notes;https://services.example/;https://act.example/s
plain;plain;;;;
",
    ),
    (
        b"define contactgroup {\ncontactgroup_name team\nalias The team\nmembers zoe,anna\n}
define contactgroup {\ncontactgroup_name none\n}
define contact {\ncontact_name anna\nalias Anna A.\nemail anna@site.example\npager 0049 5
host_notification_period by day\nservice_notification_period by night\n}
define contact {\ncontact_name zoe\n}\n",
        "GET contactgroups\nColumnHeaders: off\n\nGET contacts\nColumnHeaders: off",
        "team;The team;zoe,anna
none;none;
anna;Anna A.;anna@site.example;0049 5;by day;by night
zoe;zoe;;;;
",
    ),
    (
        b"define timeperiod {\ntimeperiod_name always\nalias All the time\nmonday 00:00-24:00\n}
define command {\ncommand_name check\ncommand_line /bin/check -H '$HOSTADDRESS$' a;b # c\n}
define timeperiod {\ntimeperiod_name never\n}
define command {\ncommand_name nothing\n}\n",
        "GET timeperiods\nColumnHeaders: off\n\nGET commands\nColumnHeaders: off",
        "always;All the time;1
never;never;1
check;/bin/check -H '$HOSTADDRESS$' a;b # c
nothing;
",
    ),
];

#[test]
fn each_kind_is_read_with_all_its_directives(rt: HostRuntime) -> Result<(), Fail> {
    assert_lines(&rt, HOSTS, &[(SHARED, OF_HOSTS)])?;
    assert_lines(&rt, SERVICES, &[(SHARED, OF_SERVICES)])?;
    assert_all_asked(&rt, OTHER_KINDS)
}

// ---- nothing, repeated directives, other directives, custom variables

const NAMES: &str = "GET hosts\nColumns: name\n\nGET services\nColumns: description\n
GET hostgroups\nColumns: name\n\nGET servicegroups\nColumns: name\n\nGET contacts\nColumns: name\n
GET contactgroups\nColumns: name\n\nGET timeperiods\nColumns: name\n\nGET commands\nColumns: name";

const BLOCKS: &[Asked<'static>] = &[
    (b"", NAMES, ""),
    (b"\n", NAMES, ""),
    (b"# x\n#", NAMES, ""),
    (b"define escalation {\n}", NAMES, ""),
    (
        b"define host {\nhost_name x\nhost_name b\nalias one\naddress 1\nparents b\naddress 2
alias two\nalias\naddress 3\nparents a\n}
define host {\nhost_name a\nalias\ndisplay_name\n}\n",
        "GET hosts\nColumns: name alias address parents display_name",
        "b;;3;a;b\na;;;;\n",
    ),
    (
        b"define host {\n_B one\nhost_name a\n_A  two \n_C\t\tthree\n_B
_b x\n\t_A four five\n_ six\n}\n",
        "GET hosts\nColumns: custom_variable_names custom_variable_values",
        "B,A,C,b,;,four five,three,x,six\n",
    ),
    (
        b"define host {\nhost_name a\n_A 1\n_B 2\n_C 3\n_D 4\n_E 5
_F 6\n_G 7\n_B 8\n_H 9\n_A 10\n}\n",
        "GET hosts\nColumns: custom_variable_names custom_variable_values",
        "A,B,C,D,E,F,G,H;10,8,3,4,5,6,7,9\n",
    ),
    (
        b"define host {\nhost_name a\n_\xff one\n_\xfe two\n}\n",
        "GET hosts\nColumns: custom_variable_names custom_variable_values",
        "\u{FFFD};two\n",
    ),
    (
        b"define host {\nhost_name a\xff\n}\ndefine host {\nhost_name b\nparents a\xc3,a\xfe\n}\n",
        "GET hosts\nColumns: name parents",
        "a\u{FFFD};\nb;a\u{FFFD}\n",
    ),
    (
        b"define serviceescalation {\nhost_name x\nuse t\nmax_check_attempts 0\nmembers x\n}
define Host {\nhost_name y\n}
define host {\nhost_name a\nhost_names b\nhost_nam c\nHOST_NAME d
event_handler e\nalias\tA\naliases B
notifications 7\nmax_check_attempt x\nx\n{\ndefined\ndefine x\n}
define hostdependency {\n#}\n_A b\n}\n",
        "GET hosts\nColumns: name alias max_check_attempts custom_variable_names\n
GET services\nColumns: description",
        "a;A;1;\n",
    ),
];

#[test]
fn the_last_directive_decides_and_others_are_skipped(rt: HostRuntime) -> Result<(), Fail> {
    assert_all_asked(&rt, BLOCKS)
}

// ---- lists and numbers

const MEMBERS: Around<'static> = (
    b"define host {\nhost_name a\n}\ndefine host {\nhost_name b\n}\ndefine host {\nhost_name c d\n}
define hostgroup {\nhostgroup_name g\n",
    b"\n}\n",
    "GET hostgroups\nColumns: members",
);

const LISTS: &[(&[u8], &str)] = &[
    (b"members a", "a\n"),
    (b"members b,a", "b,a\n"),
    (b"members a,b,a", "a,b\n"),
    (b"members\t b \t,\ta ", "b,a\n"),
    (b"members ,,b,, ,a,", "b,a\n"),
    (b"members c d,b,c d,c d,a,b", "c d,b,a\n"),
    (b"members ,", "\n"),
    (b"members", "\n"),
    (b"member a", "\n"),
];

const SERVICE_MEMBERS: Around<'static> = (
    b"define host {\nhost_name a\n}\ndefine host {\nhost_name b\n}\ndefine host {\nhost_name s\n}
define service {\nhost_name a\nservice_description s\n}
define service {\nhost_name a\nservice_description t\n}
define service {\nhost_name b\nservice_description s\n}
define service {\nhost_name s\nservice_description a\n}
define servicegroup {\nservicegroup_name g\n",
    b"\n}\n",
    "GET servicegroups\nColumns: members",
);

const PAIRS: &[(&[u8], &str)] = &[
    (b"members a,s", "a|s\n"),
    (b"members a,s,a,t", "a|s,a|t\n"),
    (b"members s,a,a,s", "s|a,a|s\n"),
    (b"members a,t,s,a,a,t,a,s", "a|t,s|a,a|s\n"),
    (b"members b,s,a,s,b,s,b,s", "b|s,a|s\n"),
    (b"members , b ,,\ts,\ta, t,", "b|s,a|t\n"),
    (b"members", "\n"),
];

const NUMBERS_OF_A_HOST: Around<'static> = (
    b"define host {\nhost_name a\n",
    b"}\n",
    "GET hosts\nColumns: max_check_attempts notifications_enabled",
);

const NUMBERS_OF_A_SERVICE: Around<'static> = (
    b"define host {\nhost_name a\n}\ndefine service {\nhost_name a\nservice_description b\n",
    b"}\n",
    "GET services\nColumns: max_check_attempts notifications_enabled",
);

const NUMBERS: &[(&[u8], &str)] = &[
    (b"max_check_attempts 1\n", "1;1\n"),
    (b"max_check_attempts 1000000\n", "1000000;1\n"),
    (b"max_check_attempts\t 3 \t\n", "3;1\n"),
    (b"notifications_enabled 0\n", "1;0\n"),
    (b"notifications_enabled 1\n", "1;1\n"),
    (
        b"max_check_attempts 4\nmax_check_attempts 2\nnotifications_enabled 0\n",
        "2;0\n",
    ),
];

#[test]
fn lists_and_numbers_are_read(rt: HostRuntime) -> Result<(), Fail> {
    assert_lines(&rt, MEMBERS, LISTS)?;
    assert_lines(&rt, SERVICE_MEMBERS, PAIRS)?;
    assert_lines(&rt, NUMBERS_OF_A_HOST, NUMBERS)?;
    assert_lines(&rt, NUMBERS_OF_A_SERVICE, NUMBERS)
}

// ---- texts

/// Files that say the same.
const WRITTEN: &[&[u8]] = &[
    b"define host {\nhost_name a\nalias A b\n}\n",
    b"define host{\nhost_name a\nalias A b\n}\n",
    b"define\t \thost\t {\nhost_name a\nalias A b\n}\n",
    b" \tdefine host { \t\n \thost_name\t \ta\t\n\talias \tA b \n \t} \n",
    b"define host {\r\nhost_name a\r\nalias A b\r\n}\r\n",
    b"define host {\r\n\r\nhost_name a \r\nalias A b\t\r\n } \r\n",
    b"define host {\nhost_name a\nalias A b\n}",
    b"\n\ndefine host {\n\n\nhost_name a\n \t\nalias A b\n\n}\n\n",
    b"# x\ndefine host {\n#alias C\nhost_name a\n \t# alias D\n#}\nalias A b\n# alias E\n}\n#",
    b"#define host {\ndefine host {\nalias A b\nhost_name a\n#define host {\n}\n",
    b"define host {\nhost_name a\nalias A b\n}\n#\r",
];

const ALIAS: Around<'static> = (
    b"define host {\nhost_name a\n",
    b"\n}\n",
    "GET hosts\nColumns: alias",
);

const VALUES: &[(&[u8], &str)] = &[
    (b"alias a  b\tc", "a  b\tc\n"),
    (b"alias a # b", "a # b\n"),
    (b"alias # b", "# b\n"),
    (b"alias a;b", "a;b\n"),
    (b"alias a,,b,", "a,,b,\n"),
    (b"alias {", "{\n"),
    (b"alias \"a\\\"", "\"a\\\"\n"),
    (b"alias a\rb\r\r", "a\rb\r\n"),
    (b"alias a\0\x0bb\x0c", "a\0\u{b}b\u{c}\n"),
];

/// Bytes, and what a value of them becomes.
const REPLACED: &[(&[u8], &str)] = &[
    (
        b"\xc2\xbb17\xc2\xab \xe2\x82\xac \xf0\x9d\x84\x9e",
        "»17« € 𝄞",
    ),
    (b"a\xc0\xafb", "a\u{FFFD}\u{FFFD}b"),
    (b"\xed\xa0\x80", "\u{FFFD}\u{FFFD}\u{FFFD}"),
    (b"\xe2\x82", "\u{FFFD}\u{FFFD}"),
    (b"\xe2\x82 b", "\u{FFFD}\u{FFFD} b"),
    (b"\xff", "\u{FFFD}"),
    (b"a\xffb\xfe", "a\u{FFFD}b\u{FFFD}"),
    (b"\xf4\x90\x80\x80", "\u{FFFD}\u{FFFD}\u{FFFD}\u{FFFD}"),
    (b"\xc3\xc3\xa4", "\u{FFFD}ä"),
];

const REPLACED_TEXTS: &str = "GET hosts\nColumns: name alias custom_variable_values groups";

/// Reads a host that has bytes in its name, its alias and a custom variable, and a group with it.
fn assert_replaced<R: Abort + AllocGlobal>(rt: &R, value: &[u8], text: &str) -> Result<(), Fail> {
    let host = b"define host {\nhost_name a".as_slice();
    let group = b"\n}\ndefine hostgroup {\nhostgroup_name g\nmembers a".as_slice();
    let parts: &[&[u8]] = &[
        host,
        value,
        b"\nalias ",
        value,
        b"\n_V ",
        value,
        group,
        value,
        b"\n}\n",
    ];
    let objects = parts.concat(rt.alloc())?;
    let expected = format!(in rt.alloc(); "a{text};{text};{text};g\n")?;
    assert_asked(rt, &objects, REPLACED_TEXTS, expected.as_str())
}

#[test]
fn lines_and_texts_may_be_written_in_other_ways(rt: HostRuntime) -> Result<(), Fail> {
    for objects in WRITTEN {
        assert_asked(&rt, *objects, "GET hosts\nColumns: name alias", "a;A b\n")?;
    }
    assert_lines(&rt, ALIAS, VALUES)?;
    for (value, text) in REPLACED {
        assert_replaced(&rt, *value, *text)?;
    }
    Ok(())
}
