//! Replies as consoles read them: the formats of bodies, separators, and the line of 16 bytes.

use crate::fixture::{Asked, SITE, Site, assert_asked, assert_same, push_all};
use std::alloc::{AllocError, Global};
use std::ops::Range;
use std::process::Abort;
use std::test::Fail;

/// web2 is down. web1 has a comment of a quote, a character of two bytes, a tab and `!`; http has
/// one of a comma and a backslash.
const STATE: &str = "[100] PROCESS_HOST_CHECK_RESULT;web2;1;down
[100] ADD_HOST_COMMENT;web1;1;anna;say \"é\"\t!
[100] ADD_SVC_COMMENT;web1;http;1;anna;a,b\\c";

const HOSTS: &str = "GET hosts\nColumns: name state contacts\n";

/// The contacts of web1 are bert, anna and carl; web2 has none.
const OF_HOSTS: &[(&str, &str)] = &[
    ("OutputFormat: csv", "web1;0;bert,anna,carl\nweb2;1;\n"),
    (
        "OutputFormat: CSV",
        "web1,0,\"bert,anna,carl\"\r\nweb2,1,\r\n",
    ),
    (
        "OutputFormat: json",
        "[[\"web1\",0,[\"bert\",\"anna\",\"carl\"]],\n[\"web2\",1,[]]]\n",
    ),
    (
        "OutputFormat: json\nOutputFormat:  csv ",
        "web1;0;bert,anna,carl\nweb2;1;\n",
    ),
    (
        "ColumnHeaders: on\nOutputFormat: csv\nLimit: 1",
        "name;state;contacts\nweb1;0;bert,anna,carl\n",
    ),
    (
        "ColumnHeaders: on\nOutputFormat: CSV\nLimit: 1",
        "name,state,contacts\r\nweb1,0,\"bert,anna,carl\"\r\n",
    ),
    (
        "ColumnHeaders: on\nOutputFormat: json\nLimit: 1",
        "[[\"name\",\"state\",\"contacts\"],\n[\"web1\",0,[\"bert\",\"anna\",\"carl\"]]]\n",
    ),
    (
        "ColumnHeaders: on\nOutputFormat: json\nLimit: 0",
        "[[\"name\",\"state\",\"contacts\"]]\n",
    ),
    ("OutputFormat: json\nLimit: 0", "[]\n"),
    ("OutputFormat: CSV\nLimit: 0", ""),
    ("Limit: 0", ""),
    // Blanks around the four numbers, and separators that are equal or 0.
    ("Separators: 33 61 44 124", "web1=0=bert,anna,carl!web2=1=!"),
    (
        "Separators:\t33  61\t43 124 ",
        "web1=0=bert+anna+carl!web2=1=!",
    ),
    ("Separators: 33 33 33 33", "web1!0!bert!anna!carl!web2!1!!"),
    (
        "Separators: 10 10 10 10",
        "web1\n0\nbert\nanna\ncarl\nweb2\n1\n\n",
    ),
    (
        "Separators: 0 0 0 0",
        "web1\u{0}0\u{0}bert\u{0}anna\u{0}carl\u{0}web2\u{0}1\u{0}\u{0}",
    ),
    (
        "Separators: 0 0 0 0\nSeparators: 10 59 44 124",
        "web1;0;bert,anna,carl\nweb2;1;\n",
    ),
    // They are those of csv alone.
    (
        "Separators: 33 61 43 124\nOutputFormat: CSV",
        "web1,0,\"bert,anna,carl\"\r\nweb2,1,\r\n",
    ),
    (
        "Separators: 33 61 43 124\nOutputFormat: json\nLimit: 1",
        "[[\"web1\",0,[\"bert\",\"anna\",\"carl\"]]]\n",
    ),
    // The line of 16 bytes: three digits, a blank, the length in 11 places, a line feed.
    (
        "ResponseHeader: fixed16",
        "200          30\nweb1;0;bert,anna,carl\nweb2;1;\n",
    ),
    (
        "ResponseHeader: fixed16\nResponseHeader: off",
        "web1;0;bert,anna,carl\nweb2;1;\n",
    ),
    (
        "ResponseHeader: off\nResponseHeader:  fixed16\t\nLimit: 0",
        "200           0\n",
    ),
    (
        "ResponseHeader: fixed16\nOutputFormat: json\nLimit: 0",
        "200           3\n[]\n",
    ),
    (
        "Localtime: 1700000000\nTimelimit: 10\nLimit: 1",
        "web1;0;bert,anna,carl\n",
    ),
];

const COMMENTS: &str = "GET comments\nColumns: id comment\nOutputFormat: ";

const OF_COMMENTS: &[(&str, &str)] = &[
    ("json", "[[1,\"say \\\"é\\\"\\t!\"],\n[2,\"a,b\\\\c\"]]\n"),
    ("CSV", "1,\"say \"\"é\"\"\t!\"\r\n2,\"a,b\\c\"\r\n"),
    ("csv", "1;say \"é\"\t!\n2;a,b\\c\n"),
];

const GROUPS: &str = "GET servicegroups\nColumns: name members\nLimit: 1\n";

const OF_GROUPS: &[(&str, &str)] = &[
    ("OutputFormat: csv", "sg;web2|ping,web1|http\n"),
    ("OutputFormat: CSV", "sg,\"web2|ping,web1|http\"\r\n"),
    (
        "OutputFormat: json",
        "[[\"sg\",[[\"web2\",\"ping\"],[\"web1\",\"http\"]]]]\n",
    ),
    ("Separators: 33 61 43 45", "sg=web2-ping+web1-http!"),
];

const HOST_GROUPS: &str = "GET hostgroups\nColumns: name members\nFilter: name = web\n";

const OF_HOST_GROUPS: &[(&str, &str)] = &[("OutputFormat: CSV", "web,\"web2,web1\"\r\n")];

/// The ids of the comments of a host are a list of numbers.
const IDS: &str = "GET hosts\nColumns: comments\nFilter: name = web1\n";

const OF_IDS: &[(&str, &str)] = &[
    ("OutputFormat: json", "[[[1]]]\n"),
    ("OutputFormat: CSV", "1\r\n"),
    ("OutputFormat: csv", "1\n"),
];

#[test]
fn replies_have_the_format_that_a_query_asks_for(rt: HostRuntime) -> Result<(), Fail> {
    let queries: [Asked<'_>; 5] = [
        (HOSTS, OF_HOSTS),
        (COMMENTS, OF_COMMENTS),
        (GROUPS, OF_GROUPS),
        (HOST_GROUPS, OF_HOST_GROUPS),
        (IDS, OF_IDS),
    ];
    assert_asked(&rt, SITE, STATE, &queries)
}

// ---- texts

/// Hosts whose aliases hold what the formats write in ways of their own: a control character, a
/// quote and a backslash, U+2028, a byte that isn't UTF-8, a character of four bytes, a CR before
/// other text, and nothing of all that.
const SPECIAL: &[u8] = b"define host {
 host_name a
 alias x\x01y
 }
define host {
 host_name b
 alias \"q\\
 }
define host {
 host_name c
 alias \xe2\x80\xa8
 }
define host {
 host_name d
 alias u\xffv
 }
define host {
 host_name e
 alias \xf0\x9f\x98\x80
 }
define host {
 host_name f
 alias m\rn
 }
define host {
 host_name g
 alias p;q
 }
";

const ALIASES: &str = "GET hosts\nColumns: alias\nOutputFormat: ";

const OF_ALIASES: &[(&str, &str)] = &[
    (
        "json",
        "[[\"x\\u0001y\"],\n[\"\\\"q\\\\\"],\n[\"\u{2028}\"],\n[\"u\u{fffd}v\"],
[\"\u{1f600}\"],\n[\"m\\rn\"],\n[\"p;q\"]]\n",
    ),
    (
        "CSV",
        "x\u{1}y\r\n\"\"\"q\\\"\r\n\u{2028}\r\nu\u{fffd}v\r\n\u{1f600}\r\n\"m\rn\"\r\np;q\r\n",
    ),
    (
        "csv",
        "x\u{1}y\n\"q\\\n\u{2028}\nu\u{fffd}v\n\u{1f600}\nm\rn\np;q\n",
    ),
];

#[test]
fn texts_are_written_as_each_format_wants(rt: HostRuntime) -> Result<(), Fail> {
    assert_asked(&rt, SPECIAL, "", &[(ALIASES, OF_ALIASES)])
}

// ---- one column

/// How many hosts a large site has.
const MANY: usize = 900;

/// A host's name. That of one has 5,000 bytes more than others.
fn name_of(alloc: Global, number: usize) -> Result<String, AllocError> {
    let mut name = format!(in alloc; "h{number}")?;
    if number == 600 {
        for _ in 0..5_000 {
            name.push('x')?;
        }
    }
    Ok(name)
}

/// An object file of many hosts.
fn many_hosts(alloc: Global) -> Result<String, AllocError> {
    let mut objects = String::new(alloc);
    for number in 0..MANY {
        let name = name_of(alloc, number)?;
        push_all(
            &mut objects,
            &["define host {\nhost_name ", name.as_str(), "\n}\n"],
        )?;
    }
    Ok(objects)
}

/// The first names, each with an end.
fn names_with(alloc: Global, end: &str, most: usize) -> Result<String, AllocError> {
    let mut names = String::new(alloc);
    for number in 0..most {
        let name = name_of(alloc, number)?;
        push_all(&mut names, &[name.as_str(), end])?;
    }
    Ok(names)
}

/// A query of names, the end of each name in its reply, and how many there are.
const OF_NAMES: &[(&str, &str, usize)] = &[
    ("GET hosts\nColumns: name", "\n", MANY),
    ("GET hosts\nColumns: name\nLimit: 700", "\n", 700),
    ("GET hosts\nColumns: name\nLimit: 15", "\n", 15),
    (
        "GET hosts\nColumns: name\nSeparators: 33 59 44 124",
        "!",
        MANY,
    ),
    ("GET hosts\nColumns: name\nOutputFormat: CSV", "\r\n", MANY),
];

#[test]
fn names_of_many_hosts_are_a_line_each(rt: HostRuntime) -> Result<(), Fail> {
    let objects = many_hosts(rt.alloc())?;
    let site = Site::open(rt.alloc(), objects.as_bytes(), objects.as_bytes())?;
    for (query, end, count) in OF_NAMES {
        let expected = names_with(rt.alloc(), *end, *count)?;
        let reply = site.ask(rt.alloc(), *query)?;
        assert_same(&rt, reply.as_str(), expected.as_str(), query);
    }
    Ok(())
}

// ---- the largest body of one column

/// The numbers with which the names begin that fill the largest body. With the byte that ends its
/// line each but the last name takes 1,000 bytes of the 8,388,608.
const FILLING: Range<u32> = 1_000..9_388;

/// Adds a name, of its number and what follows that, between two texts.
fn push_name(
    names: &mut String,
    (front, end): (&str, &str),
    number: &str,
    rest: &str,
) -> Result<(), AllocError> {
    names.push_str(front)?;
    names.push_str(number)?;
    names.push_str(rest)?;
    names.push_str(end)
}

/// The names, of which the last has a number of bytes, each between two texts.
fn long_names(alloc: Global, last: usize, around: (&str, &str)) -> Result<String, AllocError> {
    let mut names = String::new(alloc);
    let rest = "x".repeat(alloc, 995)?;
    for number in FILLING {
        let digits = number.to_string(alloc)?;
        push_name(&mut names, around, digits.as_str(), rest.as_str())?;
    }
    let rest = "x".repeat(alloc, last.saturating_sub(4))?;
    push_name(&mut names, around, "9388", rest.as_str())?;
    Ok(names)
}

/// Compares what a query of the names is answered where the last one has a number of bytes.
fn assert_filled<R: Abort + AllocGlobal>(rt: &R, last: usize, expected: &str) -> Result<(), Fail> {
    let objects = long_names(rt.alloc(), last, ("define host {\nhost_name ", "\n}\n"))?;
    let site = Site::open(rt.alloc(), b"", objects.as_bytes())?;
    let reply = site.ask(rt.alloc(), "GET hosts\nColumns: name")?;
    assert!(rt;
        reply.as_str() == expected,
        "where the last name has {last} bytes"
    );
    Ok(())
}

#[test]
fn names_have_8_388_608_bytes_at_most(rt: HostRuntime) -> Result<(), Fail> {
    let most = long_names(rt.alloc(), 607, ("", "\n"))?;
    assert!(rt; most.len() == 8_388_608);
    assert_filled(&rt, 607, most.as_str())?;
    assert_filled(&rt, 608, "too large")
}
