//! The rows and the cells of a state, and what queries are answered.

ghost use Rattle.std.specs.Prelude.{◌≡◌, ◌<◌};

use crate::scarce::{Call, assert_late};
use crate::site::{COUNT, is_answer, is_answered, large, live_of, request_of};
use lq_auth::View;
use lq_columns::{host_value, names_of, service_value};
use lq_live::Live;
use lq_records::{HostGroupId, HostId, ServiceId, Text};
use lq_request::Request;
use lq_schema::{Col, Names, Table, Val, column};
use lq_steps::Steps;
use lq_tables::{Row, RowsErr, Window, cell, rows};
use std::alloc::{AllocError, Global};
use std::marker::Brand;
use std::process::Abort;
use std::sync::ledger::{Blank, Ledger};
use std::test::Fail;

/// What is asked of a large site.
#[derive(Clone, Copy)]
enum Asked {
    /// The rows of a table, and how many there are.
    Rows(Table, usize),
    /// The cell of the group with the names of all hosts.
    Members(Col),
    /// The value of the first host with the names of all services.
    Services(Col),
    /// The value of the last service with the names of all contacts.
    Contacts(Col),
    /// The names of the members of the group.
    Names,
    /// What the last contact sees, the last service among it.
    View,
}

/// A large site, and what is asked of it.
#[derive(Clone, Copy)]
struct Query<'a> {
    live: &'a Live,
    asked: Asked,
}

impl Call for Query<'_> {
    fn make(&mut self, alloc: Global) -> Result<bool, AllocError> {
        let live = self.live;
        match self.asked {
            Asked::Rows(table, count) => {
                Ok(row_count::<Brand>(alloc, live, table, Blank::new(1))? == count)
            },
            Asked::Members(column) => has_members(alloc, live, column),
            Asked::Services(column) => {
                Ok(are_names_in(
                    host_value(alloc, live, column, HostId(0), &View::All)?,
                    "s999",
                ))
            },
            Asked::Contacts(column) => {
                Ok(are_names_in(
                    service_value(alloc, live, column, ServiceId(1_000), &View::All)?,
                    "c999",
                ))
            },
            Asked::Names => has_names(alloc, live),
            Asked::View => {
                let view = View::of(alloc, live.base(), Some("c999"))?;
                Ok(view.sees_service(ServiceId(1_000)) && !view.sees_service(ServiceId(999)))
            },
        }
    }
}

/// How many rows a table has, with the histories of one second.
fn row_count<G: Ledger>(
    alloc: Global,
    live: &Live,
    table: Table,
    blank: Blank,
) -> Result<usize, AllocError>
    requires name { blank.name ≡ G.name }
    requires parts { blank.parts ≡ G.parts }
    requires some { 0 < blank.parts }
{
    let window = Window {
        from: 0,
        until: 1,
        names: Names::default(),
    };
    let mut steps = Steps::<G>::new(blank);
    match rows(alloc, live, table, &window, &View::All, &mut steps) {
        Ok(rows) => Ok(rows.len()),
        Err(RowsErr::TooMany) => Ok(0),
        Err(RowsErr::Memory) => Err(AllocError),
    }
}

/// Whether there are as many texts as hosts or contacts, and the last is that.
fn are_names(names: &[Text], last: &str) -> bool {
    names.len() == COUNT && names[999].as_str() == last
}

fn are_names_in(value: Val<'_>, last: &str) -> bool {
    match &value {
        Val::List(names) => are_names(names.as_slice(), last),
        _ => false,
    }
}

/// Whether the cell of the group has the names of all hosts.
fn has_members(alloc: Global, live: &Live, column: Col) -> Result<bool, AllocError> {
    let row = Row::HostGroup(HostGroupId(0));
    let members = cell(alloc, live, Table::HostGroups, column, &row, &View::All)?;
    Ok(are_names_in(members, "h999"))
}

/// Whether the members of the group have the names of all hosts.
fn has_names(alloc: Global, live: &Live) -> Result<bool, AllocError> {
    let base = live.base();
    let Some(group) = base.host_groups.as_slice().first() else {
        return Ok(false);
    };
    let names = names_of(alloc, base, group.members.as_slice())?;
    Ok(are_names(names.as_slice(), "h999"))
}

/// Tables of a large site, and how many rows they have.
const TABLES: &[(&str, Table, usize)] = &[
    ("rows of hosts", Table::Hosts, COUNT),
    ("rows of hosts by group", Table::HostsByGroup, COUNT),
    (
        "rows of services by host group",
        Table::ServicesByHostGroup,
        COUNT + 1,
    ),
    ("rows of histories", Table::StateHist, COUNT + COUNT + 1),
];

fn assert_rows<R: Abort + AllocGlobal>(rt: &R, live: &Live) -> Result<(), Fail> {
    for (name, table, count) in TABLES {
        let asked = Asked::Rows(*table, *count);
        assert_late(rt, *name, 2, &mut Query { live, asked })?;
    }
    Ok(())
}

#[test]
fn rows_want_memory_for_the_last_ones(rt: HostRuntime) -> Result<(), Fail> {
    let objects = large(rt.alloc())?;
    let live = live_of(rt.alloc(), objects.as_bytes())?;
    assert_rows(&rt, &live)
}

fn column_of(table: Table, name: &str) -> Result<Col, Fail> {
    Ok(column(table, name).ok_or("no column")?)
}

fn assert_cells<R: Abort + AllocGlobal>(rt: &R, live: &Live) -> Result<(), Fail> {
    let members = column_of(Table::HostGroups, "members")?;
    let services = column_of(Table::Hosts, "services")?;
    let contacts = column_of(Table::Services, "contacts")?;
    for (name, asked) in [
        ("cell", Asked::Members(members)),
        ("host_value", Asked::Services(services)),
        ("service_value", Asked::Contacts(contacts)),
        ("names_of", Asked::Names),
        ("View::of", Asked::View),
    ] {
        assert_late(rt, name, 1, &mut Query { live, asked })?;
    }
    Ok(())
}

#[test]
fn cells_want_memory_for_their_last_items(rt: HostRuntime) -> Result<(), Fail> {
    let objects = large(rt.alloc())?;
    let live = live_of(rt.alloc(), objects.as_bytes())?;
    assert_cells(&rt, &live)
}

/// What a reply on hosts has before the first number of a host, between two, and after the last.
#[derive(Clone, Copy)]
struct Around<'a> {
    front: &'a str,
    between: &'a str,
    back: &'a str,
}

/// The numbers of all hosts, or of those alone that don't end with 0.
fn lines_of_hosts(alloc: Global, around: Around<'_>, all: bool) -> Result<String, AllocError> {
    let mut lines = String::from_str(alloc, around.front)?;
    let mut begun = false;
    for number in 0..COUNT {
        if all || number % 10 != 0 {
            if begun {
                lines.push_str(around.between)?;
            }
            lines.push_str(number.to_string(alloc)?.as_str())?;
            begun = true;
        }
    }
    lines.push_str(around.back)?;
    Ok(lines)
}

/// A query of one row, in which 16 patterns are found.
fn query_of_patterns(alloc: Global) -> Result<String, AllocError> {
    let filters = "\nFilter: program_version ~ ^(l|r)qd [0-9]$".repeat(alloc, 16)?;
    format!(in alloc; "GET status\nColumns: num_hosts{}", filters.as_str())
}

/// A request is answered by a text.
#[derive(Clone, Copy)]
struct Answered<'a> {
    live: &'a Live,
    request: &'a Request,
    text: &'a str,
}

impl Call for Answered<'_> {
    fn make(&mut self, alloc: Global) -> Result<bool, AllocError> {
        is_answer(alloc, self.live, self.request, self.text)
    }
}

/// A name, in how many pieces of room at least the answer to a query fails, the query, and its
/// answer.
type Late<'a> = (&'a str, usize, &'a str, &'a str);

fn assert_answer<R: Abort + AllocGlobal>(
    rt: &R,
    live: &Live,
    (name, pieces, query, text): Late<'_>,
) -> Result<(), Fail> {
    let request = request_of(rt.alloc(), live, query.as_bytes())?.ok_or("the query is refused")?;
    let mut call = Answered {
        live,
        request: &request,
        text,
    };
    assert_late(rt, name, pieces, &mut call)
}

const ALL: &str = "GET hosts\nColumns: name state last_check plugin_output comments";

const CHOSEN: &str = "GET hosts\nColumns: name state last_check plugin_output comments
Filter: name !~ 0$\nFilter: comments =";

/// The hosts were never checked.
const IN_CSV: Around<'static> = Around {
    front: "h",
    between: ";0;0;;\nh",
    back: ";0;0;;\n",
};

/// Queries on all hosts, what each is, in how many pieces of room at least its answer fails, and
/// what its reply has around the numbers of the hosts.
const FORMS: &[(&str, usize, &str, Around<'static>)] = &[
    ("answer", 6, ALL, IN_CSV),
    (
        "answer in CSV",
        6,
        "GET hosts\nColumns: name state last_check plugin_output comments\nOutputFormat: CSV",
        Around {
            front: "h",
            between: ",0,0,,\r\nh",
            back: ",0,0,,\r\n",
        },
    ),
    (
        "answer in json",
        8,
        "GET hosts\nColumns: name state last_check plugin_output comments\nOutputFormat: json",
        Around {
            front: "[[\"h",
            between: "\",0,0,\"\",[]],\n[\"h",
            back: "\",0,0,\"\",[]]]\n",
        },
    ),
];

fn assert_forms<R: Abort + AllocGlobal>(rt: &R, live: &Live) -> Result<(), Fail> {
    for (name, pieces, query, around) in FORMS {
        let lines = lines_of_hosts(rt.alloc(), *around, true)?;
        assert_answer(rt, live, (*name, *pieces, *query, lines.as_str()))?;
    }
    Ok(())
}

fn assert_answers<R: Abort + AllocGlobal>(rt: &R, live: &Live) -> Result<(), Fail> {
    assert_forms(rt, live)?;
    let chosen = lines_of_hosts(rt.alloc(), IN_CSV, false)?;
    let patterns = query_of_patterns(rt.alloc())?;
    for case in [
        ("answer with a filter", 8, CHOSEN, chosen.as_str()),
        ("answer with many patterns", 20, patterns.as_str(), "1000\n"),
    ] {
        assert_answer(rt, live, case)?;
    }
    Ok(())
}

#[test]
fn an_answer_wants_memory_for_its_last_lines(rt: HostRuntime) -> Result<(), Fail> {
    let objects = large(rt.alloc())?;
    let live = live_of(rt.alloc(), objects.as_bytes())?;
    assert_answers(&rt, &live)
}

/// A query is read and answered by a text.
#[derive(Clone, Copy)]
struct Read<'a> {
    live: &'a Live,
    query: &'a [u8],
    text: &'a str,
}

impl Call for Read<'_> {
    fn make(&mut self, alloc: Global) -> Result<bool, AllocError> {
        is_answered(alloc, self.live, self.query, self.text)
    }
}

/// Each host is a group of its own, whose one row is counted and has the state 0.
const IN_GROUPS: Around<'static> = Around {
    front: "h",
    between: ";1;0.000000\nh",
    back: ";1;0.000000\n",
};

fn assert_groups<R: Abort + AllocGlobal>(rt: &R, live: &Live) -> Result<(), Fail> {
    let lines = lines_of_hosts(rt.alloc(), IN_GROUPS, true)?;
    let mut call = Read {
        live,
        query: b"GET hosts\nColumns: name\nStats: state = 0\nStats: avg state",
        text: lines.as_str(),
    };
    assert_late(rt, "groups", 16, &mut call)
}

#[test]
fn groups_want_memory_for_their_last_keys(rt: HostRuntime) -> Result<(), Fail> {
    let objects = large(rt.alloc())?;
    let live = live_of(rt.alloc(), objects.as_bytes())?;
    assert_groups(&rt, &live)
}
