//! The tables and their columns, against lists written by hand.

use crate::fixture::{assert_replies, assert_same, push_all};
use lq_schema::{
    Col, ColKind, Table, column, column_at, column_count, column_name, kind, table, tables,
};
use std::alloc::{AllocError, Global};
use std::process::Abort;
use std::test::Fail;

// ---- the tables and their columns, with the letter of their kind: a number, a text, a list of
// ---- texts, of numbers or of services

const OBJECT: &str = "display_name S,check_command S,check_period S,notification_period S,\
max_check_attempts I,notes S,notes_url S,action_url S,icon_image S,contacts L,contact_groups L,\
groups L,custom_variable_names L,custom_variable_values L";

const STATUS: &str = "state I,state_type I,hard_state I,last_hard_state I,has_been_checked I,\
current_attempt I,last_check I,last_state_change I,last_hard_state_change I,plugin_output S,\
perf_data S,acknowledged I,acknowledgement_type I,scheduled_downtime_depth I,is_flapping I,\
notifications_enabled I,in_notification_period I,comments N,downtimes N";

const COUNTERS: &str = "num_services I,num_services_ok I,num_services_warn I,num_services_crit I,\
num_services_unknown I,num_services_pending I,worst_service_state I";

const GROUP: &str = "name S,alias S,notes S,notes_url S,action_url S";

const HOST: &[&str] = &[
    "name S,alias S,address S",
    OBJECT,
    "parents L,childs L,services L",
    STATUS,
    COUNTERS,
];

const SERVICE: &[&str] = &["description S", OBJECT, STATUS];

const HOST_GROUP: &[&str] = &[
    GROUP,
    "members L,num_hosts I,num_hosts_up I,num_hosts_down I,num_hosts_unreach I",
    "num_hosts_pending I,worst_host_state I",
    COUNTERS,
];

const SERVICE_GROUP: &[&str] = &[GROUP, "members P", COUNTERS];

const CONTACT: &[&str] = &[
    "name S,alias S,email S,pager S",
    "host_notification_period S,service_notification_period S",
];

const SLICE: &[&str] = &[
    "time I,from I,until I,duration I,duration_part I,duration_ok I,duration_warning I",
    "duration_critical I,duration_unknown I,duration_unmonitored I,state I,host_down I",
    "in_downtime I,in_host_downtime I,is_flapping I,in_notification_period I",
    "notification_period S,host_name S,service_description S,log_output S",
];

const DOWNTIME: &[&str] = &[
    "id I,author S,comment S,entry_time I,start_time I,end_time I",
    "fixed I,duration I,triggered_by I,is_service I",
];

const COMMENT: &[&str] = &[
    "id I,author S,comment S,entry_time I,entry_type I,persistent I,is_service I",
];

const LINE: &[&str] = &[
    "time I,class I,type S,message S,options S,comment S,plugin_output S,state I,state_type S",
    "attempt I,contact_name S,command_name S,host_name S,service_description S",
];

const PROGRAM: &[&str] = &[
    "program_version S,enable_notifications I,num_hosts I",
    "num_services I,present_second I",
];

/// What columns of a table stand together.
#[derive(Clone, Copy)]
enum Part {
    Host,
    Service,
    HostGroup,
    ServiceGroup,
    Contact,
    ContactGroup,
    Command,
    TimePeriod,
    Downtime,
    Comment,
    Line,
    Program,
    Column,
    Slice,
}

impl Part {
    fn blocks(self) -> &'static [&'static str] {
        match self {
            Part::Host => HOST,
            Part::Service => SERVICE,
            Part::HostGroup => HOST_GROUP,
            Part::ServiceGroup => SERVICE_GROUP,
            Part::Contact => CONTACT,
            Part::ContactGroup => &["name S,alias S,members L"],
            Part::Command => &["name S,line S"],
            Part::TimePeriod => &["name S,alias S,in I"],
            Part::Downtime => DOWNTIME,
            Part::Comment => COMMENT,
            Part::Line => LINE,
            Part::Program => PROGRAM,
            Part::Column => &["table S,name S,type S,description S"],
            Part::Slice => SLICE,
        }
    }
}

/// A prefix, and the columns after it.
type Joined = (&'static str, Part);

/// A table's name, its own prefix, and its columns.
type Listed = (&'static str, &'static str, &'static [Joined]);

const LISTED: &[Listed] = &[
    ("hosts", "host_", &[("", Part::Host)]),
    (
        "services",
        "service_",
        &[("", Part::Service), ("host_", Part::Host)],
    ),
    ("hostgroups", "hostgroup_", &[("", Part::HostGroup)]),
    (
        "servicegroups",
        "servicegroup_",
        &[("", Part::ServiceGroup)],
    ),
    ("contacts", "contact_", &[("", Part::Contact)]),
    (
        "contactgroups",
        "contactgroup_",
        &[("", Part::ContactGroup)],
    ),
    ("commands", "command_", &[("", Part::Command)]),
    ("timeperiods", "timeperiod_", &[("", Part::TimePeriod)]),
    (
        "downtimes",
        "downtime_",
        &[
            ("", Part::Downtime),
            ("host_", Part::Host),
            ("service_", Part::Service),
        ],
    ),
    (
        "comments",
        "comment_",
        &[
            ("", Part::Comment),
            ("host_", Part::Host),
            ("service_", Part::Service),
        ],
    ),
    (
        "log",
        "log_",
        &[
            ("", Part::Line),
            ("current_host_", Part::Host),
            ("current_service_", Part::Service),
        ],
    ),
    ("status", "status_", &[("", Part::Program)]),
    ("columns", "column_", &[("", Part::Column)]),
    (
        "hostsbygroup",
        "host_",
        &[("", Part::Host), ("hostgroup_", Part::HostGroup)],
    ),
    (
        "servicesbygroup",
        "service_",
        &[
            ("", Part::Service),
            ("host_", Part::Host),
            ("servicegroup_", Part::ServiceGroup),
        ],
    ),
    (
        "servicesbyhostgroup",
        "service_",
        &[
            ("", Part::Service),
            ("host_", Part::Host),
            ("hostgroup_", Part::HostGroup),
        ],
    ),
    (
        "statehist",
        "statehist_",
        &[
            ("", Part::Slice),
            ("current_host_", Part::Host),
            ("current_service_", Part::Service),
        ],
    ),
];

fn letter(kind: ColKind) -> &'static str {
    match kind {
        ColKind::Int => "I",
        ColKind::Str => "S",
        ColKind::List => "L",
        ColKind::Nums => "N",
        ColKind::Pairs => "P",
    }
}

/// Adds the line of a column: its prefix, its name and the letter of its kind.
fn push_column(lines: &mut String, column: Option<Col>) -> Result<(), AllocError> {
    match column {
        Some(column) => {
            let name = column_name(column);
            let letter = letter(kind(column));
            push_all(lines, &[name.prefix, "|", name.name, " ", letter, "\n"])
        }
        None => lines.push_str("none\n"),
    }
}

/// Adds the lines of the column that a name means, and of the one that it means after a prefix.
fn push_named(
    lines: &mut String,
    alloc: Global,
    table: Table,
    parts: &[&str; 3],
) -> Result<(), AllocError> {
    let mut name = String::new(alloc);
    push_all(&mut name, &parts[1..])?;
    push_column(lines, column(table, name.as_str()))?;
    let mut longer = String::new(alloc);
    push_all(&mut longer, parts)?;
    push_column(lines, column(table, longer.as_str()))
}

/// Three lines for each column of a table: as the column that stands there, as the one that its
/// name means, and as the one that its name means after the table's own prefix.
fn columns_of(alloc: Global, table: Table, own_prefix: &'static str) -> Result<String, AllocError> {
    let mut lines = String::new(alloc);
    for i in 0..column_count(table) {
        let column = column_at(table, i);
        push_column(&mut lines, Some(column))?;
        let name = column_name(column);
        push_named(
            &mut lines,
            alloc,
            table,
            &[own_prefix, name.prefix, name.name],
        )?;
    }
    Ok(lines)
}

/// What is expected of tables: the three lines for each column, and the line that a query tells of
/// it.
#[derive(Drop)]
struct Expected {
    lines: String,
    told: String,
}

impl Expected {
    fn push_entry(&mut self, table: &str, prefix: &str, entry: &str) -> Result<(), Fail> {
        for _ in 0..3 {
            push_all(&mut self.lines, &[prefix, "|", entry, "\n"])?;
        }
        let (name, letter) = entry.split_once(' ').ok_or("no kind")?;
        let type_name = match letter {
            "I" => ";int;",
            "S" => ";string;",
            _ => ";list;",
        };
        let line = [table, ";", prefix, name, type_name, prefix, name, "\n"];
        Ok(push_all(&mut self.told, &line)?)
    }

    fn push_block(&mut self, table: &str, prefix: &str, block: &str) -> Result<(), Fail> {
        for entry in block.split(',') {
            self.push_entry(table, prefix, entry)?;
        }
        Ok(())
    }

    fn push_joined(&mut self, table: &str, (prefix, part): Joined) -> Result<(), Fail> {
        for block in part.blocks() {
            self.push_block(table, prefix, *block)?;
        }
        Ok(())
    }

    /// Compares the columns of a table.
    fn assert_table<R: Abort + AllocGlobal>(
        &mut self,
        rt: &R,
        (name, own_prefix, parts): Listed,
    ) -> Result<(), Fail> {
        let table = table(name).ok_or(name)?;
        self.lines.clear();
        for joined in parts {
            self.push_joined(name, *joined)?;
        }
        let lines = columns_of(rt.alloc(), table, own_prefix)?;
        assert_same(rt, lines.as_str(), self.lines.as_str(), &name);
        Ok(())
    }
}

#[test]
fn each_table_has_its_columns_in_order(rt: HostRuntime) -> Result<(), Fail> {
    let mut expected = Expected {
        lines: String::new(rt.alloc()),
        told: String::from_str(rt.alloc(), "table;name;type;description\n")?,
    };
    for listed in LISTED {
        expected.assert_table(&rt, *listed)?;
    }
    assert!(rt; tables().len() == LISTED.len());
    assert_replies(&rt, b"", "", &[("GET columns", expected.told.as_str())])
}

/// A table, a name, and the prefix and the name of the column that it means there, or `none`.
const MEANT: &str = "hosts;host_name;|name
hosts;host_host_name;none
hosts;service_state;none
hosts;Name;none
hosts;name ;none
hosts;host_;none
hosts;;none
services;service_description;|description
services;host_name;host_|name
services;service_host_name;host_|name
services;name;none
hostgroups;hostgroup_members;|members
servicegroups;servicegroup_members;|members
contacts;contact_email;|email
contacts;host_notification_period;|host_notification_period
contactgroups;contactgroup_alias;|alias
commands;command_line;|line
timeperiods;timeperiod_alias;|alias
downtimes;downtime_id;|id
downtimes;service_description;service_|description
comments;comment_comment;|comment
comments;comment_host_name;host_|name
status;status_num_hosts;|num_hosts
columns;column_type;|type
hostsbygroup;host_alias;|alias
hostsbygroup;hostgroup_alias;hostgroup_|alias
servicesbygroup;servicegroup_name;servicegroup_|name
servicesbyhostgroup;host_state;host_|state
Hosts;name;no table
host;name;no table
hostss;name;no table
hosts ;name;no table
 hosts;name;no table
log;name;none
log;log_time;|time
log;host_name;|host_name
log;current_host_name;current_host_|name
log;log_current_service_state;current_service_|state
log;service_state;none
logs;time;no table
statehist;name;none
statehist;statehist_time;|time
statehist;host_name;|host_name
statehist;current_host_name;current_host_|name
statehist;current_service_host_name;none
Statehist;time;no table
;name;no table
";

/// Adds what a name means in a table.
fn push_meant(text: &mut String, table: Option<Table>, name: &str) -> Result<(), AllocError> {
    let Some(table) = table else {
        return text.push_str("no table\n");
    };
    match column(table, name) {
        Some(column) => {
            let name = column_name(column);
            push_all(text, &[name.prefix, "|", name.name, "\n"])
        }
        None => text.push_str("none\n"),
    }
}

/// Adds a line with what the name in it means.
fn push_line(text: &mut String, line: &str) -> Result<(), Fail> {
    let (front, _) = line.rsplit_once(';').ok_or("no meaning")?;
    let (table_name, name) = front.split_once(';').ok_or("no name")?;
    push_all(text, &[front, ";"])?;
    Ok(push_meant(text, table(table_name), name)?)
}

#[test]
fn names_mean_tables_and_columns(rt: HostRuntime) -> Result<(), Fail> {
    let mut text = String::new(rt.alloc());
    for line in MEANT.lines() {
        push_line(&mut text, line)?;
    }
    assert_same(&rt, text.as_str(), MEANT, &"names");
    Ok(())
}
