ghost use Rattle.std.specs.Prelude.{◌≡◌, ◌<◌, ◌≤◌, Some, drop, find, length, ◌-◌, bytes_eq};
ghost use Rattle.std.specs.List.{flat_map, slice_get};
ghost use Rattle.std.specs.Option.{option_copied};
ghost use Rattle.lq_schema.specs.Kinds.{own_kind};
ghost use Rattle.lq_schema.specs.Names.{full_name, own_name, prefix_text, table_name};
ghost use Rattle.lq_schema.specs.Order.{own_columns};
ghost use Rattle.lq_schema.specs.Schema.{column_of, columns_of, joined_of, column_named};
ghost use Rattle.lq_schema.specs.Schema.{part_columns, subject_of, table_of, tables};
ghost use Rattle.lq_schema.specs.Schema.{without_prefix};

use crate::columns::{Col, ColKind, Name, Part, Prefix, Subject, Table};

/// The tables, in the order in which the table `columns` tells them.
pub fn tables() -> &'static [Table]
    ensures { result.now ≡ tables }
{
    TABLES
}

/// The table of a name. None where no table has it.
pub fn table(name: &str) -> Option<Table>
    ensures { result ≡ table_of name.now }
{
    TABLES.iter().copied().find(|table| name == table.name())
}

/// The column of a table that a name means: the one with that name, where a joined column's name
/// begins with its prefix; else the one whose name follows the table's own prefix, such as `host_`
/// in hosts. None where there is no such column.
#[tactic(auto, unfolding(crate::specs::Schema::column_of))]
pub fn column(t: Table, name: &str) -> Option<Col>
    ensures { result ≡ column_of t name.now }
{
    match column_named(t, name) {
        Some(column) => Some(column),
        None => match without_prefix(name, t.subject().own_prefix()) {
            Some(name) => column_named(t, name),
            None => None,
        },
    }
}

/// What the values of a column are.
pub fn kind(c: Col) -> ColKind
    ensures { result ≡ own_kind c.own }
{
    c.own.kind()
}

/// How many columns a table has, its joined ones among them.
pub fn column_count(t: Table) -> usize
    ensures { result ≡ length (columns_of t) }
{
    let mut count = t.subject().column_count();
    for part in t.joined_parts() {
        count += part.subject.column_count();
    }
    count
}

/// The column of a table at a place, in the order of an answer without chosen columns.
pub fn column_at(t: Table, i: usize) -> Col
    requires { i < length (columns_of t) }
    ensures { slice_get (columns_of t) i ≡ Some result }
{
    let own = t.subject();
    if i < own.column_count() {
        return Col {
            prefix: Prefix::Own,
            own: own.column_at(i),
        };
    }
    joined_at(t.joined_parts(), i - own.column_count())
}

/// The column at a place among those of joined parts.
fn joined_at(parts: &[Part], i: usize) -> Col
    requires { i < length (flat_map part_columns parts.now) }
    ensures { slice_get (flat_map part_columns parts.now) i ≡ Some result }
{
    match parts.split_first() {
        Some((part, later)) => {
            let count = part.subject.column_count();
            if i < count {
                return Col {
                    prefix: part.prefix,
                    own: part.subject.column_at(i),
                };
            }
            joined_at(later, i - count)
        }
        None => unreachable!(),
    }
}

/// The name of a column.
pub fn column_name(c: Col) -> Name
    ensures prefix { result.prefix.now ≡ prefix_text c.prefix }
    ensures name { result.name.now ≡ own_name c.own }
{
    Name {
        prefix: c.prefix.text(),
        name: c.own.name(),
    }
}

/// The column with a whole name.
fn column_named(t: Table, name: &str) -> Option<Col>
    ensures { result ≡ column_named t name.now }
{
    for i in 0..column_count(t) {
        let column = column_at(t, i);
        if has_name(column, name) {
            return Some(column);
        }
    }
    None
}

/// Whether a column has a whole name.
fn has_name(column: Col, name: &str) -> bool
    ensures { result ≡ bytes_eq name.now (full_name column) }
{
    name.strip_prefix(column.prefix.text()) == Some(column.own.name())
}

/// What follows a front. None where the name doesn't begin with that.
fn without_prefix<'a>(name: &'a str, front: &str) -> Option<&'a str>
    ensures { option_copied result ≡ without_prefix name.now front.now }
{
    name.strip_prefix(front)
}

const TABLES: &[Table] = &[
    Table::Hosts,
    Table::Services,
    Table::HostGroups,
    Table::ServiceGroups,
    Table::Contacts,
    Table::ContactGroups,
    Table::Commands,
    Table::TimePeriods,
    Table::Downtimes,
    Table::Comments,
    Table::Log,
    Table::Status,
    Table::Columns,
    Table::HostsByGroup,
    Table::ServicesByGroup,
    Table::ServicesByHostGroup,
    Table::StateHist,
];

const HOST: Part = Part {
    prefix: Prefix::Host,
    subject: Subject::Host,
};

const SERVICE: Part = Part {
    prefix: Prefix::Service,
    subject: Subject::Service,
};

const HOST_GROUP: Part = Part {
    prefix: Prefix::HostGroup,
    subject: Subject::HostGroup,
};

const SERVICE_GROUP: Part = Part {
    prefix: Prefix::ServiceGroup,
    subject: Subject::ServiceGroup,
};

const CURRENT_HOST: Part = Part {
    prefix: Prefix::CurrentHost,
    subject: Subject::Host,
};

const CURRENT_SERVICE: Part = Part {
    prefix: Prefix::CurrentService,
    subject: Subject::Service,
};

impl Table {
    /// The name by which a query asks for it.
    pub fn name(self) -> &'static str
        ensures { result.now ≡ table_name self }
    {
        match self {
            Table::Hosts => "hosts",
            Table::Services => "services",
            Table::HostGroups => "hostgroups",
            Table::ServiceGroups => "servicegroups",
            Table::Contacts => "contacts",
            Table::ContactGroups => "contactgroups",
            Table::Commands => "commands",
            Table::TimePeriods => "timeperiods",
            Table::Downtimes => "downtimes",
            Table::Comments => "comments",
            Table::Log => "log",
            Table::Status => "status",
            Table::Columns => "columns",
            Table::HostsByGroup => "hostsbygroup",
            Table::ServicesByGroup => "servicesbygroup",
            Table::ServicesByHostGroup => "servicesbyhostgroup",
            Table::StateHist => "statehist",
        }
    }

    /// What its rows are about.
    pub fn subject(self) -> Subject
        ensures { result ≡ subject_of self }
    {
        match self {
            Table::Hosts | Table::HostsByGroup => Subject::Host,
            Table::Services | Table::ServicesByGroup | Table::ServicesByHostGroup =>
                Subject::Service,
            Table::HostGroups => Subject::HostGroup,
            Table::ServiceGroups => Subject::ServiceGroup,
            Table::Contacts => Subject::Contact,
            Table::ContactGroups => Subject::ContactGroup,
            Table::Commands => Subject::Command,
            Table::TimePeriods => Subject::Period,
            Table::Downtimes => Subject::Downtime,
            Table::Comments => Subject::Comment,
            Table::Log => Subject::Line,
            Table::StateHist => Subject::Slice,
            Table::Status => Subject::Program,
            Table::Columns => Subject::Schema,
        }
    }

    /// Whose columns it has beside its own.
    pub fn joined_parts(self) -> &'static [Part]
        ensures parts { result.now ≡ joined_of self }
        ensures few { length result.now ≤ 2 }
    {
        match self {
            Table::Services => &[HOST],
            Table::Downtimes | Table::Comments => &[HOST, SERVICE],
            Table::Log | Table::StateHist => &[CURRENT_HOST, CURRENT_SERVICE],
            Table::HostsByGroup => &[HOST_GROUP],
            Table::ServicesByGroup => &[HOST, SERVICE_GROUP],
            Table::ServicesByHostGroup => &[HOST, HOST_GROUP],
            _ => &[],
        }
    }
}
