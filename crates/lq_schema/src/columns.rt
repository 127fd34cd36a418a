ghost use Rattle.std.specs.Prelude.{◌≡◌, ◌<◌, ◌≤◌, Some, length};
ghost use Rattle.std.specs.List.{slice_get};
ghost use Rattle.lq_schema.specs.Kinds.{own_kind};
ghost use Rattle.lq_schema.specs.Names.{own_name, own_prefix, prefix_text};
ghost use Rattle.lq_schema.specs.Order.{own_columns, own_heading};
ghost use Rattle.lq_schema.specs.declared.columns.TheConstants.{MOST_COLUMNS};

use crate::command::CommandColumn;
use crate::comment::CommentColumn;
use crate::contact::ContactColumn;
use crate::contact_group::ContactGroupColumn;
use crate::downtime::DowntimeColumn;
use crate::heading::Heading;
use crate::host::HostColumn;
use crate::host_group::HostGroupColumn;
use crate::line::LineColumn;
use crate::period::PeriodColumn;
use crate::program::ProgramColumn;
use crate::schema_column::SchemaColumn;
use crate::service::ServiceColumn;
use crate::service_group::ServiceGroupColumn;
use crate::slice::SliceColumn;

/// A table that a query may ask for. By default it is the first one, `hosts`.
#[derive(Clone, Copy, Default)]
pub enum Table {
    /// `hosts`, with a row for each host.
    #[default]
    Hosts,
    /// `services`, with a row for each service.
    Services,
    /// `hostgroups`, with a row for each group of hosts.
    HostGroups,
    /// `servicegroups`, with a row for each group of services.
    ServiceGroups,
    /// `contacts`, with a row for each contact.
    Contacts,
    /// `contactgroups`, with a row for each group of contacts.
    ContactGroups,
    /// `commands`, with a row for each command.
    Commands,
    /// `timeperiods`, with a row for each time period.
    TimePeriods,
    /// `downtimes`, with a row for each downtime.
    Downtimes,
    /// `comments`, with a row for each comment.
    Comments,
    /// `log`, with a row for each line of the log that begins with a second in brackets.
    Log,
    /// `status`, with the one row of the program.
    Status,
    /// `columns`, with a row for each column of each table.
    Columns,
    /// `hostsbygroup`, with a row for each member of each group of hosts.
    HostsByGroup,
    /// `servicesbygroup`, with a row for each member of each group of services.
    ServicesByGroup,
    /// `servicesbyhostgroup`, with a row for each service of each member of each group of hosts.
    ServicesByHostGroup,
    /// `statehist`, with a row for each time in which nothing of a host or a service changed.
    StateHist,
}

/// What a row, or a part of it, is about.
#[derive(Clone, Copy)]
pub enum Subject {
    Host,
    Service,
    HostGroup,
    ServiceGroup,
    Contact,
    ContactGroup,
    Command,
    Period,
    Downtime,
    Comment,
    Line,
    Slice,
    Program,
    Schema,
}

/// A column by what it is about.
#[derive(Clone, Copy)]
pub enum OwnColumn {
    Host(HostColumn),
    Service(ServiceColumn),
    HostGroup(HostGroupColumn),
    ServiceGroup(ServiceGroupColumn),
    Contact(ContactColumn),
    ContactGroup(ContactGroupColumn),
    Command(CommandColumn),
    Period(PeriodColumn),
    Downtime(DowntimeColumn),
    Comment(CommentColumn),
    Line(LineColumn),
    Slice(SliceColumn),
    Program(ProgramColumn),
    Schema(SchemaColumn),
}

/// What stands before the names of joined columns.
#[derive(Clone, Copy)]
pub enum Prefix {
    /// Nothing: the columns are the table's own.
    Own,
    /// `host_`, the columns of the host that a row is about.
    Host,
    /// `service_`, the columns of the service that a row is about.
    Service,
    /// `hostgroup_`, the columns of the group of hosts that a row is about.
    HostGroup,
    /// `servicegroup_`, the columns of the group of services that a row is about.
    ServiceGroup,
    /// `current_host_`, the columns of the host that a line of the log or a slice of a history is
    /// about, or whose service it is about, as they are now.
    CurrentHost,
    /// `current_service_`, the columns of the service that a line of the log or a slice of a
    /// history is about, as they are now.
    CurrentService,
}

/// Columns of a table that belong together: all columns of a subject, after a prefix.
#[derive(Clone, Copy)]
pub struct Part {
    pub prefix: Prefix,
    pub subject: Subject,
}

/// A column of a table.
#[derive(Clone, Copy)]
pub struct Col {
    /// What stands before its name.
    pub prefix: Prefix,
    /// The column on what the row, or the joined part of it, is about.
    pub own: OwnColumn,
}

/// What the values of a column are.
#[derive(Clone, Copy, PartialEq, Eq)]
pub enum ColKind {
    /// Whole numbers.
    Int,
    /// Texts.
    Str,
    /// Lists of texts.
    List,
    /// Lists of numbers.
    Nums,
    /// Lists of services, each as its host's name and its description.
    Pairs,
}

/// The name by which a query asks for a column, in two parts: what it is joined by, and its own
/// name.
#[derive(Clone, Copy)]
pub struct Name {
    /// Empty for a column of the table's own.
    pub prefix: &'static str,
    pub name: &'static str,
}

impl OwnColumn {
    fn heading(self) -> Heading
        ensures { result ≡ own_heading self }
    {
        match self {
            OwnColumn::Host(column) => column.heading(),
            OwnColumn::Service(column) => column.heading(),
            OwnColumn::HostGroup(column) => column.heading(),
            OwnColumn::ServiceGroup(column) => column.heading(),
            OwnColumn::Contact(column) => column.heading(),
            OwnColumn::ContactGroup(column) => column.heading(),
            OwnColumn::Command(column) => column.heading(),
            OwnColumn::Period(column) => column.heading(),
            OwnColumn::Downtime(column) => column.heading(),
            OwnColumn::Comment(column) => column.heading(),
            OwnColumn::Line(column) => column.heading(),
            OwnColumn::Slice(column) => column.heading(),
            OwnColumn::Program(column) => column.heading(),
            OwnColumn::Schema(column) => column.heading(),
        }
    }

    /// The name of the column on its subject.
    pub fn name(self) -> &'static str
        ensures { result.now ≡ own_name self }
    {
        self.heading().name()
    }

    /// What the values of the column are.
    pub fn kind(self) -> ColKind
        ensures { result ≡ own_kind self }
    {
        self.heading().kind()
    }
}

/// More columns than any subject has, so that those of a few subjects can be counted together.
const MOST_COLUMNS: usize = 64;

impl Prefix {
    /// What stands before the name.
    pub fn text(self) -> &'static str
        ensures { result.now ≡ prefix_text self }
    {
        match self {
            Prefix::Own => "",
            Prefix::Host => "host_",
            Prefix::Service => "service_",
            Prefix::HostGroup => "hostgroup_",
            Prefix::ServiceGroup => "servicegroup_",
            Prefix::CurrentHost => "current_host_",
            Prefix::CurrentService => "current_service_",
        }
    }
}

impl Subject {
    /// What a table of the subject may have before the names of its own columns.
    pub fn own_prefix(self) -> &'static str
        ensures { result.now ≡ own_prefix self }
    {
        match self {
            Subject::Host => "host_",
            Subject::Service => "service_",
            Subject::HostGroup => "hostgroup_",
            Subject::ServiceGroup => "servicegroup_",
            Subject::Contact => "contact_",
            Subject::ContactGroup => "contactgroup_",
            Subject::Command => "command_",
            Subject::Period => "timeperiod_",
            Subject::Downtime => "downtime_",
            Subject::Comment => "comment_",
            Subject::Line => "log_",
            Subject::Slice => "statehist_",
            Subject::Program => "status_",
            Subject::Schema => "column_",
        }
    }

    /// How many columns it has.
    pub fn column_count(self) -> usize
        ensures count { result ≡ length (own_columns self) }
        ensures few { result ≤ MOST_COLUMNS }
    {
        match self {
            Subject::Host => HostColumn::count(),
            Subject::Service => ServiceColumn::count(),
            Subject::HostGroup => HostGroupColumn::count(),
            Subject::ServiceGroup => ServiceGroupColumn::count(),
            Subject::Contact => ContactColumn::ORDER.len(),
            Subject::ContactGroup => ContactGroupColumn::ORDER.len(),
            Subject::Command => CommandColumn::ORDER.len(),
            Subject::Period => PeriodColumn::ORDER.len(),
            Subject::Downtime => DowntimeColumn::ORDER.len(),
            Subject::Comment => CommentColumn::ORDER.len(),
            Subject::Line => LineColumn::ORDER.len(),
            Subject::Slice => SliceColumn::ORDER.len(),
            Subject::Program => ProgramColumn::ORDER.len(),
            Subject::Schema => SchemaColumn::ORDER.len(),
        }
    }

    /// The column at a place, in order.
    pub fn column_at(self, i: usize) -> OwnColumn
        requires { i < length (own_columns self) }
        ensures { slice_get (own_columns self) i ≡ Some result }
    {
        match self {
            Subject::Host => OwnColumn::Host(HostColumn::at(i)),
            Subject::Service => OwnColumn::Service(ServiceColumn::at(i)),
            Subject::HostGroup => OwnColumn::HostGroup(HostGroupColumn::at(i)),
            Subject::ServiceGroup => OwnColumn::ServiceGroup(ServiceGroupColumn::at(i)),
            Subject::Contact => OwnColumn::Contact(ContactColumn::ORDER[i]),
            Subject::ContactGroup => OwnColumn::ContactGroup(ContactGroupColumn::ORDER[i]),
            Subject::Command => OwnColumn::Command(CommandColumn::ORDER[i]),
            Subject::Period => OwnColumn::Period(PeriodColumn::ORDER[i]),
            Subject::Downtime => OwnColumn::Downtime(DowntimeColumn::ORDER[i]),
            Subject::Comment => OwnColumn::Comment(CommentColumn::ORDER[i]),
            Subject::Line => OwnColumn::Line(LineColumn::ORDER[i]),
            Subject::Slice => OwnColumn::Slice(SliceColumn::ORDER[i]),
            Subject::Program => OwnColumn::Program(ProgramColumn::ORDER[i]),
            Subject::Schema => OwnColumn::Schema(SchemaColumn::ORDER[i]),
        }
    }
}
