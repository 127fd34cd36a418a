ghost use Rattle.std.specs.Prelude.{◌≡◌, ◌<◌, Some, length};
ghost use Rattle.std.specs.List.{slice_get};
ghost use Rattle.lq_schema.specs.Host.{host_columns, host_heading};

use crate::columns::ColKind;
use crate::heading::Heading;
use crate::object::ObjectColumn;
use crate::service_counter::ServiceCounter;
use crate::status::StatusColumn;

/// A column on a host.
#[derive(Clone, Copy)]
pub enum HostColumn {
    Name,
    Alias,
    Address,
    Object(ObjectColumn),
    Parents,
    Childs,
    Services,
    Status(StatusColumn),
    Counter(ServiceCounter),
}

/// The columns before those that it shares with others, in order.
const FRONT: &[HostColumn] = &[HostColumn::Name, HostColumn::Alias, HostColumn::Address];

/// The columns between those of the object and those of the status, in order.
const LINKS: &[HostColumn] = &[
    HostColumn::Parents,
    HostColumn::Childs,
    HostColumn::Services,
];

impl HostColumn {
    /// The name of the column, and the kind of its values.
    pub(crate) fn heading(self) -> Heading
        ensures { result ≡ host_heading self }
    {
        match self {
            Self::Name => Heading::new("name", ColKind::Str),
            Self::Alias => Heading::new("alias", ColKind::Str),
            Self::Address => Heading::new("address", ColKind::Str),
            Self::Object(column) => column.heading(),
            Self::Parents => Heading::new("parents", ColKind::List),
            Self::Childs => Heading::new("childs", ColKind::List),
            Self::Services => Heading::new("services", ColKind::List),
            Self::Status(column) => column.heading(),
            Self::Counter(column) => column.heading(),
        }
    }

    /// How many columns there are.
    pub(crate) fn count() -> usize
        ensures { result ≡ length host_columns }
    {
        FRONT.len()
            + ObjectColumn::ORDER.len()
            + LINKS.len()
            + StatusColumn::ORDER.len()
            + ServiceCounter::ORDER.len()
    }

    /// The column at a place, in order.
    pub(crate) fn at(i: usize) -> Self
        requires { i < length host_columns }
        ensures { slice_get host_columns i ≡ Some result }
    {
        let objects = FRONT.len();
        let links = objects + ObjectColumn::ORDER.len();
        let statuses = links + LINKS.len();
        let services = statuses + StatusColumn::ORDER.len();
        if i < objects {
            FRONT[i]
        } else if i < links {
            Self::Object(ObjectColumn::ORDER[i - objects])
        } else if i < statuses {
            LINKS[i - links]
        } else if i < services {
            Self::Status(StatusColumn::ORDER[i - statuses])
        } else {
            Self::Counter(ServiceCounter::ORDER[i - services])
        }
    }
}
