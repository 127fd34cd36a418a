ghost use Rattle.std.specs.Prelude.{◌≡◌, ◌<◌, Some, length};
ghost use Rattle.std.specs.List.{slice_get};
ghost use Rattle.lq_schema.specs.HostGroup.{host_group_columns, host_group_heading};

use crate::columns::ColKind;
use crate::heading::Heading;
use crate::host_counter::HostCounter;
use crate::service_counter::ServiceCounter;

/// A column on a group of hosts.
#[derive(Clone, Copy)]
pub enum HostGroupColumn {
    Name,
    Alias,
    Notes,
    NotesUrl,
    ActionUrl,
    Members,
    Hosts(HostCounter),
    Services(ServiceCounter),
}

/// The columns before those that it shares with others, in order.
const FRONT: &[HostGroupColumn] = &[
    HostGroupColumn::Name,
    HostGroupColumn::Alias,
    HostGroupColumn::Notes,
    HostGroupColumn::NotesUrl,
    HostGroupColumn::ActionUrl,
    HostGroupColumn::Members,
];

impl HostGroupColumn {
    /// The name of the column, and the kind of its values.
    pub(crate) fn heading(self) -> Heading
        ensures { result ≡ host_group_heading self }
    {
        match self {
            Self::Name => Heading::new("name", ColKind::Str),
            Self::Alias => Heading::new("alias", ColKind::Str),
            Self::Notes => Heading::new("notes", ColKind::Str),
            Self::NotesUrl => Heading::new("notes_url", ColKind::Str),
            Self::ActionUrl => Heading::new("action_url", ColKind::Str),
            Self::Members => Heading::new("members", ColKind::List),
            Self::Hosts(column) => column.heading(),
            Self::Services(column) => column.heading(),
        }
    }

    /// How many columns there are.
    pub(crate) fn count() -> usize
        ensures { result ≡ length host_group_columns }
    {
        FRONT.len() + HostCounter::ORDER.len() + ServiceCounter::ORDER.len()
    }

    /// The column at a place, in order.
    pub(crate) fn at(i: usize) -> Self
        requires { i < length host_group_columns }
        ensures { slice_get host_group_columns i ≡ Some result }
    {
        let hosts = FRONT.len();
        let services = hosts + HostCounter::ORDER.len();
        if i < hosts {
            FRONT[i]
        } else if i < services {
            Self::Hosts(HostCounter::ORDER[i - hosts])
        } else {
            Self::Services(ServiceCounter::ORDER[i - services])
        }
    }
}
