ghost use Rattle.std.specs.Prelude.{◌≡◌, ◌<◌, Some, length};
ghost use Rattle.std.specs.List.{slice_get};
ghost use Rattle.lq_schema.specs.ServiceGroup.{service_group_columns, service_group_heading};

use crate::columns::ColKind;
use crate::heading::Heading;
use crate::service_counter::ServiceCounter;

/// A column on a group of services.
#[derive(Clone, Copy)]
pub enum ServiceGroupColumn {
    Name,
    Alias,
    Notes,
    NotesUrl,
    ActionUrl,
    Members,
    Services(ServiceCounter),
}

/// The columns before those that it shares with others, in order.
const FRONT: &[ServiceGroupColumn] = &[
    ServiceGroupColumn::Name,
    ServiceGroupColumn::Alias,
    ServiceGroupColumn::Notes,
    ServiceGroupColumn::NotesUrl,
    ServiceGroupColumn::ActionUrl,
    ServiceGroupColumn::Members,
];

impl ServiceGroupColumn {
    /// The name of the column, and the kind of its values.
    pub(crate) fn heading(self) -> Heading
        ensures { result ≡ service_group_heading self }
    {
        match self {
            Self::Name => Heading::new("name", ColKind::Str),
            Self::Alias => Heading::new("alias", ColKind::Str),
            Self::Notes => Heading::new("notes", ColKind::Str),
            Self::NotesUrl => Heading::new("notes_url", ColKind::Str),
            Self::ActionUrl => Heading::new("action_url", ColKind::Str),
            Self::Members => Heading::new("members", ColKind::Pairs),
            Self::Services(column) => column.heading(),
        }
    }

    /// How many columns there are.
    pub(crate) fn count() -> usize
        ensures { result ≡ length service_group_columns }
    {
        FRONT.len() + ServiceCounter::ORDER.len()
    }

    /// The column at a place, in order.
    pub(crate) fn at(i: usize) -> Self
        requires { i < length service_group_columns }
        ensures { slice_get service_group_columns i ≡ Some result }
    {
        let services = FRONT.len();
        if i < services {
            FRONT[i]
        } else {
            Self::Services(ServiceCounter::ORDER[i - services])
        }
    }
}
