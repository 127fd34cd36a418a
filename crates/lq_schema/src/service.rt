ghost use Rattle.std.specs.Prelude.{◌≡◌, ◌<◌, Some, length};
ghost use Rattle.std.specs.List.{slice_get};
ghost use Rattle.lq_schema.specs.Service.{service_columns, service_heading};

use crate::columns::ColKind;
use crate::heading::Heading;
use crate::object::ObjectColumn;
use crate::status::StatusColumn;

/// A column on a service.
#[derive(Clone, Copy)]
pub enum ServiceColumn {
    Description,
    Object(ObjectColumn),
    Status(StatusColumn),
}

/// The columns before those that it shares with others, in order.
const FRONT: &[ServiceColumn] = &[ServiceColumn::Description];

impl ServiceColumn {
    /// The name of the column, and the kind of its values.
    pub(crate) fn heading(self) -> Heading
        ensures { result ≡ service_heading self }
    {
        match self {
            Self::Description => Heading::new("description", ColKind::Str),
            Self::Object(column) => column.heading(),
            Self::Status(column) => column.heading(),
        }
    }

    /// How many columns there are.
    pub(crate) fn count() -> usize
        ensures { result ≡ length service_columns }
    {
        FRONT.len() + ObjectColumn::ORDER.len() + StatusColumn::ORDER.len()
    }

    /// The column at a place, in order.
    pub(crate) fn at(i: usize) -> Self
        requires { i < length service_columns }
        ensures { slice_get service_columns i ≡ Some result }
    {
        let objects = FRONT.len();
        let statuses = objects + ObjectColumn::ORDER.len();
        if i < objects {
            FRONT[i]
        } else if i < statuses {
            Self::Object(ObjectColumn::ORDER[i - objects])
        } else {
            Self::Status(StatusColumn::ORDER[i - statuses])
        }
    }
}
