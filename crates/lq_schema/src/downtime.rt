ghost use Rattle.std.specs.Prelude.{◌≡◌};
ghost use Rattle.lq_schema.specs.Downtime.{downtime_heading};

use crate::columns::ColKind;
use crate::heading::Heading;

/// A column on a downtime.
#[derive(Clone, Copy)]
pub enum DowntimeColumn {
    Id,
    Author,
    Comment,
    EntryTime,
    StartTime,
    EndTime,
    Fixed,
    Duration,
    TriggeredBy,
    IsService,
}

impl DowntimeColumn {
    /// The columns, in order.
    pub(crate) const ORDER: &'static [Self] = &[
        Self::Id,
        Self::Author,
        Self::Comment,
        Self::EntryTime,
        Self::StartTime,
        Self::EndTime,
        Self::Fixed,
        Self::Duration,
        Self::TriggeredBy,
        Self::IsService,
    ];

    /// The name of the column, and the kind of its values.
    pub(crate) fn heading(self) -> Heading
        ensures { result ≡ downtime_heading self }
    {
        match self {
            Self::Id => Heading::new("id", ColKind::Int),
            Self::Author => Heading::new("author", ColKind::Str),
            Self::Comment => Heading::new("comment", ColKind::Str),
            Self::EntryTime => Heading::new("entry_time", ColKind::Int),
            Self::StartTime => Heading::new("start_time", ColKind::Int),
            Self::EndTime => Heading::new("end_time", ColKind::Int),
            Self::Fixed => Heading::new("fixed", ColKind::Int),
            Self::Duration => Heading::new("duration", ColKind::Int),
            Self::TriggeredBy => Heading::new("triggered_by", ColKind::Int),
            Self::IsService => Heading::new("is_service", ColKind::Int),
        }
    }
}
