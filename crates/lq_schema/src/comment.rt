ghost use Rattle.std.specs.Prelude.{◌≡◌};
ghost use Rattle.lq_schema.specs.Comment.{comment_heading};

use crate::columns::ColKind;
use crate::heading::Heading;

/// A column on a comment.
#[derive(Clone, Copy)]
pub enum CommentColumn {
    Id,
    Author,
    Comment,
    EntryTime,
    EntryType,
    Persistent,
    IsService,
}

impl CommentColumn {
    /// The columns, in order.
    pub(crate) const ORDER: &'static [Self] = &[
        Self::Id,
        Self::Author,
        Self::Comment,
        Self::EntryTime,
        Self::EntryType,
        Self::Persistent,
        Self::IsService,
    ];

    /// The name of the column, and the kind of its values.
    pub(crate) fn heading(self) -> Heading
        ensures { result ≡ comment_heading self }
    {
        match self {
            Self::Id => Heading::new("id", ColKind::Int),
            Self::Author => Heading::new("author", ColKind::Str),
            Self::Comment => Heading::new("comment", ColKind::Str),
            Self::EntryTime => Heading::new("entry_time", ColKind::Int),
            Self::EntryType => Heading::new("entry_type", ColKind::Int),
            Self::Persistent => Heading::new("persistent", ColKind::Int),
            Self::IsService => Heading::new("is_service", ColKind::Int),
        }
    }
}
