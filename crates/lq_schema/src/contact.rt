ghost use Rattle.std.specs.Prelude.{◌≡◌};
ghost use Rattle.lq_schema.specs.Contact.{contact_heading};

use crate::columns::ColKind;
use crate::heading::Heading;

/// A column on a contact.
#[derive(Clone, Copy)]
pub enum ContactColumn {
    Name,
    Alias,
    Email,
    Pager,
    HostNotificationPeriod,
    ServiceNotificationPeriod,
}

impl ContactColumn {
    /// The columns, in order.
    pub(crate) const ORDER: &'static [Self] = &[
        Self::Name,
        Self::Alias,
        Self::Email,
        Self::Pager,
        Self::HostNotificationPeriod,
        Self::ServiceNotificationPeriod,
    ];

    /// The name of the column, and the kind of its values.
    pub(crate) fn heading(self) -> Heading
        ensures { result ≡ contact_heading self }
    {
        match self {
            Self::Name => Heading::new("name", ColKind::Str),
            Self::Alias => Heading::new("alias", ColKind::Str),
            Self::Email => Heading::new("email", ColKind::Str),
            Self::Pager => Heading::new("pager", ColKind::Str),
            Self::HostNotificationPeriod => Heading::new("host_notification_period", ColKind::Str),
            Self::ServiceNotificationPeriod => Heading::new(
                "service_notification_period",
                ColKind::Str,
            ),
        }
    }
}
