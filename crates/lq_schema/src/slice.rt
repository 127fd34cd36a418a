ghost use Rattle.std.specs.Prelude.{◌≡◌};
ghost use Rattle.lq_schema.specs.Slice.{slice_heading};

use crate::columns::ColKind;
use crate::heading::Heading;

/// A column on a slice of an object's history: a time in which nothing of it changed.
#[derive(Clone, Copy)]
pub enum SliceColumn {
    /// The second at which the slice begins, as `from`.
    Time,
    /// The second at which the slice begins, in seconds since 1970.
    From,
    /// The second before which the slice ends, in seconds since 1970.
    Until,
    /// How long the slice is, in seconds.
    Duration,
    /// How long the slice is, in millionths of the asked interval, rounded down.
    DurationPart,
    /// `duration` where the state is 0 (a host is up then), else 0.
    DurationOk,
    /// `duration` where the state is 1 (a host is down then), else 0.
    DurationWarning,
    /// `duration` where the state is 2 (a host is unreachable then), else 0.
    DurationCritical,
    /// `duration` where the state is 3, else 0.
    DurationUnknown,
    /// `duration` where the state is -1, else 0.
    DurationUnmonitored,
    /// The state, -1 before the log first tells it.
    State,
    /// 1 where the state of the host, or of the service's host, is above 0, else 0.
    HostDown,
    /// 1 where the object itself is in a downtime, else 0.
    InDowntime,
    /// 1 where the host, or the service's host, is in a downtime, else 0.
    InHostDowntime,
    /// 1 where the object is flapping, else 0.
    IsFlapping,
    /// 1 where the object's notification period is on, or it has none, else 0.
    InNotificationPeriod,
    /// The name of the object's notification period.
    NotificationPeriod,
    /// The name of the host, or of the service's host.
    HostName,
    /// Empty for a host.
    ServiceDescription,
    /// The output of the line of the log that tells the state, empty before the first one.
    LogOutput,
}

impl SliceColumn {
    /// The columns, in order.
    pub(crate) const ORDER: &'static [Self] = &[
        Self::Time,
        Self::From,
        Self::Until,
        Self::Duration,
        Self::DurationPart,
        Self::DurationOk,
        Self::DurationWarning,
        Self::DurationCritical,
        Self::DurationUnknown,
        Self::DurationUnmonitored,
        Self::State,
        Self::HostDown,
        Self::InDowntime,
        Self::InHostDowntime,
        Self::IsFlapping,
        Self::InNotificationPeriod,
        Self::NotificationPeriod,
        Self::HostName,
        Self::ServiceDescription,
        Self::LogOutput,
    ];

    /// The name of the column, and the kind of its values.
    pub(crate) fn heading(self) -> Heading
        ensures { result ≡ slice_heading self }
    {
        match self {
            Self::Time => Heading::new("time", ColKind::Int),
            Self::From => Heading::new("from", ColKind::Int),
            Self::Until => Heading::new("until", ColKind::Int),
            Self::Duration => Heading::new("duration", ColKind::Int),
            Self::DurationPart => Heading::new("duration_part", ColKind::Int),
            Self::DurationOk => Heading::new("duration_ok", ColKind::Int),
            Self::DurationWarning => Heading::new("duration_warning", ColKind::Int),
            Self::DurationCritical => Heading::new("duration_critical", ColKind::Int),
            Self::DurationUnknown => Heading::new("duration_unknown", ColKind::Int),
            Self::DurationUnmonitored => Heading::new("duration_unmonitored", ColKind::Int),
            Self::State => Heading::new("state", ColKind::Int),
            Self::HostDown => Heading::new("host_down", ColKind::Int),
            Self::InDowntime => Heading::new("in_downtime", ColKind::Int),
            Self::InHostDowntime => Heading::new("in_host_downtime", ColKind::Int),
            Self::IsFlapping => Heading::new("is_flapping", ColKind::Int),
            Self::InNotificationPeriod => Heading::new("in_notification_period", ColKind::Int),
            Self::NotificationPeriod => Heading::new("notification_period", ColKind::Str),
            Self::HostName => Heading::new("host_name", ColKind::Str),
            Self::ServiceDescription => Heading::new("service_description", ColKind::Str),
            Self::LogOutput => Heading::new("log_output", ColKind::Str),
        }
    }
}
