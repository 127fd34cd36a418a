ghost use Rattle.std.specs.Prelude.{◌≡◌};
ghost use Rattle.lq_schema.specs.Status.{status_heading};

use crate::columns::ColKind;
use crate::heading::Heading;

/// A column on the status of a host or a service.
#[derive(Clone, Copy)]
pub enum StatusColumn {
    State,
    StateType,
    HardState,
    LastHardState,
    HasBeenChecked,
    CurrentAttempt,
    LastCheck,
    LastStateChange,
    LastHardStateChange,
    PluginOutput,
    PerfData,
    Acknowledged,
    AcknowledgementType,
    ScheduledDowntimeDepth,
    IsFlapping,
    NotificationsEnabled,
    InNotificationPeriod,
    Comments,
    Downtimes,
}

impl StatusColumn {
    /// The columns, in order.
    pub(crate) const ORDER: &'static [Self] = &[
        Self::State,
        Self::StateType,
        Self::HardState,
        Self::LastHardState,
        Self::HasBeenChecked,
        Self::CurrentAttempt,
        Self::LastCheck,
        Self::LastStateChange,
        Self::LastHardStateChange,
        Self::PluginOutput,
        Self::PerfData,
        Self::Acknowledged,
        Self::AcknowledgementType,
        Self::ScheduledDowntimeDepth,
        Self::IsFlapping,
        Self::NotificationsEnabled,
        Self::InNotificationPeriod,
        Self::Comments,
        Self::Downtimes,
    ];

    /// The name of the column, and the kind of its values.
    pub(crate) fn heading(self) -> Heading
        ensures { result ≡ status_heading self }
    {
        match self {
            Self::State => Heading::new("state", ColKind::Int),
            Self::StateType => Heading::new("state_type", ColKind::Int),
            Self::HardState => Heading::new("hard_state", ColKind::Int),
            Self::LastHardState => Heading::new("last_hard_state", ColKind::Int),
            Self::HasBeenChecked => Heading::new("has_been_checked", ColKind::Int),
            Self::CurrentAttempt => Heading::new("current_attempt", ColKind::Int),
            Self::LastCheck => Heading::new("last_check", ColKind::Int),
            Self::LastStateChange => Heading::new("last_state_change", ColKind::Int),
            Self::LastHardStateChange => Heading::new("last_hard_state_change", ColKind::Int),
            Self::PluginOutput => Heading::new("plugin_output", ColKind::Str),
            Self::PerfData => Heading::new("perf_data", ColKind::Str),
            Self::Acknowledged => Heading::new("acknowledged", ColKind::Int),
            Self::AcknowledgementType => Heading::new("acknowledgement_type", ColKind::Int),
            Self::ScheduledDowntimeDepth => Heading::new("scheduled_downtime_depth", ColKind::Int),
            Self::IsFlapping => Heading::new("is_flapping", ColKind::Int),
            Self::NotificationsEnabled => Heading::new("notifications_enabled", ColKind::Int),
            Self::InNotificationPeriod => Heading::new("in_notification_period", ColKind::Int),
            Self::Comments => Heading::new("comments", ColKind::Nums),
            Self::Downtimes => Heading::new("downtimes", ColKind::Nums),
        }
    }
}
