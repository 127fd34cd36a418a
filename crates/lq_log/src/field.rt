/// A field of a log line, by what it says.
#[derive(Clone, Copy)]
pub(crate) enum Field {
    HostName,
    ServiceDescription,
    /// The name of a host's state.
    HostState,
    /// The name of a service's state.
    ServiceState,
    /// `SOFT` or `HARD`.
    StateType,
    Attempt,
    /// A state as a digit.
    Code,
    /// What happened to a downtime.
    DowntimeWord,
    /// What happened to flapping.
    FlappingWord,
    /// What a notification about a host says: the name of a state, or any other word.
    HostWord,
    /// What a notification about a service says.
    ServiceWord,
    PluginOutput,
    Comment,
    ContactName,
    CommandName,
    /// The name of a time period.
    PeriodName,
    /// What a time period goes over from.
    From,
    /// What it goes over to.
    To,
}
