use lq_records::Text;

/// What a log line tells, by the words that it begins with.
#[derive(Clone, Drop)]
pub enum Kind {
    HostAlert,
    ServiceAlert,
    CurrentHostState,
    InitialHostState,
    CurrentServiceState,
    InitialServiceState,
    HostDowntimeAlert,
    ServiceDowntimeAlert,
    HostFlappingAlert,
    ServiceFlappingAlert,
    HostNotification,
    ServiceNotification,
    ExternalCommand,
    PassiveHostCheck,
    PassiveServiceCheck,
    /// A time period goes over: -1 before it was ever looked at, 0 outside, 1 inside.
    TimeperiodTransition { name: Text, from: i64, to: i64 },
    /// Any other line.
    Other,
}

/// What a log line says. What it doesn't speak of is 0 or empty.
#[derive(Clone, Drop)]
pub struct LogEntry {
    /// The second of the line, counted from the beginning of 1970, or that of the line before where
    /// it is greater.
    pub time: u64,
    /// 0 other, 1 alert, 2 the program's own run, 3 notification, 4 passive check, 5 external
    /// command, 6 state or transition.
    pub class: u8,
    /// What the line tells.
    pub kind: Kind,
    /// The whole line, with its own bracketed second.
    pub message: Text,
    /// The host's name.
    pub host: Text,
    /// The service's description.
    pub service: Text,
    /// Of a host 0 up, 1 down, 2 unreachable; of a service 0 ok, 1 warning, 2 critical, 3 unknown.
    pub state: i64,
    /// `SOFT` or `HARD` of a state; else the word that says what happened, as `STARTED`.
    pub word: Text,
    /// How many checks in a row found the trouble.
    pub attempt: u32,
    /// The name of the contact that was notified.
    pub contact: Text,
    /// The name of the command that notified it.
    pub command: Text,
    /// What the check said.
    pub output: Text,
    /// The comment of a downtime or flapping line.
    pub comment: Text,
}
