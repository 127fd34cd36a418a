/// What ends a wait, by the word of a `WaitTrigger` line (Livestatus, headers). No line of a wait
/// is read yet, so no request has one.
#[derive(Clone, Copy)]
pub enum Trigger {
    /// `check`: a check result of a host or a service.
    Check,
    /// `state`: a change of the state of a host or a service.
    State,
    /// `log`: a line of the log.
    Log,
    /// `downtime`: a downtime that comes, begins or ends.
    Downtime,
    /// `comment`: a comment that comes or goes.
    Comment,
    /// `command`: an external command.
    Command,
    /// `program`: a change of the core's own settings, as that of notifications.
    Program,
    /// `all`: any of these.
    All,
}
