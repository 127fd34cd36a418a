use lq_records::{HostId, ServiceId, Text};

/// What an external command does. Each variant is named by the command's words and has its fields
/// in order. Seconds are counted from the beginning of 1970. `persistent` is 0 where
/// the comment of an acknowledgement ends with that, and any other number where it stays.
#[derive(Drop)]
pub enum Act {
    ProcessHostCheckResult {
        host: HostId,
        /// 0 up, 1 down, 2 unreachable.
        code: u64,
        output: Text,
    },
    ProcessServiceCheckResult {
        service: ServiceId,
        /// 0 ok, 1 warning, 2 critical, 3 unknown.
        code: u64,
        output: Text,
    },
    AddHostComment {
        host: HostId,
        persistent: u64,
        author: Text,
        text: Text,
    },
    AddSvcComment {
        service: ServiceId,
        persistent: u64,
        author: Text,
        text: Text,
    },
    DelHostComment {
        /// The number of the comment.
        id: u64,
    },
    DelSvcComment {
        /// The number of the comment.
        id: u64,
    },
    AcknowledgeHostProblem {
        host: HostId,
        /// 2 where it holds until the object is well again; any other number where it ends with the
        /// next change of the state.
        sticky: u64,
        /// No notification is sent, whatever it is.
        notify: u64,
        persistent: u64,
        author: Text,
        text: Text,
    },
    AcknowledgeSvcProblem {
        service: ServiceId,
        /// 2 where it holds until the object is well again; any other number where it ends with the
        /// next change of the state.
        sticky: u64,
        /// No notification is sent, whatever it is.
        notify: u64,
        persistent: u64,
        author: Text,
        text: Text,
    },
    RemoveHostAcknowledgement {
        host: HostId,
    },
    RemoveSvcAcknowledgement {
        service: ServiceId,
    },
    ScheduleHostDowntime {
        host: HostId,
        /// The second from which it holds.
        start: u64,
        /// The second from which it no longer holds.
        end: u64,
        /// 1, else nothing is scheduled: there are no flexible downtimes yet.
        fixed: u64,
        /// 0, else nothing is scheduled: no downtime triggers another one yet.
        trigger_id: u64,
        /// How many seconds a flexible downtime would hold. It isn't used.
        duration: u64,
        author: Text,
        text: Text,
    },
    ScheduleSvcDowntime {
        service: ServiceId,
        /// The second from which it holds.
        start: u64,
        /// The second from which it no longer holds.
        end: u64,
        /// 1, else nothing is scheduled: there are no flexible downtimes yet.
        fixed: u64,
        /// 0, else nothing is scheduled: no downtime triggers another one yet.
        trigger_id: u64,
        /// How many seconds a flexible downtime would hold. It isn't used.
        duration: u64,
        author: Text,
        text: Text,
    },
    DelHostDowntime {
        /// The number of the downtime.
        id: u64,
    },
    DelSvcDowntime {
        /// The number of the downtime.
        id: u64,
    },
    EnableHostNotifications {
        host: HostId,
    },
    DisableHostNotifications {
        host: HostId,
    },
    EnableSvcNotifications {
        service: ServiceId,
    },
    DisableSvcNotifications {
        service: ServiceId,
    },
    EnableNotifications,
    DisableNotifications,
    /// No command that is known, or one with a faulty field. It changes no object.
    Unknown,
}

/// An external command that was taken, with its place among the others.
#[derive(Drop)]
pub struct Update {
    /// Who took it.
    pub origin: u32,
    /// How many commands the same origin took before.
    pub seq: u64,
    /// The second that it names.
    pub time: u64,
    /// The command as it was written, without its bracketed second.
    pub text: Text,
    pub act: Act,
}
