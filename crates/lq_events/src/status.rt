use lq_records::{Object, Text};

/// What is known of a host's or a service's state. Seconds are counted from the beginning of 1970.
#[derive(Clone, Drop)]
pub struct Status {
    /// Of a host 0 up, 1 down, 2 unreachable; of a service 0 ok, 1 warning, 2 critical, 3 unknown.
    pub state: i64,
    /// 0 soft, 1 hard.
    pub state_type: u8,
    /// 1 where the object was ever checked, else 0.
    pub has_been_checked: u8,
    /// How many checks in a row found the present trouble.
    pub current_attempt: u32,
    /// The second of the last check.
    pub last_check: u64,
    /// The second of the last change of the state.
    pub last_state_change: u64,
    /// The second of the last change of the hard state.
    pub last_hard_state_change: u64,
    /// The last state that was hard.
    pub last_hard_state: i64,
    /// What the last check said, up to its first `|`.
    pub plugin_output: Text,
    /// What the last check said after its first `|`.
    pub perf_data: Text,
    /// 1 where somebody has acknowledged the trouble, else 0.
    pub acknowledged: u8,
    /// 0 none, 1 normal, 2 sticky.
    pub acknowledgement_type: u8,
    /// 1 where people are notified about the object, else 0.
    pub notifications_enabled: u8,
}

/// A time in which trouble of an object is expected.
#[derive(Clone, Drop)]
pub struct Downtime {
    /// Its number among all downtimes.
    pub id: u64,
    pub object: Object,
    pub author: Text,
    pub comment: Text,
    /// The second in which it was entered.
    pub entry_time: u64,
    /// The second from which it holds.
    pub start: u64,
    /// The second from which it no longer holds.
    pub end: u64,
    /// Whether it has begun.
    pub active: bool,
    /// In seconds, as its command says.
    pub duration: u64,
}

/// A comment about an object.
#[derive(Clone, Drop)]
pub struct Comment {
    /// Its number among all comments.
    pub id: u64,
    pub object: Object,
    pub author: Text,
    pub text: Text,
    /// The second in which it was entered.
    pub time: u64,
    /// 1 a comment, 4 an acknowledgement.
    pub entry_type: u8,
    /// 1 where it outlives an acknowledgement that ends, else 0.
    pub persistent: u8,
}
