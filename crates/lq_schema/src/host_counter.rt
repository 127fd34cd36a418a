ghost use Rattle.std.specs.Prelude.{◌≡◌};
ghost use Rattle.lq_schema.specs.HostCounter.{host_counter_heading};

use crate::columns::ColKind;
use crate::heading::Heading;

/// A column that counts hosts.
#[derive(Clone, Copy)]
pub enum HostCounter {
    NumHosts,
    NumHostsUp,
    NumHostsDown,
    NumHostsUnreach,
    NumHostsPending,
    WorstHostState,
}

impl HostCounter {
    /// The columns, in order.
    pub(crate) const ORDER: &'static [Self] = &[
        Self::NumHosts,
        Self::NumHostsUp,
        Self::NumHostsDown,
        Self::NumHostsUnreach,
        Self::NumHostsPending,
        Self::WorstHostState,
    ];

    /// The name of the column, and the kind of its values.
    pub(crate) fn heading(self) -> Heading
        ensures { result ≡ host_counter_heading self }
    {
        match self {
            Self::NumHosts => Heading::new("num_hosts", ColKind::Int),
            Self::NumHostsUp => Heading::new("num_hosts_up", ColKind::Int),
            Self::NumHostsDown => Heading::new("num_hosts_down", ColKind::Int),
            Self::NumHostsUnreach => Heading::new("num_hosts_unreach", ColKind::Int),
            Self::NumHostsPending => Heading::new("num_hosts_pending", ColKind::Int),
            Self::WorstHostState => Heading::new("worst_host_state", ColKind::Int),
        }
    }
}
