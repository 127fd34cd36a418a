ghost use Rattle.std.specs.Prelude.{◌≡◌};
ghost use Rattle.lq_schema.specs.ServiceCounter.{service_counter_heading};

use crate::columns::ColKind;
use crate::heading::Heading;

/// A column that counts services.
#[derive(Clone, Copy)]
pub enum ServiceCounter {
    NumServices,
    NumServicesOk,
    NumServicesWarn,
    NumServicesCrit,
    NumServicesUnknown,
    NumServicesPending,
    WorstServiceState,
}

impl ServiceCounter {
    /// The columns, in order.
    pub(crate) const ORDER: &'static [Self] = &[
        Self::NumServices,
        Self::NumServicesOk,
        Self::NumServicesWarn,
        Self::NumServicesCrit,
        Self::NumServicesUnknown,
        Self::NumServicesPending,
        Self::WorstServiceState,
    ];

    /// The name of the column, and the kind of its values.
    pub(crate) fn heading(self) -> Heading
        ensures { result ≡ service_counter_heading self }
    {
        match self {
            Self::NumServices => Heading::new("num_services", ColKind::Int),
            Self::NumServicesOk => Heading::new("num_services_ok", ColKind::Int),
            Self::NumServicesWarn => Heading::new("num_services_warn", ColKind::Int),
            Self::NumServicesCrit => Heading::new("num_services_crit", ColKind::Int),
            Self::NumServicesUnknown => Heading::new("num_services_unknown", ColKind::Int),
            Self::NumServicesPending => Heading::new("num_services_pending", ColKind::Int),
            Self::WorstServiceState => Heading::new("worst_service_state", ColKind::Int),
        }
    }
}
