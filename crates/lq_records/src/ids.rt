ghost use Rattle.std.specs.Prelude.{◌≡◌, ℕ};

/// A place in one of a base's lists.
pub trait Id: Copy {
    ghost id_at: { ℕ → Self };

    /// The id of what stands at a place.
    fn at(place: u32) -> Self
        ensures { result ≡ id_at place };
}

/// The place of a host in a base's list of hosts.
#[derive(Clone, Copy)]
pub struct HostId(pub u32);

impl Id for HostId {
    ghost id_at = { λ place. record { 0 = place } };

    fn at(place: u32) -> Self {
        HostId(place)
    }
}

/// The place of a service in a base's list of services.
#[derive(Clone, Copy)]
pub struct ServiceId(pub u32);

impl Id for ServiceId {
    ghost id_at = { λ place. record { 0 = place } };

    fn at(place: u32) -> Self {
        ServiceId(place)
    }
}

/// The place of a host group in a base's list of host groups.
#[derive(Clone, Copy)]
pub struct HostGroupId(pub u32);

/// The place of a service group in a base's list of service groups.
#[derive(Clone, Copy)]
pub struct ServiceGroupId(pub u32);

/// The place of a contact in a base's list of contacts.
#[derive(Clone, Copy, PartialEq)]
pub struct ContactId(pub u32);

impl Id for ContactId {
    ghost id_at = { λ place. record { 0 = place } };

    fn at(place: u32) -> Self {
        ContactId(place)
    }
}

/// The place of a contact group in a base's list of contact groups.
#[derive(Clone, Copy, PartialEq)]
pub struct ContactGroupId(pub u32);

impl Id for ContactGroupId {
    ghost id_at = { λ place. record { 0 = place } };

    fn at(place: u32) -> Self {
        ContactGroupId(place)
    }
}

/// The place of a time period in a base's list of periods.
#[derive(Clone, Copy)]
pub struct PeriodId(pub u32);

/// The place of a command in a base's list of commands.
#[derive(Clone, Copy)]
pub struct CommandId(pub u32);
