ghost use Rattle.std.specs.Prelude.{◌≡◌, ◌<◌, ◌^◌};
ghost use Rattle.std.specs.Option.{option_map};
ghost use Rattle.lq_objects.specs.Faults.{has_numbers};
ghost use Rattle.lq_objects.specs.Kinds.{kind_named, limit, name_directive, reference_directive};
ghost use Rattle.lq_objects.specs.Kinds.{references, second_directive, target};
ghost use Rattle.lq_objects.specs.Needed.{directive_word};

use crate::known::Directive;

/// The most hosts, the most contacts, and the most commands. With one more the file is refused.
const MOST_OBJECTS: usize = 10_000;

/// The most services. With one more the file is refused.
const MOST_SERVICES: usize = 60_000;

/// The most groups of each kind, and the most time periods. With one more the file is refused.
const MOST_GROUPS: usize = 1_000;

/// A kind of object that a block may be about.
#[derive(Clone, Copy)]
pub(crate) enum BlockKind {
    Host,
    Service,
    HostGroup,
    ServiceGroup,
    Contact,
    ContactGroup,
    Period,
    Command,
}

impl BlockKind {
    /// The kind that the word after `define` names.
    pub(crate) fn of_word(word: &[u8]) -> Option<Self>
        ensures { result ≡ kind_named word.now }
    {
        if word == b"host".as_slice() {
            Some(BlockKind::Host)
        } else if word == b"service".as_slice() {
            Some(BlockKind::Service)
        } else if word == b"hostgroup".as_slice() {
            Some(BlockKind::HostGroup)
        } else if word == b"servicegroup".as_slice() {
            Some(BlockKind::ServiceGroup)
        } else if word == b"contact".as_slice() {
            Some(BlockKind::Contact)
        } else if word == b"contactgroup".as_slice() {
            Some(BlockKind::ContactGroup)
        } else if word == b"timeperiod".as_slice() {
            Some(BlockKind::Period)
        } else if word == b"command".as_slice() {
            Some(BlockKind::Command)
        } else {
            None
        }
    }

    /// How many objects of the kind there may be.
    pub(crate) fn limit(self) -> usize
        ensures value { result ≡ limit self }
        ensures small { result < 2 ^ 31 }
    {
        match self {
            BlockKind::Host | BlockKind::Contact | BlockKind::Command => MOST_OBJECTS,
            BlockKind::Service => MOST_SERVICES,
            BlockKind::HostGroup
            | BlockKind::ServiceGroup
            | BlockKind::ContactGroup
            | BlockKind::Period => MOST_GROUPS,
        }
    }

    /// Whether its objects have numbers, and names without `;`: those that are checked.
    pub(crate) fn has_numbers(self) -> bool
        ensures { result ≡ has_numbers self }
    {
        match self {
            BlockKind::Host | BlockKind::Service => true,
            BlockKind::HostGroup
            | BlockKind::ServiceGroup
            | BlockKind::Contact
            | BlockKind::ContactGroup
            | BlockKind::Period
            | BlockKind::Command => false,
        }
    }

    /// The directive with an object's name.
    pub(crate) fn name_directive(self) -> Directive
        ensures { directive_word result ≡ name_directive self }
    {
        match self {
            BlockKind::Host | BlockKind::Service => Directive::HostName,
            BlockKind::HostGroup => Directive::HostGroupName,
            BlockKind::ServiceGroup => Directive::ServiceGroupName,
            BlockKind::Contact => Directive::ContactName,
            BlockKind::ContactGroup => Directive::ContactGroupName,
            BlockKind::Period => Directive::TimePeriodName,
            BlockKind::Command => Directive::CommandName,
        }
    }

    /// The directive with the second part of an object's name, where it has one.
    pub(crate) fn second_directive(self) -> Option<Directive>
        ensures { option_map directive_word result ≡ second_directive self }
    {
        match self {
            BlockKind::Service => Some(Directive::ServiceDescription),
            BlockKind::Host
            | BlockKind::HostGroup
            | BlockKind::ServiceGroup
            | BlockKind::Contact
            | BlockKind::ContactGroup
            | BlockKind::Period
            | BlockKind::Command => None,
        }
    }

    /// The directives of its blocks that name other objects.
    pub(crate) fn references(self) -> &'static [Reference]
        ensures { result.now ≡ references self }
    {
        match self {
            BlockKind::Host => HOST_REFERENCES.as_slice(),
            BlockKind::Service => SERVICE_REFERENCES.as_slice(),
            BlockKind::HostGroup => HOST_GROUP_REFERENCES.as_slice(),
            BlockKind::ServiceGroup => SERVICE_GROUP_REFERENCES.as_slice(),
            BlockKind::ContactGroup => CONTACT_GROUP_REFERENCES.as_slice(),
            BlockKind::Contact | BlockKind::Period | BlockKind::Command => NO_REFERENCES.as_slice(),
        }
    }
}

const HOST_REFERENCES: [Reference; 3] = [
    Reference::Parents,
    Reference::Contacts,
    Reference::ContactGroups,
];

const SERVICE_REFERENCES: [Reference; 3] = [
    Reference::ServiceHost,
    Reference::Contacts,
    Reference::ContactGroups,
];

const HOST_GROUP_REFERENCES: [Reference; 1] = [Reference::MemberHosts];

const SERVICE_GROUP_REFERENCES: [Reference; 1] = [Reference::MemberServices];

const CONTACT_GROUP_REFERENCES: [Reference; 1] = [Reference::MemberContacts];

const NO_REFERENCES: [Reference; 0] = [];

/// A directive that names other objects.
#[derive(Clone, Copy)]
pub(crate) enum Reference {
    /// A host's parents.
    Parents,
    /// A service's host.
    ServiceHost,
    /// Contacts of a host or a service.
    Contacts,
    /// Contact groups of a host or a service.
    ContactGroups,
    /// The hosts of a host group.
    MemberHosts,
    /// The services of a service group.
    MemberServices,
    /// The contacts of a contact group.
    MemberContacts,
}

impl Reference {
    /// The directive.
    pub(crate) fn directive(self) -> Directive
        ensures { directive_word result ≡ reference_directive self }
    {
        match self {
            Reference::Parents => Directive::Parents,
            Reference::ServiceHost => Directive::HostName,
            Reference::Contacts => Directive::Contacts,
            Reference::ContactGroups => Directive::ContactGroups,
            Reference::MemberHosts | Reference::MemberServices | Reference::MemberContacts => {
                Directive::Members
            }
        }
    }

    /// The kind of the objects that it names.
    pub(crate) fn target(self) -> BlockKind
        ensures { result ≡ target self }
    {
        match self {
            Reference::Parents | Reference::ServiceHost | Reference::MemberHosts => BlockKind::Host,
            Reference::MemberServices => BlockKind::Service,
            Reference::Contacts | Reference::MemberContacts => BlockKind::Contact,
            Reference::ContactGroups => BlockKind::ContactGroup,
        }
    }
}
