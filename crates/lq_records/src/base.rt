ghost use Rattle.std.specs.Prelude.{◌≡◌, true, false, []};

use crate::ids::{ContactGroupId, ContactId, HostId, ServiceId};
use crate::items::Items;
use crate::monitored::MonitoredItems;
use crate::named::{NamedItems, NamedObject};
use crate::text::Text;

/// The directives that hosts and services share.
#[derive(Drop)]
pub struct ObjectFields {
    /// The name that people see. Where it isn't given, the object's own name.
    pub display_name: Text,
    /// The command that checks the object, with its arguments.
    pub check_command: Text,
    /// The name of the time period in which it is checked. It need not be in the base.
    pub check_period: Text,
    /// The name of the time period in which people are notified. It need not be in the base.
    pub notification_period: Text,
    /// How often a check has to find the object in trouble before its state is hard, 1 to
    /// 1,000,000.
    pub max_check_attempts: u32,
    /// 1 where people are notified about the object, else 0.
    pub notifications_enabled: u8,
    /// The contacts that are named at the object itself, in the order of the directive.
    pub contacts: Items<ContactId>,
    /// The contact groups, in the order of the directive.
    pub contact_groups: Items<ContactGroupId>,
    /// A remark.
    pub notes: Text,
    /// Where more about the object is found.
    pub notes_url: Text,
    /// Where something is done about the object.
    pub action_url: Text,
    /// The picture that goes with the object.
    pub icon_image: Text,
    /// The custom variables, each by its directive with the underscore and its value, in the order
    /// in which their names first come.
    pub custom_variables: Items<(Text, Text)>,
}

/// A host as the object file says it.
#[derive(Drop)]
pub struct Host {
    /// The name by which queries and other objects speak of it.
    pub host_name: Text,
    /// A longer name, for people.
    pub alias: Text,
    /// Where it is reached: a name of the network, or numbers.
    pub address: Text,
    /// The hosts by which it is reached, in the order of the directive.
    pub parents: Items<HostId>,
    /// What it shares with services.
    pub fields: ObjectFields,
}

impl NamedObject for Host {
    ghost name_of = { λ item. (item.host_name, []) };
}

/// A service as the object file says it.
#[derive(Drop)]
pub struct Service {
    /// The host that it runs on.
    pub host: HostId,
    /// That host's name.
    pub host_name: Text,
    /// Its name beside that of its host.
    pub service_description: Text,
    /// What it shares with hosts.
    pub fields: ObjectFields,
}

impl NamedObject for Service {
    ghost name_of = { λ service. (service.host_name, service.service_description) };
}

/// A group of hosts.
#[derive(Drop)]
pub struct HostGroup {
    pub hostgroup_name: Text,
    /// A longer name, for people.
    pub alias: Text,
    /// The hosts in the group, in the order of the directive.
    pub members: Items<HostId>,
    pub notes: Text,
    pub notes_url: Text,
    pub action_url: Text,
}

impl NamedObject for HostGroup {
    ghost name_of = { λ item. (item.hostgroup_name, []) };
}

/// A group of services.
#[derive(Drop)]
pub struct ServiceGroup {
    pub servicegroup_name: Text,
    /// A longer name, for people.
    pub alias: Text,
    /// The services in the group, in the order of the directive.
    pub members: Items<ServiceId>,
    pub notes: Text,
    pub notes_url: Text,
    pub action_url: Text,
}

impl NamedObject for ServiceGroup {
    ghost name_of = { λ item. (item.servicegroup_name, []) };
}

/// Who is told about hosts and services, and may see them.
#[derive(Drop)]
pub struct Contact {
    pub contact_name: Text,
    /// A longer name, for people.
    pub alias: Text,
    pub email: Text,
    pub pager: Text,
    /// The name of a time period, which need not be in the base.
    pub host_notification_period: Text,
    /// The name of a time period, which need not be in the base.
    pub service_notification_period: Text,
}

impl NamedObject for Contact {
    ghost name_of = { λ item. (item.contact_name, []) };
}

/// A group of contacts.
#[derive(Drop)]
pub struct ContactGroup {
    pub contactgroup_name: Text,
    /// A longer name, for people.
    pub alias: Text,
    /// The contacts in the group, in the order of the directive.
    pub members: Items<ContactId>,
}

impl NamedObject for ContactGroup {
    ghost name_of = { λ item. (item.contactgroup_name, []) };
}

/// A time period.
#[derive(Drop)]
pub struct Period {
    pub timeperiod_name: Text,
    /// A longer name, for people.
    pub alias: Text,
}

/// A command that checks or notifies.
#[derive(Drop)]
pub struct Command {
    pub command_name: Text,
    /// What is run.
    pub command_line: Text,
}

/// Who sees what of services and groups, where a query names a contact.
#[derive(Clone, Copy)]
pub struct Rules {
    /// Whether the contacts of a service's host don't see the service by that alone.
    pub service_strict: bool,
    /// Whether a group is seen only by who sees all its members.
    pub group_strict: bool,
}

impl Default for Rules {
    ghost is_default = { λ rules. rules ≡ record { service_strict = false; group_strict = true } };

    /// Loose for services, strict for groups.
    fn default() -> Self {
        Rules {
            service_strict: false,
            group_strict: true,
        }
    }
}

/// The objects of a monitoring core, each kind in the order of the object file, and the rules by
/// which contacts see them. An id is a place in the list of its kind.
pub struct Base {
    /// At most 10,000.
    pub hosts: MonitoredItems<Host>,
    /// At most 60,000.
    pub services: MonitoredItems<Service>,
    /// At most 1,000.
    pub host_groups: NamedItems<HostGroup>,
    /// At most 1,000.
    pub service_groups: NamedItems<ServiceGroup>,
    /// At most 10,000.
    pub contacts: NamedItems<Contact>,
    /// At most 1,000.
    pub contact_groups: NamedItems<ContactGroup>,
    /// At most 1,000.
    pub periods: Items<Period>,
    /// At most 10,000.
    pub commands: Items<Command>,
    /// What a contact sees of services and groups.
    pub rules: Rules,
}

// Written by hand: where one is dropped a proof then meets a call, and not each of the fields.
impl Drop for Base {
    fn drop(self) {
        let Base {
            hosts: _hosts,
            services: _services,
            host_groups: _host_groups,
            service_groups: _service_groups,
            contacts: _contacts,
            contact_groups: _contact_groups,
            periods: _periods,
            commands: _commands,
            rules: _rules,
        } = self;
    }
}
