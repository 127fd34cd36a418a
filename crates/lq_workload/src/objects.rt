ghost use Rattle.std.specs.Prelude.{◌≡◌, ◌++◌, ◌<◌, IfOk, OnOk, codes, string_bytes};
ghost use Rattle.lq_workload.specs.Draws.{after_draws};
ghost use Rattle.lq_workload.specs.Objects as Spec;

use crate::generator::Generator;
use std::alloc::{AllocError, Global};
use std::fmt::Write;

/// How many contacts there are.
pub(crate) const CONTACTS: u64 = 5;

/// How many hosts there are.
pub(crate) const HOSTS: u64 = 100;

/// How many services each host has.
const SERVICES: u64 = 10;

/// How many groups of hosts there are.
const GROUPS: u64 = 10;

/// The text of an object file.
#[tactic(auto, using(crate::proofs::Steps::steps), unfolding(crate::specs::Objects::objects_text))]
pub(crate) fn objects(alloc: Global, generator: &mut Generator) -> Result<String, AllocError>
    ensures text { IfOk result
        (λ text. string_bytes text ≡ Spec.objects_text generator.old.number) }
    ensures drawn { OnOk result (generator.new.number ≡ after_draws 2100 generator.old.number) }
{
    let mut text = String::new(alloc);
    push_contacts(&mut text)?;
    push_hosts(&mut text, generator)?;
    push_services(&mut text, generator)?;
    push_groups(&mut text, alloc)?;
    Ok(text)
}

/// Adds the contacts.
#[tactic(auto, using(crate::proofs::Steps::steps))]
fn push_contacts(text: &mut String) -> Result<(), AllocError>
    ensures { OnOk result (string_bytes text.new ≡ string_bytes text.old ++ Spec.contacts_text) }
{
    for contact in 0..CONTACTS {
        push_contact(text, contact)?;
    }
    Ok(())
}

#[tactic(auto, unfolding(crate::specs::Objects::contact_block))]
fn push_contact(text: &mut String, contact: u64) -> Result<(), AllocError>
    ensures { OnOk result
        (string_bytes text.new ≡ string_bytes text.old ++ Spec.contact_block contact) }
{
    write!(text, "define contact {{\ncontact_name c{contact}\n}}\n")
}

/// Adds the hosts, each with a contact that is drawn.
#[tactic(auto, using(crate::proofs::Steps::steps))]
fn push_hosts(text: &mut String, generator: &mut Generator) -> Result<(), AllocError>
    ensures text { OnOk result
        (string_bytes text.new ≡ string_bytes text.old ++ Spec.hosts_text generator.old.number) }
    ensures drawn { OnOk result (generator.new.number ≡ after_draws 100 generator.old.number) }
{
    for host in 0..HOSTS {
        push_host(text, host, generator.draw(CONTACTS))?;
    }
    Ok(())
}

#[tactic(auto, unfolding(crate::specs::Objects::host_block))]
fn push_host(text: &mut String, host: u64, contact: u64) -> Result<(), AllocError>
    ensures { OnOk result
        (string_bytes text.new ≡ string_bytes text.old ++ Spec.host_block host contact) }
{
    write!(
        text,
        "define host {{\nhost_name h{host}\nalias Host {host}\naddress 10.0.0.{host}\n\
         contacts c{contact}\n}}\n",
    )
}

/// Adds the services of all hosts.
#[tactic(auto, using(crate::proofs::Steps::steps))]
fn push_services(text: &mut String, generator: &mut Generator) -> Result<(), AllocError>
    ensures text { OnOk result
        (string_bytes text.new ≡ string_bytes text.old ++ Spec.services_text generator.old.number) }
    ensures drawn { OnOk result (generator.new.number ≡ after_draws 2000 generator.old.number) }
{
    for host in 0..HOSTS {
        push_host_services(text, generator, host)?;
    }
    Ok(())
}

/// Adds the services of a host.
#[tactic(auto, using(crate::proofs::Steps::steps))]
fn push_host_services(
    text: &mut String,
    generator: &mut Generator,
    host: u64,
) -> Result<(), AllocError>
    ensures text { OnOk result (string_bytes text.new
        ≡ string_bytes text.old ++ Spec.host_services host generator.old.number) }
    ensures drawn { OnOk result (generator.new.number ≡ after_draws 20 generator.old.number) }
{
    for service in 0..SERVICES {
        push_drawn_service(text, generator, host, service)?;
    }
    Ok(())
}

/// Adds a service with the most attempts of its checks and then a contact that are drawn.
#[tactic(auto, unfolding(crate::specs::Draws::after_draws))]
fn push_drawn_service(
    text: &mut String,
    generator: &mut Generator,
    host: u64,
    service: u64,
) -> Result<(), AllocError>
    ensures text { OnOk result (string_bytes text.new
        ≡ string_bytes text.old ++ Spec.drawn_service host service generator.old.number) }
    ensures drawn { OnOk result (generator.new.number ≡ after_draws 2 generator.old.number) }
{
    let attempts = generator.draw(3) + 1;
    push_service(text, host, service, attempts, generator.draw(CONTACTS))
}

#[tactic(auto, unfolding(crate::specs::Objects::service_block))]
fn push_service(
    text: &mut String,
    host: u64,
    service: u64,
    attempts: u64,
    contact: u64,
) -> Result<(), AllocError>
    ensures { OnOk result (string_bytes text.new
        ≡ string_bytes text.old ++ Spec.service_block host service attempts contact) }
{
    write!(
        text,
        "define service {{\nhost_name h{host}\nservice_description s{service}\n\
         max_check_attempts {attempts}\ncontacts c{contact}\n}}\n",
    )
}

/// Adds the groups of hosts.
#[tactic(auto, using(crate::proofs::Steps::steps))]
fn push_groups(text: &mut String, alloc: Global) -> Result<(), AllocError>
    ensures { OnOk result (string_bytes text.new ≡ string_bytes text.old ++ Spec.groups_text) }
{
    for group in 0..GROUPS {
        push_group(text, alloc, group)?;
    }
    Ok(())
}

#[tactic(auto, unfolding(crate::specs::Objects::group_block))]
fn push_group(text: &mut String, alloc: Global, group: u64) -> Result<(), AllocError>
    requires { group < 10 }
    ensures { OnOk result
        (string_bytes text.new ≡ string_bytes text.old ++ Spec.group_block group) }
{
    let members = members(alloc, group)?;
    write!(
        text,
        "define hostgroup {{\nhostgroup_name g{group}\nmembers {members}\n}}\n",
    )
}

/// The names of the hosts whose last digit is the group's number.
fn members(alloc: Global, group: u64) -> Result<String, AllocError>
    requires { group < 10 }
    ensures { IfOk result (λ text. string_bytes text ≡ Spec.members group) }
{
    let mut text = format!(in alloc; "h{group}")?;
    push_members(&mut text, group)?;
    Ok(text)
}

/// Adds the names of the hosts from 10 on whose last digit is the group's number.
#[tactic(auto, using(crate::proofs::Steps::steps))]
fn push_members(text: &mut String, group: u64) -> Result<(), AllocError>
    requires { group < 10 }
    ensures { OnOk result
        (string_bytes text.new ≡ string_bytes text.old ++ Spec.further_members group) }
{
    for tens in 0..9 {
        push_member(text, (tens + 1) * 10 + group)?;
    }
    Ok(())
}

/// Adds a further name.
fn push_member(text: &mut String, host: u64) -> Result<(), AllocError>
    ensures { OnOk result
        (string_bytes text.new ≡ string_bytes text.old ++ (codes "," ++ Spec.host_name host)) }
{
    write!(text, ",h{host}")
}
