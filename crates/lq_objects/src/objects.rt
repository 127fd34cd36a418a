ghost use Rattle.std.specs.Prelude.{◌≡◌, ◌≤◌, List, [], IfOk, OnOk, is_some, map};
ghost use Rattle.lq_names.specs.Names.{ObjectName};
ghost use Rattle.lq_objects.specs.Checks.{Checks, MakesUnless, Tells, TellsUnknown};
ghost use Rattle.lq_objects.specs.Directories.{directory_of, names_in};
ghost use Rattle.lq_objects.specs.Drafts.{base_of_draft, numbers_of, own_name_of};
ghost use Rattle.lq_objects.specs.Drafts.{with_lists, with_texts};
ghost use Rattle.lq_objects.specs.Faults.{first_of, lacks_any_named, lacks_named, unknown_in_block};
ghost use Rattle.lq_objects.specs.Kinds.{fields_references, references};
ghost use Rattle.lq_objects.specs.Names.{text_or};
ghost use Rattle.lq_objects.specs.Needed.{directive_word};
ghost use Rattle.lq_objects.specs.Objects as Spec;

use crate::block::Block;
use crate::directive::{MOST_ATTEMPTS, directive, number_between};
use crate::directory::Directory;
use crate::draft::Draft;
use crate::fault::{ObjectErr, ObjectsErr};
use crate::kind::{BlockKind, Reference};
use crate::known::Directive;
use crate::line::Line;
use crate::name::{text_of, text_or};
use crate::places::{host_place, ids};
use crate::texts::Texts;
use crate::unknown::unknown_error;
use crate::variables::custom_variables;
use lq_records::{
    Base, Command, Contact, ContactGroup, Host, HostGroup, Id, Items, ObjectFields, Period, Rules,
    Service, ServiceGroup, Text,
};
use std::alloc::AllocError;

/// The base of the objects that blocks say, by the names of all, which are handed on to it, or the
/// first fault in what they name.
pub(crate) fn objects_of(
    texts: &Texts,
    directory: Directory,
    rules: Rules,
    blocks: &[Block<'_, '_>],
) -> Result<Base, ObjectsErr>
    requires { directory ≡ directory_of blocks.now }
    ensures fault { Checks result (first_of (unknown_in_block (names_in directory)) blocks.now) }
    ensures base { IfOk result
        (λ base. base ≡ Spec.objects_of (names_in directory) rules blocks.now) }
{
    let draft = draft_of(texts, &directory, rules, blocks)?;
    match draft.finish(texts.alloc(), directory) {
        Ok(base) => Ok(base),
        Err(error) => Err(ObjectsErr::Memory(error)),
    }
}

/// The same, not yet found by their names.
fn draft_of(
    texts: &Texts,
    directory: &Directory,
    rules: Rules,
    blocks: &[Block<'_, '_>],
) -> Result<Draft, ObjectsErr>
    requires { directory.now ≡ directory_of blocks.now }
    ensures fault { Checks result
        (first_of (unknown_in_block (names_in directory.now)) blocks.now) }
    ensures draft { IfOk result
        (λ draft. base_of_draft draft ≡ Spec.objects_of (names_in directory.now) rules blocks.now) }
{
    let mut draft = Draft::new(rules);
    for block in blocks {
        let kind = block.kind();
        let reader = Reader {
            texts,
            directory,
            lines: block.lines(),
            own_name: directory.of(kind).parts_at(draft.count(kind)),
        };
        if let Err(error) = reader.add_to(&mut draft, kind) {
            return Err(objects_err(texts, directory, block, error));
        }
    }
    Ok(draft)
}

/// Why a file gives no base, where the object of a block isn't made.
fn objects_err(
    texts: &Texts,
    directory: &Directory,
    block: &Block<'_, '_>,
    error: ObjectErr,
) -> ObjectsErr
    requires { TellsUnknown error
        (is_some (unknown_in_block (names_in directory.now) block.now)) }
    ensures { Tells result (unknown_in_block (names_in directory.now) block.now) }
{
    match error {
        ObjectErr::UnknownName => unknown_error(texts, directory, block),
        ObjectErr::Memory(error) => ObjectsErr::Memory(error),
    }
}

/// What the object of a block is read from: the block's lines, and the names of all objects. Its
/// own name is among them, and isn't made once more.
#[derive(Drop)]
struct Reader<'r, 'a> {
    texts: &'r Texts,
    directory: &'r Directory,
    lines: &'r [Line<'a>],
    /// Objects have clones of it, which share its bytes: a second text of each service's host would
    /// take memory for each.
    own_name: &'r (Text, Text),
}

impl<'r, 'a> Reader<'r, 'a> {
    /// Adds the block's own object at the end of its kind.
    fn add_to(&self, draft: &mut Draft, kind: BlockKind) -> Result<(), ObjectErr>
        requires { self.now.own_name.now ≡ own_name_of kind self.now.lines.now }
        ensures object { OnOk result (base_of_draft draft.new ≡ Spec.with_object
            (names_in self.now.directory.now) (base_of_draft draft.old) kind self.now.lines.now) }
        ensures unknown { MakesUnless result (lacks_any_named
            (names_in self.now.directory.now) self.now.lines.now (references kind)) }
    {
        let alloc = self.texts.alloc();
        match kind {
            BlockKind::Host => draft.hosts.push(alloc, self.host()?)?,
            BlockKind::Service => draft.services.push(alloc, self.service()?)?,
            BlockKind::HostGroup => draft.host_groups.push(alloc, self.host_group()?)?,
            BlockKind::ServiceGroup => draft.service_groups.push(alloc, self.service_group()?)?,
            BlockKind::Contact => draft.contacts.push(alloc, self.contact()?)?,
            BlockKind::ContactGroup => draft.contact_groups.push(alloc, self.contact_group()?)?,
            BlockKind::Period => draft.periods.push(alloc, self.period()?)?,
            BlockKind::Command => draft.commands.push(alloc, self.command()?)?,
        }
        Ok(())
    }

    fn host(&self) -> Result<Host, ObjectErr>
        requires { self.now.own_name.now ≡ own_name_of BlockKind.Host self.now.lines.now }
        ensures host { IfOk result
            (λ host. host ≡ Spec.host_of (names_in self.now.directory.now) self.now.lines.now) }
        ensures unknown { MakesUnless result (lacks_any_named
            (names_in self.now.directory.now) self.now.lines.now (references BlockKind.Host)) }
    {
        let host_name = self.own_name.0.clone()?;
        Ok(Host {
            alias: self.text_or(&host_name, Directive::Alias)?,
            address: self.text(Directive::Address)?,
            parents: self.ids(Reference::Parents)?,
            fields: self.fields(&host_name)?,
            host_name,
        })
    }

    fn service(&self) -> Result<Service, ObjectErr>
        requires { self.now.own_name.now ≡ own_name_of BlockKind.Service self.now.lines.now }
        ensures service { IfOk result (λ service. service
            ≡ Spec.service_of (names_in self.now.directory.now) self.now.lines.now) }
        ensures unknown { MakesUnless result (lacks_any_named
            (names_in self.now.directory.now) self.now.lines.now (references BlockKind.Service)) }
    {
        let service_description = self.own_name.1.clone()?;
        Ok(Service {
            host: host_place(self.directory, &self.own_name.0, self.lines)?,
            host_name: self.own_name.0.clone()?,
            fields: self.fields(&service_description)?,
            service_description,
        })
    }

    /// What a host or a service has beside its name.
    fn fields(&self, own_name: &Text) -> Result<ObjectFields, ObjectErr>
        ensures fields { IfOk result (λ fields. fields
            ≡ Spec.fields_of (names_in self.now.directory.now) own_name.now self.now.lines.now) }
        ensures unknown { MakesUnless result (lacks_any_named
            (names_in self.now.directory.now) self.now.lines.now fields_references) }
    {
        let mut fields = self.numbers();
        self.fill_texts(&mut fields, own_name)?;
        self.fill_lists(&mut fields)?;
        Ok(fields)
    }

    /// The numbers of a host or a service. Its other fields are filled in place, so that a proof
    /// meets one value at each `?`, and not each field before it.
    fn numbers(&self) -> ObjectFields
        ensures { result ≡ numbers_of self.now.lines.now }
    {
        ObjectFields {
            display_name: Text::empty(),
            check_command: Text::empty(),
            check_period: Text::empty(),
            notification_period: Text::empty(),
            max_check_attempts: number_or_one(
                1,
                MOST_ATTEMPTS,
                Directive::MaxCheckAttempts,
                self.lines,
            ),
            notifications_enabled: number_or_one(
                0,
                1,
                Directive::NotificationsEnabled,
                self.lines,
            ) as u8,
            contacts: Items::default(),
            contact_groups: Items::default(),
            notes: Text::empty(),
            notes_url: Text::empty(),
            action_url: Text::empty(),
            icon_image: Text::empty(),
            custom_variables: Items::default(),
        }
    }

    fn fill_texts(&self, fields: &mut ObjectFields, own_name: &Text) -> Result<(), AllocError>
        ensures { OnOk result (fields.new
            ≡ with_texts own_name.now self.now.lines.now fields.old) }
    {
        fields.display_name = self.text_or(own_name, Directive::DisplayName)?;
        fields.check_command = self.text(Directive::CheckCommand)?;
        fields.check_period = self.text(Directive::CheckPeriod)?;
        fields.notification_period = self.text(Directive::NotificationPeriod)?;
        fields.notes = self.text(Directive::Notes)?;
        fields.notes_url = self.text(Directive::NotesUrl)?;
        fields.action_url = self.text(Directive::ActionUrl)?;
        fields.icon_image = self.text(Directive::IconImage)?;
        Ok(())
    }

    fn fill_lists(&self, fields: &mut ObjectFields) -> Result<(), ObjectErr>
        ensures lists { OnOk result (fields.new
            ≡ with_lists (names_in self.now.directory.now) self.now.lines.now fields.old) }
        ensures unknown { MakesUnless result (lacks_any_named
            (names_in self.now.directory.now) self.now.lines.now fields_references) }
    {
        fields.contacts = self.ids(Reference::Contacts)?;
        fields.contact_groups = self.ids(Reference::ContactGroups)?;
        fields.custom_variables = custom_variables(self.texts, self.lines)?;
        Ok(())
    }

    fn host_group(&self) -> Result<HostGroup, ObjectErr>
        requires { self.now.own_name.now ≡ own_name_of BlockKind.HostGroup self.now.lines.now }
        ensures group { IfOk result (λ group. group
            ≡ Spec.host_group_of (names_in self.now.directory.now) self.now.lines.now) }
        ensures unknown { MakesUnless result (lacks_any_named
            (names_in self.now.directory.now) self.now.lines.now (references BlockKind.HostGroup)) }
    {
        let hostgroup_name = self.own_name.0.clone()?;
        Ok(HostGroup {
            alias: self.text_or(&hostgroup_name, Directive::Alias)?,
            members: self.ids(Reference::MemberHosts)?,
            notes: self.text(Directive::Notes)?,
            notes_url: self.text(Directive::NotesUrl)?,
            action_url: self.text(Directive::ActionUrl)?,
            hostgroup_name,
        })
    }

    fn service_group(&self) -> Result<ServiceGroup, ObjectErr>
        requires { self.now.own_name.now ≡ own_name_of BlockKind.ServiceGroup self.now.lines.now }
        ensures group { IfOk result (λ group. group
            ≡ Spec.service_group_of (names_in self.now.directory.now) self.now.lines.now) }
        ensures unknown { MakesUnless result (lacks_any_named
            (names_in self.now.directory.now) self.now.lines.now
            (references BlockKind.ServiceGroup)) }
    {
        let servicegroup_name = self.own_name.0.clone()?;
        Ok(ServiceGroup {
            alias: self.text_or(&servicegroup_name, Directive::Alias)?,
            members: self.ids(Reference::MemberServices)?,
            notes: self.text(Directive::Notes)?,
            notes_url: self.text(Directive::NotesUrl)?,
            action_url: self.text(Directive::ActionUrl)?,
            servicegroup_name,
        })
    }

    fn contact(&self) -> Result<Contact, AllocError>
        requires { self.now.own_name.now ≡ own_name_of BlockKind.Contact self.now.lines.now }
        ensures { IfOk result (λ contact. contact ≡ Spec.contact_of self.now.lines.now) }
    {
        let contact_name = self.own_name.0.clone()?;
        Ok(Contact {
            alias: self.text_or(&contact_name, Directive::Alias)?,
            email: self.text(Directive::Email)?,
            pager: self.text(Directive::Pager)?,
            host_notification_period: self.text(Directive::HostNotificationPeriod)?,
            service_notification_period: self.text(Directive::ServiceNotificationPeriod)?,
            contact_name,
        })
    }

    fn contact_group(&self) -> Result<ContactGroup, ObjectErr>
        requires { self.now.own_name.now ≡ own_name_of BlockKind.ContactGroup self.now.lines.now }
        ensures group { IfOk result (λ group. group
            ≡ Spec.contact_group_of (names_in self.now.directory.now) self.now.lines.now) }
        ensures unknown { MakesUnless result (lacks_any_named
            (names_in self.now.directory.now) self.now.lines.now
            (references BlockKind.ContactGroup)) }
    {
        let contactgroup_name = self.own_name.0.clone()?;
        Ok(ContactGroup {
            alias: self.text_or(&contactgroup_name, Directive::Alias)?,
            members: self.ids(Reference::MemberContacts)?,
            contactgroup_name,
        })
    }

    fn period(&self) -> Result<Period, AllocError>
        requires { self.now.own_name.now ≡ own_name_of BlockKind.Period self.now.lines.now }
        ensures { IfOk result (λ period. period ≡ Spec.period_of self.now.lines.now) }
    {
        let timeperiod_name = self.own_name.0.clone()?;
        Ok(Period {
            alias: self.text_or(&timeperiod_name, Directive::Alias)?,
            timeperiod_name,
        })
    }

    fn command(&self) -> Result<Command, AllocError>
        requires { self.now.own_name.now ≡ own_name_of BlockKind.Command self.now.lines.now }
        ensures { IfOk result (λ command. command ≡ Spec.command_of self.now.lines.now) }
    {
        Ok(Command {
            command_name: self.own_name.0.clone()?,
            command_line: self.text(Directive::CommandLine)?,
        })
    }

    /// The text of a directive, empty where it is absent.
    fn text(&self, wanted: Directive) -> Result<Text, AllocError>
        ensures { IfOk result
            (λ text. text ≡ text_or [] (directive_word wanted) self.now.lines.now) }
    {
        text_of(self.texts, wanted, self.lines)
    }

    /// The text of a directive, or another text where it is absent.
    fn text_or(&self, absent: &Text, wanted: Directive) -> Result<Text, AllocError>
        ensures { IfOk result
            (λ text. text ≡ text_or absent.now (directive_word wanted) self.now.lines.now) }
    {
        text_or(self.texts, absent, wanted, self.lines)
    }

    /// The objects that a directive names.
    fn ids<T: Id>(&self, reference: Reference) -> Result<Items<T>, ObjectErr>
        ensures ids { IfOk result (λ ids. ids
            ≡ map T.id_at (Spec.places (names_in self.now.directory.now) reference
            self.now.lines.now)) }
        ensures unknown { MakesUnless result
            (lacks_named (names_in self.now.directory.now) self.now.lines.now reference) }
    {
        ids(self.texts, self.directory, reference, self.lines)
    }
}

/// The number of a directive that is in its range, or 1 in its absence.
fn number_or_one(least: u32, most: u32, wanted: Directive, lines: &[Line<'_>]) -> u32
    requires { 1 ≤ most }
    ensures value { result ≡ Spec.number_or 1 least most (directive_word wanted) lines.now }
    ensures within { result ≤ most }
{
    directive(wanted, lines)
        .and_then(|value| number_between(least, most, value))
        .unwrap_or(1)
}
