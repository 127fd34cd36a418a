ghost use Rattle.std.specs.Prelude.{◌≡◌, ℕ, IfOk, IsOk, List};
ghost use Rattle.std.specs.Option.{IfSome, IsSome};
ghost use Rattle.lq_schema.specs.Kinds.{object_kind};
ghost use Rattle.lq_schema.specs.Value.{Number, Texts, Words, meaning_of};
ghost use Rattle.lq_columns.specs.Cells.{object_cell};
ghost use Rattle.lq_columns.specs.Names.{contact_group_names_of, contact_names_of, contacts_of};
ghost use Rattle.lq_columns.specs.Names.{has_text};
ghost use Rattle.lq_columns.specs.Plain.{HasNumbers, HasTexts, IsPlain, IsSearchedColumn};
ghost use Rattle.lq_records.specs.declared.base.Base.{Base};
ghost use Rattle.lq_records.specs.declared.object.Object.{Object};

use crate::contacts::{contacts_of, has_contact};
use crate::monitored::Monitored;
use crate::names::{group_names, has_name, names_of, variable_names, variable_values};
use lq_records::{Base, Items, Memory, ObjectFields, Text};
use lq_schema::{ObjectColumn, Val};
use std::alloc::Global;

/// The number of a column that the object file says of a host or a service.
#[inline(always)]
pub(crate) fn object_number(fields: &ObjectFields, column: ObjectColumn) -> Option<i128>
    ensures value { (base : Base) (about : Object) → IfSome result (λ number.
        object_cell base about fields.now column ≡ Number number) }
    ensures given { HasNumbers (object_kind column) → IsSome result }
{
    match column {
        ObjectColumn::MaxCheckAttempts => Some(i128::from(fields.max_check_attempts)),
        _ => None,
    }
}

/// The text of a column that the object file says of a host or a service.
#[inline(always)]
pub(crate) fn object_text(fields: &ObjectFields, column: ObjectColumn) -> Option<&str>
    ensures value { (base : Base) (about : Object) → IfSome result (λ text.
        object_cell base about fields.now column ≡ Words text.now) }
    ensures given { HasTexts (object_kind column) → IsSome result }
{
    Some(match column {
        ObjectColumn::DisplayName => fields.display_name.as_str(),
        ObjectColumn::CheckCommand => fields.check_command.as_str(),
        ObjectColumn::CheckPeriod => fields.check_period.as_str(),
        ObjectColumn::NotificationPeriod => fields.notification_period.as_str(),
        ObjectColumn::Notes => fields.notes.as_str(),
        ObjectColumn::NotesUrl => fields.notes_url.as_str(),
        ObjectColumn::ActionUrl => fields.action_url.as_str(),
        ObjectColumn::IconImage => fields.icon_image.as_str(),
        _ => return None,
    })
}

/// Whether the list in a column that the object file says of a host or a service has a text; None
/// for a column other than the contacts and the contact groups.
#[inline]
pub(crate) fn object_contains(
    base: &Base,
    fields: &ObjectFields,
    column: ObjectColumn,
    text: &str,
) -> Option<bool>
    ensures value { (about : Object) → IfSome result (λ found. (texts : List (List ℕ))
        × (object_cell base.now about fields.now column ≡ Texts texts)
        × (found ≡ has_text text.now texts)) }
    ensures given { IsSearchedColumn column → IsSome result }
{
    match column {
        ObjectColumn::Contacts => Some(has_contact(base, fields, text)),
        ObjectColumn::ContactGroups => {
            Some(has_name(base, fields.contact_groups.as_slice(), text))
        }
        _ => None,
    }
}

impl<'a> Monitored<'a> {
    /// The value of a column that the object file says of a host or a service.
    pub(crate) fn object_value(
        &self,
        alloc: Global,
        column: ObjectColumn,
    ) -> Result<Val<'a>, Memory>
        ensures value { IfOk result (λ v.
            meaning_of v
            ≡ object_cell self.now.live.now.state.base self.now.about self.now.fields.now column) }
        ensures plain { IsPlain (object_kind column) → IsOk result }
    {
        let base = self.live.base();
        let fields = self.fields;
        Ok(match column {
            ObjectColumn::DisplayName => Val::Str(fields.display_name.as_str()),
            ObjectColumn::CheckCommand => Val::Str(fields.check_command.as_str()),
            ObjectColumn::CheckPeriod => Val::Str(fields.check_period.as_str()),
            ObjectColumn::NotificationPeriod => Val::Str(fields.notification_period.as_str()),
            ObjectColumn::MaxCheckAttempts => Val::Int(i128::from(fields.max_check_attempts)),
            ObjectColumn::Notes => Val::Str(fields.notes.as_str()),
            ObjectColumn::NotesUrl => Val::Str(fields.notes_url.as_str()),
            ObjectColumn::ActionUrl => Val::Str(fields.action_url.as_str()),
            ObjectColumn::IconImage => Val::Str(fields.icon_image.as_str()),
            ObjectColumn::Contacts => Val::List(all_contact_names(alloc, base, fields)?),
            ObjectColumn::ContactGroups => Val::List(contact_group_names(alloc, base, fields)?),
            ObjectColumn::Groups => Val::List(group_names(alloc, base, self.about)?),
            ObjectColumn::CustomVariableNames => Val::List(variable_names(alloc, fields)?),
            ObjectColumn::CustomVariableValues => Val::List(variable_values(alloc, fields)?),
        })
    }
}

/// The names of the contacts at an object itself, then of those of its contact groups.
fn all_contact_names(
    alloc: Global,
    base: &Base,
    fields: &ObjectFields,
) -> Result<Items<Text>, Memory>
    ensures { IfOk result (λ names.
        names ≡ contact_names_of base.now (contacts_of base.now fields.now)) }
{
    let ids = contacts_of(alloc, base, fields)?;
    names_of(alloc, base, &ids)
}

/// The names of the contact groups of an object.
fn contact_group_names(
    alloc: Global,
    base: &Base,
    fields: &ObjectFields,
) -> Result<Items<Text>, Memory>
    ensures { IfOk result (λ names.
        names ≡ contact_group_names_of base.now fields.now.contact_groups) }
{
    names_of(alloc, base, fields.contact_groups.as_slice())
}
