ghost use Rattle.std.specs.Prelude.{◌≡◌, ◌≢◌, ℕ, IfOk, IsOk, List, None, Some};
ghost use Rattle.std.specs.Option.{IfSome, IsSome, option_map};
ghost use Rattle.lq_auth.specs.declared.view.View.{View};
ghost use Rattle.lq_live.specs.State.{State};
ghost use Rattle.lq_schema.specs.declared.columns.OwnColumn.TheVariants as own;
ghost use Rattle.lq_schema.specs.declared.host.HostColumn.{HostColumn};
ghost use Rattle.lq_schema.specs.Kinds.{host_kind, own_kind};
ghost use Rattle.lq_schema.specs.Value.{Number, Texts, Words, empty_value, meaning_of};
ghost use Rattle.lq_columns.specs.Cells.{HostRecord, host_at, host_cell, host_record};
ghost use Rattle.lq_columns.specs.Names.{IsContactNamed, contact_names_of, contacts_of, has_text};
ghost use Rattle.lq_columns.specs.Plain.{HasNumbers, HasTexts, IsHeldByHost, IsPlain};
ghost use Rattle.lq_columns.specs.Plain.{IsSearchedAtHost};

use crate::contacts::lists_contact;
use crate::counters::services_value;
use crate::empty::empty_value;
use crate::monitored::Monitored;
use crate::names::{child_names, descriptions, parent_names};
use crate::object::{object_contains, object_number, object_text};
use crate::scope::Scope;
use crate::status::{status_number, status_text};
use lq_auth::View;
use lq_events::Status;
use lq_live::Live;
use lq_records::{Base, ContactId, Host, HostId, Memory, Object};
use lq_schema::{Col, HostColumn, OwnColumn, Val, kind};
use std::alloc::Global;

/// A host of a state: what the object file says of it, and its status. Its cells are read from it
/// with no look-up.
#[derive(Clone, Copy)]
pub struct HostRow<'a> {
    pub id: HostId,
    pub host: &'a Host,
    pub status: &'a Status,
}

impl<'a> HostRow<'a> {
    /// The host with an id, None where the base has no such host.
    #[inline]
    pub fn at(live: &'a Live, id: HostId) -> Option<HostRow<'a>>
        ensures { option_map host_record result ≡ host_at live.now.state id }
    {
        match live.base().hosts.as_slice().get(id.0 as usize) {
            Some(host) => Some(HostRow {
                id,
                host,
                status: live.host_status(id),
            }),
            None => None,
        }
    }

    /// The number of a column that stands in the state as it is, None for any other column, as a
    /// text or a counter.
    #[inline(always)]
    pub fn number(&self, column: HostColumn) -> Option<i128>
        ensures value { (s : State) (view : View) → IfSome result (λ number.
            host_cell s view (host_record self.now) column ≡ Number number) }
        ensures given { HasNumbers (host_kind column) → IsHeldByHost column → IsSome result }
    {
        match column {
            HostColumn::Object(column) => object_number(&self.host.fields, column),
            HostColumn::Status(column) => status_number(self.status, column),
            _ => None,
        }
    }

    /// The text of a column, None for a column of numbers or of lists.
    #[inline(always)]
    pub fn text(&self, column: HostColumn) -> Option<&'a str>
        ensures value { (s : State) (view : View) → IfSome result (λ text.
            host_cell s view (host_record self.now) column ≡ Words text.now) }
        ensures given { HasTexts (host_kind column) → IsSome result }
    {
        match column {
            HostColumn::Name => Some(self.host.host_name.as_str()),
            HostColumn::Alias => Some(self.host.alias.as_str()),
            HostColumn::Address => Some(self.host.address.as_str()),
            HostColumn::Object(column) => object_text(&self.host.fields, column),
            HostColumn::Status(column) => status_text(self.status, column),
            _ => None,
        }
    }

    /// Whether the list in a column has a text, by the base that the host is of; None for a column
    /// other than the contacts and the contact groups. It takes no memory.
    #[inline]
    pub fn contains(&self, base: &Base, column: HostColumn, text: &str) -> Option<bool>
        ensures value { (s : State) (view : View) → s.base ≡ base.now
            → IfSome result (λ found. (texts : List (List ℕ))
            × (host_cell s view (host_record self.now) column ≡ Texts texts)
            × (found ≡ has_text text.now texts)) }
        ensures given { IsSearchedAtHost column → IsSome result }
    {
        match column {
            HostColumn::Object(column) => object_contains(base, &self.host.fields, column, text),
            _ => None,
        }
    }

    /// Whether the contacts of the host have one, which was looked for in the base that the host
    /// is of.
    #[inline]
    pub fn lists_contact(&self, base: &Base, contact: Option<ContactId>) -> bool
        ensures { (name : List ℕ) → IsContactNamed base.now name contact → result
            ≡ has_text name (contact_names_of base.now
            (contacts_of base.now self.now.host.now.fields)) }
    {
        lists_contact(base, &self.host.fields, contact)
    }

    /// The value of a column at the state that the host is of, of other objects as far as a query
    /// sees them. The only error is out of memory;
    /// numbers and single texts take none.
    pub fn value(
        &self,
        alloc: Global,
        live: &'a Live,
        view: &View,
        column: HostColumn,
    ) -> Result<Val<'a>, Memory>
        ensures value { IfOk result (λ v.
            meaning_of v ≡ host_cell live.now.state view.now (host_record self.now) column) }
        ensures plain { IsPlain (host_kind column) → IsOk result }
    {
        let host = self.host;
        let base = live.base();
        let object = Monitored {
            live,
            about: Object::Host(self.id),
            fields: &host.fields,
            status: self.status,
        };
        Ok(match column {
            HostColumn::Name => Val::Str(host.host_name.as_str()),
            HostColumn::Alias => Val::Str(host.alias.as_str()),
            HostColumn::Address => Val::Str(host.address.as_str()),
            HostColumn::Object(column) => object.object_value(alloc, column)?,
            HostColumn::Parents => Val::List(parent_names(alloc, base, view, host)?),
            HostColumn::Childs => Val::List(child_names(alloc, base, view, self.id)?),
            HostColumn::Services => Val::List(descriptions(alloc, base, view, self.id)?),
            HostColumn::Status(column) => object.status_value(alloc, column)?,
            HostColumn::Counter(column) => {
                services_value(live, view, Scope::Host(self.id), column)
            }
        })
    }
}

/// The value of a column of the host with an id, of other objects as far as a query sees them.
/// Where there is no such host, or the column isn't one of hosts, it is 0, an empty text or an
/// empty list. The only error is out of memory; numbers and single texts take none.
pub fn host_value<'a>(
    alloc: Global,
    live: &'a Live,
    c: Col,
    id: HostId,
    view: &View,
) -> Result<Val<'a>, Memory>
    ensures value { (about : HostRecord) (column : HostColumn)
        → host_at live.now.state id ≡ Some about → c.own ≡ own.Host column
        → IfOk result (λ v. meaning_of v ≡ host_cell live.now.state view.now about column) }
    ensures nothing { host_at live.now.state id ≡ None
        → IfOk result (λ v. meaning_of v ≡ empty_value (own_kind c.own)) }
    ensures other { ((column : HostColumn) → c.own ≢ own.Host column)
        → IfOk result (λ v. meaning_of v ≡ empty_value (own_kind c.own)) }
    ensures plain { IsPlain (own_kind c.own) → IsOk result }
{
    let OwnColumn::Host(column) = c.own else {
        return Ok(empty_value(kind(c)));
    };
    match HostRow::at(live, id) {
        Some(row) => row.value(alloc, live, view, column),
        None => Ok(empty_value(kind(c))),
    }
}
