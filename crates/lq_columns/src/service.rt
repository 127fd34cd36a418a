ghost use Rattle.std.specs.Prelude.{◌≡◌, ◌≢◌, ℕ, IfOk, IsOk, List, None, Some};
ghost use Rattle.std.specs.Option.{IfSome, IsSome, option_map};
ghost use Rattle.lq_live.specs.State.{State};
ghost use Rattle.lq_schema.specs.declared.columns.OwnColumn.TheVariants as own;
ghost use Rattle.lq_schema.specs.declared.service.ServiceColumn.{ServiceColumn};
ghost use Rattle.lq_schema.specs.Kinds.{service_kind, own_kind};
ghost use Rattle.lq_schema.specs.Value.{Number, Texts, Words, empty_value, meaning_of};
ghost use Rattle.lq_columns.specs.Cells.{ServiceRecord, service_at, service_cell, service_record};
ghost use Rattle.lq_columns.specs.Names.{IsContactNamed, contact_names_of, contacts_of, has_text};
ghost use Rattle.lq_columns.specs.Plain.{HasNumbers, HasTexts, IsHeldByService, IsPlain};
ghost use Rattle.lq_columns.specs.Plain.{IsSearchedAtService};

use crate::contacts::lists_contact;
use crate::empty::empty_value;
use crate::monitored::Monitored;
use crate::object::{object_contains, object_number, object_text};
use crate::status::{status_number, status_text};
use lq_auth::View;
use lq_events::Status;
use lq_live::Live;
use lq_records::{Base, ContactId, Memory, Object, Service, ServiceId};
use lq_schema::{Col, OwnColumn, ServiceColumn, Val, kind};
use std::alloc::Global;

/// A service of a state: what the object file says of it, and its status. Its cells are read from
/// it with no look-up.
#[derive(Clone, Copy)]
pub struct ServiceRow<'a> {
    pub id: ServiceId,
    pub service: &'a Service,
    pub status: &'a Status,
}

impl<'a> ServiceRow<'a> {
    /// The service with an id, None where the base has no such service.
    #[inline]
    pub fn at(live: &'a Live, id: ServiceId) -> Option<ServiceRow<'a>>
        ensures { option_map service_record result ≡ service_at live.now.state id }
    {
        match live.base().services.as_slice().get(id.0 as usize) {
            Some(service) => Some(ServiceRow {
                id,
                service,
                status: live.service_status(id),
            }),
            None => None,
        }
    }

    /// The number of a column that stands in the state as it is, None for any other column, as a
    /// text or how many downtimes hold.
    #[inline(always)]
    pub fn number(&self, column: ServiceColumn) -> Option<i128>
        ensures value { (s : State) → IfSome result (λ number.
            service_cell s (service_record self.now) column ≡ Number number) }
        ensures given { HasNumbers (service_kind column) → IsHeldByService column → IsSome result }
    {
        match column {
            ServiceColumn::Description => None,
            ServiceColumn::Object(column) => object_number(&self.service.fields, column),
            ServiceColumn::Status(column) => status_number(self.status, column),
        }
    }

    /// The text of a column, None for a column of numbers or of lists.
    #[inline(always)]
    pub fn text(&self, column: ServiceColumn) -> Option<&'a str>
        ensures value { (s : State) → IfSome result (λ text.
            service_cell s (service_record self.now) column ≡ Words text.now) }
        ensures given { HasTexts (service_kind column) → IsSome result }
    {
        match column {
            ServiceColumn::Description => Some(self.service.service_description.as_str()),
            ServiceColumn::Object(column) => object_text(&self.service.fields, column),
            ServiceColumn::Status(column) => status_text(self.status, column),
        }
    }

    /// Whether the list in a column has a text, by the base that the service is of; None for a
    /// column other than the contacts and the contact groups. It takes no memory.
    #[inline]
    pub fn contains(&self, base: &Base, column: ServiceColumn, text: &str) -> Option<bool>
        ensures value { (s : State) → s.base ≡ base.now
            → IfSome result (λ found. (texts : List (List ℕ))
            × (service_cell s (service_record self.now) column ≡ Texts texts)
            × (found ≡ has_text text.now texts)) }
        ensures given { IsSearchedAtService column → IsSome result }
    {
        match column {
            ServiceColumn::Object(column) => {
                object_contains(base, &self.service.fields, column, text)
            }
            ServiceColumn::Description | ServiceColumn::Status(_) => None,
        }
    }

    /// Whether the contacts of the service have one, which was looked for in the base that the
    /// service is of.
    #[inline]
    pub fn lists_contact(&self, base: &Base, contact: Option<ContactId>) -> bool
        ensures { (name : List ℕ) → IsContactNamed base.now name contact → result
            ≡ has_text name (contact_names_of base.now
            (contacts_of base.now self.now.service.now.fields)) }
    {
        lists_contact(base, &self.service.fields, contact)
    }

    /// The value of a column at the state that the service is of. The only error is out of memory;
    /// numbers and single texts take none.
    pub fn value(
        &self,
        alloc: Global,
        live: &'a Live,
        column: ServiceColumn,
    ) -> Result<Val<'a>, Memory>
        ensures value { IfOk result (λ v.
            meaning_of v ≡ service_cell live.now.state (service_record self.now) column) }
        ensures plain { IsPlain (service_kind column) → IsOk result }
    {
        let service = self.service;
        let object = Monitored {
            live,
            about: Object::Service(self.id),
            fields: &service.fields,
            status: self.status,
        };
        match column {
            ServiceColumn::Description => Ok(Val::Str(service.service_description.as_str())),
            ServiceColumn::Object(column) => object.object_value(alloc, column),
            ServiceColumn::Status(column) => object.status_value(alloc, column),
        }
    }
}

/// The value of a column of the service with an id. Where there is no such service, or the column
/// isn't one of services, it is 0, an empty text or an empty list. The only error is out of memory;
/// numbers and single texts take none. No column of services depends on what a query sees.
pub fn service_value<'a>(
    alloc: Global,
    live: &'a Live,
    c: Col,
    id: ServiceId,
    _view: &View,
) -> Result<Val<'a>, Memory>
    ensures value { (about : ServiceRecord) (column : ServiceColumn)
        → service_at live.now.state id ≡ Some about → c.own ≡ own.Service column
        → IfOk result (λ v. meaning_of v ≡ service_cell live.now.state about column) }
    ensures nothing { service_at live.now.state id ≡ None
        → IfOk result (λ v. meaning_of v ≡ empty_value (own_kind c.own)) }
    ensures other { ((column : ServiceColumn) → c.own ≢ own.Service column)
        → IfOk result (λ v. meaning_of v ≡ empty_value (own_kind c.own)) }
    ensures plain { IsPlain (own_kind c.own) → IsOk result }
{
    let OwnColumn::Service(column) = c.own else {
        return Ok(empty_value(kind(c)));
    };
    match ServiceRow::at(live, id) {
        Some(row) => row.value(alloc, live, column),
        None => Ok(empty_value(kind(c))),
    }
}
