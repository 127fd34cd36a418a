ghost use Rattle.std.specs.Prelude.{◌≡◌, ℕ, IfOk, IsOk, List};
ghost use Rattle.std.specs.Option.{IfSome, IsSome, option_map};
ghost use Rattle.lq_auth.specs.declared.view.View.{View};
ghost use Rattle.lq_columns.specs.Cells.{host_at};
ghost use Rattle.lq_columns.specs.Names.{IsContactNamed, has_text};
ghost use Rattle.lq_columns.specs.Plain.{HasNumbers, HasTexts, IsHeldByHost, IsHeldByService};
ghost use Rattle.lq_columns.specs.Plain.{IsHeldByStatus};
ghost use Rattle.lq_live.specs.State.{State};
ghost use Rattle.lq_schema.specs.Kinds.{host_kind, own_kind, service_kind, status_kind};
ghost use Rattle.lq_schema.specs.Value.{Number, Texts, Words, empty_value, meaning_of};
ghost use Rattle.lq_schema.specs.declared.columns.ColKind.TheVariants as column_kind;
ghost use Rattle.lq_schema.specs.declared.columns.OwnColumn.TheVariants as own;
ghost use Rattle.lq_schema.specs.declared.host.HostColumn.TheVariants as host_column;
ghost use Rattle.lq_schema.specs.declared.object.ObjectColumn.TheVariants as object_column;
ghost use Rattle.lq_schema.specs.declared.service.ServiceColumn.TheVariants as service_column;
ghost use Rattle.lq_tables.specs.About.{IsHost, IsService};
ghost use Rattle.lq_tables.specs.Cells.{cell_of, own_cell};
ghost use Rattle.lq_tables.specs.Light.{IsHeld, IsLight, IsSearchedIn};
ghost use Rattle.lq_tables.specs.Statuses.{AreOfHosts, AreOfServices};

use crate::about::{
    host_of, row_command, row_comment, row_contact, row_contact_group, row_downtime, row_entry,
    row_host_group_id, row_line, row_object, row_period, row_service_group_id, row_slice,
    service_of,
};
use crate::contacts::{command_text, contact_text};
use crate::groups::{
    contact_group_text, contact_group_value, host_group_text, host_group_value, service_group_text,
    service_group_value,
};
use crate::line::{line_number, line_text, line_value};
use crate::period::{period_number, period_text, period_value};
use crate::program::{program_number, program_text, program_value, schema_text, schema_value};
use crate::remarks::{
    comment_number, comment_text, comment_value, downtime_number, downtime_text, downtime_value,
};
use crate::row::Row;
use crate::slice::{slice_number, slice_text, slice_value};
use lq_auth::View;
use lq_columns::{HostRow, ServiceRow, empty_number, empty_text, empty_value, status_number};
use lq_events::{Comment, Downtime, LogEntry, Status};
use lq_live::Live;
use lq_records::{ContactId, HostId, Memory, Object};
use lq_schema::{
    Col, ColKind, HostColumn, OwnColumn, ServiceColumn, StatusColumn, Table, Val, kind,
};
use std::alloc::Global;
use std::marker::Model;

/// The cells of a row at a state. The host, service, downtime, comment or line of the log that the
/// row is about is found once, and not again at each cell. Contracts see it as the state, what a
/// query sees of it, and the row.
///
/// Where the row is about nothing of a column's kind, as a host's comment about no service, its
/// cell is 0, an empty text or an empty list.
#[derive(Drop)]
pub struct RowCells<'a, 'r> {
    live: &'a Live,
    view: &'a View,
    row: &'r Row,
    host: Option<HostRow<'a>>,
    service: Option<ServiceRow<'a>>,
    downtime: Option<&'a Downtime>,
    comment: Option<&'a Comment>,
    line: Option<&'a LogEntry>,
}

impl<'a, 'r> Model for RowCells<'a, 'r> {
    ghost use Rattle.std.specs.Option.{option_copied, option_map};
    ghost use Rattle.lq_columns.specs.Cells.{host_record, service_record};
    ghost use Rattle.lq_tables.specs.About.{IsAbout};
    ghost use Rattle.lq_tables.specs.Cells.{StateRow};

    ghost Value = { StateRow };

    ghost view = { λ cells. record {
      state = cells.live.now.state;
      view = cells.view.now;
      row = cells.row.now;
    } };

    ghost invariant = { λ cells. IsAbout cells.live.now.state cells.row.now (record {
      host = option_map host_record cells.host;
      service = option_map service_record cells.service;
      downtime = option_copied cells.downtime;
      comment = option_copied cells.comment;
      line = option_copied cells.line;
    }) };
}

impl<'a, 'r> RowCells<'a, 'r> {
    /// The cells of a row, of other objects as far as a query sees them.
    #[inline(always)]
    pub fn of(live: &'a Live, row: &'r Row, view: &'a View) -> RowCells<'a, 'r>
        ensures { result ≡ record { state = live.now.state; view = view.now; row = row.now } }
    {
        let object = row_object(live, row);
        RowCells {
            live,
            view,
            row,
            host: host_of(live, object),
            service: service_of(live, object),
            downtime: row_downtime(live, row),
            comment: row_comment(live, row),
            line: row_line(live, row),
        }
    }

    /// The number of a cell that is found without a look at other objects, None for any other cell:
    /// a text or a list, a counter, how many downtimes hold, whether a host or a service is
    /// flapping or in its notification period. It is what `value` gives, whatever a query sees, and
    /// takes no memory.
    #[inline]
    pub fn number(&self, c: Col) -> Option<i128>
        ensures value { (view : View) → IfSome result (λ number.
            cell_of self.now.state view self.now.row c ≡ Number number) }
        ensures given { HasNumbers (own_kind c.own) → IsHeld c.own → IsSome result }
    {
        match c.own {
            OwnColumn::Host(column) => match self.host {
                Some(host) => host.number(column),
                None => empty_number(kind(c)),
            },
            OwnColumn::Service(column) => match self.service {
                Some(service) => service.number(column),
                None => empty_number(kind(c)),
            },
            OwnColumn::Period(column) => {
                let period = row_period(self.live.base(), self.row);
                period_number(self.live, period, column)
            }
            OwnColumn::Downtime(column) => downtime_number(self.downtime, column),
            OwnColumn::Comment(column) => comment_number(self.comment, column),
            OwnColumn::Line(column) => line_number(self.line, column),
            OwnColumn::Slice(column) => slice_number(row_slice(self.row), column),
            OwnColumn::Program(column) => program_number(self.live, self.row, column),
            _ => None,
        }
    }

    /// The text of a cell that the state holds as it is, None for any other cell: a number or a
    /// list, and the whole name of a column, which is put together. It is what `value` gives,
    /// whatever a query sees, and takes no memory.
    #[inline]
    pub fn text(&self, c: Col) -> Option<&'a str>
        ensures value { (view : View) → IfSome result (λ text.
            cell_of self.now.state view self.now.row c ≡ Words text.now) }
        ensures given { HasTexts (own_kind c.own) → IsLight c.own → IsSome result }
    {
        let (live, row) = (self.live, self.row);
        let base = live.base();
        match c.own {
            OwnColumn::Host(column) => match self.host {
                Some(host) => host.text(column),
                None => empty_text(kind(c)),
            },
            OwnColumn::Service(column) => match self.service {
                Some(service) => service.text(column),
                None => empty_text(kind(c)),
            },
            OwnColumn::HostGroup(column) => host_group_text(live, row_host_group_id(row), column),
            OwnColumn::ServiceGroup(column) => {
                service_group_text(live, row_service_group_id(row), column)
            }
            OwnColumn::Contact(column) => Some(contact_text(row_contact(base, row), column)),
            OwnColumn::ContactGroup(column) => {
                contact_group_text(row_contact_group(base, row), column)
            }
            OwnColumn::Command(column) => Some(command_text(row_command(base, row), column)),
            OwnColumn::Period(column) => period_text(row_period(base, row), column),
            OwnColumn::Downtime(column) => downtime_text(self.downtime, column),
            OwnColumn::Comment(column) => comment_text(self.comment, column),
            OwnColumn::Line(column) => line_text(self.line, column),
            OwnColumn::Slice(column) => slice_text(live, row_slice(row), column),
            OwnColumn::Program(column) => program_text(row, column),
            OwnColumn::Schema(column) => schema_text(row_entry(row), column),
        }
    }

    /// The value of a cell. Lists, and the names of columns, take memory, and running out of it is
    /// the only error.
    pub fn value(&self, alloc: Global, c: Col) -> Result<Val<'a>, Memory>
        ensures value { IfOk result (λ v.
            meaning_of v ≡ cell_of self.now.state self.now.view self.now.row c) }
        ensures plain { IsLight c.own → IsOk result }
    {
        let (live, row, view) = (self.live, self.row, self.view);
        let base = live.base();
        match c.own {
            OwnColumn::Host(column) => match self.host {
                Some(host) => host.value(alloc, live, view, column),
                None => Ok(empty_value(kind(c))),
            },
            OwnColumn::Service(column) => match self.service {
                Some(service) => service.value(alloc, live, column),
                None => Ok(empty_value(kind(c))),
            },
            OwnColumn::HostGroup(column) => {
                host_group_value(alloc, live, view, row_host_group_id(row), column)
            }
            OwnColumn::ServiceGroup(column) => {
                service_group_value(alloc, live, view, row_service_group_id(row), column)
            }
            OwnColumn::Contact(column) => {
                Ok(Val::Str(contact_text(row_contact(base, row), column)))
            },
            OwnColumn::ContactGroup(column) => {
                contact_group_value(alloc, base, row_contact_group(base, row), column)
            }
            OwnColumn::Command(column) => {
                Ok(Val::Str(command_text(row_command(base, row), column)))
            },
            OwnColumn::Period(column) => Ok(period_value(live, row_period(base, row), column)),
            OwnColumn::Downtime(column) => Ok(downtime_value(self.downtime, column)),
            OwnColumn::Comment(column) => Ok(comment_value(self.comment, column)),
            OwnColumn::Line(column) => Ok(line_value(self.line, column)),
            OwnColumn::Slice(column) => Ok(slice_value(live, row_slice(row), column)),
            OwnColumn::Program(column) => Ok(program_value(live, row, column)),
            OwnColumn::Schema(column) => schema_value(alloc, row_entry(row), column),
        }
    }
}

/// The number of one cell of a row, as `number` of `RowCells` gives it. Where few cells of a row
/// are looked at it takes less: it finds alone what the column is about.
#[inline]
pub fn row_number(live: &Live, row: &Row, c: Col) -> Option<i128>
    ensures value { (view : View) → IfSome result (λ number.
        cell_of live.now.state view row.now c ≡ Number number) }
    ensures given { HasNumbers (own_kind c.own) → IsHeld c.own → IsSome result }
{
    match c.own {
        OwnColumn::Host(column) => match host_of(live, row_object(live, row)) {
            Some(host) => host.number(column),
            None => empty_number(kind(c)),
        },
        OwnColumn::Service(column) => match service_of(live, row_object(live, row)) {
            Some(service) => service.number(column),
            None => empty_number(kind(c)),
        },
        OwnColumn::Period(column) => { period_number(live, row_period(live.base(), row), column) }
        OwnColumn::Downtime(column) => downtime_number(row_downtime(live, row), column),
        OwnColumn::Comment(column) => comment_number(row_comment(live, row), column),
        OwnColumn::Line(column) => line_number(row_line(live, row), column),
        OwnColumn::Slice(column) => slice_number(row_slice(row), column),
        OwnColumn::Program(column) => program_number(live, row, column),
        _ => None,
    }
}

/// The number of a column of hosts where the row is a host or a service in a table of its own, of
/// the service's host then, as `row_number` gives it; None for any other row. A loop over such rows
/// has no other row to look for.
#[inline(always)]
pub fn host_number(live: &Live, row: &Row, column: HostColumn) -> Option<i128>
    ensures value { (view : View) → IfSome result (λ number.
        own_cell live.now.state view row.now (own.Host column) ≡ Number number) }
    ensures given { IsHost live.now.state row.now → HasNumbers (host_kind column)
        → IsHeldByHost column → IsSome result }
    ensures joined { IsService live.now.state row.now → HasNumbers (host_kind column)
        → IsHeldByHost column → IsSome result }
{
    let host = match row {
        Row::Host(id) => HostRow::at(live, *id),
        Row::Service(id) => host_of(live, Some(Object::Service(*id))),
        _ => return None,
    };
    match host {
        Some(host) => host.number(column),
        None => empty_number(OwnColumn::Host(column).kind()),
    }
}

/// The number of a column of services where the row is a service of their table, as `row_number`
/// gives it; None for any other row.
#[inline(always)]
pub fn service_number(live: &Live, row: &Row, column: ServiceColumn) -> Option<i128>
    ensures value { (view : View) → IfSome result (λ number.
        own_cell live.now.state view row.now (own.Service column) ≡ Number number) }
    ensures given { IsService live.now.state row.now → HasNumbers (service_kind column)
        → IsHeldByService column → IsSome result }
{
    match row {
        Row::Service(id) => ServiceRow::at(live, *id)?.number(column),
        _ => None,
    }
}

/// The number of a column of a host's status, as `host_number` gives it, out of the statuses of all
/// hosts. A loop over many rows has these at hand, and looks at nothing else.
#[inline(always)]
pub fn host_status_number(statuses: &[Status], row: &Row, column: StatusColumn) -> Option<i128>
    ensures value { (s : State) (view : View) → AreOfHosts s statuses.now
        → IfSome result (λ number.
        own_cell s view row.now (own.Host (host_column.Status column)) ≡ Number number) }
    ensures given { (s : State) → AreOfHosts s statuses.now → IsHost s row.now
        → HasNumbers (status_kind column) → IsHeldByStatus column → IsSome result }
{
    match row {
        Row::Host(id) => status_number(statuses.get(id.0 as usize)?, column),
        _ => None,
    }
}

/// The number of a column of a service's status, as `service_number` gives it, out of the statuses
/// of all services.
#[inline(always)]
pub fn service_status_number(statuses: &[Status], row: &Row, column: StatusColumn) -> Option<i128>
    ensures value { (s : State) (view : View) → AreOfServices s statuses.now
        → IfSome result (λ number.
        own_cell s view row.now (own.Service (service_column.Status column)) ≡ Number number) }
    ensures given { (s : State) → AreOfServices s statuses.now → IsService s row.now
        → HasNumbers (status_kind column) → IsHeldByStatus column → IsSome result }
{
    match row {
        Row::Service(id) => status_number(statuses.get(id.0 as usize)?, column),
        _ => None,
    }
}

/// The name of the host with an id. Names lie side by side, so that no record is fetched for one.
#[inline(always)]
fn name_of_host(live: &Live, id: HostId) -> Option<&str>
    ensures { option_map (λ text. text.now) result
        ≡ option_map (λ about. about.host.host_name) (host_at live.now.state id) }
{
    // Tells the proof that each host has a status.
    let _ = live.host_statuses();
    match live.base().hosts.name_at(id.0 as usize) {
        Some(name) => Some(name.0.as_str()),
        None => None,
    }
}

/// The name of a host in a table of its own, or of a service's host.
#[inline(always)]
fn host_name<'a>(live: &'a Live, row: &Row) -> Option<&'a str>
    ensures value { (view : View) → IfSome result (λ text.
        own_cell live.now.state view row.now (own.Host host_column.Name) ≡ Words text.now) }
    ensures given { IsHost live.now.state row.now → IsSome result }
    ensures joined { IsService live.now.state row.now → IsSome result }
{
    match row {
        Row::Host(id) => name_of_host(live, *id),
        Row::Service(id) => {
            // Tells the proof that each service has a status.
            let _ = live.service_statuses();
            let owners = live.base().services.contact_index().owners;
            let place = owners.get(id.0 as usize)?;
            // As for any cell, a host that isn't there would have an empty text.
            Some(name_of_host(live, HostId(*place)).unwrap_or(""))
        }
        _ => None,
    }
}

/// The description of a service in a table of its own.
#[inline(always)]
fn service_description<'a>(live: &'a Live, row: &Row) -> Option<&'a str>
    ensures value { (view : View) → IfSome result (λ text.
        own_cell live.now.state view row.now (own.Service service_column.Description)
        ≡ Words text.now) }
    ensures given { IsService live.now.state row.now → IsSome result }
{
    // Tells the proof that each service has a status.
    let _ = live.service_statuses();
    match row {
        Row::Service(id) => Some(live.base().services.name_at(id.0 as usize)?.1.as_str()),
        _ => None,
    }
}

/// The text of a column of hosts where the row is a host or a service in a table of its own, of the
/// service's host then, as `row_text` gives it; None for any other row.
#[inline(always)]
pub fn host_text<'a>(live: &'a Live, row: &Row, column: HostColumn) -> Option<&'a str>
    ensures value { (view : View) → IfSome result (λ text.
        own_cell live.now.state view row.now (own.Host column) ≡ Words text.now) }
    ensures given { IsHost live.now.state row.now → HasTexts (host_kind column) → IsSome result }
    ensures joined { IsService live.now.state row.now → HasTexts (host_kind column)
        → IsSome result }
{
    if let HostColumn::Name = column {
        return host_name(live, row);
    }
    let host = match row {
        Row::Host(id) => HostRow::at(live, *id),
        Row::Service(id) => host_of(live, Some(Object::Service(*id))),
        _ => return None,
    };
    match host {
        Some(host) => host.text(column),
        None => empty_text(OwnColumn::Host(column).kind()),
    }
}

/// The text of a column of services where the row is a service of their table, as `row_text` gives
/// it; None for any other row.
#[inline(always)]
pub fn service_text<'a>(live: &'a Live, row: &Row, column: ServiceColumn) -> Option<&'a str>
    ensures value { (view : View) → IfSome result (λ text.
        own_cell live.now.state view row.now (own.Service column) ≡ Words text.now) }
    ensures given { IsService live.now.state row.now → HasTexts (service_kind column)
        → IsSome result }
{
    if let ServiceColumn::Description = column {
        return service_description(live, row);
    }
    match row {
        Row::Service(id) => ServiceRow::at(live, *id)?.text(column),
        _ => None,
    }
}

/// The text of one cell of a row, as `text` of `RowCells` gives it.
#[inline]
pub fn row_text<'a>(live: &'a Live, row: &Row, c: Col, view: &'a View) -> Option<&'a str>
    ensures value { IfSome result (λ text.
        cell_of live.now.state view.now row.now c ≡ Words text.now) }
    ensures given { HasTexts (own_kind c.own) → IsLight c.own → IsSome result }
{
    match c.own {
        OwnColumn::Host(column) => match host_of(live, row_object(live, row)) {
            Some(host) => host.text(column),
            None => empty_text(kind(c)),
        },
        OwnColumn::Service(column) => match service_of(live, row_object(live, row)) {
            Some(service) => service.text(column),
            None => empty_text(kind(c)),
        },
        OwnColumn::Downtime(column) => downtime_text(row_downtime(live, row), column),
        OwnColumn::Comment(column) => comment_text(row_comment(live, row), column),
        OwnColumn::Line(column) => line_text(row_line(live, row), column),
        OwnColumn::Slice(column) => slice_text(live, row_slice(row), column),
        _ => RowCells::of(live, row, view).text(c),
    }
}

/// Whether the list in one cell of a row has a text: for the contacts and the contact groups of a
/// host or a service, None for any other cell. It takes no memory.
#[inline]
pub fn row_contains(live: &Live, row: &Row, c: Col, text: &str) -> Option<bool>
    ensures value { (view : View) → IfSome result (λ found. (texts : List (List ℕ))
        × (cell_of live.now.state view row.now c ≡ Texts texts)
        × (found ≡ has_text text.now texts)) }
    ensures given { IsSearchedIn c.own → IsSome result }
{
    let object = row_object(live, row);
    let base = live.base();
    match c.own {
        OwnColumn::Host(column) => match host_of(live, object) {
            Some(host) => host.contains(base, column, text),
            None => empty_contains(kind(c)),
        },
        OwnColumn::Service(column) => match service_of(live, object) {
            Some(service) => service.contains(base, column, text),
            None => empty_contains(kind(c)),
        },
        _ => None,
    }
}

/// Whether a cell without an object has a text in its list: no list of texts has one then, and None
/// says that its column has none.
fn empty_contains(kind: ColKind) -> Option<bool>
    ensures value { (text : List ℕ) → IfSome result (λ found. (texts : List (List ℕ))
        × (empty_value kind ≡ Texts texts) × (found ≡ has_text text texts)) }
    ensures given { kind ≡ column_kind.List → IsSome result }
{
    match kind {
        ColKind::List => Some(false),
        ColKind::Int | ColKind::Str | ColKind::Nums | ColKind::Pairs => None,
    }
}

/// Whether the contacts of a host have one, where the row is a host of their table; None for any
/// other row. `contact_named` finds the contact.
#[inline]
pub fn host_lists_contact(live: &Live, row: &Row, contact: Option<ContactId>) -> Option<bool>
    ensures value { (view : View) (name : List ℕ) → IsContactNamed live.now.state.base name contact
        → IfSome result (λ found. (texts : List (List ℕ))
        × (own_cell live.now.state view row.now
        (own.Host (host_column.Object object_column.Contacts))
        ≡ Texts texts)
        × (found ≡ has_text name texts)) }
    ensures given { IsHost live.now.state row.now → IsSome result }
{
    match row {
        Row::Host(id) => {
            let about = HostRow::at(live, *id)?;
            Some(about.lists_contact(live.base(), contact))
        }
        _ => None,
    }
}

/// Whether the contacts of a service have one, where the row is a service of their table; None for
/// any other row. `contact_named` finds the contact.
#[inline]
pub fn service_lists_contact(live: &Live, row: &Row, contact: Option<ContactId>) -> Option<bool>
    ensures value { (view : View) (name : List ℕ) → IsContactNamed live.now.state.base name contact
        → IfSome result (λ found. (texts : List (List ℕ))
        × (own_cell live.now.state view row.now
        (own.Service (service_column.Object object_column.Contacts))
        ≡ Texts texts)
        × (found ≡ has_text name texts)) }
    ensures given { IsService live.now.state row.now → IsSome result }
{
    match row {
        Row::Service(id) => {
            let about = ServiceRow::at(live, *id)?;
            Some(about.lists_contact(live.base(), contact))
        }
        _ => None,
    }
}

/// The value that a row of a table has in a column, of other objects as far as a query sees them.
/// Where the row is about nothing of the column's
/// kind, as a host's comment about no service, it is 0, an empty text or an empty list. Lists, and
/// the names of columns, take memory, and running out of it is the only error.
pub fn cell<'a>(
    alloc: Global,
    live: &'a Live,
    _t: Table,
    c: Col,
    r: &Row,
    view: &'a View,
) -> Result<Val<'a>, Memory>
    ensures value { IfOk result (λ v. meaning_of v ≡ cell_of live.now.state view.now r.now c) }
    ensures plain { IsLight c.own → IsOk result }
{
    RowCells::of(live, r, view).value(alloc, c)
}
