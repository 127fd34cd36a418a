ghost use Rattle.std.specs.Prelude.{◌≡◌, ◌≤◌, ⊤, Bool, IfSome, length};
ghost use Rattle.lq_columns.specs.Names.{IsContactNamed};
ghost use Rattle.lq_filter.specs.Marks.{AreKeptBefore};
ghost use Rattle.lq_filter.specs.Ready.{check_of_element, check_of_number, check_of_text};
ghost use Rattle.lq_filter.specs.Tests.{is_met};
ghost use Rattle.lq_schema.specs.declared.columns.OwnColumn.TheVariants as own;
ghost use Rattle.lq_schema.specs.declared.host.HostColumn.TheVariants as host_column;
ghost use Rattle.lq_schema.specs.declared.object.ObjectColumn.TheVariants as object_column;
ghost use Rattle.lq_schema.specs.declared.service.ServiceColumn.TheVariants as service_column;
ghost use Rattle.lq_tables.specs.Cells.{own_cell};
ghost use Rattle.lq_tables.specs.Statuses.{AreOfHosts, AreOfServices};
ghost use Rattle.lq_tables.specs.declared.row.Row.{Row};

use crate::sight::Sight;
use lq_columns::contact_named;
use lq_events::Status;
use lq_filter::{ElementCheck, NumberCheck, TextCheck};
use lq_records::ContactId;
use lq_schema::{HostColumn, ServiceColumn, StatusColumn};
use lq_tables::{
    Row, host_lists_contact, host_number, host_status_number, host_text, service_lists_contact,
    service_number, service_status_number, service_text,
};

/// A test of rows of one table, for which its column has been looked at.
pub(crate) trait RowTest {
    /// What has to hold of the test.
    ghost made: { Self → Type 0 };

    /// Whether a row meets the test.
    ghost met: { Self → Row → Bool };

    /// Whether a row meets the test, None for a row that the test isn't made for.
    fn is_met(&self, row: &Row) -> Option<bool>
        requires { made self.now }
        ensures { IfSome result (λ is. is ≡ met self.now row.now) };
}

/// Keeps the marks of the first rows that meet a test, up to one that the test isn't made for, and
/// says how many they are.
#[inline(always)]
pub(crate) fn keep_first<T: RowTest>(test: &T, rows: &[Row], marks: &mut [bool]) -> usize
    requires made { T.made test.now }
    requires marked { length marks.old ≡ length rows.now }
    ensures within { result ≤ length rows.now }
    ensures kept { AreKeptBefore (T.met test.now) rows.now marks.old marks.new result }
{
    for (place, row) in rows.iter().enumerate() {
        if marks[place] {
            let Some(met) = test.is_met(row) else {
                return place;
            };
            marks[place] = met;
        }
    }
    rows.len()
}

/// A test of a number of hosts.
#[derive(Drop)]
pub(crate) struct HostNumber<'a> {
    pub(crate) sight: Sight<'a>,
    pub(crate) column: HostColumn,
    pub(crate) check: NumberCheck,
}

impl RowTest for HostNumber<'_> {
    ghost made = { λ _. ⊤ };

    ghost met = { λ test row. is_met (check_of_number test.check)
        (own_cell test.sight.live.now.state test.sight.view.now row (own.Host test.column)) };

    #[inline]
    fn is_met(&self, row: &Row) -> Option<bool> {
        match host_number(self.sight.live, row, self.column) {
            Some(number) => Some(self.check.is_met(number)),
            None => None,
        }
    }
}

/// A test of a number of services.
#[derive(Drop)]
pub(crate) struct ServiceNumber<'a> {
    pub(crate) sight: Sight<'a>,
    pub(crate) column: ServiceColumn,
    pub(crate) check: NumberCheck,
}

impl RowTest for ServiceNumber<'_> {
    ghost made = { λ _. ⊤ };

    ghost met = { λ test row. is_met (check_of_number test.check)
        (own_cell test.sight.live.now.state test.sight.view.now row (own.Service test.column)) };

    #[inline]
    fn is_met(&self, row: &Row) -> Option<bool> {
        match service_number(self.sight.live, row, self.column) {
            Some(number) => Some(self.check.is_met(number)),
            None => None,
        }
    }
}

/// A test of a number of the statuses of hosts.
#[derive(Drop)]
struct HostStatus<'a> {
    sight: Sight<'a>,
    /// Those of all hosts.
    statuses: &'a [Status],
    column: StatusColumn,
    check: NumberCheck,
}

impl RowTest for HostStatus<'_> {
    ghost made = { λ test. AreOfHosts test.sight.live.now.state test.statuses.now };

    ghost met = { λ test row. is_met (check_of_number test.check)
        (own_cell test.sight.live.now.state test.sight.view.now row
        (own.Host (host_column.Status test.column))) };

    #[inline(always)]
    fn is_met(&self, row: &Row) -> Option<bool> {
        match host_status_number(self.statuses, row, self.column) {
            Some(number) => Some(self.check.is_met(number)),
            None => None,
        }
    }
}

/// Keeps the marks of the first hosts whose status has a number in a column as a check asks, and
/// says how many rows it looked at. The columns that hosts are counted by have a loop each, so
/// that none of these asks at each row which column it is.
pub(crate) fn keep_by_host_status(
    sight: &Sight<'_>,
    column: StatusColumn,
    check: NumberCheck,
    rows: &[Row],
    marks: &mut [bool],
) -> usize
    requires marked { length marks.old ≡ length rows.now }
    ensures within { result ≤ length rows.now }
    ensures kept { AreKeptBefore (λ row. is_met (check_of_number check)
        (own_cell sight.now.live.now.state sight.now.view.now row
        (own.Host (host_column.Status column))))
        rows.now marks.old marks.new result }
{
    match column {
        StatusColumn::State => keep_hosts(sight, StatusColumn::State, check, rows, marks),
        StatusColumn::StateType => keep_hosts(sight, StatusColumn::StateType, check, rows, marks),
        StatusColumn::HasBeenChecked => {
            keep_hosts(sight, StatusColumn::HasBeenChecked, check, rows, marks)
        }
        StatusColumn::Acknowledged => {
            keep_hosts(sight, StatusColumn::Acknowledged, check, rows, marks)
        }
        _ => keep_hosts(sight, column, check, rows, marks),
    }
}

/// The same in one loop. Where the call names the column, so does the loop.
#[inline(always)]
fn keep_hosts(
    sight: &Sight<'_>,
    column: StatusColumn,
    check: NumberCheck,
    rows: &[Row],
    marks: &mut [bool],
) -> usize
    requires marked { length marks.old ≡ length rows.now }
    ensures within { result ≤ length rows.now }
    ensures kept { AreKeptBefore (λ row. is_met (check_of_number check)
        (own_cell sight.now.live.now.state sight.now.view.now row
        (own.Host (host_column.Status column))))
        rows.now marks.old marks.new result }
{
    let test = HostStatus {
        sight: *sight,
        statuses: sight.live.host_statuses(),
        column,
        check,
    };
    keep_first(&test, rows, marks)
}

/// A test of a number of the statuses of services.
#[derive(Drop)]
struct ServiceStatus<'a> {
    sight: Sight<'a>,
    /// Those of all services.
    statuses: &'a [Status],
    column: StatusColumn,
    check: NumberCheck,
}

impl RowTest for ServiceStatus<'_> {
    ghost made = { λ test. AreOfServices test.sight.live.now.state test.statuses.now };

    ghost met = { λ test row. is_met (check_of_number test.check)
        (own_cell test.sight.live.now.state test.sight.view.now row
        (own.Service (service_column.Status test.column))) };

    #[inline(always)]
    fn is_met(&self, row: &Row) -> Option<bool> {
        match service_status_number(self.statuses, row, self.column) {
            Some(number) => Some(self.check.is_met(number)),
            None => None,
        }
    }
}

/// Keeps the marks of the first services whose status has a number in a column as a check asks, and
/// says how many rows it looked at. The columns that services are counted by have a loop each, so
/// that none of these asks at each row which column it is.
pub(crate) fn keep_by_service_status(
    sight: &Sight<'_>,
    column: StatusColumn,
    check: NumberCheck,
    rows: &[Row],
    marks: &mut [bool],
) -> usize
    requires marked { length marks.old ≡ length rows.now }
    ensures within { result ≤ length rows.now }
    ensures kept { AreKeptBefore (λ row. is_met (check_of_number check)
        (own_cell sight.now.live.now.state sight.now.view.now row
        (own.Service (service_column.Status column))))
        rows.now marks.old marks.new result }
{
    match column {
        StatusColumn::State => keep_services(sight, StatusColumn::State, check, rows, marks),
        StatusColumn::StateType => {
            keep_services(sight, StatusColumn::StateType, check, rows, marks)
        }
        StatusColumn::HasBeenChecked => {
            keep_services(sight, StatusColumn::HasBeenChecked, check, rows, marks)
        }
        StatusColumn::Acknowledged => {
            keep_services(sight, StatusColumn::Acknowledged, check, rows, marks)
        }
        _ => keep_services(sight, column, check, rows, marks),
    }
}

/// The same in one loop. Where the call names the column, so does the loop.
#[inline(always)]
fn keep_services(
    sight: &Sight<'_>,
    column: StatusColumn,
    check: NumberCheck,
    rows: &[Row],
    marks: &mut [bool],
) -> usize
    requires marked { length marks.old ≡ length rows.now }
    ensures within { result ≤ length rows.now }
    ensures kept { AreKeptBefore (λ row. is_met (check_of_number check)
        (own_cell sight.now.live.now.state sight.now.view.now row
        (own.Service (service_column.Status column))))
        rows.now marks.old marks.new result }
{
    let test = ServiceStatus {
        sight: *sight,
        statuses: sight.live.service_statuses(),
        column,
        check,
    };
    keep_first(&test, rows, marks)
}

/// A test of a text of hosts.
#[derive(Drop)]
pub(crate) struct HostText<'a> {
    pub(crate) sight: Sight<'a>,
    pub(crate) column: HostColumn,
    pub(crate) check: TextCheck<'a>,
}

impl RowTest for HostText<'_> {
    ghost made = { λ _. ⊤ };

    ghost met = { λ test row. is_met (check_of_text test.check)
        (own_cell test.sight.live.now.state test.sight.view.now row (own.Host test.column)) };

    #[inline]
    fn is_met(&self, row: &Row) -> Option<bool> {
        match host_text(self.sight.live, row, self.column) {
            Some(text) => Some(self.check.is_met(text)),
            None => None,
        }
    }
}

/// A test of a text of services.
#[derive(Drop)]
pub(crate) struct ServiceText<'a> {
    pub(crate) sight: Sight<'a>,
    pub(crate) column: ServiceColumn,
    pub(crate) check: TextCheck<'a>,
}

impl RowTest for ServiceText<'_> {
    ghost made = { λ _. ⊤ };

    ghost met = { λ test row. is_met (check_of_text test.check)
        (own_cell test.sight.live.now.state test.sight.view.now row (own.Service test.column)) };

    #[inline]
    fn is_met(&self, row: &Row) -> Option<bool> {
        match service_text(self.sight.live, row, self.column) {
            Some(text) => Some(self.check.is_met(text)),
            None => None,
        }
    }
}

/// A test of whether hosts have a contact.
#[derive(Drop)]
pub(crate) struct HostContact<'a> {
    sight: Sight<'a>,
    /// The contact that the check names.
    contact: Option<ContactId>,
    check: ElementCheck<'a>,
}

impl<'a> HostContact<'a> {
    /// The test of a check at a state. The contact is looked for once.
    pub(crate) fn of(sight: &Sight<'a>, check: ElementCheck<'a>) -> HostContact<'a>
        ensures sight { result.sight ≡ sight.now }
        ensures check { check_of_element result.check ≡ check_of_element check.entry }
        ensures contact { IsContactNamed result.sight.live.now.state.base
            result.check.element.now result.contact }
    {
        HostContact {
            sight: *sight,
            contact: contact_named(sight.live.base(), check.element),
            check,
        }
    }
}

impl RowTest for HostContact<'_> {
    ghost made = { λ test. IsContactNamed test.sight.live.now.state.base test.check.element.now
        test.contact };

    ghost met = { λ test row. is_met (check_of_element test.check)
        (own_cell test.sight.live.now.state test.sight.view.now row
        (own.Host (host_column.Object object_column.Contacts))) };

    #[inline]
    fn is_met(&self, row: &Row) -> Option<bool> {
        match host_lists_contact(self.sight.live, row, self.contact) {
            Some(found) => Some(self.check.is_met(found)),
            None => None,
        }
    }
}

/// A test of whether services have a contact.
#[derive(Drop)]
pub(crate) struct ServiceContact<'a> {
    sight: Sight<'a>,
    /// The contact that the check names.
    contact: Option<ContactId>,
    check: ElementCheck<'a>,
}

impl<'a> ServiceContact<'a> {
    /// The test of a check at a state. The contact is looked for once.
    pub(crate) fn of(sight: &Sight<'a>, check: ElementCheck<'a>) -> ServiceContact<'a>
        ensures sight { result.sight ≡ sight.now }
        ensures check { check_of_element result.check ≡ check_of_element check.entry }
        ensures contact { IsContactNamed result.sight.live.now.state.base
            result.check.element.now result.contact }
    {
        ServiceContact {
            sight: *sight,
            contact: contact_named(sight.live.base(), check.element),
            check,
        }
    }
}

impl RowTest for ServiceContact<'_> {
    ghost made = { λ test. IsContactNamed test.sight.live.now.state.base test.check.element.now
        test.contact };

    ghost met = { λ test row. is_met (check_of_element test.check)
        (own_cell test.sight.live.now.state test.sight.view.now row
        (own.Service (service_column.Object object_column.Contacts))) };

    #[inline]
    fn is_met(&self, row: &Row) -> Option<bool> {
        match service_lists_contact(self.sight.live, row, self.contact) {
            Some(found) => Some(self.check.is_met(found)),
            None => None,
        }
    }
}
