ghost use Rattle.std.specs.Prelude.{◌≡◌, ◌<◌, ◌^◌, [], ◌∷◌, ◌++◌, IfNone, IfOk, IfSome, OnOk};
ghost use Rattle.std.specs.Prelude.{false, length, map, filter};
ghost use Rattle.std.specs.List.{flat_map, range_with_len};
ghost use Rattle.lq_live.specs.Ids.{HasRisingIds};
ghost use Rattle.lq_schema.specs.declared.columns.Table.TheVariants as table;
ghost use Rattle.lq_tables.specs.Rows.{group_service_rows, has_line_within, host_group_rows};
ghost use Rattle.lq_tables.specs.Rows.{is_history, is_within, with_places, places_of};
ghost use Rattle.lq_tables.specs.Rows.{service_group_rows, service_rows, table_rows};
ghost use Rattle.lq_tables.specs.Schema.{schema};
ghost use Rattle.lq_tables.specs.declared.row.Row.TheVariants as row;

use crate::listed::Listed;
use crate::row::Row;
use crate::schema::entry_count;
use crate::window::Window;
use lq_events::{Comment, Downtime, LogEntry};
use lq_live::Live;
use lq_records::{
    HostGroup, HostGroupId, HostId, Memory, MonitoredItems, Service, ServiceGroup, ServiceGroupId,
    ServiceId,
};
use lq_schema::Table;
use std::alloc::Global;

/// All rows of a table, in order: objects as the object file lists them, downtimes and comments by
/// their ids, the lines of the log within the window as they stand there, the members of each group
/// as the group lists them. None for the table of histories, which nothing lists. The only error is
/// out of memory.
pub(crate) fn listed_rows(
    alloc: Global,
    live: &Live,
    t: Table,
    window: &Window,
) -> Result<Option<Vec<Row>>, Memory>
    ensures all { IfOk result (λ listed. IfSome listed
        (λ rows. rows.items ≡ table_rows live.now.state window.now t)) }
    ensures listed { IfOk result (λ listed. IfSome listed (λ rows. is_history t ≡ false)) }
    ensures history { IfOk result (λ listed. IfNone listed (t ≡ table.StateHist)) }
    ensures ids { HasRisingIds live.now.state }
{
    let base = live.base();
    let (downtimes, comments) = (live.downtimes(), live.comments());
    let rows = match t {
        Table::Hosts => Listed::Hosts.rows(alloc, base.hosts.len())?,
        Table::Services => Listed::Services.rows(alloc, base.services.len())?,
        Table::HostGroups => Listed::HostGroups.rows(alloc, base.host_groups.len())?,
        Table::ServiceGroups => Listed::ServiceGroups.rows(alloc, base.service_groups.len())?,
        Table::Contacts => Listed::Contacts.rows(alloc, base.contacts.len())?,
        Table::ContactGroups => Listed::ContactGroups.rows(alloc, base.contact_groups.len())?,
        Table::Commands => Listed::Commands.rows(alloc, base.commands.len())?,
        Table::TimePeriods => Listed::Periods.rows(alloc, base.periods.len())?,
        Table::Downtimes => downtime_rows(alloc, downtimes)?,
        Table::Comments => comment_rows(alloc, comments)?,
        Table::Log => line_rows(alloc, live.log().entries(), window)?,
        Table::Status => status_rows(alloc)?,
        Table::Columns => column_rows(alloc)?,
        Table::HostsByGroup => hosts_by_group(alloc, base.host_groups.as_slice())?,
        Table::ServicesByGroup => services_by_group(alloc, base.service_groups.as_slice())?,
        Table::ServicesByHostGroup => {
            services_by_host_group(alloc, &base.services, base.host_groups.as_slice())?
        }
        Table::StateHist => return Ok(None),
    };
    Ok(Some(rows))
}

fn downtime_rows(alloc: Global, downtimes: &[Downtime]) -> Result<Vec<Row>, Memory>
    ensures { IfOk result (λ rows.
        rows.items ≡ map (λ downtime. row.Downtime downtime.id) downtimes.now) }
{
    downtimes
        .iter()
        .map(|downtime| Row::Downtime(downtime.id))
        .collect(alloc)
}

fn comment_rows(alloc: Global, comments: &[Comment]) -> Result<Vec<Row>, Memory>
    ensures { IfOk result (λ rows.
        rows.items ≡ map (λ comment. row.Comment comment.id) comments.now) }
{
    comments
        .iter()
        .map(|comment| Row::Comment(comment.id))
        .collect(alloc)
}

fn line_rows(alloc: Global, log: &[LogEntry], window: &Window) -> Result<Vec<Row>, Memory>
    ensures { IfOk result (λ rows. rows.items
        ≡ map row.Line (filter (has_line_within window.now log.now) (places_of log.now))) }
{
    (0..log.len() as u64)
        .filter(|place| has_line_within(window, log, *place))
        .map(Row::Line)
        .collect(alloc)
}

/// Whether the second of the line at a place is within a window.
fn has_line_within(window: &Window, log: &[LogEntry], place: u64) -> bool
    ensures { result ≡ has_line_within window.now log.now place }
{
    match log.get(place as usize) {
        Some(line) => is_within(window, line),
        None => false,
    }
}

/// Whether the second of a line is within a window.
fn is_within(window: &Window, line: &LogEntry) -> bool
    ensures { result ≡ is_within window.now line.now }
{
    window.from <= line.time && line.time < window.until
}

fn status_rows(alloc: Global) -> Result<Vec<Row>, Memory>
    ensures { IfOk result (λ rows. rows.items ≡ row.Status ∷ []) }
{
    let mut rows = Vec::new(alloc);
    rows.push(Row::Status)?;
    Ok(rows)
}

fn column_rows(alloc: Global) -> Result<Vec<Row>, Memory>
    ensures { IfOk result (λ rows. rows.items ≡ map row.Column (places_of schema)) }
{
    (0..entry_count()).map(Row::Column).collect(alloc)
}

fn hosts_by_group(alloc: Global, groups: &[HostGroup]) -> Result<Vec<Row>, Memory>
    requires few { length groups.now < 2 ^ 32 }
    ensures { IfOk result (λ rows. rows.items ≡ flat_map host_group_rows (with_places groups.now)) }
{
    let mut rows = Vec::new(alloc);
    for (place, group) in groups.iter().enumerate() {
        push_hosts(
            &mut rows,
            HostGroupId(place as u32),
            group.members.as_slice(),
        )?;
    }
    Ok(rows)
}

fn push_hosts(rows: &mut Vec<Row>, group: HostGroupId, members: &[HostId]) -> Result<(), Memory>
    ensures { OnOk result (rows.new.items ≡ rows.old.items ++ map (row.HostOf group) members.now) }
{
    for host in members {
        rows.push(Row::HostOf(group, *host))?;
    }
    Ok(())
}

fn services_by_group(alloc: Global, groups: &[ServiceGroup]) -> Result<Vec<Row>, Memory>
    requires few { length groups.now < 2 ^ 32 }
    ensures { IfOk result (λ rows. rows.items ≡ flat_map service_group_rows
        (with_places groups.now)) }
{
    let mut rows = Vec::new(alloc);
    for (place, group) in groups.iter().enumerate() {
        push_services(
            &mut rows,
            ServiceGroupId(place as u32),
            group.members.as_slice(),
        )?;
    }
    Ok(rows)
}

fn push_services(
    rows: &mut Vec<Row>,
    group: ServiceGroupId,
    members: &[ServiceId],
) -> Result<(), Memory>
    ensures { OnOk result (rows.new.items
        ≡ rows.old.items ++ map (row.ServiceOf group) members.now) }
{
    for service in members {
        rows.push(Row::ServiceOf(group, *service))?;
    }
    Ok(())
}

fn services_by_host_group(
    alloc: Global,
    services: &MonitoredItems<Service>,
    groups: &[HostGroup],
) -> Result<Vec<Row>, Memory>
    requires few { length groups.now < 2 ^ 32 }
    ensures { IfOk result (λ rows.
        rows.items ≡ flat_map (group_service_rows services.now) (with_places groups.now)) }
{
    let mut rows = Vec::new(alloc);
    for (place, group) in groups.iter().enumerate() {
        push_services_of(
            &mut rows,
            services,
            HostGroupId(place as u32),
            group.members.as_slice(),
        )?;
    }
    Ok(rows)
}

fn push_services_of(
    rows: &mut Vec<Row>,
    services: &MonitoredItems<Service>,
    group: HostGroupId,
    members: &[HostId],
) -> Result<(), Memory>
    ensures { OnOk result (rows.new.items
        ≡ rows.old.items ++ flat_map (service_rows services.now group) members.now) }
{
    for host in members {
        push_host(rows, services, group, *host)?;
    }
    Ok(())
}

/// Adds the rows of a host's services.
fn push_host(
    rows: &mut Vec<Row>,
    services: &MonitoredItems<Service>,
    group: HostGroupId,
    host: HostId,
) -> Result<(), Memory>
    ensures { OnOk result (rows.new.items
        ≡ rows.old.items ++ service_rows services.now group host) }
{
    push_places(rows, group, services.owned_by(host.0))
}

/// Adds the rows of the services at some places.
fn push_places(rows: &mut Vec<Row>, group: HostGroupId, places: &[u32]) -> Result<(), Memory>
    ensures { OnOk result (rows.new.items ≡ rows.old.items
        ++ map (λ place. row.GroupService group (record { 0 = place })) places.now) }
{
    for place in places {
        rows.push(Row::GroupService(group, ServiceId(*place)))?;
    }
    Ok(())
}
