ghost use Rattle.std.specs.Prelude.{◌≡◌, IfOk, IsOk};
ghost use Rattle.std.specs.Option.{IfSome, IsSome};
ghost use Rattle.lq_live.specs.State.{State};
ghost use Rattle.lq_records.specs.declared.object.Object.{Object};
ghost use Rattle.lq_schema.specs.Kinds.{status_kind};
ghost use Rattle.lq_schema.specs.Value.{Number, Numbers, Words, meaning_of};
ghost use Rattle.lq_log.specs.LastTold.{is_period_on};
ghost use Rattle.lq_columns.specs.Cells.{comment_ids_of, downtime_ids_of, hard_state};
ghost use Rattle.lq_columns.specs.Cells.{notification_period_of, status_cell};
ghost use Rattle.lq_columns.specs.Plain.{HasNumbers, HasTexts, IsHeldByStatus, IsPlain};

use crate::empty::flag;
use crate::entries::{comment_ids_of, depth_of, downtime_ids_of};
use crate::monitored::Monitored;
use lq_events::Status;
use lq_live::Live;
use lq_records::{Base, Items, Memory, Object};
use lq_schema::{StatusColumn, Val};
use std::alloc::Global;

/// The number of a column that a status holds.
#[inline(always)]
pub fn status_number(status: &Status, column: StatusColumn) -> Option<i128>
    ensures value { (s : State) (about : Object) → IfSome result (λ number.
        status_cell s about status.now column ≡ Number number) }
    ensures given { HasNumbers (status_kind column) → IsHeldByStatus column → IsSome result }
{
    Some(match column {
        StatusColumn::State => i128::from(status.state),
        StatusColumn::StateType => i128::from(status.state_type),
        StatusColumn::HardState => i128::from(hard_state(status)),
        StatusColumn::LastHardState => i128::from(status.last_hard_state),
        StatusColumn::HasBeenChecked => i128::from(status.has_been_checked),
        StatusColumn::CurrentAttempt => i128::from(status.current_attempt),
        StatusColumn::LastCheck => i128::from(status.last_check),
        StatusColumn::LastStateChange => i128::from(status.last_state_change),
        StatusColumn::LastHardStateChange => i128::from(status.last_hard_state_change),
        StatusColumn::Acknowledged => i128::from(status.acknowledged),
        StatusColumn::AcknowledgementType => i128::from(status.acknowledgement_type),
        StatusColumn::NotificationsEnabled => i128::from(status.notifications_enabled),
        _ => return None,
    })
}

/// The text of a column that a status holds.
#[inline(always)]
pub(crate) fn status_text(status: &Status, column: StatusColumn) -> Option<&str>
    ensures value { (s : State) (about : Object) → IfSome result (λ text.
        status_cell s about status.now column ≡ Words text.now) }
    ensures given { HasTexts (status_kind column) → IsSome result }
{
    match column {
        StatusColumn::PluginOutput => Some(status.plugin_output.as_str()),
        StatusColumn::PerfData => Some(status.perf_data.as_str()),
        _ => None,
    }
}

impl<'a> Monitored<'a> {
    /// The value of a column on the status of a host or a service.
    pub(crate) fn status_value(
        &self,
        alloc: Global,
        column: StatusColumn,
    ) -> Result<Val<'a>, Memory>
        ensures value { IfOk result (λ v.
            meaning_of v
            ≡ status_cell self.now.live.now.state self.now.about self.now.status.now column) }
        ensures plain { IsPlain (status_kind column) → IsOk result }
    {
        let status = self.status;
        Ok(match column {
            StatusColumn::State => Val::Int(i128::from(status.state)),
            StatusColumn::StateType => Val::Int(i128::from(status.state_type)),
            StatusColumn::HardState => Val::Int(i128::from(hard_state(status))),
            StatusColumn::LastHardState => Val::Int(i128::from(status.last_hard_state)),
            StatusColumn::HasBeenChecked => Val::Int(i128::from(status.has_been_checked)),
            StatusColumn::CurrentAttempt => Val::Int(i128::from(status.current_attempt)),
            StatusColumn::LastCheck => Val::Int(i128::from(status.last_check)),
            StatusColumn::LastStateChange => Val::Int(i128::from(status.last_state_change)),
            StatusColumn::LastHardStateChange => {
                Val::Int(i128::from(status.last_hard_state_change))
            }
            StatusColumn::PluginOutput => Val::Str(status.plugin_output.as_str()),
            StatusColumn::PerfData => Val::Str(status.perf_data.as_str()),
            StatusColumn::Acknowledged => Val::Int(i128::from(status.acknowledged)),
            StatusColumn::AcknowledgementType => Val::Int(i128::from(status.acknowledgement_type)),
            StatusColumn::ScheduledDowntimeDepth => {
                Val::Int(depth_of(self.live, self.about) as i128)
            }
            StatusColumn::IsFlapping => Val::Int(flag(self.live.is_flapping(self.about))),
            StatusColumn::NotificationsEnabled => {
                Val::Int(i128::from(status.notifications_enabled))
            }
            StatusColumn::InNotificationPeriod => {
                Val::Int(flag(is_in_period(self.live, self.about)))
            }
            StatusColumn::Comments => comments_value(alloc, self.live, self.about)?,
            StatusColumn::Downtimes => downtimes_value(alloc, self.live, self.about)?,
        })
    }
}

/// Whether people are notified about an object at the present second, by its time period.
fn is_in_period(live: &Live, about: Object) -> bool
    ensures { result
        ≡ is_period_on live.now.state.log (notification_period_of live.now.state.base about) }
{
    live.is_period_on(notification_period_of(live.base(), about))
}

/// The name of the time period in which people are notified about an object.
pub fn notification_period_of(base: &Base, about: Object) -> &str
    ensures { result.now ≡ notification_period_of base.now about }
{
    let fields = match about {
        Object::Host(id) => base
            .hosts
            .as_slice()
            .get(id.0 as usize)
            .map(|host| &host.fields),
        Object::Service(id) => base
            .services
            .as_slice()
            .get(id.0 as usize)
            .map(|service| &service.fields),
    };
    match fields {
        Some(fields) => fields.notification_period.as_str(),
        None => "",
    }
}

/// The state where it is hard, else the last one that was. State 0 is hard at once.
fn hard_state(status: &Status) -> i64
    ensures { result ≡ hard_state status.now }
{
    if status.state == 0 {
        0
    } else if status.state_type == 1 {
        status.state
    } else {
        status.last_hard_state
    }
}

fn comments_value(alloc: Global, live: &Live, about: Object) -> Result<Val<'static>, Memory>
    ensures { IfOk result (λ v. meaning_of v ≡ Numbers (comment_ids_of live.now.state about)) }
{
    let ids = comment_ids_of(alloc, live, about)?;
    Ok(Val::Nums(Items::from_vec(ids)))
}

fn downtimes_value(alloc: Global, live: &Live, about: Object) -> Result<Val<'static>, Memory>
    ensures { IfOk result (λ v. meaning_of v ≡ Numbers (downtime_ids_of live.now.state about)) }
{
    let ids = downtime_ids_of(alloc, live, about)?;
    Ok(Val::Nums(Items::from_vec(ids)))
}
