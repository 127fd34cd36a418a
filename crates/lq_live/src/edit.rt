ghost use Rattle.std.specs.Prelude.{◌≡◌, ℕ, ◌+◌, ◌<◌, ◌≤◌, ◌^◌, ◌∷◌, [], OnOk, OnErr, length};
ghost use Rattle.lq_live.specs.Edits.{make_edit, play_edits};
ghost use Rattle.lq_live.specs.declared.edit.Edit.TheVariants as edit;
ghost use Rattle.lq_live.specs.Kept.{HasIds, HasRoom, IsIndexed, Timely, state_of};
ghost use Rattle.lq_live.specs.State.{with_status};
ghost use Rattle.lq_log.specs.Book.{last_time};

use crate::downtimes::{first_moment, next_moment};
use crate::live_state::{LiveState, set_acknowledgement, set_notifications, set_status};
use crate::{comments, downtimes};
use lq_events::{Comment, Downtime, LogEntry, Status};
use lq_records::{Memory, Object, ObjectKind};

/// A single change of a state.
#[derive(Drop)]
pub(crate) enum Edit {
    /// The present second is another, and all that is due by then happens to the downtimes.
    Now(u64),
    Line(LogEntry),
    SetStatus(Object, Status),
    /// 0 none, 1 normal, 2 sticky.
    SetAcknowledgement(Object, u8),
    SetNotifications(Object, u8),
    /// The comments that go with an object's acknowledgement end.
    EndAcknowledgement(Object),
    AddComment(Comment),
    RemoveComment { kind: ObjectKind, id: u64 },
    AddDowntime(Downtime),
    RemoveDowntime { kind: ObjectKind, id: u64 },
    NotifyAtAll(bool),
}

/// Makes room for so many edits.
pub(crate) fn reserve(live: &mut LiveState, count: usize) -> Result<(), Memory>
    requires { HasIds live.old }
    ensures kept { state_of live.new ≡ state_of live.old }
    ensures index { IsIndexed live.old → IsIndexed live.new }
    ensures lines { OnOk result (length live.new.log.entries ≤ 2 ^ 40) }
    ensures ok { OnOk result (HasRoom live.new count) }
{
    live.log.reserve(count)?;
    live.comments.reserve(count)?;
    live.downtimes.reserve(count)?;
    Ok(())
}

/// Makes an edit, for which there is room.
pub(crate) fn make_edit(live: &mut LiveState, edit: Edit)
    requires index { IsIndexed live.old }
    requires room { HasRoom live.old 1 }
    requires timely { Timely (last_time live.old.log.entries) (edit ∷ []) }
    ensures state { state_of live.new ≡ make_edit edit (state_of live.old) }
    ensures index { IsIndexed live.new }
    ensures room { (n : ℕ) → HasRoom live.old (n + 1) → HasRoom live.new n }
{
    match edit {
        Edit::Now(second) => move_on(live, second),
        Edit::Line(entry) => {
            live.told.add_line(&live.base, &entry);
            let _ = live.log.add(entry);
        }
        Edit::SetStatus(Object::Host(id), status) => {
            set_status(&mut live.host_status, id.0 as usize, status);
        }
        Edit::SetStatus(Object::Service(id), status) => {
            set_status(&mut live.service_status, id.0 as usize, status);
        }
        Edit::SetAcknowledgement(Object::Host(id), kind) => {
            set_acknowledgement(&mut live.host_status, id.0 as usize, kind);
        }
        Edit::SetAcknowledgement(Object::Service(id), kind) => {
            set_acknowledgement(&mut live.service_status, id.0 as usize, kind);
        }
        Edit::SetNotifications(Object::Host(id), on) => {
            set_notifications(&mut live.host_status, id.0 as usize, on);
        }
        Edit::SetNotifications(Object::Service(id), on) => {
            set_notifications(&mut live.service_status, id.0 as usize, on);
        }
        Edit::EndAcknowledgement(object) => {
            comments::remove_of_acknowledgement(&mut live.comments, object);
        }
        Edit::AddComment(comment) => {
            live.comments.push_reserved(comment);
            live.next_comment += 1;
        }
        Edit::RemoveComment { kind, id } => {
            comments::remove(&mut live.comments, kind, id);
        }
        Edit::AddDowntime(downtime) => {
            live.next_moment = live.next_moment.min(next_moment(&downtime));
            live.downtimes.push_reserved(downtime);
            live.next_downtime += 1;
        }
        Edit::RemoveDowntime { kind, id } => {
            downtimes::remove(&mut live.downtimes, kind, id);
        }
        Edit::NotifyAtAll(on) => live.notifications = on,
    }
}

/// Lets the present second be another, and all that is due by then happen to the downtimes.
fn move_on(live: &mut LiveState, second: u64)
    requires { IsIndexed live.old }
    ensures state { state_of live.new ≡ make_edit (edit.Now second) (state_of live.old) }
    ensures index { IsIndexed live.new }
    ensures room { (n : ℕ) → HasRoom live.old n → HasRoom live.new n }
{
    live.present = second;
    if second < live.next_moment {
        return;
    }
    downtimes::settle(&mut live.downtimes, second);
    live.next_moment = first_moment(&live.downtimes);
}

/// Makes edits in their order.
pub(crate) fn play(live: &mut LiveState, edits: Vec<Edit>)
    requires index { IsIndexed live.old }
    requires room { HasRoom live.old (length edits.items) }
    requires timely { Timely (last_time live.old.log.entries) edits.items }
    ensures state { state_of live.new ≡ play_edits edits.items (state_of live.old) }
    ensures index { IsIndexed live.new }
{
    'edits: for edit in edits {
        make_edit(live, edit);
    }
}
