ghost use Rattle.std.specs.Prelude.{◌≡◌, ◌≤◌, ◌&&◌, filter, length, map, not, vec_capacity};
ghost use Rattle.std.specs.Prelude.{vec_len};
ghost use Rattle.lq_live.specs.Downtimes.{is_active_of};
ghost use Rattle.lq_live.specs.Edits.{begun_by, ends_after, downtimes_at};
ghost use Rattle.lq_live.specs.Depths.{is_active_at};
ghost use Rattle.lq_live.specs.Effects.{has_id_and_kind};
ghost use Rattle.lq_live.specs.Kept.{AllFrom, IsFrom, earliest_second, next_of};

use crate::comments::has_id_and_kind;
use lq_events::Downtime;
use lq_records::{Object, ObjectKind};

/// Lets all happen that is due by a second: the downtimes that have ended go, and those whose start
/// has come become active.
pub(crate) fn settle(downtimes: &mut Vec<Downtime>, second: u64)
    ensures settled { downtimes.new.items ≡ downtimes_at second downtimes.old.items }
    ensures capacity { vec_capacity downtimes.new ≡ vec_capacity downtimes.old }
    ensures shorter { vec_len downtimes.new ≤ vec_len downtimes.old }
{
    end_all(downtimes, second);
    begin_all(downtimes, second);
}

/// Removes the downtimes that have ended.
fn end_all(downtimes: &mut Vec<Downtime>, second: u64)
    ensures kept { downtimes.new.items ≡ filter (ends_after second) downtimes.old.items }
    ensures capacity { vec_capacity downtimes.new ≡ vec_capacity downtimes.old }
    ensures shorter { vec_len downtimes.new ≤ vec_len downtimes.old }
{
    downtimes.retain(|downtime| second < downtime.end);
}

/// Makes the downtimes active whose start has come.
fn begin_all(downtimes: &mut [Downtime], second: u64)
    ensures { downtimes.new ≡ map (begun_by second) downtimes.old }
{
    for downtime in downtimes.iter_mut() {
        begin(downtime, second);
    }
}

fn begin(downtime: &mut Downtime, second: u64)
    ensures { downtime.new ≡ begun_by second downtime.old }
{
    if downtime.start <= second {
        downtime.active = true;
    }
}

/// Removes the downtime that has an id, of an object of a kind.
pub(crate) fn remove(downtimes: &mut Vec<Downtime>, kind: ObjectKind, id: u64)
    ensures kept { downtimes.new.items ≡ filter
        (λ downtime. not (has_id_and_kind kind id downtime.id downtime.object))
        downtimes.old.items }
    ensures capacity { vec_capacity downtimes.new ≡ vec_capacity downtimes.old }
    ensures shorter { vec_len downtimes.new ≤ vec_len downtimes.old }
{
    downtimes.retain(|downtime| !has_id_and_kind(kind, id, downtime.id, downtime.object));
}

/// The number of an object's downtimes that are active at a second.
pub(crate) fn count_at(downtimes: &[Downtime], second: u64, object: Object) -> usize
    ensures { result ≡ length (filter (is_active_at second object) downtimes.now) }
{
    downtimes
        .iter()
        .filter(|downtime| is_active_at(downtime, second, object))
        .count()
}

/// A downtime that is removed: its id, the kind of object that its command names, and its object.
#[derive(Clone, Copy)]
pub(crate) struct Removal {
    pub(crate) kind: ObjectKind,
    pub(crate) id: u64,
    pub(crate) object: Object,
}

/// The same number without the downtime that is removed.
pub(crate) fn count_without(downtimes: &[Downtime], second: u64, removal: Removal) -> usize
    ensures { result ≡ length (filter (λ downtime. is_active_at second removal.object downtime
        && not (has_id_and_kind removal.kind removal.id downtime.id downtime.object))
        downtimes.now) }
{
    downtimes
        .iter()
        .filter(|downtime| is_left_at(downtime, second, removal))
        .count()
}

fn is_left_at(downtime: &Downtime, second: u64, removal: Removal) -> bool
    ensures { result ≡ (is_active_at second removal.object downtime.now
        && not (has_id_and_kind removal.kind removal.id downtime.now.id downtime.now.object)) }
{
    is_active_at(downtime, second, removal.object)
        && !has_id_and_kind(removal.kind, removal.id, downtime.id, downtime.object)
}

/// Whether a downtime is one of an object, and active at a second.
fn is_active_at(downtime: &Downtime, second: u64, object: Object) -> bool
    ensures { result ≡ is_active_at second object downtime.now }
{
    second < downtime.end && has_begun_of(downtime, second, object)
}

fn has_begun_of(downtime: &Downtime, second: u64, object: Object) -> bool
    ensures { result ≡ is_active_of object (begun_by second downtime.now) }
{
    (downtime.active || downtime.start <= second) && downtime.object.is_same(object)
}

/// The first second at which a downtime begins or ends, as far as that is still to come.
#[tactic(auto, using(crate::proofs::Ahead::next_from))]
pub(crate) fn next_moment(downtime: &Downtime) -> u64
    ensures value { result ≡ next_of downtime.now }
    ensures from { IsFrom result downtime.now }
{
    if downtime.active {
        downtime.end
    } else {
        downtime.start.min(downtime.end)
    }
}

/// A second before which no downtime begins or ends.
#[tactic(auto, using(crate::proofs::Ahead::all_from_first))]
pub(crate) fn first_moment(downtimes: &[Downtime]) -> u64
    ensures { AllFrom result downtimes.now }
{
    earliest_second(downtimes)
}

fn earliest_second(downtimes: &[Downtime]) -> u64
    ensures { result ≡ earliest_second downtimes.now }
{
    let mut first = u64::MAX;
    let mut i = downtimes.len();
    'downtimes: while i > 0 {
        i -= 1;
        first = first.min(next_moment(&downtimes[i]));
    }
    first
}
