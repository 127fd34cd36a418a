ghost use Rattle.std.specs.Prelude.{◌≡◌, IfOk};
ghost use Rattle.lq_columns.specs.Cells.{comment_ids_of, depth_of, downtime_ids_of};

use lq_live::Live;
use lq_records::{Memory, Object};
use std::alloc::Global;

/// How many downtimes of an object hold.
pub(crate) fn depth_of(live: &Live, about: Object) -> usize
    ensures { result ≡ depth_of live.now.state about }
{
    live.downtimes()
        .iter()
        .filter(|downtime| downtime.active && downtime.object.is_same(about))
        .count()
}

/// The ids of an object's downtimes, in order.
pub(crate) fn downtime_ids_of(alloc: Global, live: &Live, about: Object) -> Result<Vec<u64>, Memory>
    ensures { IfOk result (λ ids. ids.items ≡ downtime_ids_of live.now.state about) }
{
    live.downtimes()
        .iter()
        .filter(|downtime| downtime.object.is_same(about))
        .map(|downtime| downtime.id)
        .collect(alloc)
}

/// The ids of an object's comments, in order.
pub(crate) fn comment_ids_of(alloc: Global, live: &Live, about: Object) -> Result<Vec<u64>, Memory>
    ensures { IfOk result (λ ids. ids.items ≡ comment_ids_of live.now.state about) }
{
    live.comments()
        .iter()
        .filter(|comment| comment.object.is_same(about))
        .map(|comment| comment.id)
        .collect(alloc)
}
