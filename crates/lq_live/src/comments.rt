ghost use Rattle.std.specs.Prelude.{◌≡◌, ◌≤◌, filter, not, vec_capacity, vec_len};
ghost use Rattle.lq_live.specs.Effects.{goes_with_acknowledgement, has_id_and_kind};

use lq_events::Comment;
use lq_records::{Object, ObjectKind};

/// The entry type of a comment that somebody made by itself.
pub(crate) const USER_COMMENT: u8 = 1;

/// The entry type of a comment that was made with an acknowledgement.
pub(crate) const ACKNOWLEDGEMENT_COMMENT: u8 = 4;

/// Removes the comments that go with an object's acknowledgement.
pub(crate) fn remove_of_acknowledgement(comments: &mut Vec<Comment>, object: Object)
    ensures kept { comments.new.items
        ≡ filter (λ comment. not (goes_with_acknowledgement object comment)) comments.old.items }
    ensures capacity { vec_capacity comments.new ≡ vec_capacity comments.old }
    ensures shorter { vec_len comments.new ≤ vec_len comments.old }
{
    comments.retain(|comment| !goes_with_acknowledgement(object, comment));
}

fn goes_with_acknowledgement(object: Object, comment: &Comment) -> bool
    ensures { result ≡ goes_with_acknowledgement object comment.now }
{
    comment.object.is_same(object)
        && comment.entry_type == ACKNOWLEDGEMENT_COMMENT
        && comment.persistent == 0
}

/// Removes the comment that has an id, of an object of a kind.
pub(crate) fn remove(comments: &mut Vec<Comment>, kind: ObjectKind, id: u64)
    ensures kept { comments.new.items ≡ filter
        (λ comment. not (has_id_and_kind kind id comment.id comment.object)) comments.old.items }
    ensures capacity { vec_capacity comments.new ≡ vec_capacity comments.old }
    ensures shorter { vec_len comments.new ≤ vec_len comments.old }
{
    comments.retain(|comment| !has_id_and_kind(kind, id, comment.id, comment.object));
}

/// Whether something has an id and is about an object of a kind.
pub(crate) fn has_id_and_kind(kind: ObjectKind, id: u64, own_id: u64, object: Object) -> bool
    ensures { result ≡ has_id_and_kind kind id own_id object }
{
    own_id == id && object.kind().is_same(kind)
}
