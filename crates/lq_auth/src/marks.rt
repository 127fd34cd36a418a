ghost use Rattle.std.specs.Prelude.{◌≡◌, ℕ, slice_index_or, false};
ghost use Rattle.std.specs.List.{list_all, list_any};
ghost use Rattle.lq_auth.specs.Rights.{is_group_seen};

use lq_records::{ContactGroupId, HostId, ServiceId};

/// The id of an object that a list has.
pub(crate) trait Listed: Copy {
    ghost place_of: { Self → ℕ };

    /// The object's place in the base's list of its kind.
    fn place(self) -> usize
        ensures { result ≡ place_of self };
}

impl Listed for HostId {
    ghost place_of = { λ id. id.0 };

    fn place(self) -> usize {
        self.0 as usize
    }
}

impl Listed for ServiceId {
    ghost place_of = { λ id. id.0 };

    fn place(self) -> usize {
        self.0 as usize
    }
}

impl Listed for ContactGroupId {
    ghost place_of = { λ id. id.0 };

    fn place(self) -> usize {
        self.0 as usize
    }
}

/// Whether a group with these members is seen, by the marks of those that are.
pub(crate) fn is_group_seen<I: Listed>(strict: bool, marks: &[bool], members: &[I]) -> bool
    ensures { result
        ≡ is_group_seen strict (λ id. slice_index_or marks.now (I.place_of id) false) members.now }
{
    if strict {
        !members.is_empty() && are_all_marked(marks, members)
    } else {
        is_one_marked(marks, members)
    }
}

/// Whether all of some objects are marked.
fn are_all_marked<I: Listed>(marks: &[bool], members: &[I]) -> bool
    ensures { result
        ≡ list_all (λ id. slice_index_or marks.now (I.place_of id) false) members.now }
{
    members.iter().all(|id| is_marked(marks, id.place()))
}

/// Whether one of some objects is marked.
pub(crate) fn is_one_marked<I: Listed>(marks: &[bool], members: &[I]) -> bool
    ensures { result
        ≡ list_any (λ id. slice_index_or marks.now (I.place_of id) false) members.now }
{
    members.iter().any(|id| is_marked(marks, id.place()))
}

/// The mark at a place, false where there is none.
pub(crate) fn is_marked(marks: &[bool], place: usize) -> bool
    ensures { result ≡ slice_index_or marks.now place false }
{
    match marks.get(place) {
        Some(mark) => *mark,
        None => false,
    }
}
