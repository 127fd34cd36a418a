ghost use Rattle.std.specs.Prelude.{◌≡◌, ◌++◌, ◌∷◌, ◌<◌, ◌+◌, ◌^◌, [], length, map, false, None, OnOk};
ghost use Rattle.std.specs.Prelude.{OnErr, IfSome, Some, slice_get};
ghost use Rattle.std.specs.List.{list_any};
ghost use Rattle.lq_names.specs.Names.{is_equal_name, both_parts, place_of};

use crate::name::ObjectName;
use indexmap::IndexSet;
use lq_records::Text;
use std::alloc::{AllocError, Global};
use std::marker::Model;

/// Different names of one kind in order, with the place of each. Contracts see them as a list.
/// There are fewer than 2 ^ 32, so that a `u32` holds each place: who adds one sees to that.
pub struct NameIndex {
    names: IndexSet<(Text, Text)>,
}

// Written by hand: where one is dropped a proof then meets a call, and not each of the fields.
impl Drop for NameIndex {
    fn drop(self) {
        let NameIndex { names: _names } = self;
    }
}

impl Model for NameIndex {
    ghost use Rattle.std.specs.Prelude.{List, ◌<◌, ◌^◌, length, map};
    ghost use Rattle.lq_names.specs.Names.{ObjectName};

    ghost Value = { List ObjectName };

    ghost view = { λ index.
        map (λ key. record { first = key.0; second = key.1 }) index.names.keys };

    ghost invariant = { λ index. length index.names.keys < 2 ^ 32 };
}

impl NameIndex {
    /// No names. It takes no memory.
    pub fn new(alloc: Global) -> Self
        ensures { result ≡ [] }
    {
        NameIndex {
            names: IndexSet::new(alloc),
        }
    }

    /// How many names there are.
    pub fn len(&self) -> usize
        ensures { result ≡ length self.now }
    {
        self.names.len()
    }

    /// The place of a name, from 0 on. None where it isn't there.
    pub fn find(&self, name: &ObjectName) -> Option<u32>
        ensures value { result ≡ place_of self.now name.now }
        ensures within { IfSome result (λ place. place < length self.now) }
    {
        match self.names.get_index_of(name.parts()) {
            Some(place) => Some(place as u32),
            None => None,
        }
    }

    /// Both parts of the name at a place.
    pub fn parts_at(&self, place: usize) -> &(Text, Text)
        requires { place < length self.now }
        ensures { slice_get (map both_parts self.now) place ≡ Some result.now }
    {
        &self.names[place]
    }

    /// Whether a name is there.
    pub fn contains(&self, name: &ObjectName) -> bool
        ensures value { result ≡ list_any (is_equal_name name.now) self.now }
        ensures absent { result ≡ false → place_of self.now name.now ≡ None }
    {
        self.find(name).is_some()
    }

    /// Adds at the end a name that isn't there yet. The only error is that memory runs out; the
    /// names then stay as they were.
    pub fn push(&mut self, name: ObjectName) -> Result<(), AllocError>
        requires new { place_of self.old name ≡ None }
        requires few { length self.old + 1 < 2 ^ 32 }
        ensures ok { OnOk result (self.new ≡ self.old ++ name ∷ []) }
        ensures err { OnErr result (self.new ≡ self.old) }
    {
        let Ok(_) = self.names.insert(name.into_parts()) else {
            return Err(AllocError);
        };
        Ok(())
    }

    /// The names in order, each as its two parts. It takes no memory.
    pub fn into_names(self) -> IndexSet<(Text, Text)>
        ensures names { result.keys ≡ map both_parts self }
        ensures few { length result.keys < 2 ^ 32 }
    {
        let NameIndex { names } = self;
        names
    }
}
