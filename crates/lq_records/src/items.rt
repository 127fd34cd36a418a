ghost use Rattle.std.specs.Prelude.{◌≡◌, [], ◌∷◌, ◌++◌, length, ◌↔◌, IsTrue, OnOk, OnErr};

use crate::Memory;
use std::alloc::Global;
use std::hash::{Hash, Hasher};
use std::marker::Model;

/// A list in a field of the data. Contracts see it as the list of its items.
///
/// Its default is the list with no items, which takes no memory and no allocator.
pub struct Items<T> {
    /// None until the first item is added.
    inner: Option<Vec<T>>,
}

// Written by hand: where one is dropped a proof then meets a call, and not each of its forms.
impl<T: Drop> Drop for Items<T> {
    fn drop(self) {
        let Items { inner: _inner } = self;
    }
}

impl<T> Model for Items<T> {
    ghost use Rattle.std.specs.Prelude.{List};
    ghost use Rattle.lq_records.specs.Items.{items_in};

    ghost Value = { List T };

    ghost view = { λ list. items_in list.inner };
}

impl<T> Default for Items<T> {
    ghost is_default = { λ list. list ≡ [] };

    /// No items. It takes no memory.
    fn default() -> Self {
        Items { inner: None }
    }
}

impl<T> Items<T> {
    /// The items of a vector, in its order. It takes no memory.
    pub fn from_vec(inner: Vec<T>) -> Self
        ensures { result ≡ inner.items }
    {
        Items { inner: Some(inner) }
    }

    /// The items as a vector, in their order. It takes no memory.
    pub fn into_vec(self, alloc: Global) -> Vec<T>
    where
        T: Drop,
        ensures { result.items ≡ self }
    {
        let mut list = self;
        match list.inner.take() {
            Some(inner) => inner,
            None => Vec::new(alloc),
        }
    }

    /// Adds an item at the end. Where memory runs out, the list stays as it was and the item is
    /// dropped.
    pub fn push(&mut self, alloc: Global, item: T) -> Result<(), Memory>
    where
        T: Drop,
        ensures ok { OnOk result (self.new ≡ self.old ++ item ∷ []) }
        ensures err { OnErr result (self.new ≡ self.old) }
    {
        match &mut self.inner {
            Some(inner) => inner.push(item)?,
            None => {
                let mut inner = Vec::new(alloc);
                inner.push(item)?;
                self.inner = Some(inner);
            }
        }
        Ok(())
    }

    /// How many items it has.
    pub fn len(&self) -> usize
        ensures { result ≡ length self.now }
    {
        self.as_slice().len()
    }

    /// Whether it has no item.
    pub fn is_empty(&self) -> bool
        ensures { IsTrue result ↔ (self.now ≡ []) }
    {
        self.as_slice().is_empty()
    }

    /// The items, in order.
    #[inline]
    pub fn as_slice(&self) -> &[T]
        ensures { result.now ≡ self.now }
    {
        match &self.inner {
            Some(inner) => inner.as_slice(),
            None => &[],
        }
    }
}

impl<T: PartialEq> PartialEq for Items<T> {
    ghost use Rattle.std.specs.Cmp.Lexicographic.{pointwise, lists_per};

    ghost eq = { pointwise T.eq };

    ghost laws = { lists_per T.laws };

    fn eq(&self, other: &Self) -> bool {
        self.as_slice() == other.as_slice()
    }
}

impl<T: Eq> Eq for Items<T> {
    ghost use Rattle.std.specs.Cmp.Lexicographic.{lists_equiv};

    ghost laws = { lists_equiv T.Eq.laws };
}

impl<T: Hash> Hash for Items<T> {
    ghost use Rattle.std.specs.Hash as fed;
    ghost use Rattle.std.specs.Hash.{items_Alike};

    ghost hash_input = { fed.slice T.hash_input };

    ghost respects_eq = { (items_Alike (record { fed = T.respects_eq })).fed };

    fn hash<H: Hasher>(&self, state: &mut H) {
        self.as_slice().hash(state);
    }
}
