ghost use Rattle.std.specs.Prelude.{◌≡◌, ◌<◌, ◌++◌, ◌∷◌, [], None, Some, IfErr, IfSome, OnErr};
ghost use Rattle.std.specs.Prelude.{OnOk, length, position, slice_get};
ghost use Rattle.lq_stats.specs.Groups.{same_key};
ghost use Rattle.lq_stats.specs.Keys.{key_values};

use crate::key::KeyCell;
use indexmap::IndexSet;
use std::alloc::Global;
use std::marker::Model;

/// Different keys, in order. Contracts see them as lists of values.
#[derive(Drop)]
pub struct KeySet {
    keys: IndexSet<Vec<KeyCell>>,
}

impl Model for KeySet {
    ghost use Rattle.std.specs.Prelude.{List, map};
    ghost use Rattle.lq_stats.specs.Groups.{Key};

    ghost Value = { List Key };

    ghost use Rattle.lq_stats.specs.Keys.{key_values};

    ghost view = { λ set. map (λ key. key_values key.items) set.keys.keys };
}

impl KeySet {
    /// No keys. It takes no memory.
    pub fn new(alloc: Global) -> KeySet
        ensures { result ≡ [] }
    {
        KeySet {
            keys: IndexSet::new(alloc),
        }
    }

    /// Where a key stands, from 0 on. None where it isn't there.
    pub fn place(&self, key: &[KeyCell]) -> Option<usize>
        ensures value { result ≡ position (same_key (key_values key.now)) self.now }
        ensures within { IfSome result (λ place. place < length self.now) }
    {
        self.keys.get_index_of(key)
    }

    /// The key in a place.
    pub fn get(&self, place: usize) -> &[KeyCell]
        requires { place < length self.now }
        ensures { slice_get self.now place ≡ Some (key_values result.now) }
    {
        self.keys.as_slice()[place].as_slice()
    }

    /// Adds at the end a key that isn't there yet. Where memory runs out, the keys stay as they
    /// were and the key comes back.
    pub fn push(&mut self, key: Vec<KeyCell>) -> Result<(), Vec<KeyCell>>
        requires { position (same_key (key_values key.items)) self.old ≡ None }
        ensures ok { OnOk result (self.new ≡ self.old ++ key_values key.items ∷ []) }
        ensures err { OnErr result (self.new ≡ self.old) }
        ensures back { IfErr result (λ same. same ≡ key) }
    {
        let Err(refused) = self.keys.insert(key) else {
            return Ok(());
        };
        Err(refused.value)
    }
}
