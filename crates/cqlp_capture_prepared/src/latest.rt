//! Values under their keys, of which the latest stay.

ghost use Rattle.std.specs.Prelude.{◌≡◌, ◌↔◌, IfOk, IsErrOf, option_map, position};
ghost use Rattle.std.specs.Map.{lookup};
ghost use Rattle.cqlp_capture_prepared.specs.Latest.{in_front, none_yet, put, used, without};

use crate::error::NewPreparedError;
use std::alloc::{Allocator, Global};
use std::marker::Model;

/// Values under their keys, at most as many as the limit: the one that was put or used last comes first, and where all places are taken the
/// one goes that was put or used longest ago. All memory is taken in `new`.
#[derive(Drop)]
pub struct Latest<K, V, A: Allocator = Global> {
    limit: u16,
    entries: Vec<(K, V), A>,
}

impl<K, V, A: Allocator> Model for Latest<K, V, A> {
    ghost use Rattle.std.specs.Prelude.{vec_capacity};
    ghost use Rattle.cqlp_capture_prepared.specs.Latest.{Latest, HasRoom, latest};

    ghost Value = { Latest K V };

    ghost view = { λ l. latest l.limit l.entries.items };

    ghost invariant = { λ l. HasRoom l.limit l.entries.items (vec_capacity l.entries) };
}

impl<K: Eq + Drop, V: Drop, A: Allocator> Latest<K, V, A> {
    /// None yet. At most `limit` will be, 1 to 65,535. All memory is taken here, in one request: so many times the size of a key and a value.
    pub fn new(alloc: A, limit: u16) -> Result<Self, NewPreparedError>
        ensures bad { IsErrOf result NewPreparedError.BadLimit ↔ (limit ≡ 0) }
        ensures fresh { IfOk result (λ l. l ≡ none_yet limit) }
    {
        if limit == 0 {
            return Err(NewPreparedError::BadLimit);
        }
        Ok(Latest {
            limit,
            entries: Vec::with_capacity(alloc, limit as usize)?,
        })
    }

    /// The value under a key.
    pub fn get(&self, key: &K) -> Option<&V>
        ensures { option_map (λ v. v.now) result ≡ lookup (K.eq key.now) self.now.entries }
    {
        let at = self.place_of(key)?;
        Some(&self.entries[at].1)
    }

    /// Puts a value under a key, in the place of the one that was there.
    pub fn put(&mut self, key: K, value: V)
        ensures { self.new ≡ put K.eq key value self.old }
    {
        let _ = self.take(&key);
        self.push_front((key, value));
    }

    /// Says of the value under a key that it is used.
    pub fn touch(&mut self, key: &K)
        ensures { self.new ≡ used (K.eq key.now) self.old }
    {
        match self.place_of(key) {
            Some(at) => {
                let entry = self.entries.remove(at);
                self.push_front(entry);
            }
            None => {}
        }
    }

    /// Takes the value under a key away.
    pub fn take(&mut self, key: &K) -> Option<V>
        ensures value { result ≡ lookup (K.eq key.now) self.old.entries }
        ensures others { self.new ≡ without (K.eq key.now) self.old }
    {
        let at = self.place_of(key)?;
        let (_, value) = self.entries.remove(at);
        Some(value)
    }

    /// Takes all away, and keeps the memory.
    pub fn clear(&mut self)
        ensures { self.new ≡ none_yet self.old.limit }
    {
        self.entries.clear();
    }

    /// The place of what is under a key.
    fn place_of(&self, key: &K) -> Option<usize>
        ensures { result ≡ position (λ e. K.eq key.now e.0) self.now.entries }
    {
        self.entries.iter().position(|entry| *key == entry.0)
    }

    fn push_front(&mut self, entry: (K, V))
        ensures { self.new ≡ in_front entry self.old }
    {
        self.entries.truncate(self.limit as usize - 1);
        self.entries.push_reserved(entry);
        self.entries.rotate_right(1);
    }
}
