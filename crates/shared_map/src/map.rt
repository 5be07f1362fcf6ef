// An ordered map whose forks share what neither has changed.
ghost use Rattle.std.specs.Prelude.{◌≡◌, List, [], Some, None, OnOk, OnErr, IfOk};
ghost use Rattle.std.specs.Option.{option_copied};
ghost use Rattle.std.specs.List.Sorted.{IsStrictlySortedBy};
ghost use Rattle.std.specs.Map.{keys_of};
ghost use Rattle.std.specs.Arc.{arc_value};
ghost use Rattle.shared_map.specs.Entries.{value_at, with_entry, without_key, entries_from};
ghost use Rattle.shared_map.specs.Entries.{Updates};
ghost use Rattle.shared_map.specs.Shelves.{pointed};

use crate::entries::Entries;
use crate::flags::Flags;
use crate::own::{all_shared, put, take_out};
use crate::place::{place, start};
use crate::shelf::{Shelf, entries_of, look_up, shelf_shared, take_off};
use std::alloc::{AllocError, Global};
use std::marker::Model;
use std::sync::Arc;

/// An ordered map.
///
/// A fork shares each entry with the map that it was forked from, and costs as many steps as
/// entries were changed of late, about twice the root of how many there are at most. After a
/// refusal for memory a map is as it was.
#[derive(Drop)]
pub struct SharedMap<K: Ord, V> {
    // What was there when the shelf was made.
    shelf: Shelf<K, V>,
    // Which entries of the shelf were removed since.
    gone: Flags,
    // How often that was.
    taken: usize,
    // The entries that were inserted since. They count before those of the shelf.
    own: Vec<Arc<(K, V)>>,
    alloc: Global,
}

impl<K: Ord, V> Model for SharedMap<K, V> {
    ghost use Rattle.std.specs.Prelude.{List};
    ghost use Rattle.shared_map.specs.Shelves.{on_shelf, pointed, unflagged, laid_over};
    ghost use Rattle.shared_map.specs.Shelves.{IsShelved};

    ghost Value = { List (K × V) };

    ghost view = { λ m.
        laid_over K.cmp (pointed m.own.items) (unflagged m.gone (on_shelf m.shelf)) };

    ghost invariant = { λ m.
        IsShelved K.cmp (pointed m.own.items) (on_shelf m.shelf) m.gone };
}

impl<K: Ord + Drop, V: Drop> SharedMap<K, V> {
    /// The map of no entries.
    pub fn new(alloc: Global) -> SharedMap<K, V>
        ensures { result ≡ [] }
    {
        SharedMap {
            shelf: None,
            gone: Flags::empty(alloc),
            taken: 0,
            own: Vec::new(alloc),
            alloc,
        }
    }

    /// A law: the keys of a map ascend.
    pub fn in_order(&self)
        ensures { IsStrictlySortedBy K.cmp (keys_of self.now) }
    {
        let _ = &self.own;
    }

    /// The value at a key.
    pub fn get(&self, key: &K) -> Option<&V>
        ensures { option_copied result ≡ value_at K.cmp self.now key.now }
    {
        match place(self.own.as_slice(), key) {
            Ok(at) => Some(&self.own[at].1),
            Err(_) => look_up(entries_of(&self.shelf), &self.gone, key),
        }
    }

    /// The entries, in order.
    pub fn iter(&self) -> Entries<'_, K, V>
        ensures { result ≡ self.now }
    {
        Entries {
            own: self.own.as_slice(),
            shelf: entries_of(&self.shelf),
            gone: &self.gone,
            own_at: 0,
            shelf_at: 0,
        }
    }

    /// The entries whose keys aren't below this one, in order. The others cost no step.
    pub fn iter_from(&self, key: &K) -> Entries<'_, K, V>
        ensures { result ≡ entries_from K.cmp self.now key.now }
    {
        let own = self.own.as_slice();
        let shelf = entries_of(&self.shelf);
        Entries {
            own,
            shelf,
            gone: &self.gone,
            own_at: start(own, key),
            shelf_at: start(shelf, key),
        }
    }

    // Whether so many entries were changed that a new shelf is worth its cost.
    fn is_wide(&self) -> bool {
        let changed = self.own.len().saturating_add(self.taken);
        let room = entries_of(&self.shelf).len().saturating_add(64);
        changed.saturating_mul(changed) > room.saturating_mul(4)
    }

    // An equal map, with the shelf that this one has.
    fn shared(&self) -> Result<SharedMap<K, V>, AllocError>
        ensures { IfOk result (λ map. map ≡ self.now) }
    {
        let gone = self.gone.copied(self.alloc)?;
        let shelf = shelf_shared(&self.shelf)?;
        let own = all_shared(self.alloc, self.own.as_slice())?;
        Ok(SharedMap {
            shelf,
            gone,
            taken: self.taken,
            own,
            alloc: self.alloc,
        })
    }

    // The entries, to be shared.
    fn gathered(&self) -> Result<Vec<Arc<(K, V)>>, AllocError>
        ensures { IfOk result (λ list. pointed list.items ≡ self.now) }
    {
        let mut list = Vec::new(self.alloc);
        let mut left = self.iter();
        while let Some(entry) = left.next_shared() {
            list.push(Arc::try_clone(entry)?)?;
        }
        Ok(list)
    }

    // An equal map, with a shelf of its own.
    fn shelved(&self) -> Result<SharedMap<K, V>, AllocError>
        ensures { IfOk result (λ map. map ≡ self.now) }
    {
        self.in_order();
        let entries = self.gathered()?;
        let gone = Flags::none(self.alloc, entries.len())?;
        Ok(SharedMap {
            shelf: Some(Arc::new(self.alloc, entries)?),
            gone,
            taken: 0,
            own: Vec::new(self.alloc),
            alloc: self.alloc,
        })
    }

    // Puts what was changed on a new shelf.
    fn settle(&mut self) -> Result<(), AllocError>
        ensures { self.new ≡ self.old }
    {
        *self = self.shelved()?;
        Ok(())
    }

    /// An equal map.
    pub fn fork(&self) -> Result<SharedMap<K, V>, AllocError>
        ensures { IfOk result (λ child. child ≡ self.now) }
    {
        if self.is_wide() {
            self.shelved()
        } else {
            self.shared()
        }
    }

    // Puts an entry in its place.
    fn put(&mut self, entry: Arc<(K, V)>) -> Result<(), AllocError>
        ensures ok { OnOk result (self.new ≡ with_entry K.cmp self.old (arc_value entry)) }
        ensures err { OnErr result (self.new ≡ self.old) }
    {
        put(&mut self.own, entry)
    }

    /// Gives a key this value.
    pub fn insert(&mut self, key: K, value: V) -> Result<(), AllocError>
        ensures ok { OnOk result (self.new ≡ with_entry K.cmp self.old (key, value)) }
        ensures updates { OnOk result (Updates K.cmp self.old self.new key (Some value)) }
        ensures err { OnErr result (self.new ≡ self.old) }
    {
        let entry = Arc::new(self.alloc, (key, value))?;
        if self.is_wide() {
            self.settle()?;
        }
        self.put(entry)
    }

    /// Drops the entry with a key, if there is one. It takes no memory.
    pub fn remove(&mut self, key: &K)
        ensures is { self.new ≡ without_key K.cmp self.old key.now }
        ensures updates { Updates K.cmp self.old self.new key.now None }
    {
        take_out(&mut self.own, key);
        let was_there = take_off(entries_of(&self.shelf), &mut self.gone, key);
        self.taken = self.taken.saturating_add(was_there as usize);
    }
}
