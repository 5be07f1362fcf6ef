// A walk over the entries of a map, in order.
ghost use Rattle.std.specs.Prelude.{◌≡◌, ℕ, ◌<◌, ◌≤◌, MatchOption, [], ◌∷◌, List, length, true, false};
ghost use Rattle.std.specs.Iterator.{YieldsFirstRef, item_count};
ghost use Rattle.std.specs.Prelude.{slice_index_or};
ghost use Rattle.shared_map.specs.Shelves.{pointed};
ghost use Rattle.std.specs.Arc.{arc_value};

use crate::flags::Flags;
use std::cmp::Ordering;
use std::marker::Model;
use std::sync::Arc;

/// The entries of a map that a walk has still before it.
#[derive(Drop)]
pub struct Entries<'a, K: Ord, V> {
    pub(crate) own: &'a [Arc<(K, V)>],
    pub(crate) shelf: &'a [Arc<(K, V)>],
    pub(crate) gone: &'a Flags,
    pub(crate) own_at: usize,
    pub(crate) shelf_at: usize,
}

impl<'a, K: Ord, V> Model for Entries<'a, K, V> {
    ghost use Rattle.std.specs.Prelude.{List, ◌≤◌, drop, length};
    ghost use Rattle.shared_map.specs.Shelves.{pointed, unflagged, laid_over, IsShelved, IsWalk, to_walk};

    ghost Value = { List (K × V) };

    ghost view = { λ w. to_walk K.cmp (pointed w.own.now) (pointed w.shelf.now) w.gone.now w.own_at w.shelf_at };

    ghost invariant = { λ w. IsWalk K.cmp (pointed w.own.now) (pointed w.shelf.now) w.gone.now w.own_at w.shelf_at };
}

/// The first place from one on that has no flag.
fn first_unflagged(gone: &Flags, from: usize, len: usize) -> usize
    requires flags { length gone.now ≡ len }
    requires within { from ≤ len }
    ensures within { (from ≤ result) × (result ≤ len) }
    ensures set { (k : ℕ) → from ≤ k → k < result → slice_index_or gone.now k false ≡ true }
    ensures unset { result < len → slice_index_or gone.now result false ≡ false }
{
    for at in from..len {
        if !gone.is_set(at) {
            return at;
        }
    }
    len
}

/// The entry at a place, if that is within them.
fn entry_at<K, V>(entries: &[Arc<(K, V)>], at: usize) -> Option<&Arc<(K, V)>>
    ensures { MatchOption result (length (pointed entries.now) ≤ at)
        (λ e. (at < length (pointed entries.now))
        × (slice_index_or (pointed entries.now) at (arc_value e.now) ≡ arc_value e.now)) }
{
    if at < entries.len() {
        Some(&entries[at])
    } else {
        None
    }
}

impl<'a, K: Ord, V> Entries<'a, K, V> {
    /// The next entry, as it is shared.
    pub(crate) fn next_shared(&mut self) -> Option<&'a Arc<(K, V)>>
        ensures { MatchOption result ((self.old ≡ []) × (self.new ≡ []))
            (λ entry. self.old ≡ arc_value entry.now ∷ self.new) }
    {
        self.shelf_at = first_unflagged(self.gone, self.shelf_at, self.shelf.len());
        match (
            entry_at(self.own, self.own_at),
            entry_at(self.shelf, self.shelf_at),
        ) {
            (None, None) => None,
            (Some(mine), None) => {
                self.own_at += 1;
                Some(mine)
            }
            (None, Some(kept)) => {
                self.shelf_at += 1;
                Some(kept)
            }
            (Some(mine), Some(kept)) => match mine.0.cmp(&kept.0) {
                Ordering::Less => {
                    self.own_at += 1;
                    Some(mine)
                }
                Ordering::Equal => {
                    self.own_at += 1;
                    self.shelf_at += 1;
                    Some(mine)
                }
                Ordering::Greater => {
                    self.shelf_at += 1;
                    Some(kept)
                }
            },
        }
    }
}

impl<'a, K: Ord, V> Iterator for Entries<'a, K, V> {
    type Item = &'a (K, V);

    ghost next_gives = { YieldsFirstRef (λ rest. rest) };

    ghost remaining = { item_count (λ rest. rest) };

    fn next(&mut self) -> Option<&'a (K, V)> {
        match self.next_shared() {
            Some(entry) => Some(&**entry),
            None => None,
        }
    }
}
