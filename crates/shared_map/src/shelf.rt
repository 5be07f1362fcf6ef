// A shelf of entries, which maps share, and flags for those that are gone from it.
ghost use Rattle.std.specs.Prelude.{◌≡◌, IfOk, length};
ghost use Rattle.std.specs.Option.{option_copied};
ghost use Rattle.std.specs.List.Sorted.{IsStrictlySortedBy};
ghost use Rattle.std.specs.Map.{keys_of};
ghost use Rattle.shared_map.specs.Entries.{value_at, without_key};
ghost use Rattle.shared_map.specs.Shelves.{on_shelf, pointed, unflagged};

use crate::flags::Flags;
use crate::place::place;
use std::alloc::AllocError;
use std::sync::Arc;

/// Entries in order, which maps share as they are.
pub(crate) type Shelf<K, V> = Option<Arc<Vec<Arc<(K, V)>>>>;

/// The entries of a shelf.
pub(crate) fn entries_of<K, V>(shelf: &Shelf<K, V>) -> &[Arc<(K, V)>]
    ensures { pointed result.now ≡ on_shelf shelf.now }
{
    match shelf {
        Some(entries) => entries.as_slice(),
        None => &[],
    }
}

/// The same shelf.
pub(crate) fn shelf_shared<K, V>(shelf: &Shelf<K, V>) -> Result<Shelf<K, V>, AllocError>
    ensures { IfOk result (λ other. on_shelf other ≡ on_shelf shelf.now) }
{
    match shelf {
        Some(entries) => Ok(Some(Arc::try_clone(entries)?)),
        None => Ok(None),
    }
}

/// The value of an entry that isn't gone.
pub(crate) fn look_up<'a, K: Ord, V>(
    entries: &'a [Arc<(K, V)>],
    gone: &Flags,
    key: &K,
) -> Option<&'a V>
    requires flags { length gone.now ≡ length (pointed entries.now) }
    requires sorted { IsStrictlySortedBy K.cmp (keys_of (pointed entries.now)) }
    ensures { option_copied result
        ≡ value_at K.cmp (unflagged gone.now (pointed entries.now)) key.now }
{
    match place(entries, key) {
        Ok(at) => {
            if gone.is_set(at) {
                None
            } else {
                Some(&entries[at].1)
            }
        }
        Err(_) => None,
    }
}

/// Flags the entry with a key, if there is one, and says whether there is.
pub(crate) fn take_off<K: Ord, V>(entries: &[Arc<(K, V)>], gone: &mut Flags, key: &K) -> bool
    requires flags { length gone.old ≡ length (pointed entries.now) }
    requires sorted { IsStrictlySortedBy K.cmp (keys_of (pointed entries.now)) }
    ensures flags { length gone.new ≡ length gone.old }
    ensures is { unflagged gone.new (pointed entries.now)
        ≡ without_key K.cmp (unflagged gone.old (pointed entries.now)) key.now }
{
    match place(entries, key) {
        Ok(at) => {
            gone.set(at);
            true
        }
        Err(_) => false,
    }
}
