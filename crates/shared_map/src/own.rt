// The entries of a map's own.
ghost use Rattle.std.specs.Prelude.{◌≡◌, OnOk, OnErr, IfOk};
ghost use Rattle.std.specs.List.Sorted.{IsStrictlySortedBy};
ghost use Rattle.std.specs.Map.{keys_of};
ghost use Rattle.std.specs.Arc.{arc_value};
ghost use Rattle.shared_map.specs.Entries.{with_entry, without_key};
ghost use Rattle.shared_map.specs.Shelves.{pointed};

use crate::place::place;
use std::alloc::{AllocError, Global};
use std::sync::Arc;

/// Puts an entry in the place of the one with an equal key, else where its key belongs.
pub(crate) fn put<K: Ord + Drop, V: Drop>(
    own: &mut Vec<Arc<(K, V)>>,
    entry: Arc<(K, V)>,
) -> Result<(), AllocError>
    requires { IsStrictlySortedBy K.cmp (keys_of (pointed own.old.items)) }
    ensures ok { OnOk result (pointed own.new.items
        ≡ with_entry K.cmp (pointed own.old.items) (arc_value entry)) }
    ensures err { OnErr result (own.new.items ≡ own.old.items) }
{
    match place(own.as_slice(), &entry.0) {
        Ok(at) => {
            own[at] = entry;
            Ok(())
        }
        Err(at) => Ok(own.insert(at, entry)?),
    }
}

/// Takes the entry with a key out, if there is one.
pub(crate) fn take_out<K: Ord + Drop, V: Drop>(own: &mut Vec<Arc<(K, V)>>, key: &K)
    requires { IsStrictlySortedBy K.cmp (keys_of (pointed own.old.items)) }
    ensures { pointed own.new.items ≡ without_key K.cmp (pointed own.old.items) key.now }
{
    match place(own.as_slice(), key) {
        Ok(at) => {
            own.remove(at);
        }
        Err(_) => {}
    }
}

/// The same entries.
pub(crate) fn all_shared<K: Drop, V: Drop>(
    alloc: Global,
    entries: &[Arc<(K, V)>],
) -> Result<Vec<Arc<(K, V)>>, AllocError>
    ensures { IfOk result (λ list. pointed list.items ≡ pointed entries.now) }
{
    let mut list = Vec::with_capacity(alloc, entries.len())?;
    for entry in entries {
        list.push(Arc::try_clone(entry)?)?;
    }
    Ok(list)
}
