// Where a key is among entries in order.
ghost use Rattle.std.specs.Prelude.{MatchResult};
ghost use Rattle.std.specs.List.Sorted.{IsStrictlySortedBy};
ghost use Rattle.std.specs.Map.{keys_of};
ghost use Rattle.shared_map.specs.Shelves.{pointed};
ghost use Rattle.shared_map.specs.Places.{IsPlaceOf, IsGapFor, IsStartOf};

use std::sync::Arc;

/// Where a key is, or where it would go.
pub(crate) fn place<K: Ord, V>(entries: &[Arc<(K, V)>], key: &K) -> Result<usize, usize>
    requires { IsStrictlySortedBy K.cmp (keys_of (pointed entries.now)) }
    ensures { MatchResult result (IsPlaceOf K.cmp (pointed entries.now) key.now)
        (IsGapFor K.cmp (pointed entries.now) key.now) }
{
    entries.binary_search_by(|entry| entry.0.cmp(key))
}

/// Where the entries begin that aren't below a key.
pub(crate) fn start<K: Ord, V>(entries: &[Arc<(K, V)>], key: &K) -> usize
    requires { IsStrictlySortedBy K.cmp (keys_of (pointed entries.now)) }
    ensures { IsStartOf K.cmp (pointed entries.now) key.now result }
{
    match place(entries, key) {
        Ok(at) => at,
        Err(at) => at,
    }
}
