// Sets of ids.
ghost use Rattle.std.specs.Prelude.{◌≡◌, List, not, filter, IfOk, OnOk, OnErr};
ghost use Rattle.std.specs.List.{fold};
ghost use Rattle.std.specs.BTreeSet.{insert_key};
ghost use Rattle.cloud_base.specs.Values.{Id};
ghost use Rattle.cloud_base.specs.Order.{id_order};
ghost use Rattle.fj_entity.specs.Fates.{fate_at, is_gone};
ghost use Rattle.schema_fj.specs.Sets.{WasAdded};

use cloud_base::{Memory, Uid, derived_orders};
use fj_entity::Roster;
use std::collections::BTreeSet;

/// The same set.
pub(crate) fn copy_set(set: &BTreeSet<Uid>) -> Result<BTreeSet<Uid>, Memory>
    ensures { IfOk result (λ copy. copy.keys ≡ set.now.keys) }
{
    Ok(set.clone()?)
}

/// The set with some ids more.
pub(crate) fn with_all(set: &BTreeSet<Uid>, ids: &[Uid]) -> Result<BTreeSet<Uid>, Memory>
    ensures { IfOk result (λ more. more.keys ≡ fold (insert_key id_order) set.now.keys ids.now) }
{
    derived_orders();
    let mut more = copy_set(set)?;
    for id in ids {
        more.insert(*id)?;
    }
    Ok(more)
}

/// Drops the dead ids. It takes no memory.
pub(crate) fn keep_living(set: &mut BTreeSet<Uid>, roster: &Roster)
    ensures { set.new.keys ≡ filter (λ id. not (is_gone (fate_at roster.now id))) set.old.keys }
{
    set.retain(|id| !roster.dead(*id));
}

/// Puts an id into a set, and tells whether it wasn't there.
pub(crate) fn add(set: &mut BTreeSet<Uid>, id: Uid) -> Result<bool, Memory>
    ensures keys { OnOk result (set.new.keys ≡ insert_key id_order set.old.keys id) }
    ensures added { IfOk result (λ added. WasAdded added id set.old.keys set.new.keys) }
    ensures err { OnErr result (set.new.keys ≡ set.old.keys) }
{
    derived_orders();
    Ok(set.insert(id)?)
}

/// Takes back what `add` did. It takes no memory.
pub(crate) fn take_back(set: &mut BTreeSet<Uid>, id: Uid, added: bool)
    ensures { (was : List Id) → set.old.keys ≡ insert_key id_order was id
        → WasAdded added id was set.old.keys → set.new.keys ≡ was }
{
    derived_orders();
    if added {
        set.remove(&id);
    }
}
