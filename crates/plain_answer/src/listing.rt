// Ascending lists of ids and of keys.
ghost use Rattle.std.specs.Prelude.{◌≡◌, [], ◌∷◌, filter, IfOk, OnOk};
ghost use Rattle.std.specs.List.{fold};
ghost use Rattle.std.specs.BTreeSet.{insert_key};
ghost use Rattle.cloud_base.specs.Order.{id_order, keys_order};
ghost use Rattle.cloud_base.specs.Log.{created, touched};
ghost use Rattle.cloud_base.specs.Answer.{all_ids, entries, is_listed, is_entry};

use crate::cells::is_entry;
use crate::ids::is_listed;
use cloud_base::{IdList, Keys, Memory, Schema, Sequence, TupleList, Uid, Update, log_parts};
use std::alloc::Global;
use std::collections::BTreeSet;

fn put_created(
    ids: &mut BTreeSet<Uid>,
    log: &[Update],
    entity: u16,
    update: &Update,
) -> Result<(), Memory>
    ensures { OnOk result (ids.new.keys ≡ fold (insert_key id_order) ids.old.keys
        (filter (is_listed log.now entity) (created (update.now ∷ [])))) }
{
    if let Update::Create(id, _, _) = update {
        if is_listed(log, entity, *id) {
            ids.insert(*id)?;
        }
    }
    Ok(())
}

/// The ids created for the entity and not dead, ascending.
#[tactic(auto, unfolding(cloud_base::specs::Answer::all_ids))]
pub fn all_ids(alloc: Global, log: &[Update], entity: u16) -> Result<IdList, Memory>
    ensures { IfOk result (λ ids. ids ≡ all_ids log.now entity) }
{
    log_parts();
    let mut ids = BTreeSet::new(alloc);
    for update in log {
        put_created(&mut ids, log, entity, update)?;
    }
    Ok(Sequence::from_vec(ids.into_iter().collect(alloc)?))
}

fn put(tuples: &mut BTreeSet<Keys>, keys: &Keys) -> Result<(), Memory>
    ensures { OnOk result (tuples.new.keys ≡ insert_key keys_order tuples.old.keys keys.now) }
{
    tuples.insert(keys.copied())?;
    Ok(())
}

#[tactic(auto, using(crate::proofs::Kept::fold_kept))]
fn put_touched(
    tuples: &mut BTreeSet<Keys>,
    schema: &Schema,
    log: &[Update],
    property: u16,
    update: &Update,
) -> Result<(), Memory>
    ensures { OnOk result (tuples.new.keys ≡ fold (insert_key keys_order) tuples.old.keys
        (filter (is_entry schema.now log.now property) (touched property (update.now ∷ [])))) }
{
    if let Update::Cell(changed, keys, _) = update {
        if *changed == property && is_entry(schema, log, property, keys) {
            put(&mut *tuples, keys)?;
        }
    }
    Ok(())
}

/// The key lists of the property's cells, no key of which is dead and whose value isn't the
/// default, ascending.
#[tactic(auto, unfolding(cloud_base::specs::Answer::entries))]
pub fn entries(
    alloc: Global,
    schema: &Schema,
    log: &[Update],
    property: u16,
) -> Result<TupleList, Memory>
    ensures { IfOk result (λ tuples. tuples ≡ entries schema.now log.now property) }
{
    log_parts();
    let mut tuples = BTreeSet::new(alloc);
    for update in log {
        put_touched(&mut tuples, schema, log, property, update)?;
    }
    Ok(Sequence::from_vec(tuples.into_iter().collect(alloc)?))
}
