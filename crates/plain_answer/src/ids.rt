// Which ids were created, and which are dead.
ghost use Rattle.std.specs.Prelude.{◌≡◌, ◌≤◌, ◌||◌, List, ◌∷◌, length, Some, None, MatchOption};
ghost use Rattle.cloud_base.specs.Order.{same_id};
ghost use Rattle.cloud_base.specs.Log.{creation, created, is_deleted, is_of};
ghost use Rattle.cloud_base.specs.Dead.{dead_within, is_dead, has_dead, is_alive};
ghost use Rattle.cloud_base.specs.Answer.{is_listed};
ghost use Rattle.cloud_base.specs.declared.update.Update.{Update};
ghost use Rattle.cloud_base.specs.declared.key.Key.{Key};

use cloud_base::{Key, Keys, Uid, Update, log_parts};

fn same_id(one: Uid, other: Uid) -> bool
    ensures { result ≡ same_id one other }
{
    one.cmp(&other).is_eq()
}

fn deletes(update: &Update, id: Uid) -> bool
    ensures { (log : List Update)
        → is_deleted id (update.now ∷ log) ≡ (result || is_deleted id log) }
{
    match update {
        Update::Delete(other) => same_id(*other, id),
        Update::Cell(_, _, _) | Update::Create(_, _, _) => false,
    }
}

fn is_deleted(log: &[Update], id: Uid) -> bool
    ensures { result ≡ is_deleted id log.now }
{
    for update in log {
        if deletes(update, id) {
            return true;
        }
    }
    false
}

/// The entity and the keys of the id's first creation.
fn creation(log: &[Update], id: Uid) -> Option<(u16, Keys)>
    ensures { MatchOption result (creation id log.now ≡ None)
        (λ made. creation id log.now ≡ Some (record { entity = made.0; keys = made.1 })) }
{
    for update in log {
        match update {
            Update::Create(other, entity, keys) => {
                if same_id(*other, id) {
                    return Some((*entity, keys.copied()));
                }
            }
            Update::Cell(_, _, _) | Update::Delete(_) => {}
        }
    }
    None
}

/// Whether a chain of at most so many links leads from the id to a deletion.
fn dead_within(log: &[Update], links: usize, id: Uid) -> bool
    ensures { result ≡ dead_within links log.now id }
{
    if is_deleted(log, id) {
        return true;
    }
    if links == 0 {
        return false;
    }
    let Some((_, keys)) = creation(log, id) else {
        return false;
    };
    for key in keys.as_slice() {
        if let Key::Ref(next) = key {
            if dead_within(log, links - 1, *next) {
                return true;
            }
        }
    }
    false
}

fn count_created(log: &[Update]) -> usize
    ensures { result ≡ length (created log.now) }
{
    log_parts();
    let mut count = 0;
    for update in log {
        if let Update::Create(_, _, _) = update {
            count += 1;
        }
    }
    count
}

pub fn is_dead(log: &[Update], id: Uid) -> bool
    ensures { result ≡ is_dead log.now id }
{
    dead_within(log, count_created(log), id)
}

fn is_dead_key(log: &[Update], key: &Key) -> bool
    ensures { (keys : List Key)
        → has_dead log.now (key.now ∷ keys) ≡ (result || has_dead log.now keys) }
{
    match key {
        Key::Ref(id) => is_dead(log, *id),
        Key::Int(_) | Key::Text(_) => false,
    }
}

/// Whether some key is a dead id.
pub fn has_dead(log: &[Update], keys: &Keys) -> bool
    ensures { result ≡ has_dead log.now keys.now }
{
    for key in keys.as_slice() {
        if is_dead_key(log, key) {
            return true;
        }
    }
    false
}

/// Whether the id was created and isn't dead.
pub fn is_alive(log: &[Update], id: Uid) -> bool
    ensures { result ≡ is_alive log.now id }
{
    creation(log, id).is_some() && !is_dead(log, id)
}

/// Whether the id was created for the entity and isn't dead.
pub fn is_listed(log: &[Update], entity: u16, id: Uid) -> bool
    ensures { result ≡ is_listed log.now entity id }
{
    match creation(log, id) {
        Some((made_for, _)) => made_for == entity && !is_dead(log, id),
        None => false,
    }
}
