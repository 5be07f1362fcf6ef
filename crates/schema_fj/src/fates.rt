// The roster of what an image tells of ids.
ghost use Rattle.std.specs.Prelude.{◌≡◌, List, [], ◌++◌, IfOk, OnOk};
ghost use Rattle.cloud_base.specs.declared.update.Update.{Update};
ghost use Rattle.fj_entity.specs.Rosters.{RosterStands};
ghost use Rattle.schema_fj.specs.Told.{AreNew, creates, deletes};

use cloud_base::{Memory, Uid};
use fj_entity::{Created, Roster};
use std::alloc::Global;

fn create_all(roster: &mut Roster, list: &[Created]) -> Result<(), Memory>
    ensures { OnOk result ((log : List Update) → RosterStands roster.old log →
        AreNew list.now log → RosterStands roster.new (log ++ creates list.now)) }
{
    for created in list {
        roster.create(created.id, created.entity, &created.keys)?;
    }
    Ok(())
}

fn delete_all(roster: &mut Roster, ids: &[Uid]) -> Result<(), Memory>
    ensures { OnOk result ((log : List Update) → RosterStands roster.old log →
        RosterStands roster.new (log ++ deletes ids.now)) }
{
    for id in ids {
        roster.delete(*id)?;
    }
    Ok(())
}

/// The roster of the ids that live and the dead ones.
pub(crate) fn roster_of(alloc: Global, created: &[Created], dead: &[Uid]) -> Result<Roster, Memory>
    ensures { IfOk result (λ fates. AreNew created.now [] →
        RosterStands fates (creates created.now ++ deletes dead.now)) }
{
    let mut roster = Roster::new(alloc);
    create_all(&mut roster, created)?;
    delete_all(&mut roster, dead)?;
    Ok(roster)
}
