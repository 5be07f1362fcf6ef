// The ids that live, and the dead ones.
ghost use Rattle.std.specs.Prelude.{◌≡◌, ℕ, List, [], ◌∷◌, ◌++◌, Some, None, true, false, not};
ghost use Rattle.std.specs.Prelude.{if◌then◌else◌, MatchOption, IsTrue, IfOk, OnOk, OnErr, is_some};
ghost use Rattle.std.specs.Prelude.{filter, map};
ghost use Rattle.std.specs.Option.{option_copied};
ghost use Rattle.std.specs.List.Sorted.{IsStrictlySortedBy};
ghost use Rattle.std.specs.Map.{keys_of};
ghost use Rattle.cloud_base.specs.Values.{Id};
ghost use Rattle.cloud_base.specs.Order.{id_order, same_id};
ghost use Rattle.cloud_base.specs.Log.{creation};
ghost use Rattle.cloud_base.specs.Dead.{is_dead, has_dead, is_alive};
ghost use Rattle.cloud_base.specs.Answer.{is_listed};
ghost use Rattle.cloud_base.specs.Sorted.{Lists};
ghost use Rattle.cloud_base.specs.declared.key.Key.{Key};
ghost use Rattle.cloud_base.specs.declared.update.Update.{Update};
ghost use Rattle.cloud_base.specs.declared.update.Update.TheVariants as Change;
ghost use Rattle.fj_entity.specs.Fates.{Living, fate_at, is_gone, is_living, is_member};
ghost use Rattle.fj_entity.specs.Fates.{is_gone_key, has_gone, is_ref, has_ref, is_child_by};
ghost use Rattle.fj_entity.specs.Fates.{found, marked, buried, is_among};
ghost use Rattle.fj_entity.specs.Groups.{KeepsOthers};
ghost use Rattle.fj_entity.specs.Kept.{birth_in, created_entry};
ghost use Rattle.fj_entity.specs.Rosters.{RosterStands, Ascends, IsDoomed, IsNewlyDead, IsLiving};
ghost use Rattle.fj_entity.specs.Rosters.{Kills, created_order};
ghost use Rattle.fj_entity.specs.Walks.{IsChild, Reaches};

use crate::birth::Birth;
use crate::created::{Created, CreatedList};
use crate::groups::{Group, Groups};
use cloud_base::{IdList, Key, Keys, Memory, Sequence, Uid, derived_orders};
use shared_map::SharedMap;
use std::alloc::{AllocError, Global};
use std::collections::BTreeSet;
use std::marker::Model;

/// The ids that live, each with what it was created with, and the dead ids, closed under
/// dependents: an id dies with each id among its keys.
///
/// It stands for a log, as it keeps of each id what becomes of it in the log. After a refusal for
/// memory a roster is as it was. Forks share what neither has changed.
#[derive(Drop)]
pub struct Roster {
    // The ids that live, and the dead ones.
    known: SharedMap<Uid, ()>,
    // What each id that lives was created with.
    births: SharedMap<Uid, Birth>,
    groups: Groups,
    alloc: Global,
}

impl Model for Roster {
    ghost use Rattle.std.specs.Prelude.{List};
    ghost use Rattle.cloud_base.specs.Values.{Id};
    ghost use Rattle.fj_entity.specs.Fates.{Fate};
    ghost use Rattle.fj_entity.specs.Kept.{fates_of, AreGrouped};

    ghost Value = { List (Id × Fate) };

    ghost view = { λ r. fates_of r.known r.births };

    ghost invariant = { λ r. AreGrouped r.known r.births r.groups };
}

fn is_ref(key: &Key, id: Uid) -> bool
    ensures { result ≡ is_ref id key.now }
{
    match key {
        Key::Ref(other) => *other == id,
        _ => false,
    }
}

// Whether an id is one of the keys.
fn has_ref(keys: &Keys, id: Uid) -> bool
    ensures { result ≡ has_ref id keys.now }
{
    keys.as_slice().iter().any(|key| is_ref(key, id))
}

// The ids of a set, ascending.
fn ids_in(alloc: Global, set: &BTreeSet<Uid>) -> Result<IdList, Memory>
    ensures ids { IfOk result (λ list. list ≡ set.now.keys) }
    ensures ascends { IfOk result (λ list. IsStrictlySortedBy id_order list) }
{
    derived_orders();
    let ids = set.iter().copied().collect(alloc)?;
    Ok(Sequence::from_vec(ids))
}

// The ids that were created so, in order.
fn created_of(alloc: Global, births: &SharedMap<Uid, Birth>) -> Result<Vec<Created>, AllocError>
    ensures { IfOk result (λ list. list.items ≡ map created_entry births.now) }
{
    births
        .iter()
        .map(|(id, birth)| birth.created(*id))
        .collect(alloc)
}

// Takes an id that was created so out of its groups.
fn leave_groups(groups: &mut Groups, id: Uid, birth: Option<&Birth>)
    ensures { KeepsOthers id groups.old groups.new }
{
    if let Some(birth) = birth {
        groups.remove_all(id, birth.entity, &birth.keys);
    }
}

impl Roster {
    /// The roster of no ids.
    pub fn new(alloc: Global) -> Roster
        ensures empty { result ≡ [] }
        ensures stands { RosterStands result [] }
    {
        Roster {
            known: SharedMap::new(alloc),
            births: SharedMap::new(alloc),
            groups: Groups::new(alloc),
            alloc,
        }
    }

    // Whether an id lives or is dead.
    fn is_known(&self, id: Uid) -> bool
        ensures { result ≡ is_some (fate_at self.now id) }
    {
        derived_orders();
        self.known.get(&id).is_some()
    }

    // What an id was created with, where it lives.
    fn birth(&self, id: Uid) -> Option<&Birth>
        ensures { option_copied result ≡ birth_in (fate_at self.now id) }
    {
        derived_orders();
        self.births.get(&id)
    }

    fn is_living(&self, id: Uid) -> bool
        ensures { result ≡ is_living (fate_at self.now id) }
    {
        self.birth(id).is_some()
    }

    fn is_gone(&self, id: Uid) -> bool
        ensures { result ≡ is_gone (fate_at self.now id) }
    {
        self.is_known(id) && !self.is_living(id)
    }

    fn is_gone_key(&self, key: &Key) -> bool
        ensures { result ≡ is_gone_key self.now key.now }
    {
        match key {
            Key::Ref(id) => self.is_gone(*id),
            _ => false,
        }
    }

    fn has_gone(&self, keys: &Keys) -> bool
        ensures { result ≡ has_gone self.now keys.now }
    {
        keys.as_slice().iter().any(|key| self.is_gone_key(key))
    }

    fn found(&self, id: Uid) -> Option<Created>
        ensures { result ≡ found self.now id }
    {
        match self.birth(id) {
            Some(birth) => Some(birth.created(id)),
            None => None,
        }
    }

    // Whether an id lives and has another among its keys.
    fn is_child(&self, id: Uid, parent: Uid) -> bool
        ensures { result ≡ is_child_by parent (fate_at self.now id) }
    {
        match self.birth(id) {
            Some(birth) => has_ref(&birth.keys, parent),
            None => false,
        }
    }

    // Whether an id lives and is of an entity.
    fn is_member(&self, entity: u16, id: Uid) -> bool
        ensures { result ≡ is_member entity (fate_at self.now id) }
    {
        match self.birth(id) {
            Some(birth) => birth.entity == entity,
            None => false,
        }
    }

    /// Whether an id is dead.
    pub fn dead(&self, id: Uid) -> bool
        ensures test { result ≡ is_gone (fate_at self.now id) }
        ensures means { (log : List Update) → RosterStands self.now log → result ≡ is_dead log id }
    {
        self.is_gone(id)
    }

    /// Whether an id is created and not dead.
    pub fn alive(&self, id: Uid) -> bool
        ensures { (log : List Update) → RosterStands self.now log → result ≡ is_alive log id }
    {
        self.is_living(id)
    }

    /// What an id was created with, where it lives.
    pub fn find(&self, id: Uid) -> Option<Created>
        ensures test { result ≡ found self.now id }
        ensures means { (log : List Update) → RosterStands self.now log →
            MatchOption result (is_alive log id ≡ false) (λ c. (c.id ≡ id) × IsLiving log c) }
    {
        self.found(id)
    }

    /// Whether some key is a dead id.
    pub fn has_dead(&self, keys: &Keys) -> bool
        ensures test { result ≡ has_gone self.now keys.now }
        ensures means { (log : List Update) → RosterStands self.now log
            → result ≡ has_dead log keys.now }
    {
        self.has_gone(keys)
    }

    /// An equal roster.
    pub fn fork(&self) -> Result<Roster, Memory>
        ensures { IfOk result (λ copy. copy ≡ self.now) }
    {
        Ok(Roster {
            known: self.known.fork()?,
            births: self.births.fork()?,
            groups: self.groups.fork()?,
            alloc: self.alloc,
        })
    }

    // Puts the living children of an id among the dying. Those that weren't there are pending.
    fn reach(
        &self,
        id: Uid,
        dying: &mut BTreeSet<Uid>,
        pending: &mut Vec<Uid>,
    ) -> Result<(), Memory>
        ensures { OnOk result (Reaches self.now id (IsChild self.now id)
            dying.old.keys pending.old.items dying.new.keys pending.new.items) }
    {
        let listed = self.groups.members(Group::Parent(id))?;
        for child in listed.as_slice() {
            self.reach_one(*child, id, dying, pending)?;
        }
        Ok(())
    }

    fn reach_one(
        &self,
        child: Uid,
        id: Uid,
        dying: &mut BTreeSet<Uid>,
        pending: &mut Vec<Uid>,
    ) -> Result<(), Memory>
        ensures { OnOk result (Reaches self.now id (λ x. child ≡ x)
            dying.old.keys pending.old.items dying.new.keys pending.new.items) }
    {
        derived_orders();
        if self.is_child(child, id) && !dying.contains(&child) {
            dying.insert(child)?;
            pending.push(child)?;
        }
        Ok(())
    }

    // The root and all that depends on it, but for what is dead.
    fn walk(&self, root: Uid) -> Result<IdList, Memory>
        ensures { IfOk result (λ dying. (log : List Update) → RosterStands self.now log
            → is_dead log root ≡ false → Lists id_order dying (IsDoomed log root)) }
    {
        derived_orders();
        let mut dying = BTreeSet::new(self.alloc);
        dying.insert(root)?;
        let mut pending = Vec::new(self.alloc);
        pending.push(root)?;
        while let Some(id) = pending.pop() {
            self.reach(id, &mut dying, &mut pending)?;
        }
        ids_in(self.alloc, &dying)
    }

    // The root and all that depends on it, but for what is dead.
    fn dependents(&self, root: Uid) -> Result<IdList, Memory>
        ensures { IfOk result (λ died. (log : List Update) → RosterStands self.now log
            → Lists id_order died (IsDoomed log root)) }
    {
        if self.is_gone(root) {
            Ok(Sequence::new(self.alloc))
        } else {
            self.walk(root)
        }
    }

    /// The ids that a deletion of this one would kill, or its creation with a dead key, ascending:
    /// the id and all that depends on it, but for what is dead already.
    pub fn doomed(&self, id: Uid) -> Result<IdList, Memory>
        ensures deletion { IfOk result (λ died. (log : List Update) → RosterStands self.now log
            → Lists id_order died (IsNewlyDead log (log ++ Change.Delete id ∷ []))) }
        ensures creation { IfOk result (λ died. (log : List Update) (entity : ℕ) →
            (keys : List Key) → RosterStands self.now log →
            creation id log ≡ None → has_dead log keys ≡ true
            → Lists id_order died (IsNewlyDead log (log ++ Change.Create id entity keys ∷ []))) }
    {
        self.dependents(id)
    }

    // An id that is to die is known.
    fn mark(&mut self, id: Uid) -> Result<(), Memory>
        ensures ok { OnOk result ((x : Id) → fate_at self.new x
            ≡ marked (same_id id x) (fate_at self.old x)) }
        ensures err { OnErr result (self.new ≡ self.old) }
    {
        derived_orders();
        if !self.is_known(id) {
            self.known.insert(id, ())?;
        }
        Ok(())
    }

    // An id that is known dies. It takes no memory.
    fn bury(&mut self, id: Uid)
        ensures { (x : Id) → fate_at self.new x
            ≡ buried (same_id id x) (fate_at self.old x) }
    {
        derived_orders();
        leave_groups(&mut self.groups, id, self.births.get(&id));
        self.births.remove(&id);
    }

    fn bury_all(&mut self, ids: &[Uid])
        ensures { (x : Id) → fate_at self.new x
            ≡ buried (is_among x ids.now) (fate_at self.old x) }
    {
        for id in ids {
            self.bury(*id);
        }
    }

    // The root dies, with all that depends on it.
    fn doom(&mut self, root: Uid) -> Result<IdList, Memory>
        ensures ok { IfOk result (λ died. (log after : List Update) → RosterStands self.old log
            → Kills log after root
            → RosterStands self.new after × Lists id_order died (IsNewlyDead log after)) }
        ensures err { OnErr result (self.new ≡ self.old) }
    {
        let died = self.dependents(root)?;
        self.mark(root)?;
        self.bury_all(died.as_slice());
        Ok(died)
    }

    /// One deletion more: gives the ids that it kills, ascending.
    pub fn delete(&mut self, id: Uid) -> Result<IdList, Memory>
        ensures ok { IfOk result (λ died. (log : List Update) → RosterStands self.old log
            → RosterStands self.new (log ++ Change.Delete id ∷ [])
            × Lists id_order died (IsNewlyDead log (log ++ Change.Delete id ∷ []))) }
        ensures err { OnErr result (self.new ≡ self.old) }
    {
        self.doom(id)
    }

    // An id more lives.
    fn put(&mut self, id: Uid, entity: u16, keys: &Keys) -> Result<(), Memory>
        requires { fate_at self.old id ≡ None }
        ensures ok { OnOk result ((x : Id) → fate_at self.new x
            ≡ (if same_id id x then Some (Living entity keys.now) else fate_at self.old x)) }
        ensures err { OnErr result (self.new ≡ self.old) }
    {
        derived_orders();
        self.groups.add_all(id, entity, keys)?;
        let keys = keys.copied();
        self.births.insert(id, Birth { entity, keys })?;
        if let Err(memory) = self.known.insert(id, ()) {
            self.births.remove(&id);
            return Err(memory.into());
        }
        Ok(())
    }

    /// One creation more, of a new id: gives the ids that it kills, ascending. An id that is
    /// created with a dead key is born dead, and what has it among its keys dies.
    pub fn create(&mut self, id: Uid, entity: u16, keys: &Keys) -> Result<IdList, Memory>
        ensures ok { IfOk result (λ died. (log : List Update) → RosterStands self.old log
            → creation id log ≡ None
            → RosterStands self.new (log ++ Change.Create id entity keys.now ∷ [])
            × Lists id_order died
            (IsNewlyDead log (log ++ Change.Create id entity keys.now ∷ []))) }
        ensures err { OnErr result (self.new ≡ self.old) }
    {
        if self.is_known(id) {
            Ok(Sequence::new(self.alloc))
        } else if self.has_gone(keys) {
            self.doom(id)
        } else {
            self.put(id, entity, keys)?;
            Ok(Sequence::new(self.alloc))
        }
    }

    // Of some ids those that live and are of an entity.
    fn members(&self, entity: u16, ids: &[Uid]) -> Result<Vec<Uid>, AllocError>
        ensures { IfOk result (λ members.
            members.items ≡ filter (λ id. is_member entity (fate_at self.now id)) ids.now) }
    {
        ids.iter()
            .copied()
            .filter(|id| self.is_member(entity, *id))
            .collect(self.alloc)
    }

    // Of known ids those that don't live.
    fn dead_among(&self, known: &SharedMap<Uid, ()>) -> Result<Vec<Uid>, AllocError>
        ensures { IfOk result (λ ids. ids.items
            ≡ filter (λ id. not (is_living (fate_at self.now id))) (keys_of known.now)) }
    {
        known
            .iter()
            .map(|entry| entry.0)
            .filter(|id| !self.is_living(*id))
            .collect(self.alloc)
    }

    fn in_order(&self)
        ensures { Ascends self.now }
    {
        derived_orders();
        self.known.in_order();
    }

    /// The ids that were created for an entity and live, ascending. Others cost no step.
    pub fn all(&self, entity: u16) -> Result<IdList, Memory>
        ensures { IfOk result (λ ids. (log : List Update) → RosterStands self.now log
            → Lists id_order ids (λ id. IsTrue (is_listed log entity id))) }
    {
        let listed = self.groups.members(Group::Entity(entity))?;
        let members = self.members(entity, listed.as_slice())?;
        Ok(Sequence::from_vec(members))
    }

    /// The ids that live, with what they were created with, ascending.
    pub fn created(&self) -> Result<CreatedList, Memory>
        ensures { IfOk result (λ list. (log : List Update) → RosterStands self.now log
            → Lists created_order list (IsLiving log)) }
    {
        derived_orders();
        self.births.in_order();
        Ok(Sequence::from_vec(created_of(self.alloc, &self.births)?))
    }

    /// The dead ids, ascending.
    pub fn gone(&self) -> Result<IdList, Memory>
        ensures { IfOk result (λ ids. (log : List Update) → RosterStands self.now log
            → Lists id_order ids (λ id. is_dead log id ≡ true)) }
    {
        self.in_order();
        Ok(Sequence::from_vec(self.dead_among(&self.known)?))
    }
}
