// Which ids are of an entity, and which have an id among their keys.
ghost use Rattle.std.specs.Prelude.{◌≡◌, [], IfOk, OnOk, IsTrue, ◌↔◌, map};
ghost use Rattle.std.specs.List.{take_while};
ghost use Rattle.std.specs.Ordering.{ordering_then};
ghost use Rattle.std.specs.declared.cmp.Ordering.TheVariants.{Equal};
ghost use Rattle.cloud_base.specs.Order.{id_order};
ghost use Rattle.cloud_base.specs.Sorted.{Lists};
ghost use Rattle.cloud_base.specs.declared.key.Key.TheVariants.{Ref};
ghost use Rattle.cloud_base.specs.Values.{Id};
ghost use Rattle.shared_map.specs.Entries.{entries_from};
ghost use Rattle.fj_entity.specs.Groups.{group_order, member_order, same_group, least, IsGroupOf};
ghost use Rattle.fj_entity.specs.Groups.{IsIn, Keeps, KeepsOthers};
ghost use Rattle.fj_entity.specs.declared.groups.Group.{Group};
ghost use Rattle.fj_entity.specs.declared.groups.Group.TheVariants.{Parent};
ghost use Rattle.fj_entity.specs.declared.groups.Member.{Member};

use cloud_base::{IdList, Key, Keys, Memory, Sequence, Uid, derived_orders, total_orders};
use shared_map::SharedMap;
use std::alloc::{AllocError, Global};
use std::marker::Model;

/// What the ids of a group have in common: their entity, or an id among their keys.
#[derive(Clone, Copy, Drop, PartialEq, Eq, PartialOrd, Ord)]
pub(crate) enum Group {
    Entity(u16),
    Parent(Uid),
}

/// An id in a group. Members come by group, and then by id.
#[derive(Clone, Copy, Drop, PartialEq, Eq, PartialOrd, Ord)]
pub(crate) struct Member {
    group: Group,
    id: Uid,
}

/// The ids in each group. Forks share what neither has changed.
#[derive(Drop)]
pub(crate) struct Groups {
    members: SharedMap<Member, ()>,
    alloc: Global,
}

impl Model for Groups {
    ghost use Rattle.std.specs.Prelude.{List};
    ghost use Rattle.std.specs.Map.{keys_of};
    ghost use Rattle.fj_entity.specs.declared.groups.Member.{Member};

    ghost Value = { List Member };

    ghost view = { λ g. keys_of g.members };
}

// Members come by group, and then by id; no two stand at one place.
fn member_orders()
    ensures by_parts { (a b : Member) → member_order a b
        ≡ ordering_then (group_order a.group b.group) (id_order a.id b.id) }
    ensures apart { (a b : Group) → group_order a b ≡ Equal → a ≡ b }
    ensures tied { (a : Group) → group_order a a ≡ Equal }
    ensures same { (a b : Group) → IsTrue (same_group a b) ↔ (a ≡ b) }
{
    derived_orders();
    total_orders();
}

// The ids of the members from the first of a group on that are of the group.
fn stretch(
    alloc: Global,
    members: &SharedMap<Member, ()>,
    group: Group,
) -> Result<Vec<Uid>, AllocError>
    ensures { IfOk result (λ ids. ids.items ≡ map (λ e. e.0.id)
        (take_while (λ e. same_group e.0.group group)
        (entries_from member_order members.now (least group)))) }
{
    let least = Member {
        group,
        id: Uid::new(0, 0),
    };
    members
        .iter_from(&least)
        .take_while(|entry| entry.0.group == group)
        .map(|entry| entry.0.id)
        .collect(alloc)
}

impl Groups {
    pub(crate) fn new(alloc: Global) -> Groups
        ensures { result ≡ [] }
    {
        Groups {
            members: SharedMap::new(alloc),
            alloc,
        }
    }

    pub(crate) fn fork(&self) -> Result<Groups, Memory>
        ensures { IfOk result (λ copy. copy ≡ self.now) }
    {
        Ok(Groups {
            members: self.members.fork()?,
            alloc: self.alloc,
        })
    }

    fn add(&mut self, group: Group, id: Uid) -> Result<(), Memory>
        ensures keeps { Keeps self.old self.new }
        ensures adds { OnOk result (IsIn self.new group id) }
    {
        member_orders();
        self.members.insert(Member { group, id }, ())?;
        Ok(())
    }

    fn add_at(&mut self, key: &Key, id: Uid) -> Result<(), Memory>
        ensures keeps { Keeps self.old self.new }
        ensures adds { OnOk result ((p : Id) → key.now ≡ Ref p → IsIn self.new (Parent p) id) }
    {
        match key {
            Key::Ref(parent) => self.add(Group::Parent(*parent), id),
            _ => Ok(()),
        }
    }

    /// Puts an id into its groups. After a refusal for memory it is in some of them.
    pub(crate) fn add_all(&mut self, id: Uid, entity: u16, keys: &Keys) -> Result<(), Memory>
        ensures keeps { Keeps self.old self.new }
        ensures adds { OnOk result ((group : Group) → IsGroupOf entity keys.now group
            → IsIn self.new group id) }
    {
        self.add(Group::Entity(entity), id)?;
        for key in keys.as_slice() {
            self.add_at(key, id)?;
        }
        Ok(())
    }

    fn remove(&mut self, group: Group, id: Uid)
        ensures keeps { KeepsOthers id self.old self.new }
        ensures fewer { Keeps self.new self.old }
        ensures leaves { ¬ IsIn self.new group id }
    {
        member_orders();
        self.members.remove(&Member { group, id });
    }

    fn remove_at(&mut self, key: &Key, id: Uid)
        ensures keeps { KeepsOthers id self.old self.new }
        ensures fewer { Keeps self.new self.old }
        ensures leaves { (p : Id) → key.now ≡ Ref p → ¬ IsIn self.new (Parent p) id }
    {
        match key {
            Key::Ref(parent) => self.remove(Group::Parent(*parent), id),
            _ => {}
        }
    }

    /// Takes an id out of its groups. It takes no memory.
    pub(crate) fn remove_all(&mut self, id: Uid, entity: u16, keys: &Keys)
        ensures keeps { KeepsOthers id self.old self.new }
        ensures leaves { (group : Group) → IsGroupOf entity keys.now group
            → ¬ IsIn self.new group id }
    {
        self.remove(Group::Entity(entity), id);
        for key in keys.as_slice() {
            self.remove_at(key, id);
        }
    }

    /// The ids in a group, ascending. Those of other groups cost no step.
    pub(crate) fn members(&self, group: Group) -> Result<IdList, Memory>
        ensures { IfOk result (λ ids. Lists id_order ids (IsIn self.now group)) }
    {
        member_orders();
        self.members.in_order();
        let ids = stretch(self.alloc, &self.members, group)?;
        Ok(Sequence::from_vec(ids))
    }
}
