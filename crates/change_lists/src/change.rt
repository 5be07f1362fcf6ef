// What was done since a fork.
ghost use Rattle.std.specs.Prelude.{◌≡◌, ◌↔◌, IsTrue, All};
ghost use Rattle.change_lists.specs.Lists.{IsChangeLists, IsEffective};

use crate::ascending::is_ascending;
use cloud_base::{IdList, Uid, total_orders};
use fj_array::{CellEffect, EffectList, cell_orders};
use fj_core::Effect;
use fj_entity::{Created, CreatedList};
use std::marker::Model;

/// What was done since a fork: the ids that were created and live, the ids that died, and what was
/// done to cells. It is what a push carries.
///
/// Each list ascends without repeats: ids by client and then serial, cells by property and then
/// keys. Each effect does something.
#[derive(Drop)]
pub struct Change {
    created: CreatedList,
    dead: IdList,
    cells: EffectList,
}

impl Model for Change {
    ghost use Rattle.change_lists.specs.Lists.{ChangeLists, IsChangeLists};

    ghost Value = { ChangeLists };

    ghost view = { λ c. record { created = c.created; dead = c.dead; cells = c.cells } };

    ghost invariant = { λ c. IsChangeLists
        (record { created = c.created; dead = c.dead; cells = c.cells }) };
}

fn is_effective(it: &CellEffect) -> bool
    ensures { IsTrue result ↔ IsEffective it.now.effect }
{
    match &it.effect {
        Effect::Add(number) => number.get() != 0,
        Effect::IfEmpty(text) => !text.as_text().as_slice().is_empty(),
        _ => true,
    }
}

fn are_effective(cells: &[CellEffect]) -> bool
    ensures { IsTrue result ↔ All (λ it. IsEffective it.effect) cells.now }
{
    cells.iter().all(is_effective)
}

impl Change {
    /// The change of these lists, for which `are_ordered` holds. It takes no memory.
    pub fn new(created: CreatedList, dead: IdList, cells: EffectList) -> Change
        requires { IsChangeLists (record { created = created; dead = dead; cells = cells }) }
        ensures { result ≡ record { created = created; dead = dead; cells = cells } }
    {
        Change {
            created,
            dead,
            cells,
        }
    }

    /// Whether these are the lists of a change. It goes through them once.
    pub fn are_ordered(created: &[Created], dead: &[Uid], cells: &[CellEffect]) -> bool
        ensures { IsTrue result ↔ IsChangeLists
            (record { created = created.now; dead = dead.now; cells = cells.now }) }
    {
        total_orders();
        cell_orders();
        if !is_ascending(created) {
            return false;
        }
        if !is_ascending(dead) {
            return false;
        }
        if !is_ascending(cells) {
            return false;
        }
        are_effective(cells)
    }

    pub fn created(&self) -> &[Created]
        ensures created { result.now ≡ self.now.created }
        ensures lists { IsChangeLists self.now }
    {
        self.created.as_slice()
    }

    pub fn dead(&self) -> &[Uid]
        ensures dead { result.now ≡ self.now.dead }
        ensures lists { IsChangeLists self.now }
    {
        self.dead.as_slice()
    }

    pub fn cells(&self) -> &[CellEffect]
        ensures cells { result.now ≡ self.now.cells }
        ensures lists { IsChangeLists self.now }
    {
        self.cells.as_slice()
    }
}
