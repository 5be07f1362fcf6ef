// What a log comes to.
ghost use Rattle.std.specs.Prelude.{◌≡◌, ◌↔◌, IsTrue, All};
ghost use Rattle.change_lists.specs.Lists.{IsImageLists, IsFilled};

use crate::ascending::is_ascending;
use crate::value::{CellValue, Content, ValueList};
use cloud_base::{IdList, Uid, total_orders};
use fj_array::cell_orders;
use fj_entity::{Created, CreatedList};
use std::marker::Model;

/// What a log comes to: the created ids that live, the dead ids, and what cells hold. It is what a
/// reply carries.
///
/// Each list ascends without repeats: ids by client and then serial, cells by property and then
/// keys. No cell has its default.
#[derive(Drop)]
pub struct Image {
    created: CreatedList,
    dead: IdList,
    cells: ValueList,
}

impl Model for Image {
    ghost use Rattle.change_lists.specs.Lists.{ImageLists, IsImageLists};

    ghost Value = { ImageLists };

    ghost view = { λ i. record { created = i.created; dead = i.dead; cells = i.cells } };

    ghost invariant = { λ i. IsImageLists
        (record { created = i.created; dead = i.dead; cells = i.cells }) };
}

fn is_filled(it: &CellValue) -> bool
    ensures { IsTrue result ↔ IsFilled it.now.value }
{
    match &it.value {
        Content::Int(number) => *number != 0,
        Content::Text(text) => !text.as_slice().is_empty(),
    }
}

fn are_filled(cells: &[CellValue]) -> bool
    ensures { IsTrue result ↔ All (λ it. IsFilled it.value) cells.now }
{
    cells.iter().all(is_filled)
}

impl Image {
    /// The image of these lists, for which `are_ordered` holds. It takes no memory.
    pub fn new(created: CreatedList, dead: IdList, cells: ValueList) -> Image
        requires { IsImageLists (record { created = created; dead = dead; cells = cells }) }
        ensures { result ≡ record { created = created; dead = dead; cells = cells } }
    {
        Image {
            created,
            dead,
            cells,
        }
    }

    /// Whether these are the lists of an image. It goes through them once.
    pub fn are_ordered(created: &[Created], dead: &[Uid], cells: &[CellValue]) -> bool
        ensures { IsTrue result ↔ IsImageLists
            (record { created = created.now; dead = dead.now; cells = cells.now }) }
    {
        total_orders();
        cell_orders();
        if !is_ascending(created) {
            return false;
        }
        if !is_ascending(dead) {
            return false;
        }
        if !is_ascending(cells) {
            return false;
        }
        are_filled(cells)
    }

    pub fn created(&self) -> &[Created]
        ensures created { result.now ≡ self.now.created }
        ensures lists { IsImageLists self.now }
    {
        self.created.as_slice()
    }

    pub fn dead(&self) -> &[Uid]
        ensures dead { result.now ≡ self.now.dead }
        ensures lists { IsImageLists self.now }
    {
        self.dead.as_slice()
    }

    pub fn cells(&self) -> &[CellValue]
        ensures cells { result.now ≡ self.now.cells }
        ensures lists { IsImageLists self.now }
    {
        self.cells.as_slice()
    }
}
