// What is done to the grid of one type of cell.
ghost use Rattle.std.specs.Prelude.{◌≡◌, List, [], ◌∷◌, ◌++◌, map, IsTrue};
ghost use Rattle.std.specs.Prelude.{IfOk, OnOk, OnErr};
ghost use Rattle.std.specs.Option.{option_to_list};
ghost use Rattle.cloud_base.specs.declared.schema.CellType.TheVariants as CellType;
ghost use Rattle.cloud_base.specs.declared.update.CellChange.{CellChange};
ghost use Rattle.fj_core.specs.Changes.{ints, texts};
ghost use Rattle.fj_array.specs.Cells.{At};
ghost use Rattle.fj_array.specs.Effects.{effect_order};
ghost use Rattle.fj_array.specs.Grids.{GridStands};
ghost use Rattle.fj_array.specs.declared.cell.Cell.{Cell};
ghost use Rattle.change_lists.specs.Lists.{IsChangeLists, IsImageLists};
ghost use Rattle.schema_fj.specs.Joined.{JoinsAll, IsMerge, is_of};
ghost use Rattle.schema_fj.specs.Placed.{PutsOne, number_in, text_in};
ghost use Rattle.schema_fj.specs.Purged.{Purges};

use change_lists::{CellValue, Change, Content, Image, ValueList, total_list_orders};
use cloud_base::{CellChange, IdList, Keys, Memory, Sequence, Text, Uid};
use fj_array::{CellEffect, EffectList, Grid, cell_orders};
use fj_core::{Effect, ForkJoin, IntChange, TextChange};
use fj_entity::CreatedList;
use std::alloc::Global;
use std::cmp::Ordering;

/// A change of a number, where it is one.
pub(crate) fn number_change(change: &CellChange) -> Option<IntChange>
    ensures { option_to_list result ≡ ints change.now }
{
    match change {
        CellChange::Add(number) => Some(IntChange::Add(*number)),
        CellChange::SetInt(number) => Some(IntChange::Set(*number)),
        _ => None,
    }
}

/// A change of a text, where it is one.
pub(crate) fn text_change(change: &CellChange) -> Option<TextChange>
    ensures { option_to_list result ≡ texts change.now }
{
    match change {
        CellChange::SetText(text) => Some(TextChange::Set(text.copied())),
        CellChange::SetIfEmpty(text) => Some(TextChange::IfEmpty(text.copied())),
        _ => None,
    }
}

/// Does a change to a cell, where there is one.
pub(crate) fn change_cell<C: ForkJoin>(
    grid: &mut Grid<C>,
    property: u16,
    keys: &Keys,
    change: &Option<C::Change>,
) -> Result<(), Memory>
    ensures ok { OnOk result ((base delta : List (At C.Change))
        → GridStands C.plain C.effect_of C.stands grid.old base delta
        → let cell : Cell = record { property = property; keys = keys.now } in
        GridStands C.plain C.effect_of C.stands grid.new base
        (delta ++ map (λ x. record { cell = cell; change = x }) (option_to_list change.now))) }
    ensures err { OnErr result (grid.new ≡ grid.old) }
{
    match change {
        Some(change) => grid.update(property, keys, change),
        None => Ok(()),
    }
}

/// Drops each cell that has one of the ids among its keys. It takes no memory.
pub(crate) fn purge_all<C: ForkJoin>(grid: &mut Grid<C>, ids: &[Uid])
    ensures { Purges C.plain C.effect_of C.stands ids.now grid.old grid.new }
{
    for id in ids {
        grid.purge(*id);
    }
}

/// Whether an effect is one of numbers.
pub(crate) fn is_number(it: &CellEffect) -> bool
    ensures { result ≡ is_of CellType.Int it.now.effect }
{
    matches!(it.effect, Effect::Add(_) | Effect::SetInt(_))
}

/// Whether an effect is one of texts.
pub(crate) fn is_text(it: &CellEffect) -> bool
    ensures { result ≡ is_of CellType.Text it.now.effect }
{
    matches!(it.effect, Effect::SetText(_) | Effect::IfEmpty(_))
}

/// Does an effect to its cell, where it is one of the grid's type.
pub(crate) fn join_one<C: ForkJoin>(
    grid: &mut Grid<C>,
    it: &CellEffect,
    is_own: bool,
) -> Result<(), Memory>
    requires { IsTrue is_own → C.is_own it.now.effect }
    ensures { OnOk result (JoinsAll C.plain C.effect_of C.stands (λ _. is_own) (it.now ∷ [])
        grid.old grid.new) }
{
    cell_orders();
    if !is_own {
        return Ok(());
    }
    grid.join_effect(it.property, &it.keys, &it.effect)
}

fn by_cell(it: &CellEffect, other: &CellEffect) -> Ordering
    ensures { result ≡ effect_order it.now other.now }
{
    it.property
        .cmp(&other.property)
        .then(it.keys.cmp(&other.keys))
}

/// The effects of both lists by their cells. Where each is in order, that is one pass over them.
pub(crate) fn merged(first: EffectList, second: EffectList) -> Result<EffectList, Memory>
    ensures { IfOk result (λ list. IsMerge first second list) }
{
    total_list_orders();
    cell_orders();
    let mut effects = first.into_vec();
    let mut more = second.into_vec();
    effects.append(&mut more)?;
    effects.sort_by(by_cell)?;
    Ok(Sequence::from_vec(effects))
}

/// The change of these lists, where they are those of a change, and else of none.
pub(crate) fn change_of(
    alloc: Global,
    created: CreatedList,
    dead: IdList,
    cells: EffectList,
) -> Change
    ensures { IsChangeLists (record { created = created; dead = dead; cells = cells }) →
        result ≡ record { created = created; dead = dead; cells = cells } }
{
    if Change::are_ordered(created.as_slice(), dead.as_slice(), cells.as_slice()) {
        Change::new(created, dead, cells)
    } else {
        Change::new(
            Sequence::new(alloc),
            Sequence::new(alloc),
            Sequence::new(alloc),
        )
    }
}

/// The number that is held, where it is one.
pub(crate) fn number_in(value: &Content) -> Option<i64>
    ensures { result ≡ number_in value.now }
{
    match value {
        Content::Int(number) => Some(*number),
        Content::Text(_) => None,
    }
}

/// The text that is held, where it is one.
pub(crate) fn text_in(value: &Content) -> Option<Text>
    ensures { result ≡ text_in value.now }
{
    match value {
        Content::Int(_) => None,
        Content::Text(text) => Some(text.copied()),
    }
}

/// Gives a cell its value, where that is one of the grid's type.
pub(crate) fn put_one<C: ForkJoin>(
    grid: &mut Grid<C>,
    it: &CellValue,
    value: Option<C::Value>,
) -> Result<(), Memory>
    ensures { OnOk result (PutsOne C.plain C.effect_of C.stands value it.now
        grid.old grid.new) }
{
    cell_orders();
    match value {
        Some(value) => grid.put(it.property, &it.keys, value),
        None => Ok(()),
    }
}

/// The image of these lists, where they are those of an image, and else of nothing.
pub(crate) fn image_of(alloc: Global, created: CreatedList, dead: IdList, cells: ValueList) -> Image
    ensures { IsImageLists (record { created = created; dead = dead; cells = cells }) →
        result ≡ record { created = created; dead = dead; cells = cells } }
{
    if Image::are_ordered(created.as_slice(), dead.as_slice(), cells.as_slice()) {
        Image::new(created, dead, cells)
    } else {
        Image::new(
            Sequence::new(alloc),
            Sequence::new(alloc),
            Sequence::new(alloc),
        )
    }
}
