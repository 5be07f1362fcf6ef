// The elements of a packet's lists.
ghost use Rattle.std.specs.Prelude.{◌≡◌, ◌++◌, List, ℕ, Option, OnOk};
ghost use Rattle.std.specs.Option.{option_copied, option_map};
ghost use Rattle.cloud_base.specs.Order.{id_order};
ghost use Rattle.cloud_base.specs.declared.schema.Schema.{Schema};
ghost use Rattle.cloud_base.specs.declared.schema.CellType.{CellType};
ghost use Rattle.cloud_base.specs.Shaped.{cell_type};
ghost use Rattle.fj_array.specs.declared.cell.Cell.{Cell};
ghost use Rattle.fj_array.specs.Cells.{cell_order};
ghost use Rattle.fj_array.specs.Effects.{cell_of};
ghost use Rattle.change_lists.specs.Lists.{place_of};
ghost use Rattle.packet_bytes.specs.Left.{Gives, Reader, left_of};
ghost use Rattle.packet_bytes.specs.Reading.{is_above, dead_at, created_at, cell_at, is_own};
ghost use Rattle.packet_bytes.specs.Reading.{done_at, effect_at, content_at, cell_effect_at};
ghost use Rattle.packet_bytes.specs.Reading.{cell_value_at};
ghost use Rattle.packet_bytes.specs.Spelling.{id_bytes, created_bytes, cell_effect_bytes};
ghost use Rattle.packet_bytes.specs.Spelling.{cell_value_bytes};

use crate::cursor::Cursor;
use crate::fault::WireFault;
use crate::field::{
    byte_of, entity_types, filled_int_of, id_of, int_of, keys_of, property_types, text_of, u16_of,
};
use crate::write::{put, put_content, put_effect, put_id, put_keys};
use change_lists::{CellValue, Content};
use cloud_base::{CellType, Keys, Memory, Schema, Uid, derived_orders};
use fj_array::{Cell, CellEffect};
use fj_core::{Effect, NonEmpty, NonZero};
use fj_entity::Created;

/// What stands in a list of a packet.
pub(crate) trait Element: Drop {
    ghost reader: { Schema → Option Self → Reader Self };

    /// The next element, where the one before it is known.
    fn read_one<'a>(
        schema: &Schema,
        previous: Option<&Self>,
        cursor: Cursor<'a>,
    ) -> Result<(Self, Cursor<'a>), WireFault>
        ensures { Gives result
            (reader schema.now (option_copied previous.entry) (left_of cursor.entry)) };

    ghost spelled: { Self → List ℕ };

    /// Writes the spelling at the end.
    fn write_one(&self, out: &mut Vec<u8>) -> Result<(), Memory>
        ensures { OnOk result (out.new.items ≡ out.old.items ++ spelled self.now) };
}

// Whether an id is above the one before it.
fn is_id_above(previous: Option<Uid>, id: Uid) -> bool
    ensures { result ≡ is_above id_order previous id }
{
    derived_orders();
    match previous {
        Some(previous) => previous < id,
        None => true,
    }
}

#[tactic(auto, unfolding(crate::specs::Reading::dead_at))]
fn dead_of(previous: Option<Uid>, cursor: Cursor<'_>) -> Result<(Uid, Cursor<'_>), WireFault>
    ensures { Gives result (dead_at previous (left_of cursor.entry)) }
{
    // An id and a cursor in one result get no proof through `?`, here and below.
    match id_of(cursor) {
        Ok((id, rest)) => {
            if is_id_above(previous, id) {
                Ok((id, rest))
            } else {
                Err(WireFault::OutOfOrder { at: cursor.at })
            }
        }
        Err(fault) => Err(fault),
    }
}

impl Element for Uid {
    ghost reader = { λ schema previous. dead_at previous };

    fn read_one<'a>(
        _schema: &Schema,
        previous: Option<&Uid>,
        cursor: Cursor<'a>,
    ) -> Result<(Uid, Cursor<'a>), WireFault> {
        dead_of(previous.copied(), cursor)
    }

    ghost spelled = { id_bytes };

    fn write_one(&self, out: &mut Vec<u8>) -> Result<(), Memory> {
        put_id(out, *self)
    }
}

impl Element for Created {
    ghost reader = { created_at };

    #[tactic(auto, unfolding(crate::specs::Reading::created_at))]
    fn read_one<'a>(
        schema: &Schema,
        previous: Option<&Created>,
        cursor: Cursor<'a>,
    ) -> Result<(Created, Cursor<'a>), WireFault> {
        let before = previous.map(|created| created.id);
        let (id, rest) = match dead_of(before, cursor) {
            Ok(found) => found,
            Err(fault) => return Err(fault),
        };
        let at = rest.at;
        let (entity, rest) = u16_of(rest)?;
        let Some(types) = entity_types(schema, entity) else {
            return Err(WireFault::Unknown { at });
        };
        let (keys, rest) = keys_of(types, rest)?;
        Ok((Created { id, entity, keys }, rest))
    }

    ghost spelled = { created_bytes };

    fn write_one(&self, out: &mut Vec<u8>) -> Result<(), Memory> {
        put_id(out, self.id)?;
        put(out, &self.entity.to_be_bytes())?;
        put_keys(out, &self.keys)
    }
}

// Whether a cell is above the one before it.
fn is_cell_above(previous: Option<(u16, &Keys)>, property: u16, keys: &Keys) -> bool
    ensures { result ≡ is_above cell_order
        (option_map (λ p. record { property = p.0; keys = p.1.now }) previous.entry)
        (record { property = property; keys = keys.now }) }
{
    match previous {
        Some((before, others)) => before.cmp(&property).then(others.cmp(keys)).is_lt(),
        None => true,
    }
}

#[tactic(auto, unfolding(crate::specs::Reading::cell_at))]
fn cell_of<'a>(
    schema: &Schema,
    previous: Option<(u16, &Keys)>,
    cursor: Cursor<'a>,
) -> Result<(Cell, Cursor<'a>), WireFault>
    ensures { Gives result (cell_at schema.now
        (option_map (λ p. record { property = p.0; keys = p.1.now }) previous.entry)
        (left_of cursor.entry)) }
{
    let (property, rest) = u16_of(cursor)?;
    let Some(types) = property_types(schema, property) else {
        return Err(WireFault::Unknown { at: cursor.at });
    };
    let (keys, rest) = keys_of(types, rest)?;
    if !is_cell_above(previous, property, &keys) {
        return Err(WireFault::OutOfOrder { at: cursor.at });
    }
    Ok((Cell { property, keys }, rest))
}

// The type of a property's cells; a number without a property counts as one of integer cells.
fn type_of(schema: &Schema, property: u16) -> CellType
    ensures { result ≡ cell_type schema.now property }
{
    let properties = schema.properties.as_slice();
    match properties.get(property as usize) {
        Some(property) => property.cell,
        None => CellType::Int,
    }
}

// Whether the tag of an effect belongs to cells of a type.
fn is_own(cell: CellType, tag: u8) -> bool
    ensures { result ≡ is_own cell tag }
{
    match cell {
        CellType::Int => tag < 2,
        CellType::Text => tag >= 2,
    }
}

#[tactic(auto, unfolding(crate::specs::Reading::done_at))]
fn done_of(tag: u8, cursor: Cursor<'_>) -> Result<(Effect, Cursor<'_>), WireFault>
    ensures { Gives result (done_at tag (left_of cursor.entry)) }
{
    match tag {
        0 => {
            let (number, rest) = filled_int_of(cursor)?;
            let Some(number) = NonZero::new(number) else {
                unreachable!()
            };
            Ok((Effect::Add(number), rest))
        }
        1 => {
            let (number, rest) = int_of(cursor)?;
            Ok((Effect::SetInt(number), rest))
        }
        2 => {
            let (text, rest) = text_of(0, cursor)?;
            Ok((Effect::SetText(text), rest))
        }
        _ => {
            let (text, rest) = text_of(1, cursor)?;
            let Some(text) = NonEmpty::new(text) else {
                unreachable!()
            };
            Ok((Effect::IfEmpty(text), rest))
        }
    }
}

#[tactic(auto, unfolding(crate::specs::Reading::effect_at))]
fn effect_of(cell: CellType, cursor: Cursor<'_>) -> Result<(Effect, Cursor<'_>), WireFault>
    ensures { Gives result (effect_at cell (left_of cursor.entry)) }
{
    let (tag, rest) = byte_of(cursor)?;
    if tag >= 4 {
        return Err(WireFault::BadTag { at: cursor.at });
    }
    if !is_own(cell, tag) {
        return Err(WireFault::Unknown { at: cursor.at });
    }
    done_of(tag, rest)
}

#[tactic(auto, unfolding(crate::specs::Reading::content_at))]
fn content_of(cell: CellType, cursor: Cursor<'_>) -> Result<(Content, Cursor<'_>), WireFault>
    ensures { Gives result (content_at cell (left_of cursor.entry)) }
{
    match cell {
        CellType::Int => {
            let (number, rest) = filled_int_of(cursor)?;
            Ok((Content::Int(number), rest))
        }
        CellType::Text => {
            let (text, rest) = text_of(1, cursor)?;
            Ok((Content::Text(text), rest))
        }
    }
}

impl Element for CellEffect {
    ghost reader = { cell_effect_at };

    #[tactic(auto, unfolding(crate::specs::Reading::cell_effect_at))]
    fn read_one<'a>(
        schema: &Schema,
        previous: Option<&CellEffect>,
        cursor: Cursor<'a>,
    ) -> Result<(CellEffect, Cursor<'a>), WireFault> {
        let before = match previous {
            Some(it) => Some((it.property, &it.keys)),
            None => None,
        };
        let (cell, rest) = cell_of(schema, before, cursor)?;
        let (effect, rest) = effect_of(type_of(schema, cell.property), rest)?;
        let Cell { property, keys } = cell;
        let it = CellEffect {
            property,
            keys,
            effect,
        };
        Ok((it, rest))
    }

    ghost spelled = { cell_effect_bytes };

    fn write_one(&self, out: &mut Vec<u8>) -> Result<(), Memory> {
        put(out, &self.property.to_be_bytes())?;
        put_keys(out, &self.keys)?;
        put_effect(out, &self.effect)
    }
}

impl Element for CellValue {
    ghost reader = { cell_value_at };

    #[tactic(auto, unfolding(crate::specs::Reading::cell_value_at))]
    fn read_one<'a>(
        schema: &Schema,
        previous: Option<&CellValue>,
        cursor: Cursor<'a>,
    ) -> Result<(CellValue, Cursor<'a>), WireFault> {
        let before = match previous {
            Some(it) => Some((it.property, &it.keys)),
            None => None,
        };
        let (cell, rest) = cell_of(schema, before, cursor)?;
        let (value, rest) = content_of(type_of(schema, cell.property), rest)?;
        let Cell { property, keys } = cell;
        let it = CellValue {
            property,
            keys,
            value,
        };
        Ok((it, rest))
    }

    ghost spelled = { cell_value_bytes };

    fn write_one(&self, out: &mut Vec<u8>) -> Result<(), Memory> {
        put(out, &self.property.to_be_bytes())?;
        put_keys(out, &self.keys)?;
        put_content(out, &self.value)
    }
}
