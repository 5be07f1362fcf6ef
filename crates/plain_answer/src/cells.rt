// The values of cells.
ghost use Rattle.std.specs.Prelude.{◌≡◌, List, [], ◌∷◌, ◌++◌};
ghost use Rattle.cloud_base.specs.Order.{same_keys};
ghost use Rattle.cloud_base.specs.Log.{of_cell};
ghost use Rattle.cloud_base.specs.PlainCell.{plain_int, plain_text, plain_value, is_default};
ghost use Rattle.cloud_base.specs.Shaped.{cell_type};
ghost use Rattle.cloud_base.specs.Answer.{cell_value, is_entry};
ghost use Rattle.cloud_base.specs.declared.update.CellChange.{CellChange};

use crate::ids::has_dead;
use cloud_base::{
    Answer, CellChange, CellType, Keys, Schema, Text, Update, default_values, log_parts,
    plain_steps,
};

fn same_keys(one: &Keys, other: &Keys) -> bool
    ensures { result ≡ same_keys one.now other.now }
{
    one.cmp(other).is_eq()
}

fn int_after(value: i64, change: &CellChange) -> i64
    ensures { (changes : List CellChange) → value ≡ plain_int changes
        → result ≡ plain_int (changes ++ change.now ∷ []) }
{
    plain_steps();
    match change {
        CellChange::Add(number) => value.wrapping_add(*number),
        CellChange::SetInt(number) => *number,
        CellChange::SetText(_) | CellChange::SetIfEmpty(_) => value,
    }
}

fn text_after(value: Text, change: &CellChange) -> Text
    ensures { (changes : List CellChange) → value ≡ plain_text changes
        → result ≡ plain_text (changes ++ change.now ∷ []) }
{
    plain_steps();
    match change {
        CellChange::SetText(text) => text.copied(),
        CellChange::SetIfEmpty(text) => {
            if value.as_slice().is_empty() {
                text.copied()
            } else {
                value
            }
        }
        CellChange::Add(_) | CellChange::SetInt(_) => value,
    }
}

/// The value of an integer cell, whatever its keys.
fn int_value(log: &[Update], property: u16, keys: &Keys) -> i64
    ensures { result ≡ plain_int (of_cell property keys.now log.now) }
{
    log_parts();
    let mut value = 0;
    for update in log {
        if let Update::Cell(changed, at, change) = update {
            if *changed == property && same_keys(at, keys) {
                value = int_after(value, change);
            }
        }
    }
    value
}

/// The value of a text cell, whatever its keys.
fn text_value(log: &[Update], property: u16, keys: &Keys) -> Text
    ensures { result ≡ plain_text (of_cell property keys.now log.now) }
{
    log_parts();
    let mut value = Text::empty();
    for update in log {
        if let Update::Cell(changed, at, change) = update {
            if *changed == property && same_keys(at, keys) {
                value = text_after(value, change);
            }
        }
    }
    value
}

/// The type of the property's cells.
fn type_of(schema: &Schema, property: u16) -> CellType
    ensures { result ≡ cell_type schema.now property }
{
    match schema.properties.as_slice().get(property as usize) {
        Some(found) => found.cell,
        None => CellType::Int,
    }
}

/// The value of a cell of a type, whatever its keys.
#[tactic(auto, unfolding(cloud_base::specs::PlainCell::plain_value))]
fn plain_value(cell: CellType, log: &[Update], property: u16, keys: &Keys) -> Answer
    ensures { result ≡ plain_value cell (of_cell property keys.now log.now) }
{
    match cell {
        CellType::Int => Answer::Int(int_value(log, property, keys)),
        CellType::Text => Answer::Text(text_value(log, property, keys)),
    }
}

/// The value of a cell: the default where some key is dead.
pub fn value(schema: &Schema, log: &[Update], property: u16, keys: &Keys) -> Answer
    ensures { result ≡ cell_value schema.now log.now property keys.now }
{
    default_values();
    let cell = type_of(schema, property);
    if has_dead(log, keys) {
        plain_value(cell, &[], property, keys)
    } else {
        plain_value(cell, log, property, keys)
    }
}

fn is_default(value: &Answer) -> bool
    ensures { result ≡ is_default value.now }
{
    match value {
        Answer::Int(number) => *number == 0,
        Answer::Text(text) => text.as_slice().is_empty(),
        Answer::Truth(_) | Answer::Id(_) | Answer::Ids(_) | Answer::Tuples(_) => false,
    }
}

/// Whether no key is dead and the value isn't the default.
pub fn is_entry(schema: &Schema, log: &[Update], property: u16, keys: &Keys) -> bool
    ensures { result ≡ is_entry schema.now log.now property keys.now }
{
    !has_dead(log, keys) && !is_default(&value(schema, log, property, keys))
}
