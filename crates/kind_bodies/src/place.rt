// Places: what they name, and what is read there.
ghost use Rattle.std.specs.Prelude.{◌≡◌, IfOk};
ghost use Rattle.cloud_base.specs.Shaped.{property_at, entity_at, cell_type};
ghost use Rattle.typed_program.specs.Kinds.{cell_kind};
ghost use Rattle.kind_rules.specs.Expressions.{
  no_target,
  global_target,
  field_target,
  keys_of_property,
};
ghost use Rattle.kind_rules.specs.Statements.{keys_of_entity};
ghost use Rattle.kind_bodies.specs.Found.{told_target, read_found, due_types, entry_found};

use crate::found::{Found, Keys, Target};
use crate::operator::cell_kind;
use crate::rule::{lower, unless};
use cloud_base::{CellType, KeyType, Memory, Schema};
use sqlite_items::Items;
use std::alloc::Global;
use typed_program::{Expression, Kind};

/// The type of a property's cells.
pub fn property_cell(schema: &Schema, number: u16) -> CellType
    ensures { result ≡ cell_type schema.now number }
{
    match schema.properties.as_slice().get(number as usize) {
        Some(property) => property.cell,
        None => CellType::Int,
    }
}

/// The kind of the values of a property's cells.
pub fn property_kind(schema: &Schema, number: u16) -> Kind
    ensures { result ≡ cell_kind (cell_type schema.now number) }
{
    cell_kind(property_cell(schema, number))
}

pub fn property_keys(schema: &Schema, number: u16) -> &[KeyType]
    ensures { result.now ≡ keys_of_property (property_at schema.now number) }
{
    match schema.properties.as_slice().get(number as usize) {
        Some(property) => property.keys.as_slice(),
        None => &[],
    }
}

pub fn entity_keys(schema: &Schema, number: u16) -> &[KeyType]
    ensures { result.now ≡ keys_of_entity (entity_at schema.now number) }
{
    match schema.entities.as_slice().get(number as usize) {
        Some(entity) => entity.keys.as_slice(),
        None => &[],
    }
}

pub fn no_target(alloc: Global, rule: u8) -> Target
    ensures { result ≡ told_target (no_target rule) }
{
    Target {
        rule: Some(rule),
        property: None,
        keys: Items::new(alloc),
    }
}

pub fn global_target(alloc: Global, found: Option<u16>) -> Target
    ensures { result ≡ told_target (global_target found) }
{
    match found {
        None => no_target(alloc, 2),
        Some(number) => Target {
            rule: None,
            property: Some(number),
            keys: Items::new(alloc),
        },
    }
}

/// A property of the entity that a variable holds.
pub fn field_target(
    alloc: Global,
    slot: u8,
    entity: u16,
    found: Option<u16>,
) -> Result<Target, Memory>
    ensures { IfOk result (λ target. target ≡ told_target (field_target slot entity found)) }
{
    let Some(number) = found else {
        return Ok(no_target(alloc, 2));
    };
    let mut keys = Items::new(alloc);
    keys.push(Expression::Slot(slot, Kind::Id(entity)))?;
    Ok(Target {
        rule: None,
        property: Some(number),
        keys,
    })
}

/// The types of the keys that are due where an array's property is found.
pub fn due_types(schema: &Schema, found: Option<u16>) -> &[KeyType]
    ensures { result.now ≡ due_types schema.now found }
{
    match found {
        Some(number) => property_keys(schema, number),
        None => &[],
    }
}

/// An entry of an array, with so many keys.
pub fn entry(alloc: Global, schema: &Schema, found: Option<u16>, count: usize, keys: Keys) -> Target
    ensures { result ≡ entry_found schema.now found count keys }
{
    let Some(number) = found else {
        return Target {
            rule: lower(Some(2), keys.rule),
            property: None,
            keys: Items::new(alloc),
        };
    };
    let is_due = count == property_keys(schema, number).len();
    Target {
        rule: lower(unless(is_due, 4), keys.rule),
        property: Some(number),
        keys: keys.typed,
    }
}

/// What is read at a place.
pub fn read_target(schema: &Schema, target: Target) -> Found
    ensures { result ≡ read_found schema.now target target.property }
{
    let Target {
        rule,
        property,
        keys,
    } = target;
    match property {
        None => Found {
            rule,
            kind: Kind::Int,
            typed: Expression::Int(0),
        },
        Some(number) => Found {
            rule,
            kind: property_kind(schema, number),
            typed: Expression::Get(number, keys),
        },
    }
}
