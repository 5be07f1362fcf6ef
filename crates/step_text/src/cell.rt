// How cells, updates and queries are printed.
ghost use Rattle.std.specs.Prelude.{◌≡◌, ◌++◌, [], ◌∷◌, OnOk, codes, option_copied, slice_get};
ghost use Rattle.std.specs.Fmt.{signed_decimal};
ghost use Rattle.step_text.specs.Values.{quoted};
ghost use Rattle.step_text.specs.Cells.{
  entity_name,
  keyed_text,
  cell_owner_text,
  cell_text,
  property_owner_text,
  property_text,
  created_text,
  change_text,
  update_text,
  query_text,
};

use crate::value::{write_id, write_integer, write_keys, write_quoted};
use cloud_base::{CellChange, Key, Memory, Owner, Property, Query, Schema, Update};

fn entity_name(schema: &Schema, number: u16) -> &str
    ensures { result.now ≡ entity_name schema.now number }
{
    match schema.entities.as_slice().get(usize::from(number)) {
        Some(entity) => entity.name.as_str(),
        None => "",
    }
}

fn property(schema: &Schema, number: u16) -> Option<&Property>
    ensures { option_copied result ≡ slice_get schema.now.properties number }
{
    schema.properties.as_slice().get(usize::from(number))
}

fn write_keyed(out: &mut Vec<u8>, name: &str, keys: &[Key]) -> Result<(), Memory>
    ensures { OnOk result (out.new.items ≡ out.old.items ++ keyed_text name.now keys.now) }
{
    out.extend_from_slice(name.as_bytes())?;
    out.push(b'[')?;
    write_keys(out, keys)?;
    out.push(b']')?;
    Ok(())
}

fn write_cell_owner(
    out: &mut Vec<u8>,
    schema: &Schema,
    owner: &Owner,
    keys: &[Key],
) -> Result<(), Memory>
    ensures { OnOk result (out.new.items
        ≡ out.old.items ++ cell_owner_text schema.now owner.now keys.now) }
{
    match owner {
        Owner::Global => return Ok(()),
        Owner::Array(array) => write_keyed(out, array.as_str(), keys)?,
        Owner::Entity(entity) => write_keyed(out, entity_name(schema, *entity), keys)?,
    }
    out.push(b'.')?;
    Ok(())
}

fn write_cell(out: &mut Vec<u8>, schema: &Schema, number: u16, keys: &[Key]) -> Result<(), Memory>
    ensures { OnOk result (out.new.items ≡ out.old.items ++ cell_text schema.now number keys.now) }
{
    if let Some(property) = property(schema, number) {
        write_cell_owner(out, schema, &property.owner, keys)?;
        out.extend_from_slice(property.name.as_str().as_bytes())?;
    }
    Ok(())
}

fn write_property_owner(out: &mut Vec<u8>, schema: &Schema, owner: &Owner) -> Result<(), Memory>
    ensures { OnOk result (out.new.items
        ≡ out.old.items ++ property_owner_text schema.now owner.now) }
{
    let name = match owner {
        Owner::Global => return Ok(()),
        Owner::Array(array) => array.as_str(),
        Owner::Entity(entity) => entity_name(schema, *entity),
    };
    out.extend_from_slice(name.as_bytes())?;
    out.push(b'.')?;
    Ok(())
}

fn write_property(out: &mut Vec<u8>, schema: &Schema, number: u16) -> Result<(), Memory>
    ensures { OnOk result (out.new.items ≡ out.old.items ++ property_text schema.now number) }
{
    if let Some(property) = property(schema, number) {
        write_property_owner(out, schema, &property.owner)?;
        out.extend_from_slice(property.name.as_str().as_bytes())?;
    }
    Ok(())
}

fn write_created(out: &mut Vec<u8>, name: &str, keys: &[Key]) -> Result<(), Memory>
    ensures { OnOk result (out.new.items ≡ out.old.items ++ created_text name.now keys.now) }
{
    if keys.is_empty() {
        out.extend_from_slice(name.as_bytes())?;
        return Ok(());
    }
    write_keyed(out, name, keys)
}

fn write_integer_argument(out: &mut Vec<u8>, operation: &[u8], number: i64) -> Result<(), Memory>
    ensures { OnOk result (out.new.items
        ≡ out.old.items ++ (operation.now ++ signed_decimal number ++ codes ")")) }
{
    out.extend_from_slice(operation)?;
    write_integer(out, number)?;
    out.push(b')')?;
    Ok(())
}

fn write_text_argument(out: &mut Vec<u8>, operation: &[u8], bytes: &[u8]) -> Result<(), Memory>
    ensures { OnOk result (out.new.items
        ≡ out.old.items ++ (operation.now ++ quoted bytes.now ++ codes ")")) }
{
    out.extend_from_slice(operation)?;
    write_quoted(out, bytes)?;
    out.push(b')')?;
    Ok(())
}

fn write_change(out: &mut Vec<u8>, change: &CellChange) -> Result<(), Memory>
    ensures { OnOk result (out.new.items ≡ out.old.items ++ change_text change.now) }
{
    match change {
        CellChange::Add(number) => write_integer_argument(out, b".add(", *number),
        CellChange::SetInt(number) => write_integer_argument(out, b".set(", *number),
        CellChange::SetText(text) => write_text_argument(out, b".set(", text.as_slice()),
        CellChange::SetIfEmpty(text) => write_text_argument(out, b".setIfEmpty(", text.as_slice()),
    }
}

pub fn write_update(out: &mut Vec<u8>, schema: &Schema, update: &Update) -> Result<(), Memory>
    ensures { OnOk result (out.new.items ≡ out.old.items ++ update_text schema.now update.now) }
{
    match update {
        Update::Cell(property, keys, change) => {
            write_cell(out, schema, *property, keys.as_slice())?;
            write_change(out, change)
        }
        Update::Create(id, entity, keys) => {
            out.extend_from_slice(b"new ")?;
            write_created(out, entity_name(schema, *entity), keys.as_slice())?;
            out.extend_from_slice(b" = ")?;
            write_id(out, *id)
        }
        Update::Delete(id) => {
            out.extend_from_slice(b"delete ")?;
            write_id(out, *id)
        }
    }
}

pub fn write_query(out: &mut Vec<u8>, schema: &Schema, query: &Query) -> Result<(), Memory>
    ensures { OnOk result (out.new.items ≡ out.old.items ++ query_text schema.now query.now) }
{
    match query {
        Query::Get(property, keys) => write_cell(out, schema, *property, keys.as_slice()),
        Query::All(entity) => {
            out.extend_from_slice(b"all ")?;
            out.extend_from_slice(entity_name(schema, *entity).as_bytes())?;
            Ok(())
        }
        Query::Entries(property) => {
            out.extend_from_slice(b"entries ")?;
            write_property(out, schema, *property)
        }
        Query::Alive(id) => {
            out.extend_from_slice(b"alive ")?;
            write_id(out, *id)
        }
    }
}
