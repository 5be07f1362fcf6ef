// How declarations are printed.
ghost use Rattle.std.specs.Prelude.{◌≡◌, ◌++◌, OnOk, codes, map};
ghost use Rattle.std.specs.List.{flat_map};
ghost use Rattle.source_print.specs.Expressions.{following, separated};
ghost use Rattle.source_print.specs.Canonical.{
  cell_type_text,
  key_text,
  declared_keys_text,
  entity_keys_text,
  property_text,
  properties_text,
  declaration_text,
};

use crate::value::{write, write_name};
use cloud_base::{CellType, Memory};
use source_tree::{Declaration, Key, KeyType, Property};

fn cell_type_text(cell: CellType) -> &'static str
    ensures { result.now ≡ cell_type_text cell }
{
    match cell {
        CellType::Int => "CInt",
        CellType::Text => "CString",
    }
}

fn write_key(out: &mut Vec<u8>, key: &Key) -> Result<(), Memory>
    ensures { OnOk result (out.new.items ≡ out.old.items ++ key_text key.now) }
{
    write_name(out, &key.name)?;
    write(out, ": ")?;
    match &key.of {
        KeyType::Int => write(out, "int"),
        KeyType::Text => write(out, "string"),
        KeyType::Entity(entity) => write_name(out, entity),
    }
}

// Keys in brackets, behind the opening one.
fn write_declared_keys(out: &mut Vec<u8>, keys: &[Key]) -> Result<(), Memory>
    ensures { OnOk result (out.new.items ≡ out.old.items ++ declared_keys_text keys.now) }
{
    let Some((first, rest)) = keys.split_first() else {
        return write(out, "]");
    };
    write_key(out, first)?;
    for key in rest {
        write(out, ", ")?;
        write_key(out, key)?;
    }
    write(out, "]")
}

fn write_entity_keys(out: &mut Vec<u8>, keys: &[Key]) -> Result<(), Memory>
    ensures { OnOk result (out.new.items ≡ out.old.items ++ entity_keys_text keys.now) }
{
    if !keys.is_empty() {
        write(out, "[")?;
        write_declared_keys(out, keys)?;
    }
    Ok(())
}

fn write_property(out: &mut Vec<u8>, property: &Property) -> Result<(), Memory>
    ensures { OnOk result (out.new.items ≡ out.old.items ++ property_text property.now) }
{
    write(out, "    ")?;
    write_name(out, &property.name)?;
    write(out, ": ")?;
    write(out, cell_type_text(property.cell))?;
    write(out, ";\n")
}

fn write_properties(out: &mut Vec<u8>, properties: &[Property]) -> Result<(), Memory>
    ensures { OnOk result (out.new.items ≡ out.old.items ++ properties_text properties.now) }
{
    write(out, " {\n")?;
    for property in properties {
        write_property(out, property)?;
    }
    write(out, "  }\n")
}

fn write_global(out: &mut Vec<u8>, property: &Property) -> Result<(), Memory>
    ensures { OnOk result (out.new.items
        ≡ out.old.items ++ (codes "  global " ++ property.now.name ++ codes " : "
        ++ cell_type_text property.now.cell ++ codes ";\n")) }
{
    write(out, "  global ")?;
    write_name(out, &property.name)?;
    write(out, " : ")?;
    write(out, cell_type_text(property.cell))?;
    write(out, ";\n")
}

pub fn write_declaration(out: &mut Vec<u8>, declaration: &Declaration) -> Result<(), Memory>
    ensures { OnOk result (out.new.items ≡ out.old.items ++ declaration_text declaration.now) }
{
    match declaration {
        Declaration::Global(property) => write_global(out, property),
        Declaration::Array(name, keys, properties) => {
            write(out, "  array ")?;
            write_name(out, name)?;
            write(out, "[")?;
            write_declared_keys(out, keys.as_slice())?;
            write_properties(out, properties.as_slice())
        }
        Declaration::Entity(name, keys, properties) => {
            write(out, "  entity ")?;
            write_name(out, name)?;
            write_entity_keys(out, keys.as_slice())?;
            write_properties(out, properties.as_slice())
        }
    }
}
