// The schema that declarations give, and the names that they take.
ghost use Rattle.std.specs.Prelude.{◌≡◌, ◌≤◌, ◌∷◌, ◌++◌, [], length, map, IfOk, OnOk};
ghost use Rattle.std.specs.List.{flat_map};
ghost use Rattle.cloud_base.specs.declared.schema.KeyType.TheVariants.{Id};
ghost use Rattle.source_tree.specs.Limits.{names_count, most_names};
ghost use Rattle.kind_rules.specs.Declarations.{declared_name, declared_names, entity_names};
ghost use Rattle.kind_rules.specs.Declarations.{entity_number, key_type, key_types, property};
ghost use Rattle.kind_rules.specs.Declarations.{globals_in, owned_in, entities_in, schema_of};

use crate::rules::declared_name;
use cloud_base::{
    Entity, EntityList, KeyType, KeyTypeList, Memory, Name, Owner, Property, PropertyList, Schema,
    Sequence,
};
use source_tree::{Declaration, Key};
use std::alloc::Global;

/// The names of globals, arrays and entities.
pub fn taken_names(alloc: Global, declarations: &[Declaration]) -> Result<Sequence<Name>, Memory>
    ensures { IfOk result (λ names. names ≡ declared_names declarations.now) }
{
    let mut names = Sequence::new(alloc);
    for declaration in declarations {
        names.push(declared_name(declaration).copy(alloc)?)?;
    }
    Ok(names)
}

fn note_entity(
    names: &mut Sequence<Name>,
    alloc: Global,
    declaration: &Declaration,
) -> Result<(), Memory>
    ensures { OnOk result (names.new ≡ names.old ++ entity_names (declaration.now ∷ [])) }
{
    if let Declaration::Entity(name, _, _) = declaration {
        names.push(name.name().copy(alloc)?)?;
    }
    Ok(())
}

fn entity_names(alloc: Global, declarations: &[Declaration]) -> Result<Sequence<Name>, Memory>
    ensures { IfOk result (λ names. names ≡ entity_names declarations.now) }
{
    let mut names = Sequence::new(alloc);
    for declaration in declarations {
        note_entity(&mut names, alloc, declaration)?;
    }
    Ok(names)
}

fn entity_number(entities: &[Name], name: &Name) -> u16
    requires { length entities.now ≤ most_names }
    ensures { result ≡ entity_number entities.now name.now }
{
    for (number, entity) in entities.iter().enumerate() {
        if entity.as_str() == name.as_str() {
            return number as u16;
        }
    }
    0
}

fn key_type(entities: &[Name], of: &source_tree::KeyType) -> KeyType
    requires { length entities.now ≤ most_names }
    ensures { result ≡ key_type entities.now of.now }
{
    match of {
        source_tree::KeyType::Int => KeyType::Int,
        source_tree::KeyType::Text => KeyType::Text,
        source_tree::KeyType::Entity(name) => KeyType::Id(entity_number(entities, name.name())),
    }
}

fn key_types(alloc: Global, entities: &[Name], keys: &[Key]) -> Result<KeyTypeList, Memory>
    requires { length entities.now ≤ most_names }
    ensures { IfOk result (λ types. types ≡ key_types entities.now keys.now) }
{
    let mut types = Sequence::new(alloc);
    for key in keys {
        types.push(key_type(entities, &key.of))?;
    }
    Ok(types)
}

fn id_alone(alloc: Global, entity: u16) -> Result<KeyTypeList, Memory>
    ensures { IfOk result (λ types. types ≡ Id entity ∷ []) }
{
    let mut types = Sequence::new(alloc);
    types.push(KeyType::Id(entity))?;
    Ok(types)
}

fn property(
    alloc: Global,
    owner: &Owner,
    keys: &KeyTypeList,
    written: &source_tree::Property,
) -> Result<Property, Memory>
    ensures { IfOk result (λ made. made ≡ property owner.now keys.now written.now) }
{
    Ok(Property {
        name: written.name.name().copy(alloc)?,
        owner: owner.copy(alloc)?,
        cell: written.cell,
        keys: keys.copy(alloc)?,
    })
}

fn add_properties(
    properties: &mut PropertyList,
    alloc: Global,
    owner: &Owner,
    keys: &KeyTypeList,
    written: &[source_tree::Property],
) -> Result<(), Memory>
    ensures { OnOk result
        (properties.new ≡ properties.old ++ map (property owner.now keys.now) written.now) }
{
    for one in written {
        properties.push(property(alloc, owner, keys, one)?)?;
    }
    Ok(())
}

fn add_global(
    properties: &mut PropertyList,
    alloc: Global,
    declaration: &Declaration,
) -> Result<(), Memory>
    ensures { OnOk result (properties.new ≡ properties.old ++ globals_in declaration.now) }
{
    if let Declaration::Global(written) = declaration {
        let keys = Sequence::new(alloc);
        properties.push(property(alloc, &Owner::Global, &keys, written)?)?;
    }
    Ok(())
}

fn add_owned(
    properties: &mut PropertyList,
    alloc: Global,
    entities: &[Name],
    declaration: &Declaration,
) -> Result<(), Memory>
    requires { length entities.now ≤ most_names }
    ensures { OnOk result
        (properties.new ≡ properties.old ++ owned_in entities.now declaration.now) }
{
    match declaration {
        Declaration::Global(_) => Ok(()),
        Declaration::Array(name, keys, written) => {
            let owner = Owner::Array(name.name().copy(alloc)?);
            let keys = key_types(alloc, entities, keys.as_slice())?;
            add_properties(properties, alloc, &owner, &keys, written.as_slice())
        }
        Declaration::Entity(name, _, written) => {
            let number = entity_number(entities, name.name());
            let keys = id_alone(alloc, number)?;
            add_properties(
                properties,
                alloc,
                &Owner::Entity(number),
                &keys,
                written.as_slice(),
            )
        }
    }
}

// First all globals, and then the properties of arrays and entities.
fn properties(
    alloc: Global,
    entities: &[Name],
    declarations: &[Declaration],
) -> Result<PropertyList, Memory>
    requires { length entities.now ≤ most_names }
    ensures { IfOk result (λ properties. properties
        ≡ flat_map globals_in declarations.now
        ++ flat_map (owned_in entities.now) declarations.now) }
{
    let mut properties = globals(alloc, declarations)?;
    for declaration in declarations {
        add_owned(&mut properties, alloc, entities, declaration)?;
    }
    Ok(properties)
}

fn globals(alloc: Global, declarations: &[Declaration]) -> Result<PropertyList, Memory>
    ensures { IfOk result (λ properties. properties ≡ flat_map globals_in declarations.now) }
{
    let mut properties = Sequence::new(alloc);
    for declaration in declarations {
        add_global(&mut properties, alloc, declaration)?;
    }
    Ok(properties)
}

fn add_entity(
    made: &mut EntityList,
    alloc: Global,
    entities: &[Name],
    declaration: &Declaration,
) -> Result<(), Memory>
    requires { length entities.now ≤ most_names }
    ensures { OnOk result (made.new ≡ made.old ++ entities_in entities.now declaration.now) }
{
    if let Declaration::Entity(name, keys, _) = declaration {
        made.push(Entity {
            name: name.name().copy(alloc)?,
            keys: key_types(alloc, entities, keys.as_slice())?,
        })?;
    }
    Ok(())
}

fn entities(
    alloc: Global,
    names: &[Name],
    declarations: &[Declaration],
) -> Result<EntityList, Memory>
    requires { length names.now ≤ most_names }
    ensures { IfOk result
        (λ entities. entities ≡ flat_map (entities_in names.now) declarations.now) }
{
    let mut entities = Sequence::new(alloc);
    for declaration in declarations {
        add_entity(&mut entities, alloc, names, declaration)?;
    }
    Ok(entities)
}

/// The schema of declarations.
#[tactic(auto, using(crate::proofs::Bounds::names_few))]
pub fn schema(alloc: Global, declarations: &[Declaration]) -> Result<Schema, Memory>
    requires { names_count declarations.now ≤ most_names }
    ensures { IfOk result (λ schema. schema ≡ schema_of declarations.now) }
{
    let names = entity_names(alloc, declarations)?;
    Ok(Schema {
        properties: properties(alloc, names.as_slice(), declarations)?,
        entities: entities(alloc, names.as_slice(), declarations)?,
    })
}
