// What a source declares.
ghost use Rattle.std.specs.Prelude.{◌≡◌, IfOk};

use crate::memory::Memory;
use crate::name::Name;
use crate::sequence::Sequence;
use std::alloc::Global;

/// The type of a cell.
#[derive(Clone, Copy, Debug, PartialEq, Eq)]
pub enum CellType {
    Int,
    Text,
}

/// The type of a key. An id is of the entity with that number.
#[derive(Clone, Copy, Debug, PartialEq, Eq)]
pub enum KeyType {
    Int,
    Text,
    Id(u16),
}

pub type KeyTypeList = Sequence<KeyType>;

/// Where a property is declared. An entity goes by its number.
#[derive(Drop, PartialEq, Eq)]
pub enum Owner {
    Global,
    Array(Name),
    Entity(u16),
}

impl Owner {
    /// The same owner.
    pub fn copy(&self, alloc: Global) -> Result<Owner, Memory>
        ensures { IfOk result (λ owner. owner ≡ self.now) }
    {
        Ok(match self {
            Owner::Global => Owner::Global,
            Owner::Array(name) => Owner::Array(name.copy(alloc)?),
            Owner::Entity(entity) => Owner::Entity(*entity),
        })
    }
}

/// A property: its cells are of one type, one for each list of keys.
#[derive(Drop, PartialEq, Eq)]
pub struct Property {
    pub name: Name,
    pub owner: Owner,
    pub cell: CellType,
    pub keys: KeyTypeList,
}

impl Property {
    /// The same property.
    pub fn copy(&self, alloc: Global) -> Result<Property, Memory>
        ensures { IfOk result (λ property. property ≡ self.now) }
    {
        Ok(Property {
            name: self.name.copy(alloc)?,
            owner: self.owner.copy(alloc)?,
            cell: self.cell,
            keys: self.keys.copy(alloc)?,
        })
    }
}

pub type PropertyList = Sequence<Property>;

fn copy_properties(alloc: Global, properties: &PropertyList) -> Result<PropertyList, Memory>
    ensures { IfOk result (λ copy. copy ≡ properties.now) }
{
    let mut copy = Sequence::new(alloc);
    for property in properties.as_slice() {
        copy.push(property.copy(alloc)?)?;
    }
    Ok(copy)
}

/// An entity, with the types of the keys that it is created with.
#[derive(Drop, PartialEq, Eq)]
pub struct Entity {
    pub name: Name,
    pub keys: KeyTypeList,
}

impl Entity {
    /// The same entity.
    pub fn copy(&self, alloc: Global) -> Result<Entity, Memory>
        ensures { IfOk result (λ entity. entity ≡ self.now) }
    {
        Ok(Entity {
            name: self.name.copy(alloc)?,
            keys: self.keys.copy(alloc)?,
        })
    }
}

pub type EntityList = Sequence<Entity>;

fn copy_entities(alloc: Global, entities: &EntityList) -> Result<EntityList, Memory>
    ensures { IfOk result (λ copy. copy ≡ entities.now) }
{
    let mut copy = Sequence::new(alloc);
    for entity in entities.as_slice() {
        copy.push(entity.copy(alloc)?)?;
    }
    Ok(copy)
}

/// The properties by number, first all globals, and the entities by number.
#[derive(Drop, PartialEq, Eq)]
pub struct Schema {
    pub properties: PropertyList,
    pub entities: EntityList,
}

impl Schema {
    /// The same schema.
    pub fn copy(&self, alloc: Global) -> Result<Schema, Memory>
        ensures { IfOk result (λ schema. schema ≡ self.now) }
    {
        Ok(Schema {
            properties: copy_properties(alloc, &self.properties)?,
            entities: copy_entities(alloc, &self.entities)?,
        })
    }
}

#[cfg(test)]
mod tests {
    use super::*;
    use std::test::Fail;

    #[test]
    fn a_copied_schema_is_the_same(rt: HostRuntime) -> Result<(), Fail> {
        let mut keys = Sequence::new(rt.alloc());
        keys.push(KeyType::Id(0))?;
        let mut properties = Sequence::new(rt.alloc());
        properties.push(Property {
            name: Name::new(rt.alloc(), b"stock")?,
            owner: Owner::Array(Name::new(rt.alloc(), b"Stock")?),
            cell: CellType::Int,
            keys,
        })?;
        let mut entities = Sequence::new(rt.alloc());
        entities.push(Entity {
            name: Name::new(rt.alloc(), b"Item")?,
            keys: Sequence::new(rt.alloc()),
        })?;
        let schema = Schema {
            properties,
            entities,
        };
        let copy = schema.copy(rt.alloc())?;
        assert!(rt; copy == schema);
        assert_eq!(rt; copy.properties.len(), 1);
        Ok(())
    }
}
