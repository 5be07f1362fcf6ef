// What is declared, found by name.
ghost use Rattle.std.specs.Prelude.{◌≡◌, ◌≤◌, ◌<◌, ◌^◌, [], length, IfOk, IfSome};
ghost use Rattle.cloud_base.specs.declared.schema.Owner.TheVariants as owner;
ghost use Rattle.kind_rules.specs.Names.{property_of, entity_of, is_among};
ghost use Rattle.kind_names.specs.Keys.{named};

use crate::index::{Index, Key};
use cloud_base::{Memory, Name, Schema, Sequence};
use std::alloc::Global;
use std::marker::Model;

/// What is declared, found by name in logarithmic time. Contracts see it as a scope without
/// variables.
#[derive(Drop)]
pub struct Declared {
    schema: Schema,
    taken: Sequence<Name>,
    properties: Index,
    entities: Index,
    names: Index,
}

impl Model for Declared {
    ghost use Rattle.std.specs.Prelude.{◌≤◌, [], length};
    ghost use Rattle.kind_rules.specs.Names.{Scope};
    ghost use Rattle.kind_names.specs.Keys.{of_property, of_entity, of_name};
    ghost use Rattle.kind_names.specs.Indexes.{Indexes};

    ghost Value = { Scope };

    ghost view = { λ d. record { schema = d.schema; taken = d.taken; visible = [] } };

    ghost invariant = { λ d. (length d.schema.properties ≤ 256) × (length d.schema.entities ≤ 256)
        × Indexes of_property d.schema.properties d.properties
        × Indexes of_entity d.schema.entities d.entities
        × Indexes of_name d.taken d.names };
}

impl Declared {
    pub fn new(alloc: Global, schema: Schema, taken: Sequence<Name>) -> Result<Declared, Memory>
        requires properties { length schema.properties ≤ 256 }
        requires entities { length schema.entities ≤ 256 }
        ensures { IfOk result
            (λ d. d ≡ record { schema = schema; taken = taken; visible = [] }) }
    {
        let properties = Index::new(alloc, schema.properties.as_slice())?;
        let entities = Index::new(alloc, schema.entities.as_slice())?;
        let names = Index::new(alloc, taken.as_slice())?;
        Ok(Declared {
            schema,
            taken,
            properties,
            entities,
            names,
        })
    }

    pub fn schema(&self) -> &Schema
        ensures { result.now ≡ self.now.schema }
    {
        &self.schema
    }

    pub fn into_schema(self) -> Schema
        ensures { result ≡ self.schema }
    {
        let Declared { schema, .. } = self;
        schema
    }

    fn property(&self, key: Key<'_>) -> Option<u16>
        ensures { result ≡ property_of self.now.schema (named key.entry).0 (named key.entry).1 }
    {
        let properties = self.schema.properties.as_slice();
        as_number(self.properties.find(properties, key))
    }

    /// The number of the global with this name.
    pub fn global(&self, name: &Name) -> Option<u16>
        ensures { result ≡ property_of self.now.schema owner.Global name.now }
    {
        self.property(Key::global(name))
    }

    /// The number of the property of an array.
    pub fn array_property(&self, array: &Name, name: &Name) -> Option<u16>
        ensures { result ≡ property_of self.now.schema (owner.Array array.now) name.now }
    {
        self.property(Key::of_array(array, name))
    }

    /// The number of the property of an entity, which goes by its own number.
    pub fn entity_property(&self, entity: u16, name: &Name) -> Option<u16>
        ensures { result ≡ property_of self.now.schema (owner.Entity entity) name.now }
    {
        self.property(Key::of_entity(entity, name))
    }

    /// The number of the entity with this name.
    pub fn entity(&self, name: &Name) -> Option<u16>
        ensures { result ≡ entity_of self.now.schema name.now }
    {
        let entities = self.schema.entities.as_slice();
        as_number(self.entities.find(entities, Key::global(name)))
    }

    /// Whether a global, an array or an entity has this name.
    pub fn is_taken(&self, name: &Name) -> bool
        ensures { result ≡ is_among name.now self.now.taken }
    {
        let found = self.names.find(self.taken.as_slice(), Key::global(name));
        found.is_some()
    }
}

fn as_number(place: Option<usize>) -> Option<u16>
    requires { IfSome place (λ n. n < 2 ^ 16) }
    ensures { result ≡ place }
{
    match place {
        Some(place) => Some(place as u16),
        None => None,
    }
}
