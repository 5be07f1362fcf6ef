// Declarations, clients, schedules and programs.
use crate::statement::Statement;
use cloud_base::{CellType, Fate, Sequence};
use source_tokens::Identifier;
use sqlite_items::Items;

/// The type of a key. An id is of the entity with that name.
#[derive(Debug, Drop)]
pub enum KeyType {
    Int,
    Text,
    Entity(Identifier),
}

#[derive(Debug, Drop)]
pub struct Key {
    pub name: Identifier,
    pub of: KeyType,
}

#[derive(Debug, Drop)]
pub struct Property {
    pub name: Identifier,
    pub cell: CellType,
}

/// A declaration. `Entity` has no keys where none are written.
#[derive(Debug, Drop)]
pub enum Declaration {
    Global(Property),
    Array(Identifier, Sequence<Key>, Sequence<Property>),
    Entity(Identifier, Sequence<Key>, Sequence<Property>),
}

#[derive(Drop)]
pub struct Client {
    pub name: Identifier,
    pub body: Items<Statement>,
}

/// An item of a schedule: so many steps of a client, or a serve of one.
#[derive(Debug, Drop)]
pub enum Item {
    Steps(Identifier, u64),
    Serve(Identifier, Fate),
}

/// A program as it is written. A schedule that is absent differs from an empty one.
#[derive(Drop)]
pub struct Program {
    pub declarations: Sequence<Declaration>,
    pub clients: Sequence<Client>,
    pub schedule: Option<Sequence<Item>>,
}
