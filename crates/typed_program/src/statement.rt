// Statements.
use crate::expression::Expression;
use sqlite_items::Items;

/// What an update does to a cell.
#[derive(Clone, Copy, Debug, PartialEq, Eq)]
pub enum Operation {
    Add,
    Set,
    SetIfEmpty,
}

/// A statement, its line first.
///
/// `Store` is a declaration where its slot isn't visible yet, and else an assignment. `Create` has
/// a slot, an entity and keys, `Update` a property and keys, `Delete` a slot and its entity,
/// `ForAll` a slot and an entity, and `ForEntries` the first of as many slots as its property has
/// keys.
#[derive(Drop)]
pub enum Statement {
    Store(u32, u8, Expression),
    Create(u32, u8, u16, Items<Expression>),
    Update(u32, u16, Items<Expression>, Operation, Expression),
    Delete(u32, u8, u16),
    If(u32, Expression, Items<Statement>, Option<Items<Statement>>),
    While(u32, Expression, Items<Statement>),
    ForAll(u32, u8, u16, Items<Statement>),
    ForEntries(u32, u8, u16, Items<Statement>),
    Print(u32, Expression),
    Yield(u32),
    Flush(u32),
}

pub type Body = Items<Statement>;
