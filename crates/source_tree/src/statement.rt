// Statements.
use crate::expression::{Expression, Place};
use cloud_base::Sequence;
use source_tokens::Identifier;
use sqlite_items::Items;

/// What an update does to a cell.
#[derive(Clone, Copy, Debug, PartialEq, Eq)]
pub enum Operation {
    Add,
    Set,
    SetIfEmpty,
}

/// A statement. `Create` has no keys where none are written.
#[derive(Drop)]
pub enum Statement {
    Define(Identifier, Expression),
    Create(Identifier, Identifier, Items<Expression>),
    Assign(Identifier, Expression),
    Update(Place<Expression>, Operation, Expression),
    Delete(Identifier),
    If(Expression, Items<Statement>, Option<Items<Statement>>),
    While(Expression, Items<Statement>),
    ForAll(Identifier, Identifier, Items<Statement>),
    ForEntries(Sequence<Identifier>, Identifier, Identifier, Items<Statement>),
    Print(Expression),
    Yield,
    Flush,
}
