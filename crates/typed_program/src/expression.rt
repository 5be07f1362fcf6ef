// Kinds and expressions.
use cloud_base::Text;
use sqlite_items::{Boxed, Items};

/// The kind of a value. An id is of the entity with that number.
#[derive(Clone, Copy, Debug, PartialEq, Eq)]
pub enum Kind {
    Int,
    Text,
    Truth,
    Id(u16),
}

/// An operator that evaluates both operands, the left one first.
#[derive(Clone, Copy, Debug, PartialEq, Eq)]
pub enum Operator {
    Add,
    Subtract,
    Multiply,
    Divide,
    Remainder,
    Concat,
    Equal,
    NotEqual,
    Less,
    LessOrEqual,
    Greater,
    GreaterOrEqual,
}

/// An expression, with slots and numbers in place of names.
///
/// `Slot` has its kind, and `Alive` the slot of an id and its entity. `Get` has the number of a
/// property and the keys of a cell; of a property of a variable, the one key is the variable's
/// slot.
#[derive(Drop)]
pub enum Expression {
    Int(i64),
    Text(Text),
    Truth(bool),
    Slot(u8, Kind),
    Get(u16, Items<Expression>),
    Alive(u8, u16),
    Minus(Boxed<Expression>),
    Not(Boxed<Expression>),
    Binary(Operator, Boxed<Expression>, Boxed<Expression>),
    And(Boxed<Expression>, Boxed<Expression>),
    Or(Boxed<Expression>, Boxed<Expression>),
}
