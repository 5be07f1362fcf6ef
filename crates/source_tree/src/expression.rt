// Expressions.
use cloud_base::Sequence;
use source_tokens::Identifier;
use sqlite_items::{Boxed, Items};

/// An operator between two operands.
#[derive(Clone, Copy, Debug, PartialEq, Eq)]
pub enum Operator {
    Or,
    And,
    Equal,
    NotEqual,
    Less,
    LessOrEqual,
    Greater,
    GreaterOrEqual,
    Plus,
    Minus,
    Concat,
    Times,
    Divide,
    Remainder,
}

/// The levels of the grammar of expressions, from the loosest on: each is made of the next ones.
#[derive(Clone, Copy, Debug, PartialEq, Eq)]
pub enum Level {
    Choice,
    Conjunction,
    Negation,
    Comparison,
    Sum,
    Term,
    Factor,
}

/// A place: a name alone, a property of a name, or a property of an entry with its keys.
#[derive(Drop)]
pub enum Place<E> {
    Name(Identifier),
    Field(Identifier, Identifier),
    Entry(Identifier, Items<E>, Identifier),
}

/// An expression. Parentheses leave nothing in it.
#[derive(Drop)]
pub enum Expression {
    Number(u64),
    Text(Sequence<u8>),
    Truth(bool),
    Alive(Identifier),
    Place(Place<Expression>),
    Minus(Boxed<Expression>),
    Not(Boxed<Expression>),
    Binary(Operator, Boxed<Expression>, Boxed<Expression>),
}
