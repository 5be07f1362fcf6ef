// What comes of expressions, places and keys: the lowest rule that fails there, and what counts
// where none does.
use crate::rule::Rule;
use sqlite_items::Items;
use typed_program::{Expression, Kind};

/// What comes of an expression.
#[derive(Drop)]
pub struct Found {
    pub rule: Rule,
    pub kind: Kind,
    pub typed: Expression,
}

/// What comes of keys.
#[derive(Drop)]
pub struct Keys {
    pub rule: Rule,
    pub typed: Items<Expression>,
}

/// What comes of a place: the property that it names, if it names one, and its keys.
#[derive(Drop)]
pub struct Target {
    pub rule: Rule,
    pub property: Option<u16>,
    pub keys: Items<Expression>,
}
