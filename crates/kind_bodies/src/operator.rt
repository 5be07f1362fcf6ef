// Operators and kinds.
ghost use Rattle.std.specs.Prelude.{◌≡◌, IfOk};
ghost use Rattle.typed_program.specs.Kinds.{takes, result_kind, key_kind, cell_kind};
ghost use Rattle.kind_rules.specs.Expressions.{same_kind, fits, gives, combined};
ghost use Rattle.kind_bodies.specs.Operators.{typed_operator, is_ordered};

use cloud_base::{CellType, KeyType, Memory};
use source_tree::Operator;
use sqlite_items::Boxed;
use std::alloc::Global;
use typed_program::{Expression, Kind};

// What an operator is in a typed expression.
#[derive(Clone, Copy, Debug, PartialEq, Eq)]
enum Connective {
    Or,
    And,
    Binary(typed_program::Operator),
}

fn typed_operator(operator: Operator) -> Connective
    ensures { result ≡ typed_operator operator }
{
    match operator {
        Operator::Or => Connective::Or,
        Operator::And => Connective::And,
        Operator::Equal => Connective::Binary(typed_program::Operator::Equal),
        Operator::NotEqual => Connective::Binary(typed_program::Operator::NotEqual),
        Operator::Less => Connective::Binary(typed_program::Operator::Less),
        Operator::LessOrEqual => Connective::Binary(typed_program::Operator::LessOrEqual),
        Operator::Greater => Connective::Binary(typed_program::Operator::Greater),
        Operator::GreaterOrEqual => Connective::Binary(typed_program::Operator::GreaterOrEqual),
        Operator::Plus => Connective::Binary(typed_program::Operator::Add),
        Operator::Minus => Connective::Binary(typed_program::Operator::Subtract),
        Operator::Concat => Connective::Binary(typed_program::Operator::Concat),
        Operator::Times => Connective::Binary(typed_program::Operator::Multiply),
        Operator::Divide => Connective::Binary(typed_program::Operator::Divide),
        Operator::Remainder => Connective::Binary(typed_program::Operator::Remainder),
    }
}

pub fn is_same(first: Kind, second: Kind) -> bool
    ensures { result ≡ same_kind first second }
{
    match (first, second) {
        (Kind::Int, Kind::Int) => true,
        (Kind::Text, Kind::Text) => true,
        (Kind::Truth, Kind::Truth) => true,
        (Kind::Id(first), Kind::Id(second)) => first == second,
        _ => false,
    }
}

fn takes(operator: typed_program::Operator, kind: Kind) -> bool
    ensures { result ≡ takes operator kind }
{
    match operator {
        typed_program::Operator::Equal => true,
        typed_program::Operator::NotEqual => true,
        typed_program::Operator::Concat => is_same(kind, Kind::Text),
        typed_program::Operator::Less => is_ordered(kind),
        typed_program::Operator::LessOrEqual => is_ordered(kind),
        typed_program::Operator::Greater => is_ordered(kind),
        typed_program::Operator::GreaterOrEqual => is_ordered(kind),
        typed_program::Operator::Add => is_same(kind, Kind::Int),
        typed_program::Operator::Subtract => is_same(kind, Kind::Int),
        typed_program::Operator::Multiply => is_same(kind, Kind::Int),
        typed_program::Operator::Divide => is_same(kind, Kind::Int),
        typed_program::Operator::Remainder => is_same(kind, Kind::Int),
    }
}

fn is_ordered(kind: Kind) -> bool
    ensures { result ≡ is_ordered kind }
{
    match kind {
        Kind::Int => true,
        Kind::Text => true,
        Kind::Truth => false,
        Kind::Id(_) => false,
    }
}

/// Whether an operator takes two operands of these kinds.
pub fn fits(operator: Operator, left: Kind, right: Kind) -> bool
    ensures { result ≡ fits operator left right }
{
    match typed_operator(operator) {
        Connective::Or => is_same(left, Kind::Truth) && is_same(right, Kind::Truth),
        Connective::And => is_same(left, Kind::Truth) && is_same(right, Kind::Truth),
        Connective::Binary(operator) => is_same(left, right) && takes(operator, left),
    }
}

fn result_kind(operator: typed_program::Operator) -> Kind
    ensures { result ≡ result_kind operator }
{
    match operator {
        typed_program::Operator::Add => Kind::Int,
        typed_program::Operator::Subtract => Kind::Int,
        typed_program::Operator::Multiply => Kind::Int,
        typed_program::Operator::Divide => Kind::Int,
        typed_program::Operator::Remainder => Kind::Int,
        typed_program::Operator::Concat => Kind::Text,
        _ => Kind::Truth,
    }
}

/// The kind of what an operator gives.
pub fn gives(operator: Operator) -> Kind
    ensures { result ≡ gives operator }
{
    match typed_operator(operator) {
        Connective::Or => Kind::Truth,
        Connective::And => Kind::Truth,
        Connective::Binary(operator) => result_kind(operator),
    }
}

pub fn combined(
    alloc: Global,
    operator: Operator,
    left: Expression,
    right: Expression,
) -> Result<Expression, Memory>
    ensures { IfOk result (λ both. both ≡ combined operator left right) }
{
    let left = Boxed::new(alloc, left)?;
    let right = Boxed::new(alloc, right)?;
    match typed_operator(operator) {
        Connective::Or => Ok(Expression::Or(left, right)),
        Connective::And => Ok(Expression::And(left, right)),
        Connective::Binary(operator) => Ok(Expression::Binary(operator, left, right)),
    }
}

/// The kind of a key of a type.
pub fn key_kind(key: KeyType) -> Kind
    ensures { result ≡ key_kind key }
{
    match key {
        KeyType::Int => Kind::Int,
        KeyType::Text => Kind::Text,
        KeyType::Id(entity) => Kind::Id(entity),
    }
}

/// The kind of a cell's value.
pub fn cell_kind(cell: CellType) -> Kind
    ensures { result ≡ cell_kind cell }
{
    match cell {
        CellType::Int => Kind::Int,
        CellType::Text => Kind::Text,
    }
}
