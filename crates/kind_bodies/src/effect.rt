// Rules that speak of what statements do.
ghost use Rattle.std.specs.Prelude.{◌≡◌, MatchResult, Option, IfSome, None, ◌<◌, length};
ghost use Rattle.cloud_base.specs.PlainCell.{value_kind};
ghost use Rattle.kind_rules.specs.Answers.{Fault, fault_with};
ghost use Rattle.kind_rules.specs.Statements.{
  argument_kind,
  has_operation,
  typed_operation,
};
ghost use Rattle.kind_bodies.specs.Effects.{
  assignment_rule,
  created_types,
  creation_rule,
  operation_rule,
};
ghost use Rattle.kind_bodies.specs.Settles.{Tells};

use crate::fault::KindFault;
use crate::found::Found;
use crate::operator::is_same;
use crate::place::{entity_keys, property_cell, property_kind};
use crate::rule::{Rule, lower, or_unless, unless};
use cloud_base::{CellType, KeyType, Schema};
use kind_names::Variables;
use source_tree::Operation;
use typed_program::Kind;

/// Whether no rule fails at an item of a line.
#[tactic(auto, unfolding(crate::specs::Settles::Tells))]
pub fn kept(rule: Rule, line: u32) -> Result<(), KindFault>
    ensures { MatchResult result (λ _. rule ≡ None)
        (λ fault. (later : Option Fault) → Tells (fault_with line rule later) fault) }
{
    match rule {
        Some(rule) => Err(KindFault::Rule { rule, line }),
        None => Ok(()),
    }
}

/// The types of the keys that are due where an entity is found.
pub fn created_types(schema: &Schema, found: Option<u16>) -> &[KeyType]
    ensures { result.now ≡ created_types schema.now found }
{
    match found {
        Some(number) => entity_keys(schema, number),
        None => &[],
    }
}

/// The rule that fails where an entity is created with so many keys.
pub fn creation_rule(schema: &Schema, found: Option<u16>, count: usize, keys: Rule) -> Rule
    ensures { result ≡ creation_rule schema.now found count keys }
{
    match found {
        Some(number) => lower(unless(count == entity_keys(schema, number).len(), 4), keys),
        None => lower(Some(2), keys),
    }
}

/// The rule that fails where a variable is assigned.
pub fn assignment_rule(variables: &Variables, slot: Option<u8>, found: &Found) -> Rule
    requires { IfSome slot (λ slot. slot < length variables.now) }
    ensures { result ≡ assignment_rule variables.now slot found.now }
{
    match slot {
        Some(slot) => {
            let fits = is_same(variables.kind(slot), found.kind);
            or_unless(found.rule, fits, 8)
        }
        None => lower(Some(2), found.rule),
    }
}

fn has_operation(operation: Operation, cell: CellType) -> bool
    ensures { result ≡ has_operation operation (value_kind cell) }
{
    match (operation, cell) {
        (Operation::Add, CellType::Int) => true,
        (Operation::Add, CellType::Text) => false,
        (Operation::Set, _) => true,
        (Operation::SetIfEmpty, CellType::Int) => false,
        (Operation::SetIfEmpty, CellType::Text) => true,
    }
}

fn argument_kind(operation: Operation, cell: Kind) -> Kind
    ensures { result ≡ argument_kind operation cell }
{
    match operation {
        Operation::Add => Kind::Int,
        Operation::Set => cell,
        Operation::SetIfEmpty => Kind::Text,
    }
}

/// What an operation is in a typed statement.
pub fn typed_operation(operation: Operation) -> typed_program::Operation
    ensures { result ≡ typed_operation operation }
{
    match operation {
        Operation::Add => typed_program::Operation::Add,
        Operation::Set => typed_program::Operation::Set,
        Operation::SetIfEmpty => typed_program::Operation::SetIfEmpty,
    }
}

/// The rule that fails in an operation and its argument.
pub fn operation_rule(
    schema: &Schema,
    property: Option<u16>,
    operation: Operation,
    found: &Found,
) -> Rule
    ensures { result ≡ operation_rule schema.now property operation found.now }
{
    let Some(number) = property else {
        return found.rule;
    };
    let due = argument_kind(operation, property_kind(schema, number));
    let is_cell = has_operation(operation, property_cell(schema, number));
    let argument = or_unless(found.rule, is_same(due, found.kind), 7);
    lower(unless(is_cell, 6), argument)
}
