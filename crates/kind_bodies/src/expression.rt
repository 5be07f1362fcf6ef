// What comes of expressions and places, from the names that are visible.
ghost use Rattle.std.specs.Prelude.{◌≡◌, IfOk, pos};
ghost use Rattle.cloud_base.specs.Values.{IsText};
ghost use Rattle.source_tree.specs.Limits.{IsNumber};
ghost use Rattle.source_tree.specs.declared.expression.Place.TheVariants as place;
ghost use Rattle.typed_program.specs.declared.expression.Expression.TheVariants as typed;
ghost use Rattle.typed_program.specs.declared.expression.Kind.TheVariants as kind;
ghost use Rattle.kind_rules.specs.Names.{slot_of};
ghost use Rattle.kind_rules.specs.Expressions.{
  fine,
  field,
  read_name,
  alive,
};
ghost use Rattle.kind_rules.specs.Statements.{scope_of};
ghost use Rattle.kind_bodies.specs.Found.{
  told,
  told_target,
  judged,
  judged_keys,
  key_rule,
  targeted,
  IsFit,
  AreFit,
  FitPlace,
};

use crate::form::{binary, fails, fine, minus, not};
use crate::found::{Found, Keys, Target};
use crate::operator::{is_same, key_kind};
use crate::place::{due_types, entry, field_target, global_target, no_target, read_target};
use crate::rule::{Rule, lower, or_unless};
use cloud_base::{KeyType, Memory, Name, Sequence, Text};
use kind_names::{Declared, Variables};
use source_tree::{Expression, Place};
use sqlite_items::{Items, at};
use std::alloc::Global;
use typed_program::Kind;

fn number(number: u64) -> Found
    requires { IsNumber number }
    ensures { result ≡ told (fine kind.Int (typed.Int (pos number))) }
{
    fine(Kind::Int, typed_program::Expression::Int(number as i64))
}

fn text(bytes: &Sequence<u8>) -> Found
    requires { IsText bytes.now }
    ensures { result ≡ told (fine kind.Text (typed.Text bytes.now)) }
{
    let Ok(text) = Text::new(bytes.as_slice()) else {
        unreachable!()
    };
    fine(Kind::Text, typed_program::Expression::Text(text))
}

fn alive(declared: &Declared, variables: &Variables, name: &Name) -> Found
    ensures { result ≡ told (alive (scope_of declared.now variables.now)
        (slot_of variables.now name.now)) }
{
    let Some(slot) = variables.slot(name) else {
        return fails(2);
    };
    match variables.kind(slot) {
        Kind::Id(entity) => fine(Kind::Truth, typed_program::Expression::Alive(slot, entity)),
        Kind::Int => fails(7),
        Kind::Text => fails(7),
        Kind::Truth => fails(7),
    }
}

fn read_name(alloc: Global, declared: &Declared, variables: &Variables, name: &Name) -> Found
    ensures { result ≡ told (read_name (scope_of declared.now variables.now) name.now
        (slot_of variables.now name.now)) }
{
    match variables.slot(name) {
        Some(slot) => {
            let kind = variables.kind(slot);
            fine(kind, typed_program::Expression::Slot(slot, kind))
        }
        None => read_target(
            declared.schema(),
            global_target(alloc, declared.global(name)),
        ),
    }
}

// A property of the entity that a variable holds.
fn field(
    alloc: Global,
    declared: &Declared,
    variables: &Variables,
    variable: &Name,
    property: &Name,
) -> Result<Target, Memory>
    ensures { IfOk result (λ target. target ≡ told_target (field
        (scope_of declared.now variables.now) (slot_of variables.now variable.now) property.now)) }
{
    let Some(slot) = variables.slot(variable) else {
        return Ok(no_target(alloc, 2));
    };
    match variables.kind(slot) {
        Kind::Id(entity) => {
            let found = declared.entity_property(entity, property);
            field_target(alloc, slot, entity, found)
        }
        Kind::Int => Ok(no_target(alloc, 7)),
        Kind::Text => Ok(no_target(alloc, 7)),
        Kind::Truth => Ok(no_target(alloc, 7)),
    }
}

// The rule that fails at a key where one of a type is due, or where none is.
fn key_rule(due: Option<KeyType>, key: &Found) -> Rule
    ensures { result ≡ key_rule due key.now }
{
    match due {
        Some(due) => or_unless(key.rule, is_same(key_kind(due), key.kind), 5),
        None => key.rule,
    }
}

/// What comes of keys where keys of these types are due, as far as both go.
#[cycle(expression)]
pub fn judge_keys(
    alloc: Global,
    declared: &Declared,
    variables: &Variables,
    types: &[KeyType],
    keys: &[Expression],
) -> Result<Keys, Memory>
    requires { AreFit keys.now }
    ensures { IfOk result (λ found. found
        ≡ judged_keys (scope_of declared.now variables.now) types.now keys.now) }
{
    let mut rule = None;
    let mut typed = Items::new(alloc);
    for (place, key) in keys.iter().enumerate() {
        let found = judge(alloc, declared, variables, key)?;
        rule = lower(rule, key_rule(at(types, place).copied(), &found));
        typed.push(found.typed)?;
    }
    Ok(Keys { rule, typed })
}

// An entry of an array.
#[cycle(expression)]
#[tactic(auto, using(crate::proofs::Places::targets))]
fn array_entry(
    alloc: Global,
    declared: &Declared,
    variables: &Variables,
    array: &Name,
    keys: &[Expression],
    property: &Name,
) -> Result<Target, Memory>
    requires { AreFit keys.now }
    ensures { IfOk result (λ target. target ≡ targeted (scope_of declared.now variables.now)
        (place.Entry array.now keys.now property.now)) }
{
    let schema = declared.schema();
    let found = declared.array_property(array, property);
    let types = due_types(schema, found);
    let judged = judge_keys(alloc, declared, variables, types, keys)?;
    Ok(entry(alloc, schema, found, keys.len(), judged))
}

/// What comes of an expression.
#[cycle(expression)]
#[tactic(auto, using(crate::proofs::Forms::expressions, crate::proofs::Fits::fits))]
pub fn judge(
    alloc: Global,
    declared: &Declared,
    variables: &Variables,
    source: &Expression,
) -> Result<Found, Memory>
    requires { IsFit source.now }
    ensures { IfOk result (λ found. found
        ≡ judged (scope_of declared.now variables.now) source.now) }
{
    match source {
        Expression::Number(value) => Ok(number(*value)),
        Expression::Text(bytes) => Ok(text(bytes)),
        Expression::Truth(truth) => {
            Ok(fine(Kind::Truth, typed_program::Expression::Truth(*truth)))
        }
        Expression::Alive(name) => Ok(alive(declared, variables, name.name())),
        Expression::Place(place) => match place {
            Place::Name(name) => Ok(read_name(alloc, declared, variables, name.name())),
            Place::Field(variable, property) => {
                let (variable, property) = (variable.name(), property.name());
                let target = field(alloc, declared, variables, variable, property)?;
                Ok(read_target(declared.schema(), target))
            }
            Place::Entry(array, keys, property) => {
                let (array, property) = (array.name(), property.name());
                let keys = keys.as_slice();
                let target = array_entry(alloc, declared, variables, array, keys, property)?;
                Ok(read_target(declared.schema(), target))
            }
        },
        Expression::Minus(inner) => {
            let inner = judge(alloc, declared, variables, inner.get())?;
            minus(alloc, inner)
        }
        Expression::Not(inner) => {
            let inner = judge(alloc, declared, variables, inner.get())?;
            not(alloc, inner)
        }
        Expression::Binary(operator, left, right) => {
            let left = judge(alloc, declared, variables, left.get())?;
            let right = judge(alloc, declared, variables, right.get())?;
            binary(alloc, *operator, left, right)
        }
    }
}

/// What comes of a place that is updated.
#[tactic(auto, using(crate::proofs::Places::targets))]
pub fn judge_place(
    alloc: Global,
    declared: &Declared,
    variables: &Variables,
    place: &Place<Expression>,
) -> Result<Target, Memory>
    requires { FitPlace place.now }
    ensures { IfOk result (λ target. target
        ≡ targeted (scope_of declared.now variables.now) place.now) }
{
    match place {
        Place::Name(name) => Ok(global_target(alloc, declared.global(name.name()))),
        Place::Field(variable, property) => {
            field(alloc, declared, variables, variable.name(), property.name())
        }
        Place::Entry(array, keys, property) => {
            let (array, property) = (array.name(), property.name());
            array_entry(alloc, declared, variables, array, keys.as_slice(), property)
        }
    }
}
