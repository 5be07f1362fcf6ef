// Names that statements declare.
ghost use Rattle.std.specs.Prelude.{◌≡◌, ◌+◌, ◌≤◌, ◌++◌, length, OnOk};
ghost use Rattle.kind_rules.specs.Answers.{lowest_rule};
ghost use Rattle.kind_rules.specs.Statements.{
  scope_of,
  is_used,
  any_used,
  declared as declares,
  entries_of_array,
  entries_rules,
  variables,
  most_visible,
};
ghost use Rattle.kind_bodies.specs.Found.{due_kind};

use crate::operator::key_kind;
use crate::place::property_keys;
use crate::rule::{Rule, lower, unless};
use cloud_base::{KeyType, Memory, Name};
use kind_names::{Declared, Variables, is_repeated};
use source_tokens::Identifier;
use sqlite_items::at;
use std::alloc::Global;
use typed_program::Kind;

const MOST_VISIBLE: usize = 64;

fn is_used(declared: &Declared, variables: &Variables, name: &Name) -> bool
    ensures { result ≡ is_used (scope_of declared.now variables.now) name.now }
{
    variables.slot(name).is_some() || declared.is_taken(name)
}

fn any_used(declared: &Declared, variables: &Variables, names: &[Identifier]) -> bool
    ensures { result ≡ any_used (scope_of declared.now variables.now) names.now }
{
    for name in names {
        if is_used(declared, variables, name.name()) {
            return true;
        }
    }
    false
}

/// The rule that fails where a statement declares variables.
#[tactic(auto, using(crate::proofs::Rules::appended))]
pub fn names_rule(declared: &Declared, variables: &Variables, names: &[Identifier]) -> Rule
    ensures { result ≡ lowest_rule (declares (scope_of declared.now variables.now) names.now) }
{
    let is_old = is_repeated(names) || any_used(declared, variables, names);
    let is_room = variables.len().saturating_add(names.len()) <= MOST_VISIBLE;
    lower(unless(!is_old, 1), unless(is_room, 12))
}

// The rule that fails where an array's entries are listed.
fn array_rule(declared: &Declared, names: &[Identifier], found: Option<u16>) -> Rule
    ensures { result ≡ lowest_rule (entries_of_array declared.now names.now found) }
{
    match found {
        None => Some(2),
        Some(number) => {
            let due = property_keys(declared.schema(), number).len();
            unless(names.len() == due, 4)
        }
    }
}

/// The rule that fails where the entries of a property are listed.
pub fn entries_rule(
    declared: &Declared,
    names: &[Identifier],
    array: &Name,
    property: &Name,
) -> Rule
    ensures { result ≡ lowest_rule (entries_rules declared.now names.now array.now property.now) }
{
    if let Some(entity) = declared.entity(array) {
        let is_property = declared.entity_property(entity, property).is_some();
        return lower(unless(is_property, 2), Some(10));
    }
    match declared.global(array) {
        Some(_) => Some(10),
        None => {
            let found = declared.array_property(array, property);
            array_rule(declared, names, found)
        }
    }
}

// The kind of a variable that stands for a key of a type.
fn due_kind(due: Option<KeyType>) -> Kind
    ensures { result ≡ due_kind due }
{
    match due {
        Some(due) => key_kind(due),
        None => Kind::Int,
    }
}

/// A variable for each name, of the kind of its key.
pub fn declare_all(
    alloc: Global,
    visible: &mut Variables,
    names: &[Identifier],
    types: &[KeyType],
) -> Result<(), Memory>
    requires { length visible.old + length names.now ≤ most_visible }
    ensures { OnOk result (visible.new ≡ visible.old ++ variables names.now types.now) }
{
    for (place, name) in names.iter().enumerate() {
        let kind = due_kind(at(types, place).copied());
        visible.declare(alloc, name.name(), kind)?;
    }
    Ok(())
}
