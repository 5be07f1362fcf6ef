// The rules of kinds at a declaration behind earlier ones.
ghost use Rattle.std.specs.Prelude.{◌≡◌, ◌↔◌, ◌∷◌, [], map, IsTrue};
ghost use Rattle.std.specs.List.{flat_map};
ghost use Rattle.source_tree.specs.declared.program.Key.{Key};
ghost use Rattle.source_tree.specs.declared.program.Property.{Property};
ghost use Rattle.kind_rules.specs.Names.{is_among, is_repeated};
ghost use Rattle.kind_rules.specs.Expressions.{unless};
ghost use Rattle.kind_rules.specs.Answers.{lowest_rule};
ghost use Rattle.kind_rules.specs.Declarations.{declared_name, declared_names, entity_names};
ghost use Rattle.kind_rules.specs.Declarations.{own_names, type_rules, name_rules};
ghost use Rattle.kind_rules.specs.Declarations.{owner_rules, declaration_rules};
ghost use Rattle.kind_declarations.specs.Rules.{types_rules};

use cloud_base::{MOST_KEYS, Name};
use source_tree::{Declaration, Key, KeyType, Property};

const NAMES_ARE_TAKEN: u8 = 1;

const TYPES_OF_KEYS: u8 = 3;

const KEY_COUNT: u8 = 4;

pub fn declared_name(declaration: &Declaration) -> &Name
    ensures { result.now ≡ declared_name declaration.now }
{
    match declaration {
        Declaration::Global(property) => property.name.name(),
        Declaration::Array(name, _, _) => name.name(),
        Declaration::Entity(name, _, _) => name.name(),
    }
}

// At most 256 names are declared, so each is looked for among all earlier ones.
fn is_declared(name: &Name, earlier: &[Declaration]) -> bool
    ensures { result ≡ is_among name.now (declared_names earlier.now) }
{
    for declaration in earlier {
        if declared_name(declaration).as_str() == name.as_str() {
            return true;
        }
    }
    false
}

fn is_entity_named(declaration: &Declaration, name: &Name) -> bool
    ensures { result ≡ is_among name.now (entity_names (declaration.now ∷ [])) }
{
    match declaration {
        Declaration::Entity(entity, _, _) => entity.name().as_str() == name.as_str(),
        _ => false,
    }
}

#[tactic(auto, using(crate::proofs::Lowest::entity_next))]
fn is_entity(name: &Name, earlier: &[Declaration]) -> bool
    ensures { result ≡ is_among name.now (entity_names earlier.now) }
{
    for declaration in earlier {
        if is_entity_named(declaration, name) {
            return true;
        }
    }
    false
}

fn is_key(name: &Name, keys: &[Key]) -> bool
    ensures { result ≡ is_among name.now (map (λ (k : Key). k.name) keys.now) }
{
    for key in keys {
        if key.name.name().as_str() == name.as_str() {
            return true;
        }
    }
    false
}

fn is_property(name: &Name, properties: &[Property]) -> bool
    ensures { result ≡ is_among name.now (map (λ (p : Property). p.name) properties.now) }
{
    for property in properties {
        if property.name.name().as_str() == name.as_str() {
            return true;
        }
    }
    false
}

#[tactic(auto, using(crate::proofs::Lowest::among_both))]
fn is_own(name: &Name, keys: &[Key], properties: &[Property]) -> bool
    ensures { result ≡ is_among name.now (own_names keys.now properties.now) }
{
    is_key(name, keys) || is_property(name, properties)
}

fn are_properties_repeated(properties: &[Property]) -> bool
    ensures { result ≡ is_repeated (own_names [] properties.now) }
{
    for (place, property) in properties.iter().enumerate() {
        if is_property(property.name.name(), &properties[place + 1..]) {
            return true;
        }
    }
    false
}

// Each name is looked for among all those behind it.
fn are_repeated(keys: &[Key], properties: &[Property]) -> bool
    ensures { result ≡ is_repeated (own_names keys.now properties.now) }
{
    for (place, key) in keys.iter().enumerate() {
        if is_own(key.name.name(), &keys[place + 1..], properties) {
            return true;
        }
    }
    are_properties_repeated(properties)
}

fn is_known(of: &KeyType, earlier: &[Declaration]) -> bool
    ensures { type_rules (entity_names earlier.now) of.now ≡ unless result 3 }
{
    match of {
        KeyType::Int => true,
        KeyType::Text => true,
        KeyType::Entity(name) => is_entity(name.name(), earlier),
    }
}

fn are_known(keys: &[Key], earlier: &[Declaration]) -> bool
    ensures { IsTrue result ↔ (types_rules (entity_names earlier.now) keys.now ≡ []) }
{
    for key in keys {
        if !is_known(&key.of, earlier) {
            return false;
        }
    }
    true
}

#[tactic(auto, using(crate::proofs::Lowest::owners))]
fn owner_rule(
    earlier: &[Declaration],
    name: &Name,
    keys: &[Key],
    properties: &[Property],
) -> Option<u8>
    ensures { result
        ≡ lowest_rule (owner_rules earlier.now name.now keys.now properties.now) }
{
    if is_declared(name, earlier) || are_repeated(keys, properties) {
        return Some(NAMES_ARE_TAKEN);
    }
    if !are_known(keys, earlier) {
        return Some(TYPES_OF_KEYS);
    }
    if keys.len() > MOST_KEYS {
        return Some(KEY_COUNT);
    }
    None
}

fn global_rule(earlier: &[Declaration], name: &Name) -> Option<u8>
    ensures { result ≡ lowest_rule (name_rules earlier.now name.now []) }
{
    is_declared(name, earlier).then_some(NAMES_ARE_TAKEN)
}

/// The lowest rule that fails at a declaration behind earlier ones.
pub fn declaration_rule(earlier: &[Declaration], declaration: &Declaration) -> Option<u8>
    ensures { result ≡ lowest_rule (declaration_rules earlier.now declaration.now) }
{
    match declaration {
        Declaration::Global(property) => global_rule(earlier, property.name.name()),
        Declaration::Array(name, keys, properties) => {
            owner_rule(earlier, name.name(), keys.as_slice(), properties.as_slice())
        }
        Declaration::Entity(name, keys, properties) => {
            owner_rule(earlier, name.name(), keys.as_slice(), properties.as_slice())
        }
    }
}
