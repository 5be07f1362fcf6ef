// What comes of statements and their blocks.
ghost use Rattle.std.specs.Prelude.{◌≡◌, ◌++◌, MatchResult, Option, None, take};
ghost use Rattle.source_tree.specs.declared.statement.Statement.TheVariants as s;
ghost use Rattle.kind_rules.specs.Answers.{Fault, fault_with, first_fault};
ghost use Rattle.kind_rules.specs.Statements.{scope_of};
ghost use Rattle.kind_bodies.specs.Effects.{condition_rule};
ghost use Rattle.kind_bodies.specs.Found.{judged, IsFit};
ghost use Rattle.kind_bodies.specs.Settles.{
  settled,
  settled_block,
  Settles,
  SettlesBlock,
  Tells,
  IsFitStatement,
  AreFitStatements,
};

use crate::effect::kept;
use crate::expression::judge;
use crate::fault::KindFault;
use crate::lines::{first_line, next_lines};
use crate::name::{declare_all, entries_rule, names_rule};
use crate::operator::is_same;
use crate::place::property_keys;
use crate::plain::{Settled, assign, create, define, delete, print, update};
use crate::rule::{lower, or_unless, unless};
use kind_names::{Declared, Variables};
use source_tokens::Identifier;
use source_tree::{Expression, Statement};
use sqlite_items::Items;
use std::alloc::Global;
use typed_program::{Kind, Statement as Typed};

/// The statements of a block and the lines behind them.
pub type Walked<'a> = Result<(Items<Typed>, &'a [usize]), KindFault>;

// The condition of an item of a line.
fn condition(
    alloc: Global,
    declared: &Declared,
    variables: &Variables,
    line: u32,
    source: &Expression,
) -> Result<typed_program::Expression, KindFault>
    requires { IsFit source.now }
    ensures { MatchResult result
        (λ typed. (condition_rule (judged (scope_of declared.now variables.now) source.now) ≡ None)
        × (typed ≡ (judged (scope_of declared.now variables.now) source.now).typed))
        (λ fault. (later : Option Fault) → Tells (fault_with line
        (condition_rule (judged (scope_of declared.now variables.now) source.now)) later) fault) }
{
    let found = judge(alloc, declared, variables, source)?;
    kept(
        or_unless(found.rule, is_same(Kind::Truth, found.kind), 9),
        line,
    )?;
    Ok(found.typed)
}

/// What comes of the statements of a block. Their variables stay visible.
#[cycle(statement)]
pub fn block<'a>(
    alloc: Global,
    declared: &Declared,
    variables: &mut Variables,
    lines: &'a [usize],
    body: &[Statement],
) -> Walked<'a>
    requires { AreFitStatements body.now }
    ensures { SettlesBlock (settled_block declared.now body.now variables.old lines.now)
        variables.new result }
{
    let mut typed = Items::new(alloc);
    let mut rest = lines;
    for source in body {
        let (statement, after) = statement(alloc, declared, variables, rest, source)?;
        typed.push(statement)?;
        rest = after;
    }
    Ok((typed, rest))
}

// A block, behind which only the first so many variables are visible.
#[cycle(statement)]
fn inner<'a>(
    alloc: Global,
    declared: &Declared,
    variables: &mut Variables,
    count: usize,
    lines: &'a [usize],
    body: &[Statement],
) -> Walked<'a>
    requires { AreFitStatements body.now }
    ensures { MatchResult result (λ found.
        (first_fault (settled_block declared.now body.now variables.old lines.now).items ≡ None)
        × (found.0 ≡ (settled_block declared.now body.now variables.old lines.now).typed)
        × (found.1.now ≡ (settled_block declared.now body.now variables.old lines.now).lines)
        × (variables.new
        ≡ take count (settled_block declared.now body.now variables.old lines.now).visible))
        (λ fault. Tells
        (first_fault (settled_block declared.now body.now variables.old lines.now).items) fault) }
{
    let (typed, rest) = block(alloc, declared, variables, lines, body)?;
    variables.leave(count);
    Ok((typed, rest))
}

#[cycle(statement)]
#[tactic(auto, using(crate::proofs::Blocks::while_forms))]
fn while_loop<'a>(
    alloc: Global,
    declared: &Declared,
    variables: &mut Variables,
    lines: &'a [usize],
    body: &[Statement],
    test: &Expression,
) -> Settled<'a>
    requires body { AreFitStatements body.now }
    requires test { IsFit test.now }
    ensures { Settles (settled declared.now (s.While test.now body.now) variables.old lines.now)
        variables.new result }
{
    let line = first_line(lines);
    let test = condition(alloc, declared, variables, line, test)?;
    let count = variables.len();
    let (body, rest) = inner(alloc, declared, variables, count, next_lines(lines), body)?;
    Ok((Typed::While(line, test, body), rest))
}

#[cycle(statement)]
#[tactic(auto, using(crate::proofs::Blocks::all_forms))]
fn for_all<'a>(
    alloc: Global,
    declared: &Declared,
    variables: &mut Variables,
    lines: &'a [usize],
    name: &Identifier,
    entity: &Identifier,
    body: &[Statement],
) -> Settled<'a>
    requires { AreFitStatements body.now }
    ensures { Settles (settled declared.now (s.ForAll name.now entity.now body.now)
        variables.old lines.now) variables.new result }
{
    let line = first_line(lines);
    let found = declared.entity(entity.name());
    let names = names_rule(declared, variables, std::slice::from_ref(name));
    kept(lower(names, unless(found.is_some(), 2)), line)?;
    let count = variables.len();
    let number = found.unwrap_or(0);
    variables.declare(alloc, name.name(), Kind::Id(number))?;
    let (body, rest) = inner(alloc, declared, variables, count, next_lines(lines), body)?;
    Ok((Typed::ForAll(line, count as u8, number, body), rest))
}

#[cycle(statement)]
#[tactic(auto, using(crate::proofs::Blocks::entries_forms))]
fn for_entries<'a>(
    alloc: Global,
    declared: &Declared,
    variables: &mut Variables,
    lines: &'a [usize],
    names: &[Identifier],
    array: &Identifier,
    property: &Identifier,
    body: &[Statement],
) -> Settled<'a>
    requires { AreFitStatements body.now }
    ensures { Settles
        (settled declared.now (s.ForEntries names.now array.now property.now body.now)
        variables.old lines.now) variables.new result }
{
    let line = first_line(lines);
    let (array, property) = (array.name(), property.name());
    let found = declared.array_property(array, property);
    let names_fail = names_rule(declared, variables, names);
    kept(
        lower(names_fail, entries_rule(declared, names, array, property)),
        line,
    )?;
    let count = variables.len();
    let number = found.unwrap_or(0);
    let types = property_keys(declared.schema(), number);
    declare_all(alloc, variables, names, types)?;
    let (body, rest) = inner(alloc, declared, variables, count, next_lines(lines), body)?;
    Ok((Typed::ForEntries(line, count as u8, number, body), rest))
}

/// What comes of a statement.
#[cycle(statement)]
#[tactic(auto, using(crate::proofs::Blocks::if_forms))]
pub fn statement<'a>(
    alloc: Global,
    declared: &Declared,
    variables: &mut Variables,
    lines: &'a [usize],
    source: &Statement,
) -> Settled<'a>
    requires { IsFitStatement source.now }
    ensures { Settles (settled declared.now source.now variables.old lines.now) variables.new
        result }
{
    match source {
        Statement::Define(name, value) => define(alloc, declared, variables, lines, name, value),
        Statement::Create(name, entity, keys) => {
            create(
                alloc,
                declared,
                variables,
                lines,
                name,
                entity,
                keys.as_slice(),
            )
        }
        Statement::Assign(name, value) => assign(alloc, declared, variables, lines, name, value),
        Statement::Update(place, operation, argument) => {
            update(
                alloc, declared, variables, lines, place, *operation, argument,
            )
        }
        Statement::Delete(name) => delete(declared, variables, lines, name),
        Statement::If(test, first, second) => {
            let line = first_line(lines);
            let test = condition(alloc, declared, variables, line, test)?;
            let count = variables.len();
            let lines = next_lines(lines);
            let (first, rest) = inner(alloc, declared, variables, count, lines, first.as_slice())?;
            match second {
                None => Ok((Typed::If(line, test, first, None), rest)),
                Some(second) => {
                    let second = second.as_slice();
                    let (second, rest) = inner(alloc, declared, variables, count, rest, second)?;
                    Ok((Typed::If(line, test, first, Some(second)), rest))
                }
            }
        }
        Statement::While(test, body) => {
            while_loop(alloc, declared, variables, lines, body.as_slice(), test)
        }
        Statement::ForAll(name, entity, body) => {
            for_all(
                alloc,
                declared,
                variables,
                lines,
                name,
                entity,
                body.as_slice(),
            )
        }
        Statement::ForEntries(names, array, property, body) => {
            let (names, body) = (names.as_slice(), body.as_slice());
            for_entries(
                alloc, declared, variables, lines, names, array, property, body,
            )
        }
        Statement::Print(value) => print(alloc, declared, variables, lines, value),
        Statement::Yield => Ok((Typed::Yield(first_line(lines)), next_lines(lines))),
        Statement::Flush => Ok((Typed::Flush(first_line(lines)), next_lines(lines))),
    }
}
