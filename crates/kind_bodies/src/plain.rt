// What comes of statements without blocks.
ghost use Rattle.std.specs.Prelude.{◌≡◌};
ghost use Rattle.source_tree.specs.declared.statement.Statement.TheVariants as s;
ghost use Rattle.kind_bodies.specs.Found.{IsFit, AreFit, FitPlace};
ghost use Rattle.kind_bodies.specs.Settles.{settled, Settles};

use crate::effect::{
    assignment_rule, created_types, creation_rule, kept, operation_rule, typed_operation,
};
use crate::expression::{judge, judge_keys, judge_place};
use crate::fault::KindFault;
use crate::lines::{first_line, next_lines};
use crate::name::names_rule;
use crate::rule::lower;
use kind_names::{Declared, Variables};
use source_tokens::Identifier;
use source_tree::{Expression, Operation, Place};
use std::alloc::Global;
use typed_program::{Kind, Statement};

/// A statement and the lines behind it.
pub type Settled<'a> = Result<(Statement, &'a [usize]), KindFault>;

#[tactic(auto, using(crate::proofs::Statements::define))]
pub fn define<'a>(
    alloc: Global,
    declared: &Declared,
    variables: &mut Variables,
    lines: &'a [usize],
    name: &Identifier,
    value: &Expression,
) -> Settled<'a>
    requires { IsFit value.now }
    ensures { Settles (settled declared.now (s.Define name.now value.now) variables.old lines.now)
        variables.new result }
{
    let line = first_line(lines);
    let found = judge(alloc, declared, variables, value)?;
    let names = std::slice::from_ref(name);
    kept(
        lower(names_rule(declared, variables, names), found.rule),
        line,
    )?;
    let slot = variables.len() as u8;
    variables.declare(alloc, name.name(), found.kind)?;
    Ok((Statement::Store(line, slot, found.typed), next_lines(lines)))
}

#[tactic(auto, using(crate::proofs::Statements::create))]
pub fn create<'a>(
    alloc: Global,
    declared: &Declared,
    variables: &mut Variables,
    lines: &'a [usize],
    name: &Identifier,
    entity: &Identifier,
    keys: &[Expression],
) -> Settled<'a>
    requires { AreFit keys.now }
    ensures { Settles (settled declared.now (s.Create name.now entity.now keys.now)
        variables.old lines.now) variables.new result }
{
    let line = first_line(lines);
    let schema = declared.schema();
    let found = declared.entity(entity.name());
    let judged = judge_keys(
        alloc,
        declared,
        variables,
        created_types(schema, found),
        keys,
    )?;
    let names = names_rule(declared, variables, std::slice::from_ref(name));
    kept(
        lower(names, creation_rule(schema, found, keys.len(), judged.rule)),
        line,
    )?;
    let slot = variables.len() as u8;
    let number = found.unwrap_or(0);
    variables.declare(alloc, name.name(), Kind::Id(number))?;
    Ok((
        Statement::Create(line, slot, number, judged.typed),
        next_lines(lines),
    ))
}

#[tactic(auto, using(crate::proofs::Statements::assign))]
pub fn assign<'a>(
    alloc: Global,
    declared: &Declared,
    variables: &Variables,
    lines: &'a [usize],
    name: &Identifier,
    value: &Expression,
) -> Settled<'a>
    requires { IsFit value.now }
    ensures { Settles (settled declared.now (s.Assign name.now value.now) variables.now lines.now)
        variables.now result }
{
    let line = first_line(lines);
    let found = judge(alloc, declared, variables, value)?;
    let slot = variables.slot(name.name());
    kept(assignment_rule(variables, slot, &found), line)?;
    Ok((
        Statement::Store(line, slot.unwrap_or(0), found.typed),
        next_lines(lines),
    ))
}

#[tactic(auto, using(crate::proofs::Statements::update))]
pub fn update<'a>(
    alloc: Global,
    declared: &Declared,
    variables: &Variables,
    lines: &'a [usize],
    place: &Place<Expression>,
    operation: Operation,
    argument: &Expression,
) -> Settled<'a>
    requires place { FitPlace place.now }
    requires argument { IsFit argument.now }
    ensures { Settles (settled declared.now (s.Update place.now operation argument.now)
        variables.now lines.now) variables.now result }
{
    let line = first_line(lines);
    let target = judge_place(alloc, declared, variables, place)?;
    let found = judge(alloc, declared, variables, argument)?;
    let rule = operation_rule(declared.schema(), target.property, operation, &found);
    kept(lower(target.rule, rule), line)?;
    let number = target.property.unwrap_or(0);
    let operation = typed_operation(operation);
    Ok((
        Statement::Update(line, number, target.keys, operation, found.typed),
        next_lines(lines),
    ))
}

#[tactic(auto, using(crate::proofs::Statements::delete), unfolding(crate::specs::Settles::Tells))]
pub fn delete<'a>(
    declared: &Declared,
    variables: &Variables,
    lines: &'a [usize],
    name: &Identifier,
) -> Settled<'a>
    ensures { Settles (settled declared.now (s.Delete name.now) variables.now lines.now)
        variables.now result }
{
    let line = first_line(lines);
    let Some(slot) = variables.slot(name.name()) else {
        return Err(KindFault::Rule { rule: 2, line });
    };
    match variables.kind(slot) {
        Kind::Id(entity) => Ok((Statement::Delete(line, slot, entity), next_lines(lines))),
        Kind::Int => Err(KindFault::Rule { rule: 7, line }),
        Kind::Text => Err(KindFault::Rule { rule: 7, line }),
        Kind::Truth => Err(KindFault::Rule { rule: 7, line }),
    }
}

#[tactic(auto, using(crate::proofs::Statements::print))]
pub fn print<'a>(
    alloc: Global,
    declared: &Declared,
    variables: &Variables,
    lines: &'a [usize],
    value: &Expression,
) -> Settled<'a>
    requires { IsFit value.now }
    ensures { Settles (settled declared.now (s.Print value.now) variables.now lines.now)
        variables.now result }
{
    let line = first_line(lines);
    let found = judge(alloc, declared, variables, value)?;
    kept(found.rule, line)?;
    Ok((Statement::Print(line, found.typed), next_lines(lines)))
}
