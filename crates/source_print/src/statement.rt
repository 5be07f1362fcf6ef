// How statements are printed.
ghost use Rattle.std.specs.Prelude.{◌≡◌, ◌++◌, OnOk, IfOk, [], codes};
ghost use Rattle.source_print.specs.Expressions.{separated, following, expression_text};
ghost use Rattle.source_print.specs.Statements.{
  place_text,
  operation_text,
  new_keys_text,
  all_head,
  entries_head,
  deeper,
  statement_text,
  body_text,
  block_text,
};

use crate::expression::{write_expression, write_keys, write_place};
use crate::value::{write, write_name};
use cloud_base::Memory;
use source_tokens::Identifier;
use source_tree::{Expression, Operation, Place, Statement};
use std::alloc::Global;

fn operation_text(operation: Operation) -> &'static str
    ensures { result.now ≡ operation_text operation }
{
    match operation {
        Operation::Add => ".add(",
        Operation::Set => ".set(",
        Operation::SetIfEmpty => ".setIfEmpty(",
    }
}

fn write_new_keys(out: &mut Vec<u8>, keys: &[Expression]) -> Result<(), Memory>
    ensures { OnOk result (out.new.items ≡ out.old.items ++ new_keys_text keys.now) }
{
    if !keys.is_empty() {
        write(out, "[")?;
        write_keys(out, keys)?;
    }
    Ok(())
}

// The names of a `foreach` over entries.
fn write_names(out: &mut Vec<u8>, names: &[Identifier]) -> Result<(), Memory>
    ensures { OnOk result (out.new.items ≡ out.old.items ++ separated [] names.now) }
{
    let Some((first, rest)) = names.split_first() else {
        return Ok(());
    };
    write_name(out, first)?;
    for name in rest {
        write(out, ", ")?;
        write_name(out, name)?;
    }
    Ok(())
}

// The margin of what stands in a block.
fn deeper(alloc: Global, margin: &[u8]) -> Result<Vec<u8>, Memory>
    ensures { IfOk result (λ inner. inner.items ≡ deeper margin.now) }
{
    let mut inner = Vec::from_slice(alloc, margin)?;
    inner.extend_from_slice(b"  ")?;
    Ok(inner)
}

// `x = e;`
fn write_assignment(
    out: &mut Vec<u8>,
    name: &Identifier,
    expression: &Expression,
) -> Result<(), Memory>
    ensures { OnOk result (out.new.items
        ≡ out.old.items ++ (name.now ++ codes " = " ++ expression_text expression.now
        ++ codes ";\n")) }
{
    write_name(out, name)?;
    write(out, " = ")?;
    write_expression(out, expression)?;
    write(out, ";\n")
}

fn write_creation(
    out: &mut Vec<u8>,
    name: &Identifier,
    entity: &Identifier,
    keys: &[Expression],
) -> Result<(), Memory>
    ensures { OnOk result (out.new.items
        ≡ out.old.items ++ (codes "var " ++ name.now ++ codes " = new " ++ entity.now
        ++ new_keys_text keys.now ++ codes ";\n")) }
{
    write(out, "var ")?;
    write_name(out, name)?;
    write(out, " = new ")?;
    write_name(out, entity)?;
    write_new_keys(out, keys)?;
    write(out, ";\n")
}

fn write_update(
    out: &mut Vec<u8>,
    place: &Place<Expression>,
    operation: Operation,
    argument: &Expression,
) -> Result<(), Memory>
    ensures { OnOk result (out.new.items
        ≡ out.old.items ++ (place_text place.now ++ operation_text operation
        ++ expression_text argument.now ++ codes ");\n")) }
{
    write_place(out, place)?;
    write(out, operation_text(operation))?;
    write_expression(out, argument)?;
    write(out, ");\n")
}

fn write_deletion(out: &mut Vec<u8>, name: &Identifier) -> Result<(), Memory>
    ensures { OnOk result (out.new.items
        ≡ out.old.items ++ (codes "delete " ++ name.now ++ codes ";\n")) }
{
    write(out, "delete ")?;
    write_name(out, name)?;
    write(out, ";\n")
}

fn write_print(out: &mut Vec<u8>, expression: &Expression) -> Result<(), Memory>
    ensures { OnOk result (out.new.items
        ≡ out.old.items ++ (codes "print " ++ expression_text expression.now ++ codes ";\n")) }
{
    write(out, "print ")?;
    write_expression(out, expression)?;
    write(out, ";\n")
}

// The word of an `if` or a `while`, and its test.
fn write_test(out: &mut Vec<u8>, word: &str, test: &Expression) -> Result<(), Memory>
    ensures { OnOk result (out.new.items
        ≡ out.old.items ++ (word.now ++ expression_text test.now ++ codes " ")) }
{
    write(out, word)?;
    write_expression(out, test)?;
    write(out, " ")
}

// What stands before the block of a `foreach` over all of an entity.
fn write_all(out: &mut Vec<u8>, name: &Identifier, entity: &Identifier) -> Result<(), Memory>
    ensures { OnOk result (out.new.items
        ≡ out.old.items ++ all_head name.now entity.now) }
{
    write(out, "foreach ")?;
    write_name(out, name)?;
    write(out, " in all ")?;
    write_name(out, entity)?;
    write(out, " ")
}

// `A.p`, and a blank.
fn write_listed(out: &mut Vec<u8>, array: &Identifier, property: &Identifier) -> Result<(), Memory>
    ensures { OnOk result (out.new.items
        ≡ out.old.items ++ (array.now ++ codes "." ++ property.now ++ codes " ")) }
{
    write_name(out, array)?;
    write(out, ".")?;
    write_name(out, property)?;
    write(out, " ")
}

// What stands before the block of a `foreach` over entries.
fn write_entries(
    out: &mut Vec<u8>,
    names: &[Identifier],
    array: &Identifier,
    property: &Identifier,
) -> Result<(), Memory>
    ensures { OnOk result (out.new.items
        ≡ out.old.items ++ entries_head names.now array.now property.now) }
{
    write(out, "foreach ")?;
    write_names(out, names)?;
    write(out, " in entries ")?;
    write_listed(out, array, property)
}

#[cycle(statement)]
fn write_body(
    alloc: Global,
    out: &mut Vec<u8>,
    margin: &[u8],
    body: &[Statement],
) -> Result<(), Memory>
    ensures { OnOk result (out.new.items ≡ out.old.items ++ body_text margin.now body.now) }
{
    for statement in body {
        write_statement(alloc, out, margin, statement)?;
    }
    Ok(())
}

// A block, up to its closing brace.
#[cycle(statement)]
#[tactic(auto, unfolding(crate::specs::Statements::block_text))]
pub fn write_block(
    alloc: Global,
    out: &mut Vec<u8>,
    margin: &[u8],
    body: &[Statement],
) -> Result<(), Memory>
    ensures { OnOk result (out.new.items ≡ out.old.items ++ block_text margin.now body.now) }
{
    write(out, "{\n")?;
    let inner = deeper(alloc, margin)?;
    write_body(alloc, out, inner.as_slice(), body)?;
    out.extend_from_slice(margin)?;
    write(out, "}")
}

#[cycle(statement)]
fn write_block_line(
    alloc: Global,
    out: &mut Vec<u8>,
    margin: &[u8],
    body: &[Statement],
) -> Result<(), Memory>
    ensures { OnOk result (out.new.items
        ≡ out.old.items ++ (block_text margin.now body.now ++ codes "\n")) }
{
    write_block(alloc, out, margin, body)?;
    write(out, "\n")
}

#[cycle(statement)]
#[tactic(auto, using(std::proofs::lemmas::Grind::common_steps, crate::proofs::Forms::statements))]
fn write_statement(
    alloc: Global,
    out: &mut Vec<u8>,
    margin: &[u8],
    statement: &Statement,
) -> Result<(), Memory>
    ensures { OnOk result (out.new.items
        ≡ out.old.items ++ statement_text statement.now margin.now) }
{
    out.extend_from_slice(margin)?;
    match statement {
        Statement::Define(name, expression) => {
            write(out, "var ")?;
            write_assignment(out, name, expression)
        }
        Statement::Create(name, entity, keys) => {
            write_creation(out, name, entity, keys.as_slice())
        }
        Statement::Assign(name, expression) => write_assignment(out, name, expression),
        Statement::Update(place, operation, argument) => {
            write_update(out, place, *operation, argument)
        }
        Statement::Delete(name) => write_deletion(out, name),
        Statement::If(test, first, second) => {
            write_test(out, "if ", test)?;
            match second {
                None => write_block_line(alloc, out, margin, first.as_slice()),
                Some(second) => {
                    write_block(alloc, out, margin, first.as_slice())?;
                    write(out, " else ")?;
                    write_block_line(alloc, out, margin, second.as_slice())
                }
            }
        }
        Statement::While(test, body) => {
            write_test(out, "while ", test)?;
            write_block_line(alloc, out, margin, body.as_slice())
        }
        Statement::ForAll(name, entity, body) => {
            write_all(out, name, entity)?;
            write_block_line(alloc, out, margin, body.as_slice())
        }
        Statement::ForEntries(names, array, property, body) => {
            write_entries(out, names.as_slice(), array, property)?;
            write_block_line(alloc, out, margin, body.as_slice())
        }
        Statement::Print(expression) => write_print(out, expression),
        Statement::Yield => write(out, "yield;\n"),
        Statement::Flush => write(out, "flush;\n"),
    }
}
