// How expressions are printed.
ghost use Rattle.std.specs.Prelude.{◌≡◌, ◌++◌, OnOk, codes, map};
ghost use Rattle.source_tree.specs.declared.expression.Expression.TheVariants as e;
ghost use Rattle.source_print.specs.Expressions.{
  truth_text,
  operator_text,
  following,
  printed,
  expression_text,
  operand_text,
  keys_text,
};

use crate::value::{write, write_name, write_number, write_quoted};
use cloud_base::Memory;
use source_tokens::Identifier;
use source_tree::{Expression, Operator, Place};

fn truth_text(truth: bool) -> &'static str
    ensures { result.now ≡ truth_text truth }
{
    if truth { "true" } else { "false" }
}

fn operator_text(operator: Operator) -> &'static str
    ensures { result.now ≡ operator_text operator }
{
    match operator {
        Operator::Or => " or ",
        Operator::And => " and ",
        Operator::Equal => " == ",
        Operator::NotEqual => " != ",
        Operator::Less => " < ",
        Operator::LessOrEqual => " <= ",
        Operator::Greater => " > ",
        Operator::GreaterOrEqual => " >= ",
        Operator::Plus => " + ",
        Operator::Minus => " - ",
        Operator::Concat => " ++ ",
        Operator::Times => " * ",
        Operator::Divide => " / ",
        Operator::Remainder => " % ",
    }
}

// Is it an operator with its operands?
#[tactic(auto, using(crate::proofs::Forms::expressions, crate::proofs::Forms::place_alone))]
fn is_operator(expression: &Expression) -> bool
    ensures { result ≡ (printed expression.now).operator }
{
    match expression {
        Expression::Minus(_) => true,
        Expression::Not(_) => true,
        Expression::Binary(_, _, _) => true,
        Expression::Number(_) => false,
        Expression::Text(_) => false,
        Expression::Truth(_) => false,
        Expression::Alive(_) => false,
        Expression::Place(_) => false,
    }
}

// An array and the opening bracket of its keys.
fn write_array(out: &mut Vec<u8>, name: &Identifier) -> Result<(), Memory>
    ensures { OnOk result (out.new.items ≡ out.old.items ++ name.now ++ codes "[") }
{
    write_name(out, name)?;
    write(out, "[")
}

// A property behind its dot.
fn write_property(out: &mut Vec<u8>, property: &Identifier) -> Result<(), Memory>
    ensures { OnOk result (out.new.items ≡ out.old.items ++ codes "." ++ property.now) }
{
    write(out, ".")?;
    write_name(out, property)
}

#[cycle(expression)]
fn write_operand(out: &mut Vec<u8>, expression: &Expression) -> Result<(), Memory>
    ensures { OnOk result (out.new.items ≡ out.old.items ++ operand_text expression.now) }
{
    if is_operator(expression) {
        write(out, "(")?;
        write_expression(out, expression)?;
        write(out, ")")
    } else {
        write_expression(out, expression)
    }
}

// Keys in brackets, behind the opening one.
#[cycle(expression)]
pub fn write_keys(out: &mut Vec<u8>, keys: &[Expression]) -> Result<(), Memory>
    ensures { OnOk result (out.new.items ≡ out.old.items ++ keys_text keys.now) }
{
    let Some((first, rest)) = keys.split_first() else {
        return write(out, "]");
    };
    write_expression(out, first)?;
    for key in rest {
        write(out, ", ")?;
        write_expression(out, key)?;
    }
    write(out, "]")
}

#[cycle(expression)]
#[tactic(auto, using(std::proofs::lemmas::Grind::common_steps, crate::proofs::Forms::expressions))]
pub fn write_expression(out: &mut Vec<u8>, expression: &Expression) -> Result<(), Memory>
    ensures { OnOk result (out.new.items ≡ out.old.items ++ expression_text expression.now) }
{
    match expression {
        Expression::Number(number) => write_number(out, *number),
        Expression::Text(text) => write_quoted(out, text.as_slice()),
        Expression::Truth(truth) => write(out, truth_text(*truth)),
        Expression::Alive(name) => {
            write(out, "alive ")?;
            write_name(out, name)
        }
        Expression::Place(place) => match place {
            Place::Name(name) => write_name(out, name),
            Place::Field(name, property) => {
                write_name(out, name)?;
                write_property(out, property)
            }
            Place::Entry(name, keys, property) => {
                write_array(out, name)?;
                write_keys(out, keys.as_slice())?;
                write_property(out, property)
            }
        },
        Expression::Minus(inner) => {
            write(out, "-")?;
            write_operand(out, inner.get())
        }
        Expression::Not(inner) => {
            write(out, "not ")?;
            write_operand(out, inner.get())
        }
        Expression::Binary(operator, left, right) => {
            write_operand(out, left.get())?;
            write(out, operator_text(*operator))?;
            write_operand(out, right.get())
        }
    }
}

#[tactic(auto, using(std::proofs::lemmas::Grind::common_steps, crate::proofs::Forms::expressions))]
pub fn write_place(out: &mut Vec<u8>, place: &Place<Expression>) -> Result<(), Memory>
    ensures { OnOk result (out.new.items ≡ out.old.items ++ expression_text (e.Place place.now)) }
{
    match place {
        Place::Name(name) => write_name(out, name),
        Place::Field(name, property) => {
            write_name(out, name)?;
            write_property(out, property)
        }
        Place::Entry(name, keys, property) => {
            write_array(out, name)?;
            write_keys(out, keys.as_slice())?;
            write_property(out, property)
        }
    }
}
