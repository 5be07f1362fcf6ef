ghost use Rattle.std.specs.Prelude.{◌≡◌, IfOk, Some, [], ◌∷◌, pos, true};
ghost use Rattle.typed_program.specs.declared.expression.Expression.TheVariants as e;
ghost use Rattle.typed_program.specs.declared.expression.Operator.TheVariants as op;
ghost use Rattle.typed_program.specs.declared.statement.Statement.TheVariants as s;

use crate::{compile, listing};
use cloud_base::{Memory, Name, Schema, Sequence};
use sqlite_items::{Boxed, Items};
use std::alloc::Global;
use std::test::Fail;
use typed_program::{Body, Expression, Operator, Parts, Program, Statement};

// `true and 1 < 2`
fn test(alloc: Global) -> Result<Expression, Memory>
    ensures { IfOk result (λ test. test
        ≡ e.And (e.Truth true) (e.Binary op.Less (e.Int (pos 1)) (e.Int (pos 2)))) }
{
    let one = Boxed::new(alloc, Expression::Int(1))?;
    let two = Boxed::new(alloc, Expression::Int(2))?;
    let less = Boxed::new(alloc, Expression::Binary(Operator::Less, one, two))?;
    Ok(Expression::And(Boxed::new(alloc, Expression::Truth(true))?, less))
}

// `if true and 1 < 2 { print 7; } else { flush; }`
fn body(alloc: Global) -> Result<Body, Memory>
    ensures { IfOk result (λ body. body
        ≡ s.If 1 (e.And (e.Truth true) (e.Binary op.Less (e.Int (pos 1)) (e.Int (pos 2))))
        (s.Print 2 (e.Int (pos 7)) ∷ []) (Some (s.Flush 3 ∷ [])) ∷ []) }
{
    let mut first = Items::new(alloc);
    first.push(Statement::Print(2, Expression::Int(7)))?;
    let mut second = Items::new(alloc);
    second.push(Statement::Flush(3))?;
    let mut body = Items::new(alloc);
    body.push(Statement::If(1, test(alloc)?, first, Some(second)))?;
    Ok(body)
}

fn program(alloc: Global) -> Result<Program, Memory> {
    let mut names = Sequence::new(alloc);
    names.push(Name::new(alloc, b"a")?)?;
    let mut bodies = Sequence::new(alloc);
    bodies.push(body(alloc)?)?;
    let schema = Schema {
        properties: Sequence::new(alloc),
        entities: Sequence::new(alloc),
    };
    Ok(Program::new(Parts {
        schema,
        names,
        bodies,
        schedule: Sequence::new(alloc),
    }))
}

#[test]
fn a_program_is_compiled_and_listed(rt: HostRuntime) -> Result<(), Fail> {
    let program = program(rt.alloc())?;
    if program.clients() == 1 {
        let code = compile(rt.alloc(), &program, 0)?;
        assert_eq!(rt; code.instructions().len(), 16);
    }
    let text = listing(rt.alloc(), &program)?;
    let wanted = b"client a\n0 begin\n1 push true\n2 jumpf 7\n3 push 1\n4 push 2\n5 lt\n\
        6 jump 8\n7 push false\n8 jumpf 13\n9 begin\n10 push 7\n11 say\n12 jump 15\n\
        13 begin\n14 flush\n15 end\n";
    assert!(rt; text.as_slice() == wanted.as_slice());
    Ok(())
}
