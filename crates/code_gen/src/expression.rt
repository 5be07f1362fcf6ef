// The code of expressions.
ghost use Rattle.std.specs.Prelude.{◌≡◌, ◌+◌, [], ◌∷◌, ◌++◌, length, OnOk};
ghost use Rattle.typed_program.specs.declared.expression.Expression.TheVariants as e;
ghost use Rattle.plain_vm.specs.declared.instruction.Instruction.TheVariants as i;
ghost use Rattle.code_gen.specs.Compile.{
  binary_of,
  and_code,
  or_code,
  expression_code,
  keys_code,
};

use crate::emitter::Emitter;
use cloud_base::Memory;
use plain_vm::{Binary, Instruction, Literal};
use typed_program::{Expression, Operator};

fn binary_of(line: u32, operator: Operator) -> Binary
    ensures { result ≡ binary_of line operator }
{
    match operator {
        Operator::Add => Binary::Add,
        Operator::Subtract => Binary::Subtract,
        Operator::Multiply => Binary::Multiply,
        Operator::Divide => Binary::Divide(line),
        Operator::Remainder => Binary::Remainder(line),
        Operator::Concat => Binary::Concat,
        Operator::Equal => Binary::Equal,
        Operator::NotEqual => Binary::NotEqual,
        Operator::Less => Binary::Less,
        Operator::LessOrEqual => Binary::LessOrEqual,
        Operator::Greater => Binary::Greater,
        Operator::GreaterOrEqual => Binary::GreaterOrEqual,
    }
}

impl Emitter {
    fn literal(&mut self, literal: Literal) -> Result<(), Memory>
        ensures { OnOk result (self.new ≡ self.old ++ i.Push literal ∷ []) }
    {
        self.push(Instruction::Push(literal))
    }

    fn alive(&mut self, slot: u8) -> Result<(), Memory>
        ensures { OnOk result (self.new ≡ self.old ++ i.Load slot ∷ i.Alive ∷ []) }
    {
        self.push(Instruction::Load(slot))?;
        self.push(Instruction::Alive)
    }

    /// The keys in order.
    #[cycle(expression)]
    pub fn keys(&mut self, line: u32, keys: &[Expression]) -> Result<(), Memory>
        ensures { OnOk result (self.new
            ≡ self.old ++ keys_code line keys.now (length self.old)) }
    {
        for key in keys {
            self.expression(line, key)?;
        }
        Ok(())
    }

    #[cycle(expression)]
    fn get(&mut self, line: u32, property: u16, keys: &[Expression]) -> Result<(), Memory>
        ensures { OnOk result (self.new
            ≡ self.old ++ expression_code line (e.Get property keys.now) (length self.old)) }
    {
        self.keys(line, keys)?;
        self.push(Instruction::Get(property, keys.len()))
    }

    #[cycle(expression)]
    fn minus(&mut self, line: u32, operand: &Expression) -> Result<(), Memory>
        ensures { OnOk result (self.new
            ≡ self.old ++ expression_code line (e.Minus operand.now) (length self.old)) }
    {
        self.expression(line, operand)?;
        self.push(Instruction::Negate)
    }

    #[cycle(expression)]
    fn not(&mut self, line: u32, operand: &Expression) -> Result<(), Memory>
        ensures { OnOk result (self.new
            ≡ self.old ++ expression_code line (e.Not operand.now) (length self.old)) }
    {
        self.expression(line, operand)?;
        self.push(Instruction::Not)
    }

    // The right side of an `and`: where the left one is false, it is passed over.
    #[cycle(expression)]
    fn and_then(&mut self, line: u32, right: &Expression) -> Result<(), Memory>
        ensures { OnOk result (self.new ≡ self.old ++ and_code (length self.old) []
            (expression_code line right.now (length self.old + 1))) }
    {
        let test = self.leave()?;
        self.expression(line, right)?;
        let behind = self.leave()?;
        self.write(test, Instruction::JumpIfFalse(self.place()));
        self.literal(Literal::Truth(false))?;
        self.write(behind, Instruction::Jump(self.place()));
        Ok(())
    }

    // The right side of an `or`: where the left one is true, it is passed over.
    #[cycle(expression)]
    fn or_else(&mut self, line: u32, right: &Expression) -> Result<(), Memory>
        ensures { OnOk result (self.new ≡ self.old ++ or_code (length self.old) []
            (expression_code line right.now (length self.old + 3))) }
    {
        let test = self.leave()?;
        self.literal(Literal::Truth(true))?;
        let behind = self.leave()?;
        self.write(test, Instruction::JumpIfFalse(self.place()));
        self.expression(line, right)?;
        self.write(behind, Instruction::Jump(self.place()));
        Ok(())
    }

    /// An expression in a statement of a line.
    #[cycle(expression)]
    #[tactic(auto, using(crate::proofs::Codes::equations))]
    pub fn expression(&mut self, line: u32, source: &Expression) -> Result<(), Memory>
        ensures { OnOk result (self.new
            ≡ self.old ++ expression_code line source.now (length self.old)) }
    {
        match source {
            Expression::Int(number) => self.literal(Literal::Int(*number)),
            Expression::Text(text) => self.literal(Literal::Text(text.copied())),
            Expression::Truth(truth) => self.literal(Literal::Truth(*truth)),
            Expression::Slot(slot, _) => self.push(Instruction::Load(*slot)),
            Expression::Get(property, keys) => self.get(line, *property, keys.as_slice()),
            Expression::Alive(slot, _) => self.alive(*slot),
            Expression::Minus(operand) => self.minus(line, operand.get()),
            Expression::Not(operand) => self.not(line, operand.get()),
            Expression::Binary(operator, left, right) => {
                self.expression(line, left.get())?;
                self.expression(line, right.get())?;
                self.push(Instruction::Binary(binary_of(line, *operator)))
            }
            Expression::And(left, right) => {
                self.expression(line, left.get())?;
                self.and_then(line, right.get())
            }
            Expression::Or(left, right) => {
                self.expression(line, left.get())?;
                self.or_else(line, right.get())
            }
        }
    }
}
