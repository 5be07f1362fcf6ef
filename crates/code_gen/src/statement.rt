// The code of statements. The code of each begins with `Begin`.
ghost use Rattle.std.specs.Prelude.{◌≡◌, ◌≤◌, ◌+◌, [], ◌∷◌, ◌++◌, length, OnOk, IfOk};
ghost use Rattle.cloud_base.specs.Shaped.{property_at};
ghost use Rattle.typed_program.specs.Kinds.{most_slots};
ghost use Rattle.plain_vm.specs.declared.instruction.Instruction.TheVariants as i;
ghost use Rattle.code_gen.specs.Compile.{
  behind,
  begun,
  expression_code,
  keys_code,
  key_count,
  stores,
  if_code,
  loop_code,
  statement_code,
  block_code,
};
ghost use Rattle.code_gen.specs.Reach.{reach, block_reach};

use crate::emitter::Emitter;
use cloud_base::{Memory, Schema};
use plain_vm::Instruction;
use typed_program::{Expression, Operation, Statement};

fn key_count(schema: &Schema, property: u16) -> usize
    ensures { result ≡ key_count (property_at schema.now property) }
{
    match schema.properties.as_slice().get(property as usize) {
        None => 0,
        Some(property) => property.keys.len(),
    }
}

impl Emitter {
    fn store(&mut self, line: u32, slot: u8, source: &Expression) -> Result<(), Memory>
        ensures { OnOk result (self.new ≡ self.old ++ begun
            (λ start. expression_code line source.now start ++ i.Store slot ∷ [])
            (length self.old)) }
    {
        self.push(Instruction::Begin)?;
        self.expression(line, source)?;
        self.push(Instruction::Store(slot))
    }

    fn create(
        &mut self,
        line: u32,
        slot: u8,
        entity: u16,
        keys: &[Expression],
    ) -> Result<(), Memory>
        ensures { OnOk result (self.new ≡ self.old ++ begun
            (λ start. keys_code line keys.now start
            ++ i.New entity (length keys.now) ∷ i.Store slot ∷ [])
            (length self.old)) }
    {
        self.push(Instruction::Begin)?;
        self.keys(line, keys)?;
        self.push(Instruction::New(entity, keys.len()))?;
        self.push(Instruction::Store(slot))
    }

    fn update(
        &mut self,
        line: u32,
        property: u16,
        keys: &[Expression],
        operation: Operation,
        argument: &Expression,
    ) -> Result<(), Memory>
        ensures { OnOk result (self.new ≡ self.old ++ begun
            (λ start. behind (keys_code line keys.now start) (expression_code line argument.now)
            start ++ i.Put operation property (length keys.now) ∷ [])
            (length self.old)) }
    {
        self.push(Instruction::Begin)?;
        self.keys(line, keys)?;
        self.expression(line, argument)?;
        self.push(Instruction::Put(operation, property, keys.len()))
    }

    fn delete(&mut self, slot: u8) -> Result<(), Memory>
        ensures { OnOk result (self.new ≡ self.old ++ i.Begin ∷ i.Load slot ∷ i.Delete ∷ []) }
    {
        self.push(Instruction::Begin)?;
        self.push(Instruction::Load(slot))?;
        self.push(Instruction::Delete)
    }

    fn print(&mut self, line: u32, source: &Expression) -> Result<(), Memory>
        ensures { OnOk result (self.new ≡ self.old ++ begun
            (λ start. expression_code line source.now start ++ i.Say ∷ []) (length self.old)) }
    {
        self.push(Instruction::Begin)?;
        self.expression(line, source)?;
        self.push(Instruction::Say)
    }

    // Stores into so many slots from the first on, the last one first.
    fn stores(&mut self, first: u8, count: usize) -> Result<(), Memory>
        requires { first + count ≤ most_slots }
        ensures { OnOk result (self.new ≡ self.old ++ stores first count) }
    {
        for stored in 0..count {
            let part = count - 1 - stored;
            self.push(Instruction::Store(first + part as u8))?;
        }
        Ok(())
    }

    /// The statements of a block, one behind the other.
    #[cycle(statement)]
    pub fn block(&mut self, schema: &Schema, block: &[Statement]) -> Result<(), Memory>
        requires { block_reach schema.now block.now ≤ most_slots }
        ensures { OnOk result (self.new
            ≡ self.old ++ block_code schema.now block.now (length self.old)) }
    {
        for statement in block {
            self.statement(schema, statement)?;
        }
        Ok(())
    }

    // `Begin`, and the test of an `if` or a `while`.
    fn test(&mut self, line: u32, test: &Expression) -> Result<(), Memory>
        ensures { OnOk result (self.new ≡ self.old
            ++ begun (expression_code line test.now) (length self.old)) }
    {
        self.push(Instruction::Begin)?;
        self.expression(line, test)
    }

    // The block of an `if` behind its test, where there is no other one.
    #[cycle(statement)]
    fn only_branch(&mut self, schema: &Schema, block: &[Statement]) -> Result<(), Memory>
        requires { block_reach schema.now block.now ≤ most_slots }
        ensures { OnOk result (self.new ≡ self.old ++ if_code (length self.old) []
            (block_code schema.now block.now (length self.old + 1))) }
    {
        let skip = self.leave()?;
        self.block(schema, block)?;
        self.write(skip, Instruction::JumpIfFalse(self.place()));
        Ok(())
    }

    // The first block of an `if` behind its test. The place behind it is left, for the jump over
    // the second block.
    #[cycle(statement)]
    fn first_branch(&mut self, schema: &Schema, block: &[Statement]) -> Result<usize, Memory>
        requires { block_reach schema.now block.now ≤ most_slots }
        ensures { IfOk result (λ at.
            (self.new ≡ self.old ++ if_code (length self.old) []
            (block_code schema.now block.now (length self.old + 1) ++ i.End ∷ []))
            × (at + 1 ≡ length self.new)) }
    {
        let skip = self.leave()?;
        self.block(schema, block)?;
        let behind = self.leave()?;
        self.write(skip, Instruction::JumpIfFalse(self.place()));
        Ok(behind)
    }

    // The block of a `while` behind its test, and the jump back to its start.
    #[cycle(statement)]
    fn while_block(
        &mut self,
        schema: &Schema,
        start: usize,
        block: &[Statement],
    ) -> Result<(), Memory>
        requires { block_reach schema.now block.now ≤ most_slots }
        ensures { OnOk result (self.new ≡ self.old ++ if_code (length self.old) []
            (block_code schema.now block.now (length self.old + 1) ++ i.Jump start ∷ [])) }
    {
        let skip = self.leave()?;
        self.block(schema, block)?;
        self.push(Instruction::Jump(start))?;
        self.write(skip, Instruction::JumpIfFalse(self.place()));
        Ok(())
    }

    // Takes the items of the newest listing one by one, the parts of each into slots from the
    // first on, and does the block for each.
    #[cycle(statement)]
    fn each(
        &mut self,
        schema: &Schema,
        first: u8,
        count: usize,
        block: &[Statement],
    ) -> Result<(), Memory>
        requires slots { first + count ≤ most_slots }
        requires block { block_reach schema.now block.now ≤ most_slots }
        ensures { OnOk result (self.new ≡ self.old ++ loop_code (length self.old) first count
            (block_code schema.now block.now (length self.old + (count + 1)))) }
    {
        let turn = self.leave()?;
        self.stores(first, count)?;
        self.block(schema, block)?;
        self.push(Instruction::Jump(turn))?;
        self.write(turn, Instruction::Next(self.place(), count));
        Ok(())
    }

    #[cycle(statement)]
    fn for_all(
        &mut self,
        schema: &Schema,
        slot: u8,
        entity: u16,
        block: &[Statement],
    ) -> Result<(), Memory>
        requires slot { slot + 1 ≤ most_slots }
        requires block { block_reach schema.now block.now ≤ most_slots }
        ensures { OnOk result (self.new ≡ self.old ++ begun
            (λ start. i.All entity ∷ loop_code (start + 1) slot 1
            (block_code schema.now block.now (start + 3)))
            (length self.old)) }
    {
        self.push(Instruction::Begin)?;
        self.push(Instruction::All(entity))?;
        self.each(schema, slot, 1, block)
    }

    #[cycle(statement)]
    fn for_entries(
        &mut self,
        schema: &Schema,
        first: u8,
        property: u16,
        block: &[Statement],
    ) -> Result<(), Memory>
        requires slots { first + key_count (property_at schema.now property) ≤ most_slots }
        requires block { block_reach schema.now block.now ≤ most_slots }
        ensures { OnOk result (self.new ≡ self.old ++ begun
            (λ start. i.Entries property ∷ loop_code (start + 1) first
            (key_count (property_at schema.now property)) (block_code schema.now block.now
            (start + (key_count (property_at schema.now property) + 2))))
            (length self.old)) }
    {
        self.push(Instruction::Begin)?;
        self.push(Instruction::Entries(property))?;
        self.each(schema, first, key_count(schema, property), block)
    }

    fn yields(&mut self) -> Result<(), Memory>
        ensures { OnOk result (self.new ≡ self.old ++ i.Begin ∷ i.Yield ∷ []) }
    {
        self.push(Instruction::Begin)?;
        self.push(Instruction::Yield)
    }

    fn flush(&mut self) -> Result<(), Memory>
        ensures { OnOk result (self.new ≡ self.old ++ i.Begin ∷ i.Flush ∷ []) }
    {
        self.push(Instruction::Begin)?;
        self.push(Instruction::Flush)
    }

    #[cycle(statement)]
    #[tactic(auto, using(crate::proofs::Codes::equations, crate::proofs::Reaches::reaches))]
    fn statement(&mut self, schema: &Schema, statement: &Statement) -> Result<(), Memory>
        requires { reach schema.now statement.now ≤ most_slots }
        ensures { OnOk result (self.new
            ≡ self.old ++ statement_code schema.now statement.now (length self.old)) }
    {
        match statement {
            Statement::Store(line, slot, source) => self.store(*line, *slot, source),
            Statement::Create(line, slot, entity, keys) => {
                self.create(*line, *slot, *entity, keys.as_slice())
            }
            Statement::Update(line, property, keys, operation, argument) => {
                self.update(*line, *property, keys.as_slice(), *operation, argument)
            }
            Statement::Delete(_, slot, _) => self.delete(*slot),
            Statement::If(line, test, first, second) => {
                self.test(*line, test)?;
                let Some(second) = second else {
                    return self.only_branch(schema, first.as_slice());
                };
                let behind = self.first_branch(schema, first.as_slice())?;
                self.block(schema, second.as_slice())?;
                self.write(behind, Instruction::Jump(self.place()));
                Ok(())
            }
            Statement::While(line, test, block) => {
                let start = self.place();
                self.test(*line, test)?;
                self.while_block(schema, start, block.as_slice())
            }
            Statement::ForAll(_, slot, entity, block) => {
                self.for_all(schema, *slot, *entity, block.as_slice())
            }
            Statement::ForEntries(_, first, property, block) => {
                self.for_entries(schema, *first, *property, block.as_slice())
            }
            Statement::Print(line, source) => self.print(*line, source),
            Statement::Yield(_) => self.yields(),
            Statement::Flush(_) => self.flush(),
        }
    }
}
