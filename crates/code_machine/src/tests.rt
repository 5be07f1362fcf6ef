ghost use Rattle.std.specs.Prelude.{◌≡◌, IfOk, [], ◌∷◌, pos, codes};
ghost use Rattle.cloud_base.specs.declared.schema.CellType.TheVariants as cell;
ghost use Rattle.cloud_base.specs.declared.schema.Owner.TheVariants as owner;
ghost use Rattle.plain_vm.specs.declared.instruction.Instruction.TheVariants as i;
ghost use Rattle.plain_vm.specs.declared.instruction.Literal.TheVariants as literal;

use crate::{Machine, Need};
use cloud_base::{Answer, CellType, Memory, Name, Owner, Property, Query, Schema, Sequence};
use plain_vm::{Code, Instruction, Instructions, Literal};
use std::alloc::Global;
use std::test::Fail;

// `global g : CInt`
fn schema(alloc: Global) -> Result<Schema, Memory>
    ensures properties { IfOk result (λ schema. schema.properties ≡ record {
      name = codes "g";
      owner = owner.Global;
      cell = cell.Int;
      keys = [];
    } ∷ []) }
    ensures entities { IfOk result (λ schema. schema.entities ≡ []) }
{
    let mut properties = Sequence::new(alloc);
    properties.push(Property {
        name: Name::new(alloc, b"g")?,
        owner: Owner::Global,
        cell: CellType::Int,
        keys: Sequence::new(alloc),
    })?;
    let entities = Sequence::new(alloc);
    Ok(Schema {
        properties,
        entities,
    })
}

// Goes through a listing, and then says 7.
fn instructions(alloc: Global) -> Result<Instructions, Memory>
    ensures { IfOk result (λ code. code ≡ i.Entries 0 ∷ i.Next 3 0 ∷ i.Jump 1
        ∷ i.Push (literal.Int (pos 7)) ∷ i.Say ∷ i.End ∷ []) }
{
    let mut instructions = Sequence::new(alloc);
    instructions.push(Instruction::Entries(0))?;
    instructions.push(Instruction::Next(3, 0))?;
    instructions.push(Instruction::Jump(1))?;
    instructions.push(Instruction::Push(Literal::Int(7)))?;
    instructions.push(Instruction::Say)?;
    instructions.push(Instruction::End)?;
    Ok(instructions)
}

fn code(alloc: Global) -> Result<Code, Memory> {
    let schema = schema(alloc)?;
    let instructions = instructions(alloc)?;
    Ok(Code::new(schema, instructions))
}

// What is needed first, and what is needed where a listing is answered by no item.
fn two_needs(alloc: Global, code: &Code) -> Result<(Need, Option<Need>), Memory> {
    let mut machine = Machine::new(alloc, code, 0)?;
    let first = machine.next()?;
    if let Need::Ask(Query::Entries(_)) = &first {
        machine.answer(Answer::Tuples(Sequence::new(alloc)));
        let second = machine.next()?;
        return Ok((first, Some(second)));
    }
    Ok((first, None))
}

#[test]
fn a_machine_tells_its_needs(rt: HostRuntime) -> Result<(), Fail> {
    let alloc = rt.alloc();
    let code = code(alloc)?;
    let (first, second) = two_needs(alloc, &code)?;
    assert!(rt; first == Need::Ask(Query::Entries(0)));
    assert!(rt; second == Some(Need::Say(Answer::Int(7))));
    Ok(())
}
