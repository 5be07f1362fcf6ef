use crate::{Code, Instruction, Literal, print_code};
use cloud_base::{Schema, Sequence};
use std::test::Fail;

#[test]
fn a_code_is_listed(rt: HostRuntime) -> Result<(), Fail> {
    let schema = Schema {
        properties: Sequence::new(rt.alloc()),
        entities: Sequence::new(rt.alloc()),
    };
    let mut instructions = Sequence::new(rt.alloc());
    instructions.push(Instruction::Push(Literal::Int(7)))?;
    instructions.push(Instruction::Say)?;
    instructions.push(Instruction::End)?;
    let code = Code::new(schema, instructions);
    assert_eq!(rt; code.schema().properties.len(), 0);
    assert_eq!(rt; code.instructions().len(), 3);
    let text = print_code(rt.alloc(), &code)?;
    assert!(rt; text.as_slice() == b"0 push 7\n1 say\n2 end\n".as_slice());
    Ok(())
}
