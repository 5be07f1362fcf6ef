// The listing of a code.
ghost use Rattle.std.specs.Prelude.{◌≡◌, ◌++◌, OnOk, IfOk, codes, decimal};
ghost use Rattle.std.specs.Fmt.{signed_decimal};
ghost use Rattle.plain_vm.specs.Listing.{
  escaped,
  quoted,
  truth_text,
  literal_text,
  binary_text,
  put_text,
  operand,
  instruction_text,
  line_text,
  lines_from,
  listing,
};

use crate::code::Code;
use crate::instruction::{Binary, Instruction, Literal};
use cloud_base::Memory;
use itoa::Buffer;
use std::alloc::Global;
use typed_program::Operation;

fn write(out: &mut Vec<u8>, text: &str) -> Result<(), Memory>
    ensures { OnOk result (out.new.items ≡ out.old.items ++ text.now) }
{
    out.extend_from_slice(text.as_bytes())?;
    Ok(())
}

fn write_number(out: &mut Vec<u8>, number: u64) -> Result<(), Memory>
    ensures { OnOk result (out.new.items ≡ out.old.items ++ decimal number) }
{
    let mut buffer = Buffer::new();
    out.extend_from_slice(buffer.format(number).as_bytes())?;
    Ok(())
}

fn write_integer(out: &mut Vec<u8>, number: i64) -> Result<(), Memory>
    ensures { OnOk result (out.new.items ≡ out.old.items ++ signed_decimal number) }
{
    let mut buffer = Buffer::new();
    out.extend_from_slice(buffer.format(number).as_bytes())?;
    Ok(())
}

fn write_escaped(out: &mut Vec<u8>, byte: u8) -> Result<(), Memory>
    ensures { OnOk result (out.new.items ≡ out.old.items ++ escaped byte) }
{
    if byte == b'"' || byte == b'\\' {
        out.push(b'\\')?;
    }
    out.push(byte)?;
    Ok(())
}

fn write_quoted(out: &mut Vec<u8>, bytes: &[u8]) -> Result<(), Memory>
    ensures { OnOk result (out.new.items ≡ out.old.items ++ quoted bytes.now) }
{
    out.push(b'"')?;
    for byte in bytes {
        write_escaped(out, *byte)?;
    }
    out.push(b'"')?;
    Ok(())
}

fn truth_text(truth: bool) -> &'static str
    ensures { result.now ≡ truth_text truth }
{
    if truth { "true" } else { "false" }
}

fn write_literal(out: &mut Vec<u8>, literal: &Literal) -> Result<(), Memory>
    ensures { OnOk result (out.new.items ≡ out.old.items ++ literal_text literal.now) }
{
    match literal {
        Literal::Int(number) => write_integer(out, *number),
        Literal::Text(text) => write_quoted(out, text.as_slice()),
        Literal::Truth(truth) => write(out, truth_text(*truth)),
    }
}

// A word, and behind a space its number.
fn write_one(out: &mut Vec<u8>, word: &str, number: u64) -> Result<(), Memory>
    ensures { OnOk result (out.new.items ≡ out.old.items ++ (word.now ++ operand number)) }
{
    write(out, word)?;
    write(out, " ")?;
    write_number(out, number)
}

fn write_two(out: &mut Vec<u8>, word: &str, first: u64, second: u64) -> Result<(), Memory>
    ensures { OnOk result (out.new.items
        ≡ out.old.items ++ (word.now ++ operand first ++ operand second)) }
{
    write_one(out, word, first)?;
    write(out, " ")?;
    write_number(out, second)
}

fn write_binary(out: &mut Vec<u8>, binary: Binary) -> Result<(), Memory>
    ensures { OnOk result (out.new.items ≡ out.old.items ++ binary_text binary) }
{
    match binary {
        Binary::Add => write(out, "add"),
        Binary::Subtract => write(out, "sub"),
        Binary::Multiply => write(out, "mul"),
        Binary::Concat => write(out, "cat"),
        Binary::Divide(line) => write_one(out, "div", u64::from(line)),
        Binary::Remainder(line) => write_one(out, "rem", u64::from(line)),
        Binary::Equal => write(out, "eq"),
        Binary::NotEqual => write(out, "ne"),
        Binary::Less => write(out, "lt"),
        Binary::LessOrEqual => write(out, "le"),
        Binary::Greater => write(out, "gt"),
        Binary::GreaterOrEqual => write(out, "ge"),
    }
}

fn put_text(operation: Operation) -> &'static str
    ensures { result.now ≡ put_text operation }
{
    match operation {
        Operation::Add => "put.add",
        Operation::Set => "put.set",
        Operation::SetIfEmpty => "put.empty",
    }
}

fn write_instruction(out: &mut Vec<u8>, instruction: &Instruction) -> Result<(), Memory>
    ensures { OnOk result (out.new.items ≡ out.old.items ++ instruction_text instruction.now) }
{
    match instruction {
        Instruction::Begin => write(out, "begin"),
        Instruction::Push(literal) => {
            write(out, "push ")?;
            write_literal(out, literal)
        }
        Instruction::Load(slot) => write_one(out, "load", u64::from(*slot)),
        Instruction::Store(slot) => write_one(out, "store", u64::from(*slot)),
        Instruction::Negate => write(out, "neg"),
        Instruction::Not => write(out, "not"),
        Instruction::Binary(binary) => write_binary(out, *binary),
        Instruction::Jump(to) => write_one(out, "jump", *to as u64),
        Instruction::JumpIfFalse(to) => write_one(out, "jumpf", *to as u64),
        Instruction::Get(property, keys) => {
            write_two(out, "get", u64::from(*property), *keys as u64)
        }
        Instruction::Alive => write(out, "alive"),
        Instruction::All(entity) => write_one(out, "all", u64::from(*entity)),
        Instruction::Entries(property) => write_one(out, "entries", u64::from(*property)),
        Instruction::Next(to, parts) => write_two(out, "next", *to as u64, *parts as u64),
        Instruction::Put(operation, property, keys) => {
            write_two(
                out,
                put_text(*operation),
                u64::from(*property),
                *keys as u64,
            )
        }
        Instruction::New(entity, keys) => {
            write_two(out, "new", u64::from(*entity), *keys as u64)
        }
        Instruction::Delete => write(out, "delete"),
        Instruction::Say => write(out, "say"),
        Instruction::Yield => write(out, "yield"),
        Instruction::Flush => write(out, "flush"),
        Instruction::End => write(out, "end"),
    }
}

fn write_line(out: &mut Vec<u8>, place: usize, instruction: &Instruction) -> Result<(), Memory>
    ensures { OnOk result (out.new.items ≡ out.old.items ++ line_text place instruction.now) }
{
    write_number(out, place as u64)?;
    write(out, " ")?;
    write_instruction(out, instruction)?;
    write(out, "\n")
}

/// The lines of a code, one for each instruction.
pub fn print_code(alloc: Global, code: &Code) -> Result<Vec<u8>, Memory>
    ensures { IfOk result (λ text. text.items ≡ listing code.now.instructions) }
{
    let instructions = code.instructions();
    let mut out = Vec::new(alloc);
    for (place, instruction) in instructions.iter().enumerate() {
        write_line(&mut out, place, instruction)?;
    }
    Ok(out)
}
