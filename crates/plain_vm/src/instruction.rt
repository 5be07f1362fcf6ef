// Instructions.
use cloud_base::{Sequence, Text};
use typed_program::Operation;

/// What `push` pushes.
#[derive(Drop, PartialEq, Eq)]
pub enum Literal {
    Int(i64),
    Text(Text),
    Truth(bool),
}

/// An operator on two popped values, the second one topmost. Those that may end the run have the
/// line of their statement.
#[derive(Clone, Copy, Debug, PartialEq, Eq)]
pub enum Binary {
    Add,
    Subtract,
    Multiply,
    Concat,
    Divide(u32),
    Remainder(u32),
    Equal,
    NotEqual,
    Less,
    LessOrEqual,
    Greater,
    GreaterOrEqual,
}

/// An instruction. The place of a jump counts from 0.
///
/// `Load` and `Store` have a slot, `Jump` and `JumpIfFalse` a place, `Get` a property and how many
/// keys it has, `All` an entity, `Entries` a property, `Next` the place behind the loop and how
/// many parts an item has, `Put` a property and how many keys it has, and `New` an entity and how
/// many keys it has.
#[derive(Drop, PartialEq, Eq)]
pub enum Instruction {
    Begin,
    Push(Literal),
    Load(u8),
    Store(u8),
    Negate,
    Not,
    Binary(Binary),
    Jump(usize),
    JumpIfFalse(usize),
    Get(u16, usize),
    Alive,
    All(u16),
    Entries(u16),
    Next(usize, usize),
    Put(Operation, u16, usize),
    New(u16, usize),
    Delete,
    Say,
    Yield,
    Flush,
    End,
}

pub type Instructions = Sequence<Instruction>;
