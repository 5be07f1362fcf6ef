// What a machine holds, and what each instruction does to it.
//
// The place is moved on before an instruction is done. So while one is done, the place is the one
// behind it.
ghost use Rattle.std.specs.Prelude.{◌≡◌, ◌≤◌, ◌<◌, ◌^◌, length, map, pos, replicate, OnOk, IfOk};
ghost use Rattle.cloud_base.specs.Values.{most_clients, most_keys};
ghost use Rattle.cloud_base.specs.declared.update.Answer.{Answer};
ghost use Rattle.typed_program.specs.Kinds.{most_slots};
ghost use Rattle.typed_program.specs.Trace.{value_of};
ghost use Rattle.plain_vm.specs.declared.instruction.Instruction.{Instruction};
ghost use Rattle.plain_vm.specs.Exec.{push_all};
ghost use Rattle.code_machine.specs.Finds.{Finds, FindsAt};
ghost use Rattle.code_machine.specs.Steps.{Acts, is_over, IsBegun, Popped, Steps, Took, standing};
ghost use Rattle.code_machine.specs.Steps.{held};
ghost use Rattle.code_machine.specs.Runs.{Sits, Runs};

use crate::listing::Listing;
use crate::need::Need;
use crate::operators::{combine, negated};
use crate::stack::Stack;
use crate::values::{change_of, id_of, int_of, key_of, listed, literal_value, truth_of, value_of};
use cloud_base::{Answer, End, Key, Keys, Memory, Query, Uid, Update};
use plain_vm::{Binary, Code, Instruction, Literal};
use std::alloc::Global;
use typed_program::Operation;

const SLOTS: usize = 64;

const BUDGET: usize = 16_384;

// What is needed then, if anything.
type Done = Result<Option<Need>, Memory>;

// `serial` is how many ids were created.
#[derive(Drop)]
pub struct State {
    alloc: Global,
    client: u8,
    place: usize,
    stack: Stack<Answer>,
    listings: Stack<Listing>,
    slots: Vec<Answer>,
    turns: usize,
    serial: u64,
}

fn is_over(need: &Option<Need>) -> bool
    ensures { result ≡ is_over need.now }
{
    matches!(need, Some(Need::Ended(_)))
}

// Pops so many values. The last key is the topmost.
fn pop_keys(stack: &mut Stack<Answer>, count: usize) -> Keys
    requires few { count ≤ most_keys }
    requires there { count ≤ length stack.old }
    ensures { Popped count stack.old stack.new result }
{
    if count == 0 {
        return Keys::empty();
    }
    let value = stack.pop();
    let mut keys = pop_keys(stack, count - 1);
    keys.push(key_of(&value));
    keys
}

fn push_keys(stack: &mut Stack<Answer>, keys: &[Key]) -> Result<(), Memory>
    ensures { OnOk result (stack.new ≡ push_all (map value_of keys.now) stack.old) }
{
    for key in keys {
        stack.push(value_of(key))?;
    }
    Ok(())
}

fn first_slots(alloc: Global) -> Result<Vec<Answer>, Memory>
    ensures { IfOk result (λ slots. slots.items ≡ replicate most_slots (Answer.Int (pos 0))) }
{
    let mut slots = Vec::new(alloc);
    while slots.len() < SLOTS {
        slots.push(Answer::Int(0))?;
    }
    Ok(slots)
}

impl State {
    pub fn new(alloc: Global, client: u8) -> Result<State, Memory>
        ensures { IfOk result (IsBegun client) }
    {
        Ok(State {
            alloc,
            client,
            place: 0,
            stack: Stack::new(alloc),
            listings: Stack::new(alloc),
            slots: first_slots(alloc)?,
            turns: BUDGET,
            serial: 0,
        })
    }

    fn begin(&mut self) -> Done
        ensures { IfOk result (Acts Instruction.Begin self.old self.new) }
    {
        if self.turns == 0 {
            return Ok(Some(Need::Ended(End::Spent)));
        }
        self.turns -= 1;
        Ok(None)
    }

    fn push(&mut self, literal: &Literal) -> Done
        ensures { IfOk result (Acts (Instruction.Push literal.now) self.old self.new) }
    {
        self.stack.push(literal_value(literal))?;
        Ok(None)
    }

    fn load(&mut self, slot: u8) -> Done
        requires { slot < length self.old.slots.items }
        ensures { IfOk result (Acts (Instruction.Load slot) self.old self.new) }
    {
        let value = self.slots[slot as usize].copy(self.alloc)?;
        self.stack.push(value)?;
        Ok(None)
    }

    fn store(&mut self, slot: u8) -> Done
        requires slot { slot < length self.old.slots.items }
        requires there { 0 < length self.old.stack }
        ensures { IfOk result (Acts (Instruction.Store slot) self.old self.new) }
    {
        self.slots[slot as usize] = self.stack.pop();
        Ok(None)
    }

    fn negate(&mut self) -> Done
        requires { 0 < length self.old.stack }
        ensures { IfOk result (Acts Instruction.Negate self.old self.new) }
    {
        let value = self.stack.pop();
        self.stack.push(Answer::Int(negated(int_of(&value))))?;
        Ok(None)
    }

    fn not(&mut self) -> Done
        requires { 0 < length self.old.stack }
        ensures { IfOk result (Acts Instruction.Not self.old self.new) }
    {
        let value = self.stack.pop();
        self.stack.push(Answer::Truth(!truth_of(&value)))?;
        Ok(None)
    }

    // A run that ends keeps its operands.
    fn binary(&mut self, binary: Binary) -> Done
        requires { 2 ≤ length self.old.stack }
        ensures { IfOk result (Acts (Instruction.Binary binary) self.old self.new) }
    {
        match combine(binary, self.stack.peek(1), self.stack.peek(0)) {
            Err(end) => Ok(Some(Need::Ended(end))),
            Ok(value) => {
                self.stack.pop();
                self.stack.pop();
                self.stack.push(value)?;
                Ok(None)
            }
        }
    }

    fn jump(&mut self, to: usize) -> Done
        ensures { IfOk result (Acts (Instruction.Jump to) self.old self.new) }
    {
        self.place = to;
        Ok(None)
    }

    fn jump_if_false(&mut self, to: usize) -> Done
        requires { 0 < length self.old.stack }
        ensures { IfOk result (Acts (Instruction.JumpIfFalse to) self.old self.new) }
    {
        let value = self.stack.pop();
        if !truth_of(&value) {
            self.place = to;
        }
        Ok(None)
    }

    fn get(&mut self, property: u16, count: usize) -> Done
        requires few { count ≤ most_keys }
        requires there { count ≤ length self.old.stack }
        ensures { IfOk result (Acts (Instruction.Get property count) self.old self.new) }
    {
        let keys = pop_keys(&mut self.stack, count);
        Ok(Some(Need::Ask(Query::Get(property, keys))))
    }

    fn alive(&mut self) -> Done
        requires { 0 < length self.old.stack }
        ensures { IfOk result (Acts Instruction.Alive self.old self.new) }
    {
        let value = self.stack.pop();
        Ok(Some(Need::Ask(Query::Alive(id_of(&value)))))
    }

    fn next_item(&mut self, to: usize, parts: usize) -> Done
        requires { 0 < length self.old.listings }
        ensures { IfOk result (Acts (Instruction.Next to parts) self.old self.new) }
    {
        match self.listings.pop().take_item() {
            None => self.place = to,
            Some((keys, listing)) => {
                self.listings.push(listing)?;
                push_keys(&mut self.stack, keys.as_slice())?;
            }
        }
        Ok(None)
    }

    fn put(&mut self, operation: Operation, property: u16, count: usize) -> Done
        requires few { count ≤ most_keys }
        requires there { count < length self.old.stack }
        ensures { IfOk result (Acts (Instruction.Put operation property count) self.old self.new) }
    {
        let value = self.stack.pop();
        let keys = pop_keys(&mut self.stack, count);
        let change = change_of(operation, &value);
        Ok(Some(Need::Do(Update::Cell(property, keys, change))))
    }

    fn create(&mut self, entity: u16, count: usize) -> Done
        requires few { count ≤ most_keys }
        requires there { count ≤ length self.old.stack }
        requires client { self.old.client < most_clients }
        requires serial { self.old.serial < 2 ^ 32 }
        ensures { IfOk result (Acts (Instruction.New entity count) self.old self.new) }
    {
        let keys = pop_keys(&mut self.stack, count);
        let id = Uid::new(self.client, self.serial as u32);
        self.serial += 1;
        self.stack.push(Answer::Id(id))?;
        Ok(Some(Need::Do(Update::Create(id, entity, keys))))
    }

    fn delete(&mut self) -> Done
        requires { 0 < length self.old.stack }
        ensures { IfOk result (Acts Instruction.Delete self.old self.new) }
    {
        let value = self.stack.pop();
        Ok(Some(Need::Do(Update::Delete(id_of(&value)))))
    }

    fn say(&mut self) -> Done
        requires { 0 < length self.old.stack }
        ensures { IfOk result (Acts Instruction.Say self.old self.new) }
    {
        Ok(Some(Need::Say(self.stack.pop())))
    }

    fn act(&mut self, instruction: &Instruction) -> Done
        requires { Finds instruction.now self.old.stack self.old.listings (held self.old) }
        ensures { IfOk result (Acts instruction.now self.old self.new) }
    {
        match instruction {
            Instruction::Begin => self.begin(),
            Instruction::Push(literal) => self.push(literal),
            Instruction::Load(slot) => self.load(*slot),
            Instruction::Store(slot) => self.store(*slot),
            Instruction::Negate => self.negate(),
            Instruction::Not => self.not(),
            Instruction::Binary(binary) => self.binary(*binary),
            Instruction::Jump(to) => self.jump(*to),
            Instruction::JumpIfFalse(to) => self.jump_if_false(*to),
            Instruction::Get(property, count) => self.get(*property, *count),
            Instruction::Alive => self.alive(),
            Instruction::All(entity) => Ok(Some(Need::Ask(Query::All(*entity)))),
            Instruction::Entries(property) => Ok(Some(Need::Ask(Query::Entries(*property)))),
            Instruction::Next(to, parts) => self.next_item(*to, *parts),
            Instruction::Put(operation, property, count) => {
                self.put(*operation, *property, *count)
            }
            Instruction::New(entity, count) => self.create(*entity, *count),
            Instruction::Delete => self.delete(),
            Instruction::Say => self.say(),
            Instruction::Yield => Ok(Some(Need::Yield)),
            Instruction::Flush => Ok(Some(Need::Flush)),
            Instruction::End => Ok(Some(Need::Ended(End::Done))),
        }
    }

    // Does one instruction, and tells what is needed then. Where the run ends it stays there.
    pub fn step(&mut self, instructions: &[Instruction]) -> Done
        requires { FindsAt instructions.now (standing self.old) (held self.old) }
        ensures { IfOk result (Steps instructions.now self.old self.new) }
    {
        let place = self.place;
        self.place += 1;
        let need = self.act(&instructions[place])?;
        if is_over(&need) {
            self.place = place;
        }
        Ok(need)
    }

    // Goes on up to the next need.
    pub fn run_on(&mut self, code: &Code) -> Result<Need, Memory>
        requires sits { Sits code.now (standing self.old) (held self.old) }
        requires ids { self.old.serial < 2 ^ 32 }
        ensures { IfOk result (Runs code.now self.old self.new) }
    {
        let instructions = code.instructions();
        loop {
            if let Some(need) = self.step(instructions)? {
                return Ok(need);
            }
        }
    }

    // Goes on with the answer to the query that was asked last.
    pub fn take_answer(&mut self, answer: Answer) -> Result<(), Memory>
        ensures { OnOk result (Took answer self.old self.new) }
    {
        self.turns = self.turns.saturating_sub(1).saturating_sub(listed(&answer));
        match answer {
            Answer::Ids(ids) => self.listings.push(Listing::ids(ids)),
            Answer::Tuples(tuples) => self.listings.push(Listing::tuples(tuples)),
            value => self.stack.push(value),
        }
    }
}
