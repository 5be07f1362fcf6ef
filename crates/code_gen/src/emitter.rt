// A growing list of instructions, in which jumps are written once their place is known.
ghost use Rattle.std.specs.Prelude.{◌≡◌, ◌<◌, [], ◌∷◌, ◌++◌, length, slice_set, OnOk, IfOk};
ghost use Rattle.plain_vm.specs.declared.instruction.Instruction.TheVariants as i;

use cloud_base::{Memory, Sequence};
use plain_vm::{Instruction, Instructions};
use std::alloc::Global;
use std::marker::Model;

/// The code so far. Contracts see its instructions.
#[derive(Drop)]
pub struct Emitter {
    instructions: Vec<Instruction>,
}

impl Model for Emitter {
    ghost use Rattle.std.specs.Prelude.{List};
    ghost use Rattle.std.specs.Coded.{coded_list};
    ghost use Rattle.plain_vm.specs.declared.instruction.Instruction.{Instruction};
    ghost use Rattle.plain_vm.specs.contracts.instruction.Instruction as instruction;

    ghost Value = { List Instruction };

    ghost coded = { coded_list instruction.the_row.coded };

    ghost view = { λ e. e.instructions.items };
}

impl Emitter {
    pub fn new(alloc: Global) -> Emitter
        ensures { result ≡ [] }
    {
        Emitter {
            instructions: Vec::new(alloc),
        }
    }

    /// It takes no memory.
    pub fn finish(self) -> Instructions
        ensures { result ≡ self }
    {
        let Emitter { instructions } = self;
        Sequence::from_vec(instructions)
    }

    /// The place of the next instruction.
    pub fn place(&self) -> usize
        ensures { result ≡ length self.now }
    {
        self.instructions.len()
    }

    pub fn push(&mut self, instruction: Instruction) -> Result<(), Memory>
        ensures { OnOk result (self.new ≡ self.old ++ instruction ∷ []) }
    {
        self.instructions.push(instruction)?;
        Ok(())
    }

    /// Leaves the next place to an instruction that is written later.
    pub fn leave(&mut self) -> Result<usize, Memory>
        ensures { IfOk result
            (λ at. (at ≡ length self.old) × (self.new ≡ self.old ++ i.End ∷ [])) }
    {
        let at = self.place();
        self.push(Instruction::End)?;
        Ok(at)
    }

    pub fn write(&mut self, at: usize, instruction: Instruction)
        requires { at < length self.old }
        ensures { self.new ≡ slice_set self.old at instruction }
    {
        self.instructions[at] = instruction;
    }
}
