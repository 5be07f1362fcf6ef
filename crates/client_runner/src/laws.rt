// What a code needs next, where it is known how it comes out.
ghost use Rattle.std.specs.Prelude.{◌≡◌, ℕ, List};
ghost use Rattle.cloud_base.specs.Events.{Outcome, answers_in};
ghost use Rattle.cloud_base.specs.declared.update.Event.{Event};
ghost use Rattle.typed_program.specs.Does.{ends};
ghost use Rattle.plain_vm.specs.Exec.{run};
ghost use Rattle.plain_vm.specs.declared.instruction.Instruction.{Instruction};
ghost use Rattle.code_machine.specs.declared.need.Need.{Need};
ghost use Rattle.client_runner.specs.Needs.{IsNext, IsNextOf};

/// What a code needs next behind some events is the next of the events that it has for their
/// answers, or, behind all of those, how it comes out.
pub fn needs_come_in_order()
    ensures { (code : List Instruction) (client count : ℕ) (events : List Event) (need : Need)
        (outcome : Outcome) (whole : List Event) →
        run code count client (answers_in events) ≡ ends outcome whole →
        IsNext code client events need → IsNextOf need outcome whole events }
{}
