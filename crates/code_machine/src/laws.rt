// What every run keeps.
ghost use Rattle.std.specs.Prelude.{◌≡◌, ℕ, List};
ghost use Rattle.cloud_base.specs.Events.{Outcome};
ghost use Rattle.cloud_base.specs.declared.update.Answer.{Answer};
ghost use Rattle.cloud_base.specs.declared.update.Event.{Event};
ghost use Rattle.typed_program.specs.Does.{ends};
ghost use Rattle.plain_vm.specs.declared.instruction.Instruction.{Instruction};
ghost use Rattle.plain_vm.specs.Exec.{run};

/// Whatever the number of instructions, a run for the same answers comes out in one way, with the
/// same events. So a machine that gave an end gives that end again.
pub fn runs_end_once()
    ensures { (code : List Instruction) (n m client : ℕ) (answers : List Answer)
        (outcome outcome' : Outcome) (events events' : List Event) →
        run code n client answers ≡ ends outcome events →
        run code m client answers ≡ ends outcome' events' →
        (outcome ≡ outcome') × (events ≡ events') }
{}
