// What every valid code keeps.
ghost use Rattle.std.specs.Prelude.{◌≡◌, ◌<◌, ◌+◌, ◌^◌, ℕ, List, All, Some, slice_get};
ghost use Rattle.cloud_base.specs.Values.{most_clients};
ghost use Rattle.cloud_base.specs.Shaped.{IsSchema};
ghost use Rattle.cloud_base.specs.declared.schema.Schema.{Schema};
ghost use Rattle.cloud_base.specs.declared.update.Answer.{Answer};
ghost use Rattle.typed_program.specs.Does.{World, goes, then_by};
ghost use Rattle.typed_program.specs.Laws.{events_of};
ghost use Rattle.typed_program.specs.Shapes.{IsAnswered};
ghost use Rattle.typed_program.specs.Trace.{start};
ghost use Rattle.plain_vm.specs.declared.instruction.Instruction.{Instruction};
ghost use Rattle.plain_vm.specs.Exec.{Standing, step, exec, from_there, first};
ghost use Rattle.plain_vm.specs.Fits.{Fits, ComesWell};
ghost use Rattle.plain_vm.specs.Left.{left_to_do, Falls};
ghost use Rattle.plain_vm.specs.Valid.{Shape, IsValid};

/// A valid code begins well, and where its queries are answered in shape, each of its instructions
/// leads from where the shape fits to where it fits again: no operand, kind, listing or place is
/// missing. What it does, asks and ends with is of the schema's shape.
pub fn valid_codes_are_never_stuck()
    ensures begins { (schema : Schema) (code : List Instruction) (shapes : List Shape) (client : ℕ)
        (answers : List Answer) → IsValid schema code shapes → client < most_clients →
        ComesWell schema shapes (goes (Some first) (start client answers)) }
    ensures steps { (schema : Schema) (code : List Instruction) (shapes : List Shape)
        (shape : Shape) (standing : Standing) (w : World) → IsSchema schema →
        IsValid schema code shapes → slice_get shapes standing.place ≡ Some shape →
        Fits schema shape standing.stack standing.listings w → w.serial < 2 ^ 32 →
        All (IsAnswered schema) (events_of (step code standing w)) →
        ComesWell schema shapes (step code standing w) }
{}

/// So many instructions, and then so many more, are as many as both.
pub fn runs_add_up()
    ensures { (code : List Instruction) (n m : ℕ) (standing : Standing) (w : World) →
        exec code (n + m) standing w
        ≡ then_by (exec code n standing w) (from_there (exec code m)) }
{}

/// An instruction of a valid code that tells and asks nothing leaves less to do. So a machine comes
/// to its next need.
pub fn silent_instructions_end()
    ensures { (schema : Schema) (code : List Instruction) (shapes : List Shape) (shape : Shape)
        (standing : Standing) (w : World) → IsValid schema code shapes →
        slice_get shapes standing.place ≡ Some shape →
        Falls code w.events (left_to_do code standing w) (step code standing w) }
{}
