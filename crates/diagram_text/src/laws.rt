// What the report of a record tells.
ghost use Rattle.std.specs.Prelude.{◌≡◌, ◌≤◌, ◌<◌, ◌+◌, ◌*◌, ◌^◌, ℕ, List, All, length, slice_get};
ghost use Rattle.std.specs.Prelude.{Some};
ghost use Rattle.std.specs.List.{AllByRecursion};
ghost use Rattle.cloud_base.specs.Answer.{answer};
ghost use Rattle.cloud_base.specs.Shaped.{IsShapedEvent};
ghost use Rattle.cloud_base.specs.declared.batch.Batch.{Batch};
ghost use Rattle.cloud_base.specs.declared.batch.Tail.{Tail};
ghost use Rattle.cloud_base.specs.declared.end.End.{End};
ghost use Rattle.cloud_base.specs.declared.schema.Schema.{Schema};
ghost use Rattle.batch_history.specs.Batches.{did};
ghost use Rattle.batch_history.specs.Flushed.{Flushed, Traced};
ghost use Rattle.batch_history.specs.Right.{AnsweredRight};
ghost use Rattle.batch_history.specs.Sound.{SoundRecord};
ghost use Rattle.record_diagram.specs.Steps.{steps_of};
ghost use Rattle.step_text.specs.Legible.{IsEnd, IsStep, Legible, Told};
ghost use Rattle.typed_program.specs.Programs.{IsProgram};
ghost use Rattle.typed_program.specs.declared.program.Parts.{Parts};
ghost use Rattle.diagram_text.specs.Programs.{Reports, trace_of};

use cloud_base::shaped_answers;
use record_diagram::records_are_diagrams;
use step_text::reports_tell_steps;
use typed_program::{answers_extend, bodies_are_shaped};

/// The steps of a record are of the schema's shape where what its clients did is. Each fork, push
/// and pull takes one number of a revision at most, so the numbers are of 32 bits.
pub fn drawings_stay_small()
    ensures { (schema : Schema) (names : List (List ℕ)) (batches : List Batch) (tails : List Tail)
        → length tails ≤ length names → length tails ≤ 8 → length batches < 2 ^ 30
        → AllByRecursion (λ (b : Batch). b.client < length tails) batches
        → ((c : ℕ) → All (IsShapedEvent schema) (did batches tails c))
        → All (IsStep schema names) (steps_of batches tails) }
{}

/// The names of a program are told apart.
pub fn programs_are_legible()
    ensures { (p : Parts) → IsProgram p → Legible p.schema p.names }
{}

/// The text of the steps of a record and of its ends tells them.
pub fn reports_tell_records()
    ensures { (schema : Schema) (names : List (List ℕ)) (batches : List Batch) (tails : List Tail)
        (ends : List End) → Legible schema names
        → length tails ≤ length names → length tails ≤ 8 → length batches < 2 ^ 30
        → AllByRecursion (λ (b : Batch). b.client < length tails) batches
        → ((c : ℕ) → All (IsShapedEvent schema) (did batches tails c))
        → All IsEnd ends → Told schema names (steps_of batches tails) ends }
{
    drawings_stay_small();
    reports_tell_steps();
}

/// What clients do that run their bodies, and are answered right, is of the program's schema.
pub fn runs_are_shaped()
    ensures { (p : Parts) (batches : List Batch) (tails : List Tail) (ends : List End)
        → IsProgram p → length p.names ≡ length tails → SoundRecord batches tails ends
        → AnsweredRight (answer p.schema) batches tails → Traced (trace_of p) batches tails ends
        → ((c : ℕ) → All (IsShapedEvent p.schema) (did batches tails c)) × All IsEnd ends }
{
    answers_extend();
    bodies_are_shaped();
    shaped_answers();
}

/// The report of a program's record tells one lawful diagram, in which each client runs its body to
/// its end: so of every sound record that is answered right, whose flushes were met and whose
/// clients ran their bodies. No other steps and ends have its text.
pub fn reports_are_diagrams()
    ensures { (p : Parts) (batches : List Batch) (tails : List Tail) (ends : List End)
        → IsProgram p → length p.names ≡ length tails → length batches < 2 ^ 30
        → SoundRecord batches tails ends → AnsweredRight (answer p.schema) batches tails
        → Flushed batches tails → Traced (trace_of p) batches tails ends
        → Reports p (steps_of batches tails) ends }
{
    programs_are_legible();
    records_are_diagrams();
    reports_tell_records();
    runs_are_shaped();
}
