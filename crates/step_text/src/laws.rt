// What follows from the definitions alone.
ghost use Rattle.std.specs.Prelude.{ℕ, List, All};
ghost use Rattle.step_text.specs.Legible.{Legible, IsStep, IsEnd, Told};
ghost use Rattle.cloud_base.specs.declared.end.End.{End};
ghost use Rattle.cloud_base.specs.declared.schema.Schema.{Schema};
ghost use Rattle.revision_diagram.specs.declared.step.Step.{Step};

/// A report's text tells its steps and its ends, where names are told apart.
pub fn reports_tell_steps()
    ensures { (schema : Schema) (names : List (List ℕ)) (steps : List Step) (ends : List End)
        → Legible schema names → All (IsStep schema names) steps → All IsEnd ends
        → Told schema names steps ends }
{}
