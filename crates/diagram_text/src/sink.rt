// Where the steps of a drawing go, one by one: into a list, or into the text of a report.
ghost use Rattle.std.specs.Prelude.{◌≡◌, ℕ, List, [], ◌∷◌, ◌++◌, OnOk};
ghost use Rattle.revision_diagram.specs.declared.step.Step.{Step};
ghost use Rattle.step_text.specs.Text.{steps_text};
ghost use Rattle.diagram_text.specs.Taken.{free_after};

use cloud_base::{Memory, Name, Schema};
use revision_diagram::{Step, StepList};
use std::alloc::Global;
use step_text::step_text;

pub trait StepSink {
    // It took these steps and no others since it was the first.
    ghost took: { Self → List Step → Self → Type 0 };

    // `next` is the next free number of a revision before the step.
    fn take(&mut self, alloc: Global, next: u32, step: Step) -> Result<(), Memory>
        ensures { OnOk result ((first : Self) (steps : List Step) → took first steps self.old
            → next ≡ free_after 1 steps → took first (steps ++ step ∷ []) self.new) };
}

impl StepSink for StepList {
    ghost took = { λ first steps now. now ≡ first ++ steps };

    fn take(&mut self, _alloc: Global, _next: u32, step: Step) -> Result<(), Memory> {
        self.push(step)
    }
}

/// The lines of steps, of which none is kept.
#[derive(Drop)]
pub struct StepLines<'a> {
    pub schema: &'a Schema,
    pub names: &'a [Name],
    pub text: Vec<u8>,
}

impl StepSink for StepLines<'_> {
    ghost took = { λ first steps now. (now.schema ≡ first.schema) × (now.names ≡ first.names)
        × (now.text.items
        ≡ first.text.items ++ steps_text first.schema.now first.names.now 1 steps) };

    fn take(&mut self, alloc: Global, next: u32, step: Step) -> Result<(), Memory> {
        let line = step_text(alloc, self.schema, self.names, u64::from(next), &step)?;
        self.text.extend_from_slice(&line)?;
        Ok(())
    }
}
