// The rules of kinds, and the typed program of a source that keeps them.
#![tactic(auto)]

ghost use Rattle.std.specs.Prelude.{◌≡◌, None, List, ℕ};
ghost use Rattle.std.specs.List.{AllByRecursion};
ghost use Rattle.source_tree.specs.Limits.{IsTree};
ghost use Rattle.source_tree.specs.Words.{program_words};
ghost use Rattle.source_tree.specs.declared.program.Program.{Program};
ghost use Rattle.typed_program.specs.Programs.{IsProgram};
ghost use Rattle.kind_rules.specs.Answers.{first_fault};
ghost use Rattle.kind_rules.specs.Programs.{items_of, typed};
ghost use Rattle.kind_rules.specs.Words.{IsFitWord};

/// The names, numbers and texts of a tree are those that a typed program may have.
pub fn words_are_fit()
    ensures { (p : Program) → IsTree p → AllByRecursion IsFitWord (program_words p) }
{
    source_tree::spelled_words();
}

/// A source in which no rule fails is a program.
pub fn checked_is_program()
    ensures { (p : Program) (lines : List ℕ) → IsTree p →
        first_fault (items_of p lines) ≡ None → IsProgram (typed p lines) }
{
    words_are_fit();
}
