// What follows from the definitions alone.
ghost use Rattle.std.specs.Prelude.{◌≡◌, ◌≤◌, None};
ghost use Rattle.source_tokens.specs.Brackets.{most_open};
ghost use Rattle.source_tokens.specs.Scans.{scan, tokens_of};
ghost use Rattle.source_tree.specs.Limits.{IsSpelled, IsTree};
ghost use Rattle.source_tree.specs.Programs.{SpellsProgram};
ghost use Rattle.source_tree.specs.declared.program.Program.{Program};
ghost use Rattle.source_print.specs.Canonical.{canonical};

/// The canonical text of a program that tokens of a source spell is read whole, and its tokens
/// spell the program. In that of a tree at most 33 brackets are open at once.
pub fn printed_spells()
    ensures whole { (p : Program) → IsSpelled p → (scan (canonical p)).fault ≡ None }
    ensures spelled { (p : Program) → IsSpelled p →
        SpellsProgram p (tokens_of (scan (canonical p)).tokens) }
    ensures brackets { (p : Program) → IsTree p →
        most_open 0 (tokens_of (scan (canonical p)).tokens) ≤ 33 }
{}
