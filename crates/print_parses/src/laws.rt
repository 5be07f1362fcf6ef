// What follows from the definitions alone.
ghost use Rattle.std.specs.Prelude.{◌≤◌, length};
ghost use Rattle.cloud_parse.specs.Parse.{most_source_bytes};
ghost use Rattle.print_parses.specs.Parsing.{ParsesTo};
ghost use Rattle.source_print.specs.Canonical.{canonical};
ghost use Rattle.source_tree.specs.Limits.{IsTree};
ghost use Rattle.source_tree.specs.declared.program.Program.{Program};

use cloud_parse::one_answer;
use source_print::printed_spells;

/// Parsing the canonical text of a tree gives the tree again, where the text isn't too long.
pub fn print_parses()
    ensures { (p : Program) → IsTree p → length (canonical p) ≤ most_source_bytes →
        ParsesTo (canonical p) p }
{
    printed_spells();
    one_answer();
}
