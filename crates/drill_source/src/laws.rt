// What follows from the definitions alone.
ghost use Rattle.std.specs.Prelude.{ℕ, ◌≤◌};
ghost use Rattle.drill_source.specs.Sources.{IsSource};
ghost use Rattle.drill_text.specs.Drills.{drill_text};

use source_tree::spelled_words;

/// The text of a drill of at most 1,000 groups is a source in which no rule of kinds fails.
pub fn drills_are_sources()
    ensures { (n : ℕ) → n ≤ 1000 → IsSource (drill_text n) }
{
    spelled_words();
}
