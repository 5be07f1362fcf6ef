// Laws of the grammar and trees: functions that do nothing and promise them.
ghost use Rattle.std.specs.Prelude.{◌≡◌, ◌↔◌, ℕ, List, None, map};
ghost use Rattle.source_tokens.specs.Scans.{scan, tokens_of};
ghost use Rattle.source_tokens.specs.declared.token.Token.{Token};
ghost use Rattle.syntax_judge.specs.Faults.{IsSource};
ghost use Rattle.syntax_judge.specs.Programs.{IsProgram, kind_of};
ghost use Rattle.source_tree.specs.Programs.{HasTree};

/// Tokens spell some program exactly where their kinds are a program's to the grammar. So a text
/// is a program's exactly where all of it is read and its tokens spell one.
pub fn some_tree()
    ensures tokens { (tokens : List Token) → HasTree tokens ↔ IsProgram (map kind_of tokens) }
    ensures source { (text : List ℕ) → IsSource text
        ↔ (((scan text).fault ≡ None) × HasTree (tokens_of (scan text).tokens)) }
{}
