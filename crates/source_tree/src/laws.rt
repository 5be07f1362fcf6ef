// What follows from the definitions alone.
ghost use Rattle.std.specs.Prelude.{◌≡◌, List};
ghost use Rattle.source_tokens.specs.declared.token.Token.{Token};
ghost use Rattle.source_tree.specs.declared.program.Program.{Program};
ghost use Rattle.source_tree.specs.Programs.{SpellsProgram};
ghost use Rattle.source_tree.specs.Words.{program_words, numbers_of, texts_of, words_of};

/// The names, numbers and texts of a program are those among its tokens.
pub fn spelled_words()
    ensures words { (p : Program) (tokens : List Token) → SpellsProgram p tokens →
        program_words p ≡ words_of tokens }
    ensures numbers { (p : Program) (tokens : List Token) → SpellsProgram p tokens →
        numbers_of (program_words p) ≡ numbers_of tokens }
    ensures texts { (p : Program) (tokens : List Token) → SpellsProgram p tokens →
        texts_of (program_words p) ≡ texts_of tokens }
{}
