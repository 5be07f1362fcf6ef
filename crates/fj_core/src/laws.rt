// What follows from the definitions alone.
ghost use Rattle.std.specs.Prelude.{◌≡◌, List, [], ◌∷◌, map};
ghost use Rattle.std.specs.List.{flat_map};
ghost use Rattle.cloud_base.specs.PlainCell.{plain_int, plain_text};
ghost use Rattle.cloud_base.specs.declared.update.CellChange.{CellChange};
ghost use Rattle.fj_core.specs.Changes.{of_int, of_text, ints, texts};
ghost use Rattle.fj_core.specs.IntCells.{int_plain};
ghost use Rattle.fj_core.specs.TextCells.{text_plain};
ghost use Rattle.fj_core.specs.declared.int_cell.IntChange.{IntChange};
ghost use Rattle.fj_core.specs.declared.text_cell.TextChange.{TextChange};

/// Among the changes of any cell, those of a number make its number, and those of a text its text.
pub fn changes_keep_values()
    ensures ints { (changes : List CellChange)
        → plain_int changes ≡ int_plain (flat_map ints changes) }
    ensures texts { (changes : List CellChange)
        → plain_text changes ≡ text_plain (flat_map texts changes) }
    ensures ints_back { (changes : List IntChange)
        → flat_map ints (map of_int changes) ≡ changes }
    ensures texts_back { (changes : List TextChange)
        → flat_map texts (map of_text changes) ≡ changes }
{}
