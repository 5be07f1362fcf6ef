// What every text of a command keeps.
ghost use Rattle.std.specs.Prelude.{◌≡◌, ℕ, List};
ghost use Rattle.cloud_parse.specs.declared.parsed.Parsed.{Parsed};
ghost use Rattle.cloud_run.specs.declared.command.Command.{Command};
ghost use Rattle.cloud_run.specs.Top.{TextOf};

use played_record::records_of_played_runs;

/// A command makes one text of a source at most.
#[tactic(auto, using(crate::proofs::Calls::one_text))]
pub fn texts_come_out_once()
    ensures { (command : Command) (source : Parsed) (a b : List ℕ) → TextOf command source a
        → TextOf command source b → a ≡ b }
{
    records_of_played_runs();
}
