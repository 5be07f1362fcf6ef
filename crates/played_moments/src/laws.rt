// Where a run begins.
ghost use Rattle.std.specs.Prelude.{◌≡◌, ℕ, [], None};
ghost use Rattle.session_core.specs.Sessions.{IsOpened};
ghost use Rattle.client_runner.specs.Steps.{Ran};
ghost use Rattle.played_record.specs.Worlds.{opening};
ghost use Rattle.cloud_base.specs.declared.schema.Schema.{Schema};
ghost use Rattle.cloud_base.specs.declared.batch.Batch.{Batch};
ghost use Rattle.front_table.specs.TokenView.{TokenView};
ghost use Rattle.played_moments.specs.Moments.{IsAt};

/// A client whose session was just opened, and for which nothing is on its way, is where a played
/// run begins.
pub fn runs_begin()
    ensures { (schema : Schema) (c : ℕ) (front : TokenView Batch) (run : Ran) →
        front.list ≡ [] → IsOpened schema c front run.stands → run.ended ≡ None →
        IsAt c run (record { out = None; inbox = None; held = None; taken = 0 }) opening }
{}
