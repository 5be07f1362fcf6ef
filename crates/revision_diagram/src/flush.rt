// When the flushes of a diagram are met, for every list of steps.
//
// The steps of a record with flushes are built by these laws.
ghost use Rattle.std.specs.Prelude.{◌≡◌, ◌≢◌, ℕ, ◌<◌, true, false, List, [], ◌∷◌, ◌++◌, length};
ghost use Rattle.std.specs.Prelude.{take, slice_get, Some, None, IsTrue, ◌↔◌};
ghost use Rattle.revision_diagram.specs.declared.step.Step.{Step};
ghost use Rattle.revision_diagram.specs.Diagram.{acts_on, revisions, owner, past};
ghost use Rattle.revision_diagram.specs.Story.{is_told, story};
ghost use Rattle.revision_diagram.specs.Meeting.{Tree, first_above, newest, joins_up, forks_down};
ghost use Rattle.revision_diagram.specs.Meeting.{Flushed, FlushLaw};

/// The flush law holds where the flush at each place is met: at its client's next step, or at the
/// end, where there is none. A flush that is met at a next step stays so, whatever comes.
pub fn flush_law()
    ensures by_place { (tree : Tree) (steps : List Step) → FlushLaw tree steps
        ↔ ((i r c : ℕ) → slice_get steps i ≡ Some (Step.Mark r true)
        → owner (take i steps) r ≡ Some c → Flushed tree steps i c) }
    ensures at_step { (tree : Tree) (steps : List Step) (s : Step) (r c i join fork : ℕ)
        → acts_on s ≡ Some r → owner steps r ≡ Some c
        → i < length steps → first_above i (story steps c) ≡ None
        → IsTrue (joins_up tree steps c i join) → IsTrue (forks_down tree steps c fork)
        → join < fork → IsTrue (past steps r fork) → Flushed tree (steps ++ s ∷ []) i c }
    ensures at_end { (tree : Tree) (steps : List Step) (r c i join fork : ℕ)
        → first_above i (story steps c) ≡ None → newest steps c ≡ Some r
        → IsTrue (joins_up tree steps c i join) → IsTrue (forks_down tree steps c fork)
        → join < fork → IsTrue (past steps r fork) → Flushed tree steps i c }
    ensures kept { (tree : Tree) (steps more : List Step) (i c n : ℕ)
        → first_above i (story steps c) ≡ Some n
        → Flushed tree steps i c → Flushed tree (steps ++ more) i c }
{}

/// What was joined and forked stays so. The last step of a client has no story step behind it, and
/// what the client doesn't tell changes nothing of that.
pub fn flush_step()
    ensures joined { (tree : Tree) (steps more : List Step) (c i join : ℕ)
        → IsTrue (joins_up tree steps c i join) → IsTrue (joins_up tree (steps ++ more) c i join) }
    ensures forked { (tree : Tree) (steps more : List Step) (c fork : ℕ)
        → IsTrue (forks_down tree steps c fork) → IsTrue (forks_down tree (steps ++ more) c fork) }
    ensures last { (steps : List Step) (s : Step) (c : ℕ)
        → first_above (length steps) (story (steps ++ s ∷ []) c) ≡ None }
    ensures untold { (steps : List Step) (s : Step) (i c : ℕ) → is_told c steps s ≡ false
        → first_above i (story (steps ++ s ∷ []) c) ≡ first_above i (story steps c) }
{}

/// The newest revision of a client is that of the last fork for it.
pub fn newest_step()
    ensures forked { (steps : List Step) (r c : ℕ)
        → newest (steps ++ Step.Fork r c ∷ []) c ≡ Some (revisions steps) }
    ensures other { (steps : List Step) (r d c : ℕ) → d ≢ c
        → newest (steps ++ Step.Fork r d ∷ []) c ≡ newest steps c }
    ensures joined { (steps : List Step) (r s c : ℕ)
        → newest (steps ++ Step.Join r s ∷ []) c ≡ newest steps c }
    ensures acted { (steps : List Step) (s : Step) (r c : ℕ) → acts_on s ≡ Some r
        → newest (steps ++ s ∷ []) c ≡ newest steps c }
{}
