// What one step more does to a diagram, for every list of steps.
//
// The run of one client and the steps of a record are built a step at a time by these laws. What is
// said of each place is for those who check steps that they are given.
ghost use Rattle.std.specs.Prelude.{◌≡◌, ◌≢◌, ℕ, ◌+◌, ◌<◌, ◌≤◌, Bool, true, false, cond, List, []};
ghost use Rattle.std.specs.Prelude.{◌∷◌, ◌++◌, length, take, drop, slice_get, Some, None, IsTrue};
ghost use Rattle.std.specs.Prelude.{◌↔◌};
ghost use Rattle.std.specs.List.{last_or, cons_option};
ghost use Rattle.cloud_base.specs.declared.update.Update.{Update};
ghost use Rattle.cloud_base.specs.declared.update.Query.{Query};
ghost use Rattle.cloud_base.specs.declared.update.Answer.{Answer};
ghost use Rattle.revision_diagram.specs.declared.step.Step.{Step};
ghost use Rattle.revision_diagram.specs.Diagram.{diagram, after, put, with_place, with_past};
ghost use Rattle.revision_diagram.specs.Diagram.{acts_on, is_of, revisions, live, owner, past};
ghost use Rattle.revision_diagram.specs.Diagram.{path, fork, fork_length};
ghost use Rattle.revision_diagram.specs.Lawful.{is_lawful, Lawful};
ghost use Rattle.revision_diagram.specs.Right.{log, Right, AnsweredRight};
ghost use Rattle.revision_diagram.specs.Once.{stands_on, is_do, joins_apart, StandsOnce};
ghost use Rattle.revision_diagram.specs.Once.{AllStandOnce, Once};
ghost use Rattle.revision_diagram.specs.Story.{is_told, story, event_of, events, is_in_line};
ghost use Rattle.revision_diagram.specs.Story.{LineLaw};
ghost use Rattle.revision_diagram.specs.Meeting.{Tree, client_at, is_placed, Placed, is_at_mark};
ghost use Rattle.revision_diagram.specs.Meeting.{AtMarks, is_flush, flushes, is_mark_at, FlushLaw};
ghost use Rattle.revision_diagram.specs.Headline.{is_for_node, AllOwned};
ghost use Rattle.revision_diagram.specs.Untouched.{Untouched, JustForked};

/// The longer diagram is the shorter one with the step drawn.
pub fn step_draws()
    ensures diagram { (steps : List Step) (s : Step)
        → diagram (steps ++ s ∷ []) ≡ after (diagram steps) s }
    ensures places { (steps : List Step) → (diagram steps).places ≡ length steps }
{}

/// A fork of `r` for `c`: the new revision is live and of `c`, and has the past and the path of
/// `r`.
pub fn fork_draws()
    ensures revisions { (steps : List Step) (r c : ℕ)
        → revisions (steps ++ Step.Fork r c ∷ []) ≡ revisions steps + 1 }
    ensures live { (steps : List Step) (r c x : ℕ)
        → live (steps ++ Step.Fork r c ∷ []) x ≡ put (revisions steps) true (live steps) x }
    ensures owner { (steps : List Step) (r c x : ℕ)
        → owner (steps ++ Step.Fork r c ∷ []) x ≡ put (revisions steps) (Some c) (owner steps) x }
    ensures past { (steps : List Step) (r c x i : ℕ) → past (steps ++ Step.Fork r c ∷ []) x i
        ≡ put (revisions steps) (with_place (past steps r) (length steps))
        (put r (with_place (past steps r) (length steps)) (past steps)) x i }
    ensures path { (steps : List Step) (r c x : ℕ) → path (steps ++ Step.Fork r c ∷ []) x
        ≡ put (revisions steps) (path steps r) (path steps) x }
    ensures fork { (steps : List Step) (r c x : ℕ) → fork (steps ++ Step.Fork r c ∷ []) x
        ≡ put (revisions steps) (length steps) (fork steps) x }
    ensures fork_length { (steps : List Step) (r c x : ℕ)
        → fork_length (steps ++ Step.Fork r c ∷ []) x
        ≡ put (revisions steps) (length (path steps r)) (fork_length steps) x }
    ensures log { (steps : List Step) (r c x : ℕ)
        → log (steps ++ Step.Fork r c ∷ []) x ≡ put (revisions steps) (log steps r) (log steps) x }
{}

/// A join of `s` into `r`: `s` ends, and `r` gets its past and what its path has beyond its fork.
pub fn join_draws()
    ensures revisions { (steps : List Step) (r s : ℕ)
        → revisions (steps ++ Step.Join r s ∷ []) ≡ revisions steps }
    ensures live { (steps : List Step) (r s x : ℕ)
        → live (steps ++ Step.Join r s ∷ []) x ≡ put s false (live steps) x }
    ensures owner { (steps : List Step) (r s x : ℕ)
        → owner (steps ++ Step.Join r s ∷ []) x ≡ owner steps x }
    ensures past { (steps : List Step) (r s x i : ℕ) → past (steps ++ Step.Join r s ∷ []) x i
        ≡ put r (with_place (with_past (past steps r) (past steps s)) (length steps))
        (past steps) x i }
    ensures path { (steps : List Step) (r s x : ℕ) → path (steps ++ Step.Join r s ∷ []) x
        ≡ put r (path steps r ++ drop (fork_length steps s) (path steps s)) (path steps) x }
    ensures log { (steps : List Step) (r s x : ℕ) → log (steps ++ Step.Join r s ∷ []) x
        ≡ put r (log steps r ++ drop (fork_length steps s) (log steps s)) (log steps) x }
{}

/// A Do, Ask, Say or Mark on `r` adds its place to the past of `r`.
pub fn act_draws()
    ensures revisions { (steps : List Step) (s : Step) (r : ℕ)
        → acts_on s ≡ Some r → revisions (steps ++ s ∷ []) ≡ revisions steps }
    ensures live { (steps : List Step) (s : Step) (r x : ℕ)
        → acts_on s ≡ Some r → live (steps ++ s ∷ []) x ≡ live steps x }
    ensures owner { (steps : List Step) (s : Step) (r x : ℕ)
        → acts_on s ≡ Some r → owner (steps ++ s ∷ []) x ≡ owner steps x }
    ensures past { (steps : List Step) (s : Step) (r x i : ℕ)
        → acts_on s ≡ Some r → past (steps ++ s ∷ []) x i
        ≡ put r (with_place (past steps r) (length steps)) (past steps) x i }
{}

/// A Do on `r` appends its place to the path of `r`, and so its update to the log.
pub fn do_draws()
    ensures path { (steps : List Step) (r : ℕ) (u : Update) (x : ℕ)
        → path (steps ++ Step.Do r u ∷ []) x
        ≡ put r (path steps r ++ length steps ∷ []) (path steps) x }
    ensures log { (steps : List Step) (r : ℕ) (u : Update) (x : ℕ)
        → log (steps ++ Step.Do r u ∷ []) x ≡ put r (log steps r ++ u ∷ []) (log steps) x }
{}

/// An Ask leaves all paths and logs.
pub fn ask_draws()
    ensures path { (steps : List Step) (r : ℕ) (q : Query) (a : Answer) (x : ℕ)
        → path (steps ++ Step.Ask r q a ∷ []) x ≡ path steps x }
    ensures log { (steps : List Step) (r : ℕ) (q : Query) (a : Answer) (x : ℕ)
        → log (steps ++ Step.Ask r q a ∷ []) x ≡ log steps x }
{}

/// A Say leaves all paths and logs.
pub fn say_draws()
    ensures path { (steps : List Step) (r : ℕ) (v : Answer) (x : ℕ)
        → path (steps ++ Step.Say r v ∷ []) x ≡ path steps x }
    ensures log { (steps : List Step) (r : ℕ) (v : Answer) (x : ℕ)
        → log (steps ++ Step.Say r v ∷ []) x ≡ log steps x }
{}

/// A Mark leaves all paths and logs.
pub fn mark_draws()
    ensures path { (steps : List Step) (r : ℕ) (flush : Bool) (x : ℕ)
        → path (steps ++ Step.Mark r flush ∷ []) x ≡ path steps x }
    ensures log { (steps : List Step) (r : ℕ) (flush : Bool) (x : ℕ)
        → log (steps ++ Step.Mark r flush ∷ []) x ≡ log steps x }
{}

/// What a step keeps of each revision that is there.
pub fn step_keeps()
    ensures revisions { (steps : List Step) (s : Step)
        → revisions steps ≤ revisions (steps ++ s ∷ []) }
    ensures owner { (steps : List Step) (s : Step) (x : ℕ)
        → x < revisions steps → owner (steps ++ s ∷ []) x ≡ owner steps x }
    ensures fork { (steps : List Step) (s : Step) (x : ℕ)
        → x < revisions steps → fork (steps ++ s ∷ []) x ≡ fork steps x }
    ensures fork_length { (steps : List Step) (s : Step) (x : ℕ)
        → x < revisions steps → fork_length (steps ++ s ∷ []) x ≡ fork_length steps x }
    ensures past { (steps : List Step) (s : Step) (x i : ℕ) → x < revisions steps
        → IsTrue (past steps x i) → IsTrue (past (steps ++ s ∷ []) x i) }
{}

/// A step leaves a live revision that it does not name, and a fork, an Ask, a Say and a Mark leave
/// the one that they name, too.
pub fn step_leaves()
    ensures asked { (steps : List Step) (r : ℕ) (q : Query) (a : Answer) (x : ℕ)
        → IsTrue (live steps x) → Untouched steps (steps ++ Step.Ask r q a ∷ []) x }
    ensures said { (steps : List Step) (r : ℕ) (v : Answer) (x : ℕ)
        → IsTrue (live steps x) → Untouched steps (steps ++ Step.Say r v ∷ []) x }
    ensures marked { (steps : List Step) (r : ℕ) (flush : Bool) (x : ℕ)
        → IsTrue (live steps x) → Untouched steps (steps ++ Step.Mark r flush ∷ []) x }
    ensures done { (steps : List Step) (r : ℕ) (u : Update) (x : ℕ)
        → IsTrue (live steps x) → x ≢ r → Untouched steps (steps ++ Step.Do r u ∷ []) x }
    ensures forked { (steps : List Step) (r c x : ℕ)
        → IsTrue (live steps x) → Untouched steps (steps ++ Step.Fork r c ∷ []) x }
    ensures joined { (steps : List Step) (r s x : ℕ)
        → IsTrue (live steps x) → x ≢ r → x ≢ s → Untouched steps (steps ++ Step.Join r s ∷ []) x }
    ensures made { (steps : List Step) (r c : ℕ) → IsTrue (live steps r)
        → JustForked steps (steps ++ Step.Fork r c ∷ []) r c (revisions steps) }
{}

/// Only a revision that is there is live, and all but the server are of a node. Pasts hold places
/// of steps that are there, and paths those of Do steps, so the next place stands on no path yet.
pub fn revisions_are_there()
    ensures live { (steps : List Step) (x : ℕ) → IsTrue (live steps x) → x < revisions steps }
    ensures past { (steps : List Step) (x i : ℕ) → IsTrue (past steps x i) → i < length steps }
    ensures path { (steps : List Step) (x i : ℕ)
        → IsTrue (stands_on (path steps x) i) → IsTrue (is_do steps i) }
    ensures next { (steps : List Step) (x : ℕ) → stands_on (path steps x) (length steps) ≡ false }
    ensures server { (steps : List Step) → 0 < revisions steps }
    ensures nobodys { (steps : List Step) → owner steps 0 ≡ None }
    ensures owner { (steps : List Step) (x : ℕ)
        → 0 < x → x < revisions steps → owner steps x ≢ None }
{}

/// A path is as long as it was at its fork or longer, and a log has an update for each place of its
/// path.
pub fn path_lengths()
    ensures fork { (steps : List Step) (x : ℕ) → fork_length steps x ≤ length (path steps x) }
    ensures log { (steps : List Step) (x : ℕ) → length (log steps x) ≡ length (path steps x) }
{}

/// Steps are lawful where each is after those before it.
pub fn lawful_step()
    ensures more { (steps : List Step) (s : Step)
        → Lawful (steps ++ s ∷ []) ↔ (Lawful steps × IsTrue (is_lawful steps s)) }
    ensures by_place { (steps : List Step) → Lawful steps
        ↔ ((i : ℕ) (s : Step) → slice_get steps i ≡ Some s → IsTrue (is_lawful (take i steps) s)) }
    ensures join { (steps : List Step) (r s : ℕ) → IsTrue (live steps r) → IsTrue (live steps s)
        → s ≢ 0 → s ≢ r → IsTrue (past steps r (fork steps s))
        → IsTrue (is_lawful steps (Step.Join r s)) }
{}

/// Steps are answered right where each is after those before it.
pub fn right_step()
    ensures more { (answers : List Update → Query → Answer) (steps : List Step) (s : Step)
        → AnsweredRight answers (steps ++ s ∷ [])
        ↔ (AnsweredRight answers steps × Right answers steps s) }
    ensures by_place { (answers : List Update → Query → Answer) (steps : List Step)
        → AnsweredRight answers steps
        ↔ ((i : ℕ) (s : Step) → slice_get steps i ≡ Some s → Right answers (take i steps) s) }
{}

/// A lawful step keeps each place once exactly where a join is of paths that are apart.
pub fn once_step()
    ensures more { (steps : List Step) (s : Step) → IsTrue (is_lawful steps s)
        → Once (steps ++ s ∷ []) ↔ (Once steps × IsTrue (joins_apart steps s)) }
    ensures front { (steps : List Step) (s : Step) → Once (steps ++ s ∷ []) → Once steps }
    ensures by_place { (steps : List Step) → Once steps ↔ ((n : ℕ) → AllStandOnce (take n steps)) }
{}

/// Paths are apart where the joiner's has each place that the joined one had at its fork, and none
/// that it has beyond: so where the joiner's is what the joined one's was at its fork.
pub fn paths_apart()
    ensures by_members { (steps : List Step) (r s : ℕ) → IsTrue (joins_apart steps (Step.Join r s))
        ↔ (((i : ℕ) → IsTrue (stands_on (take (fork_length steps s) (path steps s)) i)
        → IsTrue (stands_on (path steps r) i))
        × ((i : ℕ) → IsTrue (stands_on (drop (fork_length steps s) (path steps s)) i)
        → stands_on (path steps r) i ≡ false)) }
    ensures at_fork { (steps : List Step) (r s : ℕ) → StandsOnce steps s
        → path steps r ≡ take (fork_length steps s) (path steps s)
        → IsTrue (joins_apart steps (Step.Join r s)) }
{}

/// What a step adds to the story of `c` and to its events.
pub fn story_step()
    ensures story { (steps : List Step) (s : Step) (c : ℕ) → story (steps ++ s ∷ []) c
        ≡ story steps c ++ cond (is_told c steps s) (length steps ∷ []) [] }
    ensures events { (steps : List Step) (s : Step) (c : ℕ) → events (steps ++ s ∷ []) c
        ≡ events steps c ++ cond (is_told c steps s) (cons_option (event_of (Some s)) []) [] }
    ensures last { (steps : List Step) (s : Step) (c : ℕ) → IsTrue (is_told c steps s)
        → last_or None (story (steps ++ s ∷ []) c) ≡ Some (length steps) }
    ensures untold { (steps : List Step) (s : Step) (c : ℕ)
        → is_told c steps s ≡ false → story (steps ++ s ∷ []) c ≡ story steps c }
{}

/// A step keeps who did what, and is its revision's owner's.
pub fn client_step()
    ensures kept { (steps : List Step) (s : Step) (i c : ℕ)
        → client_at steps i ≡ Some c → client_at (steps ++ s ∷ []) i ≡ Some c }
    ensures last { (steps : List Step) (s : Step) (r : ℕ)
        → acts_on s ≡ Some r → client_at (steps ++ s ∷ []) (length steps) ≡ owner steps r }
{}

/// A client keeps in line where each step does after those before it.
pub fn line_step()
    ensures more { (steps : List Step) (s : Step) (c : ℕ)
        → LineLaw (steps ++ s ∷ []) c
        ↔ (LineLaw steps c × IsTrue (is_in_line c steps (acts_on s))) }
    ensures by_place { (steps : List Step) (c : ℕ) → LineLaw steps c
        ↔ ((i : ℕ) (s : Step) → slice_get steps i ≡ Some s
        → IsTrue (is_in_line c (take i steps) (acts_on s))) }
{}

/// Clients meet at their marks where they do at each step after those before it.
pub fn meeting_step()
    ensures placed { (tree : Tree) (steps : List Step) (s : Step)
        → Placed tree (steps ++ s ∷ []) ↔ (Placed tree steps × IsTrue (is_placed tree steps s)) }
    ensures at_marks { (tree : Tree) (steps : List Step) (s : Step)
        → AtMarks tree (steps ++ s ∷ []) ↔ (AtMarks tree steps × IsTrue (is_at_mark tree steps s)) }
    ensures marked { (steps : List Step) (r c : ℕ) (flush : Bool) → IsTrue (is_of c (owner steps r))
        → IsTrue (is_mark_at (steps ++ Step.Mark r flush ∷ [])
        (last_or None (story (steps ++ Step.Mark r flush ∷ []) c))) }
    ensures unmarked { (steps : List Step) (s : Step) (c : ℕ) → is_told c steps s ≡ false
        → is_mark_at (steps ++ s ∷ []) (last_or None (story (steps ++ s ∷ []) c))
        ≡ is_mark_at steps (last_or None (story steps c)) }
    ensures flushes { (steps : List Step) (s : Step)
        → flushes (steps ++ s ∷ []) ≡ flushes steps ++ cond (is_flush s) (length steps ∷ []) [] }
    ensures none { (tree : Tree) (steps : List Step) → flushes steps ≡ [] → FlushLaw tree steps }
{}

/// Each revision is of a node where each fork is for one, and what is of a node is there.
pub fn owners_step()
    ensures more { (tree : Tree) (clients : ℕ) (steps : List Step) (s : Step)
        → AllOwned tree clients (steps ++ s ∷ [])
        ↔ (AllOwned tree clients steps × IsTrue (is_for_node tree clients s)) }
    ensures there { (steps : List Step) (x m : ℕ) → owner steps x ≡ Some m → x < revisions steps }
{}
