// What follows from the definitions alone. A function whose proof cites a law calls it.
ghost use Rattle.std.specs.Prelude.{◌≡◌, ◌↔◌, ◌⊎◌, List, [], ◌∷◌, ◌++◌, ℕ, Bool, true, false, ◌||◌};
ghost use Rattle.std.specs.Prelude.{ℤ, ◌+ℤ◌, All, IsTrue, Contains, FitsSigned, None};
ghost use Rattle.std.specs.Option.{option_or};
ghost use Rattle.std.specs.Int.{w64, int_wrap};
ghost use Rattle.std.specs.Cmp.{IsTotalOrder};
ghost use Rattle.cloud_base.specs.Values.{Id};
ghost use Rattle.cloud_base.specs.Order.{id_order, text_order, key_order, keys_order, same_id};
ghost use Rattle.cloud_base.specs.Order.{same_keys};
ghost use Rattle.cloud_base.specs.Sorted.{Lists};
ghost use Rattle.cloud_base.specs.PlainCell.{plain_int, plain_text, plain_value, walk_text};
ghost use Rattle.cloud_base.specs.PlainCell.{default_of, is_default};
ghost use Rattle.cloud_base.specs.Log.{of_cell, touched, created, creation, is_created, is_deleted};
ghost use Rattle.cloud_base.specs.Log.{ids_of};
ghost use Rattle.cloud_base.specs.Dead.{Chain, Dead, is_dead, has_dead};
ghost use Rattle.cloud_base.specs.Leads.{Leads};
ghost use Rattle.cloud_base.specs.Shaped.{Fit, CreatedOnce, Disjoint, IsChange, IsSaid, IsShaped};
ghost use Rattle.cloud_base.specs.Shaped.{IsShapedQuery, IsShapedAnswer, IsValue};
ghost use Rattle.cloud_base.specs.Alike.{Alike, IsPart};
ghost use Rattle.cloud_base.specs.Answer.{answer, all_ids, entries, is_listed, is_entry};
ghost use Rattle.cloud_base.specs.declared.key.Key.{Key};
ghost use Rattle.cloud_base.specs.declared.schema.CellType.{CellType};
ghost use Rattle.cloud_base.specs.declared.schema.Schema.{Schema};
ghost use Rattle.cloud_base.specs.declared.update.Answer.{Answer};
ghost use Rattle.cloud_base.specs.declared.update.CellChange.{CellChange};
ghost use Rattle.cloud_base.specs.declared.update.Update.{Update};
ghost use Rattle.cloud_base.specs.declared.update.Query.{Query};

use crate::key::{Key, Keys, Uid};
use crate::schema::CellType;
use crate::text::Text;
use crate::update::{Answer, CellChange, Query, Update};

/// The derived comparisons compute the orders of ids, texts, keys and lists of keys.
pub fn derived_orders()
    ensures ids { (a b : Id) → ⟦<Uid as Ord>⟧.cmp a b ≡ id_order a b }
    ensures texts { (a b : List ℕ) → ⟦<Text as Ord>⟧.cmp a b ≡ text_order a b }
    ensures each { (a b : Key) → ⟦<Key as Ord>⟧.cmp a b ≡ key_order a b }
    ensures lists { (a b : List Key) → ⟦<Keys as Ord>⟧.cmp a b ≡ keys_order a b }
{}

/// The orders are total, and tell any two apart.
pub fn total_orders()
    ensures ids { IsTotalOrder id_order }
    ensures texts { IsTotalOrder text_order }
    ensures each { IsTotalOrder key_order }
    ensures lists { IsTotalOrder keys_order }
    ensures ids_apart { (a b : Id) → IsTrue (same_id a b) ↔ (a ≡ b) }
    ensures lists_apart { (a b : List Key) → IsTrue (same_keys a b) ↔ (a ≡ b) }
{}

/// An ascending list is told by which members it has.
// For a state: the lists that it keeps in order are told by the log.
pub fn ascending_lists()
    ensures ids { (p : Id → Bool) (xs ys : List Id) → Lists id_order xs (λ id. IsTrue (p id)) →
        Lists id_order ys (λ id. IsTrue (p id)) → xs ≡ ys }
    ensures keys { (p : List Key → Bool) (xs ys : List (List Key)) →
        Lists keys_order xs (λ keys. IsTrue (p keys)) →
        Lists keys_order ys (λ keys. IsTrue (p keys)) → xs ≡ ys }
{}

/// The plain value of a cell after one more change.
pub fn plain_steps()
    ensures set { (changes : List CellChange) (n : ℤ) →
        plain_int (changes ++ CellChange.SetInt n ∷ []) ≡ int_wrap w64 n }
    ensures add { (changes : List CellChange) (n : ℤ) →
        plain_int (changes ++ CellChange.Add n ∷ []) ≡ int_wrap w64 (plain_int changes +ℤ n) }
    ensures no_integer { (changes : List CellChange) (words : List ℕ) →
        (plain_int (changes ++ CellChange.SetText words ∷ []) ≡ plain_int changes) ×
        (plain_int (changes ++ CellChange.SetIfEmpty words ∷ []) ≡ plain_int changes) }
    ensures fits { (changes : List CellChange) → FitsSigned w64 (plain_int changes) }
    ensures text { (first second : List CellChange) →
        plain_text (first ++ second) ≡ walk_text (plain_text first) second }
{}

/// The default of a cell is its value over no changes, and the test finds it among the values of
/// the cell's type.
pub fn default_values()
    ensures nothing { (type : CellType) → plain_value type [] ≡ default_of type }
    ensures test { (type : CellType) (value : Answer) → IsValue type value →
        IsTrue (is_default value) ↔ (value ≡ default_of type) }
{}

/// What two logs one after the other hold.
pub fn log_parts()
    ensures changes { (property : ℕ) (keys : List Key) (log more : List Update) →
        of_cell property keys (log ++ more) ≡
        of_cell property keys log ++ of_cell property keys more }
    ensures touched { (property : ℕ) (log more : List Update) →
        touched property (log ++ more) ≡ touched property log ++ touched property more }
    ensures created { (log more : List Update) →
        created (log ++ more) ≡ created log ++ created more }
    ensures creation { (id : Id) (log more : List Update) →
        creation id (log ++ more) ≡ option_or (creation id log) (creation id more) }
    ensures deleted { (id : Id) (log more : List Update) →
        is_deleted id (log ++ more) ≡ (is_deleted id log || is_deleted id more) }
{}

/// Parts of logs. What a joined log knows is known after the join.
// For a state's join: the joiner's log has what the joined one began with.
pub fn parts_of_logs()
    ensures left { (log more : List Update) → IsPart log (log ++ more) }
    ensures right { (log more : List Update) → IsPart more (log ++ more) }
    ensures both { (first second whole : List Update) →
        IsPart first whole → IsPart second whole → IsPart (first ++ second) whole }
    ensures joined { (base delta before after : List Update) →
        IsPart before (base ++ delta) → IsPart (before ++ after) (base ++ (delta ++ after)) }
{}

/// A log of two parts creates no id twice exactly where neither part does, and none is created in
/// both.
pub fn creations_once()
    ensures test { (id : Id) (log : List Update) →
        IsTrue (is_created id log) ↔ Contains (created log) id }
    ensures parts { (log more : List Update) → CreatedOnce (log ++ more) ↔
        (CreatedOnce log × CreatedOnce more × Disjoint (created log) (created more)) }
{}

/// A log of two parts is fit exactly where both parts are, and no id is created in both.
// For a state, whose log is fit at each moment.
pub fn fit_logs()
    ensures parts { (schema : Schema) (log more : List Update) → Fit schema (log ++ more) ↔
        (Fit schema log × Fit schema more × Disjoint (created log) (created more)) }
    ensures one_more { (schema : Schema) (log : List Update) (update : Update) →
        Fit schema log → IsShaped schema update →
        ((id : Id) → Contains (created (update ∷ [])) id → creation id log ≡ None) →
        Fit schema (log ++ update ∷ []) }
{}

/// The test for dead ids finds the chains, however long they are.
// For a state's roster of ids.
pub fn dead_by_chains()
    ensures test { (log : List Update) (id : Id) → IsTrue (is_dead log id) ↔ Dead log id }
    ensures chains { (log : List Update) (n : ℕ) (id : Id) → Chain log n id → Dead log id }
{}

/// What is dead stays dead when a log grows, and keys that live in the whole live in a part.
// For a state's join.
pub fn dead_grows()
    ensures ids { (log whole : List Update) (id : Id) →
        CreatedOnce whole → IsPart log whole → Dead log id → Dead whole id }
    ensures keys { (log whole : List Update) (keys : List Key) →
        CreatedOnce whole → IsPart log whole → has_dead whole keys ≡ false →
        has_dead log keys ≡ false }
    ensures more { (log more : List Update) (id : Id) → Dead log id → Dead (log ++ more) id }
{}

/// Which ids are dead depends on the first creations and the deletions alone, and so, where no id
/// is created twice, on the members of a log and not on their order.
// For a state's join, which is told of ids and has no log.
pub fn dead_by_members()
    ensures members { (log other : List Update) (id : Id) → CreatedOnce log → CreatedOnce other →
        IsPart log other → IsPart other log → is_dead log id ≡ is_dead other id }
    ensures links { (log other : List Update) → ((id : Id) → creation id log ≡ creation id other) →
        ((id : Id) → is_deleted id log ≡ is_deleted id other) →
        (id : Id) → is_dead log id ≡ is_dead other id }
{}

/// Which ids are dead after one update more. A change of a cell kills nothing. A deletion kills
/// what leads to the deleted id. A creation with a dead key kills what leads to the created id, as
/// an id may be a key before it is created.
// For a state's update.
pub fn dead_after()
    ensures cell { (log : List Update) (property : ℕ) (keys : List Key) →
        (change : CellChange) (id : Id) →
        is_dead (log ++ Update.Cell property keys change ∷ []) id ≡ is_dead log id }
    ensures deletion { (log : List Update) (deleted id : Id) →
        Dead (log ++ Update.Delete deleted ∷ []) id ↔ (Dead log id ⊎ Leads log id deleted) }
    ensures creation { (log : List Update) (new : Id) (entity : ℕ) (keys : List Key) (id : Id) →
        creation new log ≡ None → Dead (log ++ Update.Create new entity keys ∷ []) id ↔
        (Dead log id ⊎ (Leads log id new × IsTrue (has_dead log keys))) }
    ensures led { (log : List Update) (id root : Id) →
        Leads log id root → Dead log root → Dead log id }
{}

/// The answer to `Get` depends on the changes of the cell and on which of its keys are dead.
// For a state, which keeps cells and ids apart.
pub fn get_depends_on()
    ensures { (schema : Schema) (log other : List Update) (property : ℕ) (keys : List Key) →
        of_cell property keys log ≡ of_cell property keys other →
        ((id : Id) → Contains (ids_of keys) id → is_dead log id ≡ is_dead other id) →
        answer schema log (Query.Get property keys) ≡
        answer schema other (Query.Get property keys) }
{}

/// Logs with the same changes of each cell, the same creations and the same deletions answer alike.
// For the reader: it is cited nowhere, and says what an answer depends on.
pub fn alike_answers()
    ensures answers { (schema : Schema) (log other : List Update) (query : Query) →
        Alike log other → answer schema log query ≡ answer schema other query }
    ensures members { (log other : List Update) → CreatedOnce log → CreatedOnce other →
        IsPart log other → IsPart other log →
        ((property : ℕ) (keys : List Key) →
        of_cell property keys log ≡ of_cell property keys other) →
        Alike log other }
{}

/// The lists that a log answers are the ascending ones with exactly the members that they are to
/// have.
// For a state, which keeps ids and cells in order.
pub fn answers_list()
    ensures all { (log : List Update) (entity : ℕ) →
        Lists id_order (all_ids log entity) (λ id. IsTrue (is_listed log entity id)) }
    ensures entries { (schema : Schema) (log : List Update) (property : ℕ) →
        Lists keys_order (entries schema log property)
        (λ keys. IsTrue (is_entry schema log property keys)) }
{}

/// What a log of the schema's shape answers to a query of that shape is of that shape, and the
/// plain value over changes of a type is a value of that type. A cell's value may be printed.
// For the proof that the text of a report tells its answers.
pub fn shaped_answers()
    ensures answers { (schema : Schema) (log : List Update) (query : Query) →
        All (IsShaped schema) log → IsShapedQuery schema query →
        IsShapedAnswer schema query (answer schema log query) }
    ensures values { (type : CellType) (changes : List CellChange) →
        All (IsChange type) changes → IsValue type (plain_value type changes) }
    ensures said { (type : CellType) (value : Answer) → IsValue type value → IsSaid value }
{}
