// What every body keeps.
ghost use Rattle.std.specs.Prelude.{◌≡◌, ◌≤◌, ◌<◌, ℕ, List, [], ◌∷◌, ◌++◌};
ghost use Rattle.std.specs.Prelude.{All, Some, length, slice_get};
ghost use Rattle.cloud_base.specs.Values.{most_clients};
ghost use Rattle.cloud_base.specs.Events.{Outcome, asks, answers_in, updates_of};
ghost use Rattle.cloud_base.specs.Shaped.{IsSchema, IsShapedAnswer, Fit};
ghost use Rattle.cloud_base.specs.declared.schema.Schema.{Schema};
ghost use Rattle.cloud_base.specs.declared.update.Answer.{Answer};
ghost use Rattle.cloud_base.specs.declared.update.Event.{Event};
ghost use Rattle.cloud_base.specs.declared.update.Query.{Query};
ghost use Rattle.typed_program.specs.declared.expression.Expression.{Expression};
ghost use Rattle.typed_program.specs.declared.expression.Kind.{Kind};
ghost use Rattle.typed_program.specs.declared.statement.Statement.{Statement};
ghost use Rattle.typed_program.specs.declared.statement.Statement.TheVariants.{While};
ghost use Rattle.typed_program.specs.Does.{World};
ghost use Rattle.typed_program.specs.Kinds.{HasKind, kind_of, IsBody};
ghost use Rattle.typed_program.specs.declared.program.Parts.{Parts};
ghost use Rattle.typed_program.specs.Laws.{Grows, Extends, InOrder, begins_anew};
ghost use Rattle.typed_program.specs.Programs.{IsProgram};
ghost use Rattle.typed_program.specs.Shapes.{IsAnswered, IsShapedTrace};
ghost use Rattle.typed_program.specs.Trace.{value, does, trace};
ghost use Rattle.typed_program.specs.Widths.{most_events};

/// An expression has one kind.
pub fn kinds_are_told()
    ensures { (schema : Schema) (seen : List Kind) (a : Expression) (kind : Kind) →
        HasKind schema seen a kind → kind ≡ kind_of schema a }
{}

/// Expressions and statements only add events.
pub fn events_grow()
    ensures values { (line : ℕ) (a : Expression) → Grows (value line a) }
    ensures statements { (statement : Statement) → Grows (does statement) }
{}

/// More answers only extend a trace, and each query takes the next one. So where a query waits, it
/// gets the next answer, and no other query is answered with it.
pub fn answers_extend()
    ensures extends { (client : ℕ) (body : List Statement) (answers more : List Answer) →
        Extends (trace client body answers) (trace client body (answers ++ more)) more }
    ensures in_order { (client : ℕ) (body : List Statement) (answers : List Answer) →
        InOrder (trace client body answers) answers }
    ensures asked { (client : ℕ) (body : List Statement) (answers : List Answer) (query : Query)
        (a : Answer) → (trace client body answers).1 ≡ asks query →
        answers_in (trace client body (answers ++ a ∷ [])).0 ≡ answers ++ a ∷ [] }
    ensures answered { (schema : Schema) (client : ℕ) (body : List Statement)
        (answers : List Answer) (query : Query) (a : Answer) →
        (trace client body answers).1 ≡ asks query →
        All (IsAnswered schema) (trace client body answers).0 → IsShapedAnswer schema query a →
        All (IsAnswered schema) (trace client body (answers ++ a ∷ [])).0 }
{}

/// A loop begins, tests, and where the test is true does its block and then the loop anew.
pub fn loops_begin_anew()
    ensures { (line : ℕ) (a : Expression) (block : List Statement) (w : World) →
        does (While line a block) w ≡ begins_anew line a block w }
{}

/// Where its queries are answered in shape, a well-kinded body does only what is of the schema's
/// shape, and what it does is fit.
pub fn bodies_are_shaped()
    ensures shaped { (schema : Schema) (client : ℕ) (body : List Statement)
        (answers : List Answer) → IsSchema schema → client < most_clients →
        IsBody schema body →
        All (IsAnswered schema) (trace client body answers).0 →
        IsShapedTrace schema client (trace client body answers) }
    ensures fit { (schema : Schema) (client : ℕ) (trace : List Event × Outcome) →
        IsShapedTrace schema client trace → Fit schema (updates_of trace.0) }
    ensures program { (p : Parts) (client : ℕ) (body : List Statement) (answers : List Answer) →
        IsProgram p → slice_get p.bodies client ≡ Some body →
        All (IsAnswered p.schema) (trace client body answers).0 →
        IsShapedTrace p.schema client (trace client body answers) }
{}

/// A body has at most so many events, whatever the answers.
pub fn events_are_bounded()
    ensures { (client : ℕ) (body : List Statement) (answers : List Answer) →
        length (trace client body answers).0 ≤ most_events body }
{}
