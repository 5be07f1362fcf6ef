// A state that stands for a list of changes after a list of changes.
ghost use Rattle.std.specs.Prelude.{◌≡◌, List, [], ◌∷◌, ◌++◌, Option, Some, None, IsTrue, ◌↔◌};
ghost use Rattle.fj_core.specs.declared.effect.Effect.{Effect};

use crate::effect::Effect;

/// A cell that can be forked and joined.
///
/// A state stands for `delta` after `base`: two lists of changes, what was done before the state
/// was forked and what was done since. One state stands for many such pairs, and each call keeps
/// what it promises for all of them. No call takes memory.
pub trait ForkJoin: Drop {
    type Change;

    type Value;

    /// The plain value of a list of changes.
    ghost plain: { List Self.Change → Self.Value };

    /// What a list of changes does, in one step. `None` is nothing.
    ghost effect_of: { List Self.Change → Option Effect };

    /// The state stands for the second list after the first.
    ghost stands: { Self → List Self.Change → List Self.Change → Type 0 };

    /// The effect is one of this cell's type.
    ghost is_own: { Effect → Type 0 };

    /// What an effect makes of a value.
    ghost applied: { Option Effect → Self.Value → Self.Value };

    /// How effects join: one effect and then another, as one.
    ghost combined: { Option Effect → Option Effect → Option Effect };

    /// The state of a cell that nobody has touched.
    fn fresh() -> Self
        ensures { stands result [] [] };

    /// The state of a cell with this value, untouched since.
    fn of_value(value: Self::Value) -> Self
        ensures { (base : List Self.Change) → plain base ≡ value → stands result base [] };

    /// Does one change more.
    fn update(&mut self, change: &Self::Change)
        ensures { (base delta : List Self.Change) → stands self.old base delta
            → stands self.new base (delta ++ change.now ∷ []) };

    /// The value.
    fn ask(&self) -> Self::Value
        ensures { (base delta : List Self.Change) → stands self.now base delta
            → result ≡ plain (base ++ delta) };

    /// Whether the value is that of a cell that nobody has touched.
    fn is_default(&self) -> bool
        ensures { (base delta : List Self.Change) → stands self.now base delta
            → (IsTrue result ↔ (plain (base ++ delta) ≡ plain [])) };

    /// A state that begins where this one is.
    fn fork(&self) -> Self
        ensures { (base delta : List Self.Change) → stands self.now base delta
            → stands result (base ++ delta) [] };

    /// Does what the child did since it was forked, whatever it was forked from.
    fn join(&mut self, child: &Self)
        ensures { (base delta before after : List Self.Change) → stands self.old base delta
            → stands child.now before after → stands self.new base (delta ++ after) };

    /// What was done since the fork, in one step. `None` exactly where that is nothing.
    fn effect(&self) -> Option<Effect>
        ensures { (base delta : List Self.Change) → stands self.now base delta
            → result ≡ effect_of delta };

    /// Does whatever has this effect.
    fn join_effect(&mut self, effect: &Effect)
        requires { is_own effect.now }
        ensures { (base delta more : List Self.Change) → stands self.old base delta
            → effect_of more ≡ Some effect.now → stands self.new base (delta ++ more) };

    /// The same state. What keeps many cells builds a change of them all aside from copies, so that
    /// a refusal for memory leaves them as they were.
    fn copied(&self) -> Self
        ensures { result ≡ self.now };

    /// A state stands for all lists with the same value before and the same effect since.
    ghost stands_by_effect: { (state : Self) (base delta base' delta' : List Self.Change)
        → plain base ≡ plain base' → effect_of delta ≡ effect_of delta'
        → stands state base delta → stands state base' delta' };

    /// The value of a list after a list.
    ghost plain_append: { (base delta : List Self.Change)
        → plain (base ++ delta) ≡ applied (effect_of delta) (plain base) };

    /// The effect of a list after a list.
    ghost effect_append: { (delta more : List Self.Change)
        → effect_of (delta ++ more) ≡ combined (effect_of delta) (effect_of more) };

    /// No change has no effect.
    ghost effect_empty: { effect_of [] ≡ None };

    /// Lists that do the same after every list have the same effect.
    ghost canonical: { (delta delta' : List Self.Change)
        → ((base : List Self.Change) → plain (base ++ delta) ≡ plain (base ++ delta'))
        → effect_of delta ≡ effect_of delta' };

    /// The effect of changes of a cell is of its type.
    ghost effect_is_own: { (delta : List Self.Change) (effect : Effect)
        → effect_of delta ≡ Some effect → is_own effect };
}
