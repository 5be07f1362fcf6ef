// A cell with a number.
ghost use Rattle.std.specs.Prelude.{◌≡◌, pos, ◌+ℤ◌};
ghost use Rattle.std.specs.Int.{w64, int_wrap};

use crate::effect::{Effect, NonZero};
use crate::fork_join::ForkJoin;

/// A change of a cell with a number.
#[derive(Clone, Copy, Debug, PartialEq, Eq)]
pub enum IntChange {
    Add(i64),
    Set(i64),
}

/// A number modulo 2^64, as a base and what was added since. The base is the number that was set
/// since the fork, where one was, else the number at the fork.
#[derive(Drop)]
pub struct IntCell {
    was_set: bool,
    base: i64,
    difference: i64,
}

fn sum(a: i64, b: i64) -> i64
    ensures { result ≡ int_wrap w64 (a +ℤ b) }
{
    a.wrapping_add(b)
}

impl ForkJoin for IntCell {
    ghost use Rattle.fj_core.specs.IntCells.{int_plain, int_effect, IntStands, IsIntEffect};
    ghost use Rattle.fj_core.specs.IntCells.{int_applied, int_combined};
    ghost use Rattle.fj_core.specs.IntLaws.{int_stands_by_effect, int_plain-append};
    ghost use Rattle.fj_core.specs.IntLaws.{int_effect-append, int_effect-empty, int_canonical};
    ghost use Rattle.fj_core.specs.IntLaws.{int_effect_is_own};

    type Change = IntChange;

    type Value = i64;

    ghost plain = { int_plain };

    ghost effect_of = { int_effect };

    ghost stands = { IntStands };

    ghost is_own = { IsIntEffect };

    ghost applied = { int_applied };

    ghost combined = { int_combined };

    fn fresh() -> IntCell {
        IntCell::of_value(0)
    }

    fn of_value(value: i64) -> IntCell {
        IntCell {
            was_set: false,
            base: value,
            difference: 0,
        }
    }

    fn update(&mut self, change: &IntChange) {
        match change {
            IntChange::Add(number) => {
                self.difference = sum(self.difference, *number);
            }
            IntChange::Set(number) => {
                self.was_set = true;
                self.base = *number;
                self.difference = 0;
            }
        }
    }

    fn ask(&self) -> i64 {
        sum(self.base, self.difference)
    }

    fn is_default(&self) -> bool {
        self.ask() == 0
    }

    fn fork(&self) -> IntCell {
        IntCell::of_value(self.ask())
    }

    fn join(&mut self, child: &IntCell) {
        if child.was_set {
            self.was_set = true;
            self.base = child.base;
            self.difference = child.difference;
        } else {
            self.difference = sum(self.difference, child.difference);
        }
    }

    fn effect(&self) -> Option<Effect> {
        if self.was_set {
            Some(Effect::SetInt(self.ask()))
        } else {
            NonZero::new(self.difference).map(Effect::Add)
        }
    }

    fn join_effect(&mut self, effect: &Effect) {
        match effect {
            Effect::Add(number) => self.update(&IntChange::Add(number.get())),
            Effect::SetInt(number) => self.update(&IntChange::Set(*number)),
            _ => unreachable!(),
        }
    }

    fn copied(&self) -> IntCell {
        IntCell {
            was_set: self.was_set,
            base: self.base,
            difference: self.difference,
        }
    }

    ghost stands_by_effect = { int_stands_by_effect };

    ghost plain_append = { int_plain-append };

    ghost effect_append = { int_effect-append };

    ghost effect_empty = { int_effect-empty };

    ghost canonical = { int_canonical };

    ghost effect_is_own = { int_effect_is_own };
}
