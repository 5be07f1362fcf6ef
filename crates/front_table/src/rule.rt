// The rule of a chronicle's table, and what its steps do to the views.
ghost use Rattle.std.specs.Prelude.{◌≡◌, List, []};
ghost use Rattle.front_table.specs.Chronicle.{IsKept, Tells, newcomer, appended, front_of, both_of};
ghost use Rattle.front_table.specs.Chronicle.{spent};

use crate::view::View;
use atomic_table::{Join, Play, Split, TableRule};
use std::marker::{Brand, PhantomData};

pub struct Chronicle;

impl<E> TableRule<(), View<E>, ()> for Chronicle {
    ghost holds = { λ _ s. IsKept s.words s.views };

    ghost first = { λ _. newcomer };
}

/// What one step appends: a list of one entry, which the caller of the step names.
pub trait Named<E> {
    ghost entries: { List E };
}

impl<E> Named<E> for Brand {
    ghost entries = { [] };
}

/// The writer's list gets the entry that N names.
pub struct Appends<N> {
    of: PhantomData<N>,
}

impl<E, N: Named<E>> Play<(), View<E>> for Appends<N> {
    ghost then = { λ _ me _ after. after ≡ (appended me.0 N.entries, me.1) };
}

/// No view changes, and the caller is told what the rule says of its own.
pub struct Looks;

impl<E> Play<(), View<E>> for Looks {
    ghost then = { λ _ me found after. (after ≡ me) × Tells found me.0 };
}

/// A seat stays as it is, and a front of its whole list is made.
pub struct Copies;

impl<E> Split<View<E>> for Copies {
    ghost left = { λ v. v };

    ghost right = { front_of };
}

/// One seat takes another in.
pub struct Meets;

impl<E> Join<View<E>> for Meets {
    ghost both = { both_of };

    ghost spent = { spent };
}
