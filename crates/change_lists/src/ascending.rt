// Whether a list ascends without repeats.
ghost use Rattle.std.specs.Prelude.{◌≡◌, ◌↔◌, IsTrue};
ghost use Rattle.std.specs.Cmp.{IsTotalOrder};
ghost use Rattle.std.specs.List.Sorted.{IsStrictlySortedBy};
ghost use Rattle.std.specs.Ordering.{is_lt};
ghost use Rattle.std.specs.declared.cmp.Ordering.{Ordering};
ghost use Rattle.cloud_base.specs.Order.{id_order};
ghost use Rattle.fj_array.specs.Cells.{cell_order};
ghost use Rattle.fj_array.specs.Effects.{effect_order};
ghost use Rattle.fj_entity.specs.Rosters.{created_order};
ghost use Rattle.change_lists.specs.Lists.{value_order};

use crate::value::CellValue;
use cloud_base::{Keys, Uid, derived_orders};
use fj_array::CellEffect;
use fj_entity::Created;
use std::cmp::Ordering;

/// What stands in a list, in an order of its own.
pub(crate) trait Listed {
    ghost order: { Self → Self → Ordering };

    fn is_below(&self, other: &Self) -> bool
        ensures { result ≡ is_lt (order self.now other.now) };
}

impl Listed for Uid {
    ghost order = { id_order };

    fn is_below(&self, other: &Uid) -> bool {
        derived_orders();
        self < other
    }
}

impl Listed for Created {
    ghost order = { created_order };

    fn is_below(&self, other: &Created) -> bool {
        self.id.is_below(&other.id)
    }
}

// Whether a cell comes before another.
fn is_cell_below(property: u16, keys: &Keys, other: u16, others: &Keys) -> bool
    ensures { result ≡ is_lt (cell_order (record { property = property; keys = keys.now })
        (record { property = other; keys = others.now })) }
{
    property.cmp(&other).then(keys.cmp(others)).is_lt()
}

impl Listed for CellEffect {
    ghost order = { effect_order };

    fn is_below(&self, other: &CellEffect) -> bool {
        is_cell_below(self.property, &self.keys, other.property, &other.keys)
    }
}

impl Listed for CellValue {
    ghost order = { value_order };

    fn is_below(&self, other: &CellValue) -> bool {
        is_cell_below(self.property, &self.keys, other.property, &other.keys)
    }
}

/// Whether each item is below the next.
pub(crate) fn is_ascending<T: Listed>(items: &[T]) -> bool
    ensures { IsTotalOrder T.order → (IsTrue result ↔ IsStrictlySortedBy T.order items.now) }
{
    for i in 1..items.len() {
        if !items[i - 1].is_below(&items[i]) {
            return false;
        }
    }
    true
}
