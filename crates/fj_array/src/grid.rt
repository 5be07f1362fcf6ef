// A grid of cells, by property and keys.
ghost use Rattle.std.specs.Prelude.{◌≡◌, ◌≢◌, ◌↔◌, List, [], ◌∷◌, ◌++◌, Some, None, false, true};
ghost use Rattle.std.specs.Prelude.{IsTrue, OnOk, OnErr, IfOk};
ghost use Rattle.cloud_base.specs.Order.{keys_order};
ghost use Rattle.cloud_base.specs.Sorted.{Lists};
ghost use Rattle.cloud_base.specs.declared.key.Key.{Key};
ghost use Rattle.fj_array.specs.declared.cell.Cell.{Cell};
ghost use Rattle.fj_array.specs.declared.effect.CellEffect.{CellEffect};
ghost use Rattle.std.specs.Ordering.{is_lt};
ghost use Rattle.fj_array.specs.Cells.{At, cell_order, of_cell, is_id, has_id, without};
ghost use Rattle.fj_array.specs.Effects.{cell_of, effect_order};
ghost use Rattle.fj_array.specs.Grids.{kept_at, IsIdle, CellStands, GridStands, Puts};
ghost use Rattle.fj_array.specs.Grids.{AgreeElsewhere};
ghost use Rattle.fj_array.specs.Touched.{IsUntouched, IsHolder, HasNone};
ghost use Rattle.shared_map.specs.Entries.{Updates};
ghost use Rattle.std.specs.Prelude.{MatchOption};

use crate::cell::Cell;
use crate::effect::{CellEffect, EffectList};
use crate::laws::cell_orders;
use cloud_base::{Key, Keys, Memory, Sequence, TupleList, Uid};
use fj_core::{Effect, ForkJoin};
use shared_map::SharedMap;
use std::alloc::Global;
use std::marker::Model;

/// The cells of all properties of one cell type.
///
/// It stands for a log after a log, as each of its cells does for the changes of that cell. A cell
/// with its default to which nothing was done isn't kept. After a refusal for memory a grid is as
/// it was.
///
/// A fork shares what it doesn't change: it costs as many steps as cells were touched.
#[derive(Drop)]
pub struct Grid<C: ForkJoin> {
    cells: SharedMap<Cell, C>,
    // The cells to which something was done since the fork are among these.
    touched: SharedMap<Cell, ()>,
    alloc: Global,
}

impl<C: ForkJoin> Model for Grid<C> {
    ghost use Rattle.std.specs.Prelude.{List};
    ghost use Rattle.fj_array.specs.declared.cell.Cell.{Cell};

    ghost Value = { List (Cell × C) };

    ghost use Rattle.fj_array.specs.Touched.{IsTold};

    ghost view = { λ g. g.cells };

    ghost invariant = { λ g. IsTold C.effect_of C.stands g.cells g.touched };
}

// Whether a cell has its default and nothing was done to it.
fn is_idle<C: ForkJoin>(state: &C) -> bool
    ensures { (base delta : List C.Change) → C.stands state.now base delta
        → (IsTrue result ↔ IsIdle C.plain C.effect_of base delta) }
{
    state.is_default() && state.effect().is_none()
}

// Whether a cell has another value than its default.
fn is_set<C: ForkJoin>(state: &C) -> bool
    ensures { (base delta : List C.Change) → C.stands state.now base delta
        → (IsTrue result ↔ (C.plain (base ++ delta) ≢ C.plain [])) }
{
    !state.is_default()
}

impl<C: ForkJoin> Grid<C> {
    pub fn new(alloc: Global) -> Grid<C>
        ensures empty { result ≡ [] }
        ensures stands { GridStands C.plain C.effect_of C.stands result [] [] }
    {
        Grid {
            cells: SharedMap::new(alloc),
            touched: SharedMap::new(alloc),
            alloc,
        }
    }

    /// The value of a cell.
    pub fn ask(&self, property: u16, keys: &Keys) -> C::Value
        ensures { (base delta : List (At C.Change))
            → GridStands C.plain C.effect_of C.stands self.now base delta
            → result ≡ C.plain
            (of_cell (record { property = property; keys = keys.now }) (base ++ delta)) }
    {
        let cell = Cell {
            property,
            keys: keys.copied(),
        };
        match self.cells.get(&cell) {
            Some(state) => state.ask(),
            None => {
                let fresh: C = C::fresh();
                fresh.ask()
            }
        }
    }

    // The state of a cell, also where it isn't kept.
    fn state_of(&self, cell: &Cell) -> C
        ensures { (base delta : List C.Change)
            → CellStands C.plain C.effect_of C.stands (kept_at self.now cell.now) base delta
            → C.stands result base delta }
    {
        match self.cells.get(cell) {
            Some(state) => state.copied(),
            None => C::fresh(),
        }
    }

    // Keeps a state for a cell, unless it is idle.
    fn keep(&mut self, cell: Cell, state: C) -> Result<(), Memory>
        ensures ok { OnOk result (Puts C.plain C.effect_of C.stands cell state self.old self.new) }
        ensures err { OnErr result (self.new ≡ self.old) }
    {
        cell_orders();
        if is_idle(&state) {
            self.cells.remove(&cell);
            return Ok(());
        }
        match state.effect() {
            None => self.keep_untouched(cell, state),
            Some(_) => self.keep_touched(cell, state),
        }
    }

    fn keep_touched(&mut self, cell: Cell, state: C) -> Result<(), Memory>
        ensures ok { OnOk result (Updates cell_order self.old self.new cell (Some state)) }
        ensures err { OnErr result (self.new ≡ self.old) }
    {
        cell_orders();
        self.touched.insert(cell.copied(), ())?;
        self.cells.insert(cell, state)?;
        Ok(())
    }

    fn keep_untouched(&mut self, cell: Cell, state: C) -> Result<(), Memory>
        requires { IsUntouched C.effect_of C.stands state }
        ensures ok { OnOk result (Updates cell_order self.old self.new cell (Some state)) }
        ensures err { OnErr result (self.new ≡ self.old) }
    {
        cell_orders();
        self.cells.insert(cell.copied(), state)?;
        self.touched.remove(&cell);
        Ok(())
    }

    /// Does one change more.
    pub fn update(&mut self, property: u16, keys: &Keys, change: &C::Change) -> Result<(), Memory>
        ensures ok { OnOk result ((base delta : List (At C.Change))
            → GridStands C.plain C.effect_of C.stands self.old base delta
            → let cell : Cell = record { property = property; keys = keys.now } in
            GridStands C.plain C.effect_of C.stands self.new base
            (delta ++ record { cell = cell; change = change.now } ∷ [])) }
        ensures err { OnErr result (self.new ≡ self.old) }
    {
        cell_orders();
        let cell = Cell {
            property,
            keys: keys.copied(),
        };
        let mut state = self.state_of(&cell);
        state.update(change);
        self.keep(cell, state)
    }

    /// Makes a cell one of this value that is untouched, and leaves all others as they are.
    pub fn put(&mut self, property: u16, keys: &Keys, value: C::Value) -> Result<(), Memory>
        ensures ok { OnOk result ((base delta before after : List (At C.Change))
            → GridStands C.plain C.effect_of C.stands self.old base delta
            → let cell : Cell = record { property = property; keys = keys.now } in
            C.plain (of_cell cell before) ≡ value → of_cell cell after ≡ []
            → AgreeElsewhere cell base before → AgreeElsewhere cell delta after
            → GridStands C.plain C.effect_of C.stands self.new before after) }
        ensures err { OnErr result (self.new ≡ self.old) }
    {
        cell_orders();
        let cell = Cell {
            property,
            keys: keys.copied(),
        };
        let state: C = C::of_value(value);
        self.keep(cell, state)
    }

    /// Does to a cell whatever has this effect, and leaves all others as they are.
    pub fn join_effect(&mut self, property: u16, keys: &Keys, effect: &Effect) -> Result<(), Memory>
        requires { C.is_own effect.now }
        ensures ok { OnOk result ((base delta more : List (At C.Change))
            → GridStands C.plain C.effect_of C.stands self.old base delta
            → let cell : Cell = record { property = property; keys = keys.now } in
            C.effect_of (of_cell cell more) ≡ Some effect.now → AgreeElsewhere cell more []
            → GridStands C.plain C.effect_of C.stands self.new base (delta ++ more)) }
        ensures err { OnErr result (self.new ≡ self.old) }
    {
        cell_orders();
        let cell = Cell {
            property,
            keys: keys.copied(),
        };
        let mut state = self.state_of(&cell);
        state.join_effect(effect);
        self.keep(cell, state)
    }

    /// A grid with the same states.
    pub fn copied(&self) -> Result<Grid<C>, Memory>
        ensures same { IfOk result (λ copy. (q : Cell) → kept_at copy q ≡ kept_at self.now q) }
        ensures stands { IfOk result (λ copy. (base delta : List (At C.Change))
            → GridStands C.plain C.effect_of C.stands self.now base delta
            → GridStands C.plain C.effect_of C.stands copy base delta) }
    {
        let cells = self.cells.fork()?;
        let touched = self.touched.fork()?;
        Ok(Grid {
            cells,
            touched,
            alloc: self.alloc,
        })
    }

    /// A grid that begins where this one is.
    pub fn fork(&self) -> Result<Grid<C>, Memory>
        ensures { IfOk result (λ child. (base delta : List (At C.Change))
            → GridStands C.plain C.effect_of C.stands self.now base delta
            → GridStands C.plain C.effect_of C.stands child (base ++ delta) []) }
    {
        cell_orders();
        self.touched.in_order();
        let mut child = self.copied()?;
        for (cell, _) in self.touched.iter() {
            let Some(state) = self.cells.get(cell) else {
                continue;
            };
            child.keep(cell.copied(), state.fork())?;
        }
        Ok(child)
    }

    /// Does what the child did since it was forked, whatever it was forked from.
    pub fn join(&mut self, child: &Grid<C>) -> Result<(), Memory>
        ensures ok { OnOk result ((base delta before after : List (At C.Change))
            → GridStands C.plain C.effect_of C.stands self.old base delta
            → GridStands C.plain C.effect_of C.stands child.now before after
            → GridStands C.plain C.effect_of C.stands self.new base (delta ++ after)) }
        ensures err { OnErr result (self.new ≡ self.old) }
    {
        *self = self.joined(child)?;
        Ok(())
    }

    fn joined(&self, child: &Grid<C>) -> Result<Grid<C>, Memory>
        ensures { IfOk result (λ joined. (base delta before after : List (At C.Change))
            → GridStands C.plain C.effect_of C.stands self.now base delta
            → GridStands C.plain C.effect_of C.stands child.now before after
            → GridStands C.plain C.effect_of C.stands joined base (delta ++ after)) }
    {
        cell_orders();
        child.touched.in_order();
        let mut joined = self.copied()?;
        for (cell, _) in child.touched.iter() {
            let Some(theirs) = child.cells.get(cell) else {
                continue;
            };
            let mut state = joined.state_of(cell);
            state.join(theirs);
            joined.keep(cell.copied(), state)?;
        }
        Ok(joined)
    }

    // The first cell from one on that has the id among its keys.
    fn holder(&self, id: Uid, from: &Cell) -> Option<Cell>
        ensures { MatchOption result (HasNone id self.now from.now)
            (λ cell. IsHolder id self.now from.now cell) }
    {
        cell_orders();
        self.cells.in_order();
        for (cell, _) in self.cells.iter_from(from) {
            if has_id(&cell.keys, id) {
                return Some(cell.copied());
            }
        }
        None
    }

    /// Drops each cell that has the id among its keys.
    pub fn purge(&mut self, id: Uid)
        ensures { (base delta : List (At C.Change))
            → GridStands C.plain C.effect_of C.stands self.old base delta
            → GridStands C.plain C.effect_of C.stands self.new
            (without id base) (without id delta) }
    {
        cell_orders();
        let mut at = first_of(0);
        while let Some(cell) = self.holder(id, &at) {
            self.cells.remove(&cell);
            at = cell;
        }
    }

    /// The key lists of a property whose value isn't the default, in order.
    pub fn entries(&self, property: u16) -> Result<TupleList, Memory>
        ensures { IfOk result (λ list. (base delta : List (At C.Change))
            → GridStands C.plain C.effect_of C.stands self.now base delta
            → Lists keys_order list
            (λ keys. C.plain (of_cell (record { property = property; keys = keys }) (base ++ delta))
            ≢ C.plain [])) }
    {
        cell_orders();
        self.cells.in_order();
        let mut list = Sequence::new(self.alloc);
        for (cell, state) in self.cells.iter_from(&first_of(property)) {
            if cell.property > property {
                return Ok(list);
            }
            if cell.property == property && is_set(state) {
                list.push(cell.keys.copied())?;
            }
        }
        Ok(list)
    }

    /// What was done to each cell since the fork, where that is something, by property and then
    /// keys.
    pub fn effects(&self) -> Result<EffectList, Memory>
        ensures { IfOk result (λ list. (base delta : List (At C.Change))
            → GridStands C.plain C.effect_of C.stands self.now base delta
            → Lists effect_order list
            (λ it. C.effect_of (of_cell (cell_of it) delta) ≡ Some it.effect)) }
    {
        cell_orders();
        let mut list = Sequence::new(self.alloc);
        self.touched.in_order();
        for (cell, _) in self.touched.iter() {
            let Some(state) = self.cells.get(cell) else {
                continue;
            };
            if let Some(effect) = state.effect() {
                list.push(CellEffect {
                    property: cell.property,
                    keys: cell.keys.copied(),
                    effect,
                })?;
            }
        }
        Ok(list)
    }
}

// The first of all cells that a property may have.
fn first_of(property: u16) -> Cell
    ensures { result ≡ record { property = property; keys = [] } }
{
    Cell {
        property,
        keys: Keys::empty(),
    }
}

// Whether a key is this id.
fn is_id(key: &Key, id: Uid) -> bool
    ensures { result ≡ is_id id key.now }
{
    match key {
        Key::Ref(other) => *other == id,
        _ => false,
    }
}

// Whether an id is one of the keys.
fn has_id(keys: &Keys, id: Uid) -> bool
    ensures { result ≡ has_id id keys.now }
{
    keys.as_slice().iter().any(|key| is_id(key, id))
}
