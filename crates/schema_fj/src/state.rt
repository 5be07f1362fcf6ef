// The data of a replica.
ghost use Rattle.std.specs.Prelude.{◌≡◌, List, [], ◌∷◌, ◌++◌, None, true, false, not, filter};
ghost use Rattle.std.specs.Prelude.{filter_map, map, IfOk, OnOk, OnErr, length, min, ◌^◌};
ghost use Rattle.cloud_base.specs.Values.{Id};
ghost use Rattle.cloud_base.specs.Sorted.{Lists};
ghost use Rattle.cloud_base.specs.Alike.{IsPart};
ghost use Rattle.cloud_base.specs.Answer.{answer, entries};
ghost use Rattle.cloud_base.specs.Dead.{is_alive, is_dead, has_dead};
ghost use Rattle.cloud_base.specs.Log.{creation};
ghost use Rattle.cloud_base.specs.Shaped.{Fit, IsShapedQuery, cell_type};
ghost use Rattle.cloud_base.specs.declared.schema.CellType.TheVariants as CellType;
ghost use Rattle.cloud_base.specs.declared.schema.Schema.{Schema};
ghost use Rattle.cloud_base.specs.declared.update.Answer.TheVariants as Answer;
ghost use Rattle.cloud_base.specs.declared.update.Query.TheVariants as Query;
ghost use Rattle.cloud_base.specs.declared.update.Update.{Update};
ghost use Rattle.cloud_base.specs.declared.update.Update.TheVariants as Updates;
ghost use Rattle.fj_core.specs.IntCells.{int_plain, int_effect, IntStands};
ghost use Rattle.fj_core.specs.TextCells.{text_plain, text_effect, TextStands};
ghost use Rattle.fj_entity.specs.Fates.{fate_at, found, is_gone};
ghost use Rattle.change_lists.specs.Effects.{IsEffect};
ghost use Rattle.change_lists.specs.Images.{IsHeld, IsImage, answer_of};
ghost use Rattle.change_lists.specs.Lists.{value_order};
ghost use Rattle.schema_fj.specs.Joined.{JoinsCells};
ghost use Rattle.schema_fj.specs.Placed.{PutsCells};
ghost use Rattle.schema_fj.specs.Purged.{Purges};
ghost use Rattle.schema_fj.specs.Sets.{type_at};
ghost use Rattle.schema_fj.specs.States.{StateHolds, StateStands};
ghost use Rattle.schema_fj.specs.Told.{AreNew, creates, deletes};
ghost use Rattle.schema_fj.specs.Valued.{value_in};

use crate::cells::{
    change_cell, change_of, image_of, is_number, is_text, join_one, merged, number_change,
    number_in, purge_all, put_one, text_change, text_in,
};
use crate::fates::roster_of;
use crate::ids::{add, copy_set, keep_living, take_back, with_all};
use change_lists::{CellValue, Change, Content, Image, ValueList, one_effect, one_image};
use cloud_base::{
    Answer, CellChange, CellType, Keys, Memory, Query, Schema, Sequence, Text, TupleList, Uid,
    Update,
};
use fj_array::{CellEffect, Grid, cell_orders};
use fj_core::{IntCell, TextCell};
use fj_entity::{Created, Roster};
use std::alloc::{AllocError, Global};
use std::collections::BTreeSet;
use std::marker::Model;

/// The most properties that the numbers in updates tell apart.
const MOST_PROPERTIES: usize = 1 << 16;

/// The data of a replica: the cells of all properties, the ids that live and the dead ones.
///
/// It stands for a log after a log: what was done before it was forked, and what was done since.
/// Of cells with a dead key none is kept. After a refusal for memory a state is as it was.
#[derive(Drop)]
pub struct State {
    types: Sequence<CellType>,
    numbers: Grid<IntCell>,
    texts: Grid<TextCell>,
    roster: Roster,
    born: BTreeSet<Uid>,
    died: BTreeSet<Uid>,
    alloc: Global,
}

impl Model for State {
    ghost use Rattle.schema_fj.specs.Held.{Held};

    ghost Value = { Held };

    ghost view = { λ s. record {
      types = s.types;
      numbers = s.numbers;
      texts = s.texts;
      fates = s.roster;
      born = s.born.keys;
      died = s.died.keys;
    } };
}

fn types_of(alloc: Global, schema: &Schema) -> Result<Vec<CellType>, Memory>
    ensures { IfOk result (λ types. types.items ≡ map (λ p. p.cell) schema.now.properties) }
{
    let types = schema
        .properties
        .as_slice()
        .iter()
        .map(|property| property.cell)
        .collect(alloc)?;
    Ok(types)
}

impl State {
    /// The state of no updates.
    pub fn fresh(alloc: Global, schema: &Schema) -> Result<State, Memory>
        ensures { IfOk result (λ state. StateStands schema.now state [] []) }
    {
        Ok(State {
            types: Sequence::from_vec(types_of(alloc, schema)?),
            numbers: Grid::new(alloc),
            texts: Grid::new(alloc),
            roster: Roster::new(alloc),
            born: BTreeSet::new(alloc),
            died: BTreeSet::new(alloc),
            alloc,
        })
    }

    fn type_of(&self, property: u16) -> CellType
        ensures { result ≡ type_at self.now.types property }
    {
        let types = self.types.as_slice();
        types
            .get(property as usize)
            .copied()
            .unwrap_or(CellType::Int)
    }

    /// Whether an id was created and isn't dead.
    pub fn alive(&self, id: Uid) -> bool
        ensures { (schema : Schema) (base delta : List Update) →
            StateStands schema self.now base delta → result ≡ is_alive (base ++ delta) id }
    {
        self.roster.alive(id)
    }

    /// The value of a cell of integers.
    pub fn get_int(&self, property: u16, keys: &Keys) -> i64
        ensures { (schema : Schema) (base delta : List Update) →
            StateStands schema self.now base delta → cell_type schema property ≡ CellType.Int →
            answer schema (base ++ delta) (Query.Get property keys.now) ≡ Answer.Int result }
    {
        cell_orders();
        self.numbers.ask(property, keys)
    }

    /// The value of a cell of texts.
    pub fn get_text(&self, property: u16, keys: &Keys) -> Text
        ensures { (schema : Schema) (base delta : List Update) →
            StateStands schema self.now base delta → cell_type schema property ≡ CellType.Text →
            answer schema (base ++ delta) (Query.Get property keys.now) ≡ Answer.Text result }
    {
        cell_orders();
        self.texts.ask(property, keys)
    }

    fn change(&mut self, property: u16, keys: &Keys, change: &CellChange) -> Result<(), Memory>
        ensures ok { OnOk result ((schema : Schema) (base delta : List Update) →
            StateHolds schema self.old base delta → StateHolds schema self.new base
            (delta ++ Updates.Cell property keys.now change.now ∷ [])) }
        ensures err { OnErr result (self.new ≡ self.old) }
    {
        cell_orders();
        if self.roster.has_dead(keys) {
            return Ok(());
        }
        match self.type_of(property) {
            CellType::Int => {
                let change = number_change(change);
                change_cell(&mut self.numbers, property, keys, &change)
            }
            CellType::Text => {
                let change = text_change(change);
                change_cell(&mut self.texts, property, keys, &change)
            }
        }
    }

    // Takes out what the newly dead ids take with them. It takes no memory.
    fn bury(&mut self, died: BTreeSet<Uid>, doomed: &[Uid])
        ensures types { self.new.types ≡ self.old.types }
        ensures fates { self.new.fates ≡ self.old.fates }
        ensures born { self.new.born
            ≡ filter (λ id. not (is_gone (fate_at self.old.fates id))) self.old.born }
        ensures died { self.new.died ≡ died.keys }
        ensures numbers { Purges int_plain int_effect IntStands doomed.now
            self.old.numbers self.new.numbers }
        ensures texts { Purges text_plain text_effect TextStands doomed.now
            self.old.texts self.new.texts }
    {
        keep_living(&mut self.born, &self.roster);
        purge_all(&mut self.numbers, doomed);
        purge_all(&mut self.texts, doomed);
        self.died = died;
    }

    fn delete(&mut self, id: Uid) -> Result<(), Memory>
        ensures ok { OnOk result ((schema : Schema) (base delta : List Update) →
            StateHolds schema self.old base delta →
            StateHolds schema self.new base (delta ++ Updates.Delete id ∷ [])) }
        ensures err { OnErr result (self.new ≡ self.old) }
    {
        cell_orders();
        let doomed = self.roster.doomed(id)?;
        let died = with_all(&self.died, doomed.as_slice())?;
        self.roster.delete(id)?;
        self.bury(died, doomed.as_slice());
        Ok(())
    }

    // A creation with a dead key.
    fn create_dead(&mut self, id: Uid, entity: u16, keys: &Keys) -> Result<(), Memory>
        ensures ok { OnOk result ((schema : Schema) (base delta : List Update) →
            StateHolds schema self.old base delta → creation id (base ++ delta) ≡ None →
            has_dead (base ++ delta) keys.now ≡ true →
            StateHolds schema self.new base (delta ++ Updates.Create id entity keys.now ∷ [])) }
        ensures err { OnErr result (self.new ≡ self.old) }
    {
        cell_orders();
        let killed = self.roster.doomed(id)?;
        let died = with_all(&self.died, killed.as_slice())?;
        self.roster.create(id, entity, keys)?;
        self.bury(died, killed.as_slice());
        Ok(())
    }

    // A creation that kills nothing.
    fn create_living(&mut self, id: Uid, entity: u16, keys: &Keys) -> Result<(), Memory>
        ensures ok { OnOk result ((schema : Schema) (base delta : List Update) →
            StateHolds schema self.old base delta → creation id (base ++ delta) ≡ None →
            has_dead (base ++ delta) keys.now ≡ false → is_dead (base ++ delta) id ≡ false →
            StateHolds schema self.new base (delta ++ Updates.Create id entity keys.now ∷ [])) }
        ensures err { OnErr result (self.new ≡ self.old) }
    {
        cell_orders();
        let added = add(&mut self.born, id)?;
        match self.roster.create(id, entity, keys) {
            Ok(_died) => Ok(()),
            Err(memory) => {
                take_back(&mut self.born, id, added);
                Err(memory)
            }
        }
    }

    fn create(&mut self, id: Uid, entity: u16, keys: &Keys) -> Result<(), Memory>
        ensures ok { OnOk result ((schema : Schema) (base delta : List Update) →
            StateHolds schema self.old base delta → creation id (base ++ delta) ≡ None →
            StateHolds schema self.new base (delta ++ Updates.Create id entity keys.now ∷ [])) }
        ensures err { OnErr result (self.new ≡ self.old) }
    {
        cell_orders();
        if self.roster.has_dead(keys) {
            self.create_dead(id, entity, keys)
        } else if self.roster.dead(id) {
            Ok(())
        } else {
            self.create_living(id, entity, keys)
        }
    }

    /// One update more. Cells with a key that became dead are dropped.
    pub fn update(&mut self, update: &Update) -> Result<(), Memory>
        ensures ok { OnOk result ((schema : Schema) (base delta : List Update) →
            StateStands schema self.old base delta →
            Fit schema (base ++ (delta ++ update.now ∷ [])) →
            StateStands schema self.new base (delta ++ update.now ∷ [])) }
        ensures err { OnErr result (self.new ≡ self.old) }
    {
        match update {
            Update::Cell(property, keys, change) => self.change(*property, keys, change),
            Update::Create(id, entity, keys) => self.create(*id, *entity, keys),
            Update::Delete(id) => self.delete(*id),
        }
    }

    fn get(&self, property: u16, keys: &Keys) -> Answer
        ensures { (schema : Schema) (base delta : List Update) →
            StateStands schema self.now base delta →
            result ≡ answer schema (base ++ delta) (Query.Get property keys.now) }
    {
        match self.type_of(property) {
            CellType::Int => Answer::Int(self.get_int(property, keys)),
            CellType::Text => Answer::Text(self.get_text(property, keys)),
        }
    }

    fn entries(&self, property: u16) -> Result<TupleList, Memory>
        ensures { IfOk result (λ list. (schema : Schema) (base delta : List Update) →
            StateStands schema self.now base delta →
            list ≡ entries schema (base ++ delta) property) }
    {
        cell_orders();
        match self.type_of(property) {
            CellType::Int => self.numbers.entries(property),
            CellType::Text => self.texts.entries(property),
        }
    }

    /// The answer of the log that it stands for. `Entries` may be asked of any property.
    pub fn ask(&self, query: &Query) -> Result<Answer, Memory>
        ensures { IfOk result (λ given. (schema : Schema) (base delta : List Update) →
            StateStands schema self.now base delta → IsShapedQuery schema query.now →
            given ≡ answer schema (base ++ delta) query.now) }
    {
        Ok(match query {
            Query::Get(property, keys) => self.get(*property, keys),
            Query::All(entity) => Answer::Ids(self.roster.all(*entity)?),
            Query::Entries(property) => Answer::Tuples(self.entries(*property)?),
            Query::Alive(id) => Answer::Truth(self.alive(*id)),
        })
    }

    /// A state that begins where this one is.
    pub fn fork(&self) -> Result<State, Memory>
        ensures { IfOk result (λ child. (schema : Schema) (base delta : List Update) →
            StateStands schema self.now base delta →
            StateStands schema child (base ++ delta) []) }
    {
        Ok(State {
            types: self.types.copy(self.alloc)?,
            numbers: self.numbers.fork()?,
            texts: self.texts.fork()?,
            roster: self.roster.fork()?,
            born: BTreeSet::new(self.alloc),
            died: BTreeSet::new(self.alloc),
            alloc: self.alloc,
        })
    }

    fn copied(&self) -> Result<State, Memory>
        ensures { IfOk result (λ copy. (schema : Schema) (base delta : List Update) →
            StateHolds schema self.now base delta → StateHolds schema copy base delta) }
    {
        let born = copy_set(&self.born)?;
        let died = copy_set(&self.died)?;
        Ok(State {
            types: self.types.copy(self.alloc)?,
            roster: self.roster.fork()?,
            numbers: self.numbers.copied()?,
            texts: self.texts.copied()?,
            born,
            died,
            alloc: self.alloc,
        })
    }

    // What was created since the fork and lives, by id.
    fn told_created(&self) -> Result<Vec<Created>, AllocError>
        ensures { IfOk result (λ list.
            list.items ≡ filter_map (found self.now.fates) self.now.born) }
    {
        self.born
            .iter()
            .filter_map(|id| self.roster.find(*id))
            .collect(self.alloc)
    }

    // What died since the fork, by id.
    fn told_dead(&self) -> Result<Vec<Uid>, AllocError>
        ensures { IfOk result (λ list. list.items ≡ self.now.died) }
    {
        self.died.iter().copied().collect(self.alloc)
    }

    fn create_all(&mut self, list: &[Created]) -> Result<(), Memory>
        ensures { OnOk result ((schema : Schema) (base delta : List Update) →
            StateHolds schema self.old base delta → AreNew list.now (base ++ delta) →
            StateHolds schema self.new base (delta ++ creates list.now)) }
    {
        for created in list {
            self.create(created.id, created.entity, &created.keys)?;
        }
        Ok(())
    }

    fn delete_all(&mut self, ids: &[Uid]) -> Result<(), Memory>
        ensures { OnOk result ((schema : Schema) (base delta : List Update) →
            StateHolds schema self.old base delta →
            StateHolds schema self.new base (delta ++ deletes ids.now)) }
    {
        for id in ids {
            self.delete(*id)?;
        }
        Ok(())
    }

    // Does an effect to its cell, unless a key of that is dead.
    fn join_cell(&mut self, it: &CellEffect) -> Result<(), Memory>
        ensures { OnOk result (JoinsCells (it.now ∷ []) self.old self.new) }
    {
        if self.roster.has_dead(&it.keys) {
            return Ok(());
        }
        match self.type_of(it.property) {
            CellType::Int => join_one(&mut self.numbers, it, is_number(it)),
            CellType::Text => join_one(&mut self.texts, it, is_text(it)),
        }
    }

    fn join_cells(&mut self, items: &[CellEffect]) -> Result<(), Memory>
        ensures { OnOk result (JoinsCells items.now self.old self.new) }
    {
        for it in items {
            self.join_cell(it)?;
        }
        Ok(())
    }

    /// What was done since the fork.
    pub fn effect(&self) -> Result<Change, Memory>
        ensures { IfOk result (λ change. (schema : Schema) (base delta : List Update) →
            StateStands schema self.now base delta → IsEffect schema base delta change) }
    {
        one_effect();
        cell_orders();
        let created = Sequence::from_vec(self.told_created()?);
        let dead = Sequence::from_vec(self.told_dead()?);
        let cells = merged(self.numbers.effects()?, self.texts.effects()?)?;
        Ok(change_of(self.alloc, created, dead, cells))
    }

    // The state in which was done besides what a change tells.
    fn joined(&self, change: &Change) -> Result<State, Memory>
        ensures { IfOk result (λ joined. (schema : Schema) (base delta before after : List Update) →
            StateStands schema self.now base delta → IsEffect schema before after change.now →
            IsPart before (base ++ delta) → Fit schema (base ++ (delta ++ after)) →
            StateStands schema joined base (delta ++ after)) }
    {
        cell_orders();
        let mut joined = self.copied()?;
        joined.create_all(change.created())?;
        joined.delete_all(change.dead())?;
        joined.join_cells(change.cells())?;
        Ok(joined)
    }

    /// Does what a change tells. What the teller began with is to be in the log that this state
    /// stands for, and that log followed by what the teller did is to be fit.
    pub fn join_change(&mut self, change: &Change) -> Result<(), Memory>
        ensures ok { OnOk result ((schema : Schema) (base delta before after : List Update) →
            StateStands schema self.old base delta → IsEffect schema before after change.now →
            IsPart before (base ++ delta) → Fit schema (base ++ (delta ++ after)) →
            StateStands schema self.new base (delta ++ after)) }
        ensures err { OnErr result (self.new ≡ self.old) }
    {
        *self = self.joined(change)?;
        Ok(())
    }

    /// Does what the child did since it was forked. What the child began with is to be in the log
    /// that this state stands for, and that log followed by what the child did is to be fit.
    pub fn join(&mut self, child: &State) -> Result<(), Memory>
        ensures ok { OnOk result ((schema : Schema) (base delta before after : List Update) →
            StateStands schema self.old base delta → StateStands schema child.now before after →
            IsPart before (base ++ delta) → Fit schema (base ++ (delta ++ after)) →
            StateStands schema self.new base (delta ++ after)) }
        ensures err { OnErr result (self.new ≡ self.old) }
    {
        let change = child.effect()?;
        self.join_change(&change)
    }

    // The number of its properties, as far as updates can name them.
    fn property_count(&self) -> usize
        ensures { result ≡ min (length self.now.types) (2 ^ 16) }
    {
        self.types.len().min(MOST_PROPERTIES)
    }

    fn content_at(&self, property: u16, keys: &Keys) -> Content
        ensures { (schema : Schema) (base delta : List Update) →
            StateStands schema self.now base delta →
            answer_of result ≡ answer schema (base ++ delta) (Query.Get property keys.now) }
    {
        match self.type_of(property) {
            CellType::Int => Content::Int(self.get_int(property, keys)),
            CellType::Text => Content::Text(self.get_text(property, keys)),
        }
    }

    // Lists what some cells of a property hold.
    fn list_values(
        &self,
        property: u16,
        entries: &[Keys],
        list: &mut ValueList,
    ) -> Result<(), Memory>
        ensures { OnOk result ((schema : Schema) (base delta : List Update) →
            StateStands schema self.now base delta → list.new ≡
            list.old ++ map (value_in schema (base ++ delta) property) entries.now) }
    {
        for keys in entries {
            let value = self.content_at(property, keys);
            list.push(CellValue {
                property,
                keys: keys.copied(),
                value,
            })?;
        }
        Ok(())
    }

    // What the cells hold that isn't their default, by property and then keys.
    fn values(&self) -> Result<ValueList, Memory>
        ensures { IfOk result (λ list. (schema : Schema) (base delta : List Update) →
            StateStands schema self.now base delta →
            Lists value_order list (IsHeld schema (base ++ delta))) }
    {
        cell_orders();
        let mut list = Sequence::new(self.alloc);
        for number in 0..self.property_count() {
            let property = number as u16;
            let entries = self.entries(property)?;
            self.list_values(property, entries.as_slice(), &mut list)?;
        }
        Ok(list)
    }

    /// What the log comes to that it stands for.
    pub fn image(&self) -> Result<Image, Memory>
        ensures { IfOk result (λ image. (schema : Schema) (base delta : List Update) →
            StateStands schema self.now base delta → IsImage schema (base ++ delta) image) }
    {
        one_image();
        let created = self.roster.created()?;
        let dead = self.roster.gone()?;
        let cells = self.values()?;
        Ok(image_of(self.alloc, created, dead, cells))
    }

    fn put_value(&mut self, it: &CellValue) -> Result<(), Memory>
        ensures { OnOk result (PutsCells (it.now ∷ []) self.old self.new) }
    {
        match self.type_of(it.property) {
            CellType::Int => put_one(&mut self.numbers, it, number_in(&it.value)),
            CellType::Text => put_one(&mut self.texts, it, text_in(&it.value)),
        }
    }

    fn put_values(&mut self, items: &[CellValue]) -> Result<(), Memory>
        ensures { OnOk result (PutsCells items.now self.old self.new) }
    {
        for it in items {
            self.put_value(it)?;
        }
        Ok(())
    }

    /// The state of a log that comes to this image, untouched since. Nothing is known of it where
    /// the image is one of no log over the schema.
    pub fn of_image(alloc: Global, schema: &Schema, image: &Image) -> Result<State, Memory>
        ensures { IfOk result (λ state. (log : List Update) → Fit schema.now log →
            IsImage schema.now log image.now → StateStands schema.now state log []) }
    {
        cell_orders();
        let mut state = State::fresh(alloc, schema)?;
        state.roster = roster_of(alloc, image.created(), image.dead())?;
        state.put_values(image.cells())?;
        Ok(state)
    }
}
