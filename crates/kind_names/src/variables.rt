// The variables that are visible at a place of a body.
ghost use Rattle.std.specs.Prelude.{◌≡◌, ◌≤◌, ◌<◌, ◌^◌, [], ◌∷◌, ◌++◌, length, take, IfSome, OnOk};
ghost use Rattle.std.specs.Prelude.{OnErr};
ghost use Rattle.std.specs.Str.{bytes_eq};
ghost use Rattle.kind_rules.specs.Names.{slot_of};
ghost use Rattle.kind_rules.specs.Expressions.{kind_at};
ghost use Rattle.kind_rules.specs.Statements.{variable, most_visible};

use cloud_base::{Memory, Name};
use std::alloc::Global;
use std::marker::Model;
use typed_program::Kind;

#[derive(Drop)]
struct Variable {
    name: Name,
    kind: Kind,
}

impl Model for Variable {
    ghost use Rattle.kind_rules.specs.Names.{Variable as Named};

    ghost Value = { Named };

    ghost view = { λ v. record { name = v.name; kind = v.kind } };
}

/// The visible variables, by their slots: at most 64.
#[derive(Drop)]
pub struct Variables {
    items: Vec<Variable>,
}

impl Model for Variables {
    ghost use Rattle.std.specs.Prelude.{◌≤◌, List, length};
    ghost use Rattle.kind_rules.specs.Names.{Variable as Named};
    ghost use Rattle.kind_rules.specs.Statements.{most_visible};

    ghost Value = { List Named };

    ghost view = { λ v. v.items.items };

    ghost invariant = { λ v. length v.items.items ≤ most_visible };
}

impl Variables {
    pub fn new(alloc: Global) -> Variables
        ensures { result ≡ [] }
    {
        Variables {
            items: Vec::new(alloc),
        }
    }

    pub fn len(&self) -> usize
        ensures len { result ≡ length self.now }
        ensures most { result ≤ most_visible }
    {
        self.items.len()
    }

    /// The slot of the variable with this name.
    pub fn slot(&self, name: &Name) -> Option<u8>
        ensures slot { result ≡ slot_of self.now name.now }
        ensures within { IfSome result (λ slot. slot < length self.now) }
    {
        let variables = self.items.as_slice();
        as_slot(
            variables
                .iter()
                .position(|variable| is_named(variable, name)),
        )
    }

    /// The kind of the variable of a slot.
    pub fn kind(&self, slot: u8) -> Kind
        requires { slot < length self.now }
        ensures { result ≡ kind_at self.now slot }
    {
        let variable = &self.items[slot as usize];
        variable.kind
    }

    /// One more variable, in the next slot.
    pub fn declare(&mut self, alloc: Global, name: &Name, kind: Kind) -> Result<(), Memory>
        requires { length self.old < most_visible }
        ensures ok { OnOk result (self.new ≡ self.old ++ variable name.now kind ∷ []) }
        ensures err { OnErr result (self.new ≡ self.old) }
    {
        let name = name.copy(alloc)?;
        self.items.push(Variable { name, kind })?;
        Ok(())
    }

    /// Only the first so many variables are visible from now on.
    pub fn leave(&mut self, count: usize)
        ensures { self.new ≡ take count self.old }
    {
        self.items.truncate(count);
    }
}

fn is_named(variable: &Variable, name: &Name) -> bool
    ensures { result ≡ bytes_eq variable.now.name name.now }
{
    variable.name == *name
}

fn as_slot(place: Option<usize>) -> Option<u8>
    requires { IfSome place (λ n. n < 2 ^ 8) }
    ensures { result ≡ place }
{
    match place {
        Some(place) => Some(place as u8),
        None => None,
    }
}
