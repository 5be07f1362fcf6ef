// Stacks that contracts see as lists, the topmost first.
ghost use Rattle.std.specs.Prelude.{◌≡◌, ◌<◌, [], ◌∷◌, length, slice_index_or, OnOk};

use cloud_base::Memory;
use std::alloc::Global;
use std::marker::Model;

#[derive(Drop)]
pub struct Stack<T> {
    items: Vec<T>,
}

impl<T> Model for Stack<T> {
    ghost use Rattle.std.specs.Prelude.{List, reverse};
    ghost use Rattle.std.specs.Coded.{coded_list};

    ghost Value = { List T };

    ghost coded = { coded_list T.code };

    ghost view = { λ s. reverse s.items.items };
}

impl<T> Stack<T> {
    pub fn new(alloc: Global) -> Stack<T>
        ensures { result ≡ [] }
    {
        Stack {
            items: Vec::new(alloc),
        }
    }

    // The one that lies so deep, the topmost at 0.
    pub fn peek(&self, depth: usize) -> &T
        requires { depth < length self.now }
        ensures { result.now ≡ slice_index_or self.now depth result.now }
    {
        &self.items[self.items.len() - 1 - depth]
    }

    pub fn pop(&mut self) -> T
        requires { 0 < length self.old }
        ensures { self.old ≡ result ∷ self.new }
    {
        self.items.pop().unwrap()
    }
}

impl<T: Drop> Stack<T> {
    pub fn push(&mut self, item: T) -> Result<(), Memory>
        ensures { OnOk result (self.new ≡ item ∷ self.old) }
    {
        self.items.push(item)?;
        Ok(())
    }
}
