// What cells hold.
ghost use Rattle.std.specs.Prelude.{◌≡◌};

use cloud_base::{Keys, Sequence, Text};

/// What a cell holds.
#[derive(Drop, PartialEq, Eq)]
pub enum Content {
    Int(i64),
    Text(Text),
}

impl Content {
    /// The same content. It takes no memory.
    pub fn copied(&self) -> Content
        ensures { result ≡ self.now }
    {
        match self {
            Content::Int(number) => Content::Int(*number),
            Content::Text(text) => Content::Text(text.copied()),
        }
    }
}

/// A cell, by its property and keys, with what it holds.
#[derive(Drop, PartialEq, Eq)]
pub struct CellValue {
    pub property: u16,
    pub keys: Keys,
    pub value: Content,
}

pub type ValueList = Sequence<CellValue>;
