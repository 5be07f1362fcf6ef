// What a list of changes does to a cell, in one step.
ghost use Rattle.std.specs.Prelude.{◌≡◌, ◌≢◌, ℤ, pos, [], ◌↔◌, IsSome, IfSome, IsNone};

use cloud_base::Text;
use std::marker::Model;

/// A number other than 0.
#[derive(Clone, Copy, Debug, PartialEq, Eq)]
pub struct NonZero {
    number: i64,
}

impl Model for NonZero {
    ghost use Rattle.std.specs.Prelude.{◌≡◌, ◌≢◌, ℤ, pos};

    ghost Value = { ℤ };

    ghost view = { λ n. n.number };

    ghost invariant = { λ n. n.number ≢ pos 0 };

    ghost inverse = { λ number. record { number = number } };
}

impl NonZero {
    /// The number itself, where it isn't 0.
    pub fn new(number: i64) -> Option<NonZero>
        ensures none { IsNone result ↔ (number ≡ pos 0) }
        ensures some { IfSome result (λ it. it ≡ number) }
    {
        if number == 0 {
            None
        } else {
            Some(NonZero { number })
        }
    }

    pub fn get(self) -> i64
        ensures number { result ≡ self }
        ensures other { result ≢ pos 0 }
    {
        self.number
    }
}

/// A text with at least one byte.
#[derive(Drop, PartialEq, Eq)]
pub struct NonEmpty {
    text: Text,
}

impl Model for NonEmpty {
    ghost use Rattle.std.specs.Prelude.{◌≡◌, ◌≢◌, ℕ, List, []};
    ghost use Rattle.std.specs.Coded.{coded_list, coded_ℕ};

    ghost Value = { List ℕ };

    ghost coded = { coded_list coded_ℕ };

    ghost view = { λ t. t.text };

    ghost invariant = { λ t. t.text ≢ [] };

    ghost inverse = { λ text. record { text = text } };
}

impl NonEmpty {
    /// The text itself, where it isn't empty.
    pub fn new(text: Text) -> Option<NonEmpty>
        ensures none { IsNone result ↔ (text ≡ []) }
        ensures some { IfSome result (λ it. it ≡ text) }
    {
        if text.as_slice().is_empty() {
            None
        } else {
            Some(NonEmpty { text })
        }
    }

    pub fn as_text(&self) -> &Text
        ensures text { result.now ≡ self.now }
        ensures filled { result.now ≢ [] }
    {
        &self.text
    }

    pub fn into_text(self) -> Text
        ensures text { result ≡ self }
        ensures filled { result ≢ [] }
    {
        let NonEmpty { text } = self;
        text
    }

    /// The same text. It takes no memory.
    pub fn copied(&self) -> NonEmpty
        ensures { result ≡ self.now }
    {
        NonEmpty {
            text: self.text.copied(),
        }
    }
}

/// What a list of changes does to one cell: it adds to the number, sets the number or the text, or
/// sets the text where it is empty. It is the cell's part of a packet.
#[derive(Drop, PartialEq, Eq)]
pub enum Effect {
    Add(NonZero),
    SetInt(i64),
    SetText(Text),
    IfEmpty(NonEmpty),
}

impl Effect {
    /// The same effect. It takes no memory.
    pub fn copied(&self) -> Effect
        ensures { result ≡ self.now }
    {
        match self {
            Effect::Add(number) => Effect::Add(*number),
            Effect::SetInt(number) => Effect::SetInt(*number),
            Effect::SetText(text) => Effect::SetText(text.copied()),
            Effect::IfEmpty(text) => Effect::IfEmpty(text.copied()),
        }
    }
}
