// Texts of at most 128 printable bytes.
ghost use Rattle.std.specs.Prelude.{◌≡◌, [], IsTrue, ◌↔◌, MatchResult};
ghost use Rattle.cloud_base.specs.Values.{IsText, IsPrintable};
ghost use Rattle.cloud_base.specs.Texts.{HasFault, cat_text};

use arrayvec::ArrayVec;
use std::marker::Model;
use thiserror::Error;

/// The most bytes of a text.
pub const MOST_TEXT_BYTES: usize = 128;

/// A text of at most 128 bytes, each from 0x20 to 0x7E.
#[derive(Drop, PartialEq, Eq, PartialOrd, Ord)]
pub struct Text {
    bytes: ArrayVec<u8, MOST_TEXT_BYTES>,
}

impl Model for Text {
    ghost use Rattle.std.specs.Prelude.{ℕ, List};
    ghost use Rattle.std.specs.Coded.{coded_list, coded_ℕ};

    ghost Value = { List ℕ };

    ghost coded = { coded_list coded_ℕ };

    ghost use Rattle.cloud_base.specs.Values.{IsText};

    ghost view = { λ t. t.bytes.items };

    ghost invariant = { λ t. IsText t.bytes.items };

    ghost inverse = { λ bytes. record { bytes = record { items = bytes } } };
}

/// Why bytes are no text.
#[derive(Debug, Drop, Error)]
pub enum TextFault {
    #[error("{len} bytes are too many for a text")]
    TooLong { len: usize },
    #[error("byte {at} is not printable")]
    BadByte { at: usize },
}

fn is_printable(byte: u8) -> bool
    ensures { IsTrue result ↔ IsPrintable byte }
{
    (0x20..=0x7E).contains(&byte)
}

impl Text {
    /// The text of these bytes. It is `TooLong` exactly where they are more than `MOST_TEXT_BYTES`,
    /// and else `BadByte` at the first byte outside 0x20 to 0x7E. It takes no memory.
    pub fn new(bytes: &[u8]) -> Result<Text, TextFault>
        ensures { MatchResult result (λ text. (text ≡ bytes.now) × IsText bytes.now)
            (HasFault bytes.now) }
    {
        if bytes.len() > MOST_TEXT_BYTES {
            return Err(TextFault::TooLong { len: bytes.len() });
        }
        let mut text = ArrayVec::new();
        for (at, byte) in bytes.iter().enumerate() {
            if !is_printable(*byte) {
                return Err(TextFault::BadByte { at });
            }
            text.push(*byte);
        }
        Ok(Text { bytes: text })
    }

    pub fn empty() -> Text
        ensures { result ≡ [] }
    {
        Text {
            bytes: ArrayVec::new(),
        }
    }

    pub fn as_slice(&self) -> &[u8]
        ensures text { IsText self.now }
        ensures bytes { result.now ≡ self.now }
    {
        self.bytes.as_slice()
    }

    /// The same text.
    pub fn copied(&self) -> Text
        ensures { result ≡ self.now }
    {
        let mut bytes = ArrayVec::new();
        for byte in self.bytes.as_slice() {
            bytes.push(*byte);
        }
        Text { bytes }
    }

    /// The first `MOST_TEXT_BYTES` bytes of both in order. It takes no memory.
    pub fn cat(&self, other: &Text) -> Text
        ensures { result ≡ cat_text self.now other.now }
    {
        let Text { mut bytes } = self.copied();
        for byte in other.bytes.as_slice() {
            if bytes.len() < MOST_TEXT_BYTES {
                bytes.push(*byte);
            }
        }
        Text { bytes }
    }
}

#[cfg(test)]
mod tests {
    use super::*;

    #[test]
    fn texts_are_cut_and_judged(rt: HostRuntime) {
        let letters = [b'x'; 100];
        match Text::new(&letters) {
            Ok(text) => assert!(rt; text.cat(&text).as_slice() == [b'x'; 128].as_slice()),
            Err(_) => assert!(rt; false),
        }
        match Text::new(&[b'x'; 129]) {
            Err(TextFault::TooLong { len }) => assert_eq!(rt; len, 129),
            _ => assert!(rt; false),
        }
        match Text::new(b"a~ \x7F\n") {
            Err(TextFault::BadByte { at }) => assert_eq!(rt; at, 3),
            _ => assert!(rt; false),
        }
    }
}
