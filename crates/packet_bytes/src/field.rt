// Readers of numbers, texts, ids and keys.
ghost use Rattle.std.specs.Prelude.{◌≡◌, ◌≢◌, ◌+◌, ◌<◌, ◌≤◌, ◌^◌, ⊤, pos, length};
ghost use Rattle.std.specs.Prelude.{drop, MatchResult, IfSome};
ghost use Rattle.std.specs.Option.{option_copied};
ghost use Rattle.std.specs.Int.{w16, w32, w64};
ghost use Rattle.cloud_base.specs.declared.schema.KeyType.{KeyType};
ghost use Rattle.packet_bytes.specs.Left.{Gives, left_of, end_of, after, byte_at, number_at};
ghost use Rattle.packet_bytes.specs.Reading.{int_at, filled_int_at, printables_at, text_at};
ghost use Rattle.packet_bytes.specs.Reading.{client_at, id_at, key_tag, key_content_at, key_at};
ghost use Rattle.packet_bytes.specs.Reading.{keys_at, few, entity_types, property_types};
ghost use Rattle.cloud_base.specs.Values.{most_keys, most_text_bytes};

use crate::cursor::Cursor;
use crate::fault::WireFault;
use cloud_base::{Key, KeyType, Keys, MOST_KEYS, MOST_TEXT_BYTES, Schema, Text, TextFault, Uid};

const MOST_CLIENTS: u8 = 8;

// The fault of a field that isn't whole.
fn short(cursor: Cursor<'_>) -> WireFault
    ensures { result ≡ WireFault.Short (end_of (left_of cursor.entry)) }
{
    WireFault::Short {
        at: cursor.at + cursor.bytes.len(),
    }
}

#[tactic(auto, unfolding(crate::specs::Left::byte_at))]
pub(crate) fn byte_of(cursor: Cursor<'_>) -> Result<(u8, Cursor<'_>), WireFault>
    ensures { Gives result (byte_at (left_of cursor.entry)) }
{
    match cursor.bytes {
        [] => Err(WireFault::Short { at: cursor.at }),
        [first, bytes @ ..] => {
            let rest = Cursor {
                at: cursor.at + 1,
                bytes,
            };
            Ok((*first, rest))
        }
    }
}

#[tactic(auto, unfolding(crate::specs::Left::number_at))]
pub(crate) fn u16_of(cursor: Cursor<'_>) -> Result<(u16, Cursor<'_>), WireFault>
    ensures { Gives result (number_at w16 (left_of cursor.entry)) }
{
    if cursor.bytes.len() < 2 {
        return Err(short(cursor));
    }
    let (front, bytes) = cursor.bytes.split_at(2);
    let number = u16::from_be_bytes([front[0], front[1]]);
    let rest = Cursor {
        at: cursor.at + 2,
        bytes,
    };
    Ok((number, rest))
}

#[tactic(auto, unfolding(crate::specs::Left::number_at))]
pub(crate) fn u32_of(cursor: Cursor<'_>) -> Result<(u32, Cursor<'_>), WireFault>
    ensures { Gives result (number_at w32 (left_of cursor.entry)) }
{
    if cursor.bytes.len() < 4 {
        return Err(short(cursor));
    }
    let (front, bytes) = cursor.bytes.split_at(4);
    let number = u32::from_be_bytes([front[0], front[1], front[2], front[3]]);
    let rest = Cursor {
        at: cursor.at + 4,
        bytes,
    };
    Ok((number, rest))
}

#[tactic(auto, unfolding(crate::specs::Left::number_at))]
pub(crate) fn u64_of(cursor: Cursor<'_>) -> Result<(u64, Cursor<'_>), WireFault>
    ensures { Gives result (number_at w64 (left_of cursor.entry)) }
{
    if cursor.bytes.len() < 8 {
        return Err(short(cursor));
    }
    let (front, bytes) = cursor.bytes.split_at(8);
    let number = u64::from_be_bytes([
        front[0], front[1], front[2], front[3], front[4], front[5], front[6], front[7],
    ]);
    let rest = Cursor {
        at: cursor.at + 8,
        bytes,
    };
    Ok((number, rest))
}

#[tactic(auto, unfolding(crate::specs::Reading::int_at))]
pub(crate) fn int_of(cursor: Cursor<'_>) -> Result<(i64, Cursor<'_>), WireFault>
    ensures { Gives result (int_at (left_of cursor.entry)) }
{
    let (number, rest) = u64_of(cursor)?;
    Ok((number.cast_signed(), rest))
}

#[tactic(auto, unfolding(crate::specs::Reading::filled_int_at))]
pub(crate) fn filled_int_of(cursor: Cursor<'_>) -> Result<(i64, Cursor<'_>), WireFault>
    ensures read { Gives result (filled_int_at (left_of cursor.entry)) }
    ensures filled { MatchResult result (λ x. x.0 ≢ pos 0) (λ _. ⊤) }
{
    let (number, rest) = int_of(cursor)?;
    if number == 0 {
        return Err(WireFault::NotCanonical { at: cursor.at });
    }
    Ok((number, rest))
}

// A text of so many bytes, at most `MOST_TEXT_BYTES`.
fn printables_of(size: usize, cursor: Cursor<'_>) -> Result<(Text, Cursor<'_>), WireFault>
    requires { size ≤ most_text_bytes }
    ensures read { Gives result (printables_at size (left_of cursor.entry)) }
    ensures long { MatchResult result (λ x. length x.0 ≡ size) (λ _. ⊤) }
{
    let given = size.min(cursor.bytes.len());
    let (front, bytes) = cursor.bytes.split_at(given);
    match Text::new(front) {
        Ok(text) => {
            if given < size {
                return Err(short(cursor));
            }
            let rest = Cursor {
                at: cursor.at + size,
                bytes,
            };
            Ok((text, rest))
        }
        Err(TextFault::BadByte { at }) => Err(WireFault::NotCanonical { at: cursor.at + at }),
        Err(TextFault::TooLong { .. }) => unreachable!(),
    }
}

// A text of at least so many bytes.
#[tactic(auto, unfolding(crate::specs::Reading::text_at))]
pub(crate) fn text_of(least: u8, cursor: Cursor<'_>) -> Result<(Text, Cursor<'_>), WireFault>
    ensures read { Gives result (text_at least (left_of cursor.entry)) }
    ensures long { MatchResult result (λ x. least ≤ length x.0) (λ _. ⊤) }
{
    let (size, rest) = byte_of(cursor)?;
    if least <= size && size as usize <= MOST_TEXT_BYTES {
        printables_of(size as usize, rest)
    } else {
        Err(WireFault::NotCanonical { at: cursor.at })
    }
}

#[tactic(auto, unfolding(crate::specs::Reading::id_at))]
pub(crate) fn id_of(cursor: Cursor<'_>) -> Result<(Uid, Cursor<'_>), WireFault>
    ensures { Gives result (id_at (left_of cursor.entry)) }
{
    let (client, rest) = client_of(cursor)?;
    let (serial, rest) = u32_of(rest)?;
    Ok((Uid::new(client, serial), rest))
}

#[tactic(auto, unfolding(crate::specs::Reading::client_at))]
pub(crate) fn client_of(cursor: Cursor<'_>) -> Result<(u8, Cursor<'_>), WireFault>
    ensures read { Gives result (client_at (left_of cursor.entry)) }
    ensures below { MatchResult result (λ x. x.0 < 8) (λ _. ⊤) }
{
    let (client, rest) = byte_of(cursor)?;
    if client >= MOST_CLIENTS {
        return Err(WireFault::NotCanonical { at: cursor.at });
    }
    Ok((client, rest))
}

#[tactic(auto, unfolding(crate::specs::Reading::key_content_at))]
fn key_content_of(kind: KeyType, cursor: Cursor<'_>) -> Result<(Key, Cursor<'_>), WireFault>
    ensures { Gives result (key_content_at kind (left_of cursor.entry)) }
{
    match kind {
        KeyType::Int => {
            let (number, rest) = int_of(cursor)?;
            Ok((Key::Int(number), rest))
        }
        KeyType::Text => {
            let (text, rest) = text_of(0, cursor)?;
            Ok((Key::Text(text), rest))
        }
        KeyType::Id(_) => {
            // An id and a cursor in one result get no proof through `?`.
            match id_of(cursor) {
                Ok((id, rest)) => Ok((Key::Ref(id), rest)),
                Err(fault) => Err(fault),
            }
        }
    }
}

fn key_tag(kind: KeyType) -> u8
    ensures { result ≡ key_tag kind }
{
    match kind {
        KeyType::Int => 0,
        KeyType::Text => 1,
        KeyType::Id(_) => 2,
    }
}

#[tactic(auto, unfolding(crate::specs::Reading::key_at))]
fn key_of(kind: KeyType, cursor: Cursor<'_>) -> Result<(Key, Cursor<'_>), WireFault>
    ensures { Gives result (key_at kind (left_of cursor.entry)) }
{
    let (tag, rest) = byte_of(cursor)?;
    if tag >= 3 {
        return Err(WireFault::BadTag { at: cursor.at });
    }
    if tag != key_tag(kind) {
        return Err(WireFault::Unknown { at: cursor.at });
    }
    key_content_of(kind, rest)
}

/// One key of each type.
pub(crate) fn keys_of<'a>(
    types: &[KeyType],
    cursor: Cursor<'a>,
) -> Result<(Keys, Cursor<'a>), WireFault>
    requires { length types.now ≤ most_keys }
    ensures { Gives result (keys_at types.now (left_of cursor.entry)) }
{
    let mut keys = Keys::empty();
    let mut rest = cursor;
    for kind in types {
        let (key, after) = key_of(*kind, rest)?;
        keys.push(key);
        rest = after;
    }
    Ok((keys, rest))
}

// The types, where there are no more of them than a cell or an entity may have keys.
fn few(types: &[KeyType]) -> Option<&[KeyType]>
    ensures { option_copied result ≡ few types.now }
{
    if types.len() <= MOST_KEYS {
        Some(types)
    } else {
        None
    }
}

/// The types of an entity's keys, where the schema has it.
pub(crate) fn entity_types(schema: &Schema, number: u16) -> Option<&[KeyType]>
    ensures types { option_copied result ≡ entity_types schema.now number }
    ensures few { IfSome result (λ types. length types.now ≤ most_keys) }
{
    let entity = schema.entities.as_slice().get(number as usize)?;
    few(entity.keys.as_slice())
}

/// The types of a property's keys, where the schema has it.
pub(crate) fn property_types(schema: &Schema, number: u16) -> Option<&[KeyType]>
    ensures types { option_copied result ≡ property_types schema.now number }
    ensures few { IfSome result (λ types. length types.now ≤ most_keys) }
{
    let property = schema.properties.as_slice().get(number as usize)?;
    few(property.keys.as_slice())
}
