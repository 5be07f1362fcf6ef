// Writes what a packet is made of at the end of a list of bytes.
ghost use Rattle.std.specs.Prelude.{◌≡◌, ◌++◌, OnOk};
ghost use Rattle.std.specs.List.{flat_map};
ghost use Rattle.packet_bytes.specs.Spelling.{int_bytes, text_bytes, id_bytes, key_bytes};
ghost use Rattle.packet_bytes.specs.Spelling.{effect_bytes, content_bytes};

use change_lists::Content;
use cloud_base::{Key, Keys, Memory, Text, Uid};
use fj_core::{Effect, NonZero};

pub(crate) fn put(out: &mut Vec<u8>, bytes: &[u8]) -> Result<(), Memory>
    ensures { OnOk result (out.new.items ≡ out.old.items ++ bytes.now) }
{
    out.extend_from_slice(bytes)?;
    Ok(())
}

fn put_int(out: &mut Vec<u8>, number: i64) -> Result<(), Memory>
    ensures { OnOk result (out.new.items ≡ out.old.items ++ int_bytes number) }
{
    put(out, &number.to_be_bytes())
}

fn put_add(out: &mut Vec<u8>, number: NonZero) -> Result<(), Memory>
    ensures { OnOk result (out.new.items ≡ out.old.items ++ int_bytes number) }
{
    put_int(out, number.get())
}

fn put_text(out: &mut Vec<u8>, text: &Text) -> Result<(), Memory>
    ensures { OnOk result (out.new.items ≡ out.old.items ++ text_bytes text.now) }
{
    let bytes = text.as_slice();
    out.push(bytes.len() as u8)?;
    put(out, bytes)
}

pub(crate) fn put_id(out: &mut Vec<u8>, id: Uid) -> Result<(), Memory>
    ensures { OnOk result (out.new.items ≡ out.old.items ++ id_bytes id) }
{
    out.push(id.client())?;
    put(out, &id.serial().to_be_bytes())
}

fn put_key(out: &mut Vec<u8>, key: &Key) -> Result<(), Memory>
    ensures { OnOk result (out.new.items ≡ out.old.items ++ key_bytes key.now) }
{
    match key {
        Key::Int(number) => {
            out.push(0)?;
            put_int(out, *number)
        }
        Key::Text(text) => {
            out.push(1)?;
            put_text(out, text)
        }
        Key::Ref(id) => {
            out.push(2)?;
            put_id(out, *id)
        }
    }
}

pub(crate) fn put_keys(out: &mut Vec<u8>, keys: &Keys) -> Result<(), Memory>
    ensures { OnOk result (out.new.items ≡ out.old.items ++ flat_map key_bytes keys.now) }
{
    for key in keys.as_slice() {
        put_key(out, key)?;
    }
    Ok(())
}

pub(crate) fn put_effect(out: &mut Vec<u8>, effect: &Effect) -> Result<(), Memory>
    ensures { OnOk result (out.new.items ≡ out.old.items ++ effect_bytes effect.now) }
{
    match effect {
        Effect::Add(number) => {
            out.push(0)?;
            put_add(out, *number)
        }
        Effect::SetInt(number) => {
            out.push(1)?;
            put_int(out, *number)
        }
        Effect::SetText(text) => {
            out.push(2)?;
            put_text(out, text)
        }
        Effect::IfEmpty(text) => {
            out.push(3)?;
            put_text(out, text.as_text())
        }
    }
}

pub(crate) fn put_content(out: &mut Vec<u8>, content: &Content) -> Result<(), Memory>
    ensures { OnOk result (out.new.items ≡ out.old.items ++ content_bytes content.now) }
{
    match content {
        Content::Int(number) => put_int(out, *number),
        Content::Text(text) => put_text(out, text),
    }
}
