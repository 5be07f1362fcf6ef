// How values are printed.
ghost use Rattle.std.specs.Prelude.{◌≡◌, ◌++◌, List, ℕ, [], ◌∷◌, OnOk, codes, decimal};
ghost use Rattle.std.specs.Fmt.{signed_decimal};
ghost use Rattle.std.specs.List.{flat_map, join_by};
ghost use Rattle.step_text.specs.Values.{
  escaped,
  quoted,
  id_text,
  key_text,
  keys_text,
  tuple_text,
  truth_text,
  answer_text,
};

use cloud_base::{Answer, Key, Keys, Memory, Uid};
use itoa::Buffer;

pub fn write_natural(out: &mut Vec<u8>, number: u64) -> Result<(), Memory>
    ensures { OnOk result (out.new.items ≡ out.old.items ++ decimal number) }
{
    let mut buffer = Buffer::new();
    out.extend_from_slice(buffer.format(number).as_bytes())?;
    Ok(())
}

pub fn write_integer(out: &mut Vec<u8>, number: i64) -> Result<(), Memory>
    ensures { OnOk result (out.new.items ≡ out.old.items ++ signed_decimal number) }
{
    let mut buffer = Buffer::new();
    out.extend_from_slice(buffer.format(number).as_bytes())?;
    Ok(())
}

fn write_escaped(out: &mut Vec<u8>, byte: u8) -> Result<(), Memory>
    ensures { OnOk result (out.new.items ≡ out.old.items ++ escaped byte) }
{
    if byte == b'"' || byte == b'\\' {
        out.push(b'\\')?;
    }
    out.push(byte)?;
    Ok(())
}

pub fn write_quoted(out: &mut Vec<u8>, bytes: &[u8]) -> Result<(), Memory>
    ensures { OnOk result (out.new.items ≡ out.old.items ++ quoted bytes.now) }
{
    out.push(b'"')?;
    for byte in bytes {
        write_escaped(out, *byte)?;
    }
    out.push(b'"')?;
    Ok(())
}

pub fn write_id(out: &mut Vec<u8>, id: Uid) -> Result<(), Memory>
    ensures { OnOk result (out.new.items ≡ out.old.items ++ id_text id) }
{
    out.push(b'@')?;
    write_natural(out, u64::from(id.client()))?;
    out.push(b'.')?;
    write_natural(out, u64::from(id.serial()))
}

fn write_truth(out: &mut Vec<u8>, truth: bool) -> Result<(), Memory>
    ensures { OnOk result (out.new.items ≡ out.old.items ++ truth_text truth) }
{
    let text: &[u8] = if truth { b"true" } else { b"false" };
    out.extend_from_slice(text)?;
    Ok(())
}

// What lists are made of.
trait Item {
    ghost text: { Self → List ℕ };

    fn write(&self, out: &mut Vec<u8>) -> Result<(), Memory>
        ensures { OnOk result (out.new.items ≡ out.old.items ++ text self.now) };
}

impl Item for Uid {
    ghost text = { id_text };

    fn write(&self, out: &mut Vec<u8>) -> Result<(), Memory> {
        write_id(out, *self)
    }
}

impl Item for Key {
    ghost text = { key_text };

    fn write(&self, out: &mut Vec<u8>) -> Result<(), Memory> {
        match self {
            Key::Int(number) => write_integer(out, *number),
            Key::Text(text) => write_quoted(out, text.as_slice()),
            Key::Ref(id) => write_id(out, *id),
        }
    }
}

impl Item for Keys {
    ghost text = { tuple_text };

    fn write(&self, out: &mut Vec<u8>) -> Result<(), Memory> {
        out.push(b'(')?;
        write_separated(out, self.as_slice())?;
        out.push(b')')?;
        Ok(())
    }
}

// The items, with a comma and a space between them.
fn write_separated<T: Item>(out: &mut Vec<u8>, items: &[T]) -> Result<(), Memory>
    ensures { OnOk result (out.new.items ≡ out.old.items ++ join_by T.text (codes ", ") items.now) }
{
    if let Some((first, rest)) = items.split_first() {
        first.write(out)?;
        for item in rest {
            out.extend_from_slice(b", ")?;
            item.write(out)?;
        }
    }
    Ok(())
}

pub fn write_keys(out: &mut Vec<u8>, keys: &[Key]) -> Result<(), Memory>
    ensures { OnOk result (out.new.items ≡ out.old.items ++ keys_text keys.now) }
{
    write_separated(out, keys)
}

fn write_list<T: Item>(out: &mut Vec<u8>, items: &[T]) -> Result<(), Memory>
    ensures { OnOk result (out.new.items
        ≡ out.old.items ++ (codes "[" ++ join_by T.text (codes ", ") items.now ++ codes "]")) }
{
    out.push(b'[')?;
    write_separated(out, items)?;
    out.push(b']')?;
    Ok(())
}

pub fn write_answer(out: &mut Vec<u8>, answer: &Answer) -> Result<(), Memory>
    ensures { OnOk result (out.new.items ≡ out.old.items ++ answer_text answer.now) }
{
    match answer {
        Answer::Int(number) => write_integer(out, *number),
        Answer::Text(text) => write_quoted(out, text.as_slice()),
        Answer::Truth(truth) => write_truth(out, *truth),
        Answer::Id(id) => write_id(out, *id),
        Answer::Ids(ids) => write_list(out, ids.as_slice()),
        Answer::Tuples(tuples) => write_list(out, tuples.as_slice()),
    }
}
