// The lists of a packet.
ghost use Rattle.std.specs.Prelude.{◌≡◌, ◌++◌, ◌<◌, ◌^◌, length, OnOk, None};
ghost use Rattle.packet_bytes.specs.Left.{GivesOrStarves, left_of};
ghost use Rattle.packet_bytes.specs.Reading.{elements_at, list_at};
ghost use Rattle.packet_bytes.specs.Spelling.{list_bytes};

use crate::cursor::Cursor;
use crate::element::Element;
use crate::fault::ReadFault;
use crate::field::u32_of;
use crate::write::put;
use cloud_base::{Memory, Schema, Sequence};
use std::alloc::Global;

// So many elements. What a count says is there takes no memory before it is read.
fn elements_of<'a, E: Element>(
    alloc: Global,
    schema: &Schema,
    count: u32,
    cursor: Cursor<'a>,
) -> Result<(Sequence<E>, Cursor<'a>), ReadFault>
    ensures { GivesOrStarves result
        (elements_at (E.reader schema.now) count None (left_of cursor.entry)) }
{
    let mut items = Sequence::new(alloc);
    let mut rest = cursor;
    for _ in 0..count {
        let (item, after) = E::read_one(schema, items.as_slice().last(), rest)?;
        items.push(item)?;
        rest = after;
    }
    Ok((items, rest))
}

/// A count, and so many elements.
#[tactic(auto, unfolding(crate::specs::Reading::list_at))]
pub(crate) fn list_of<'a, E: Element>(
    alloc: Global,
    schema: &Schema,
    cursor: Cursor<'a>,
) -> Result<(Sequence<E>, Cursor<'a>), ReadFault>
    ensures { GivesOrStarves result (list_at (E.reader schema.now) (left_of cursor.entry)) }
{
    let (count, rest) = u32_of(cursor)?;
    elements_of(alloc, schema, count, rest)
}

/// Writes a count and the elements.
pub(crate) fn put_list<E: Element>(out: &mut Vec<u8>, list: &[E]) -> Result<(), Memory>
    requires { length list.now < 2 ^ 32 }
    ensures { OnOk result (out.new.items ≡ out.old.items ++ list_bytes E.spelled list.now) }
{
    put(out, &(list.len() as u32).to_be_bytes())?;
    for item in list {
        item.write_one(out)?;
    }
    Ok(())
}
