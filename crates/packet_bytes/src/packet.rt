// Packets, read and written.
ghost use Rattle.std.specs.Prelude.{◌≡◌, ◌<◌, ◌≤◌, ◌^◌, ◌++◌, length, IfOk, OnOk};
ghost use Rattle.cloud_base.specs.declared.schema.Schema.{Schema};
ghost use Rattle.packet_bytes.specs.Left.{GivesOrStarves, IsBytes, left_of};
ghost use Rattle.packet_bytes.specs.Reading.{change_at, image_at, body_at, wire_at, packet_of};
ghost use Rattle.packet_bytes.specs.Reading.{Reads};
ghost use Rattle.packet_bytes.specs.Spelling.{spelling, header_bytes, IsPacketOf};
ghost use Rattle.packet_bytes.specs.declared.wire.Wire.{Wire};
ghost use Rattle.packet_bytes.specs.declared.wire.Wire.TheVariants.{Push, Reply};

use crate::cursor::Cursor;
use crate::fault::{ReadFault, WireFault};
use crate::header::{Header, Kind, header_of, kind_tag};
use crate::list::{list_of, put_list};
use crate::wire::Wire;
use crate::write::put;
use bytes::Bytes;
use change_lists::{CellValue, Change, Image, total_list_orders};
use cloud_base::{Memory, Schema, Uid};
use fj_array::CellEffect;
use fj_entity::Created;
use std::alloc::Global;

#[tactic(auto, unfolding(crate::specs::Reading::change_at))]
fn change_of<'a>(
    alloc: Global,
    schema: &Schema,
    cursor: Cursor<'a>,
) -> Result<(Change, Cursor<'a>), ReadFault>
    requires { IsBytes cursor.bytes.now }
    ensures { GivesOrStarves result (change_at schema.now (left_of cursor.entry)) }
{
    total_list_orders();
    let (created, rest) = list_of::<Created>(alloc, schema, cursor)?;
    let (dead, rest) = list_of::<Uid>(alloc, schema, rest)?;
    let (cells, rest) = list_of::<CellEffect>(alloc, schema, rest)?;
    Ok((Change::new(created, dead, cells), rest))
}

#[tactic(auto, unfolding(crate::specs::Reading::image_at))]
fn image_of<'a>(
    alloc: Global,
    schema: &Schema,
    cursor: Cursor<'a>,
) -> Result<(Image, Cursor<'a>), ReadFault>
    requires { IsBytes cursor.bytes.now }
    ensures { GivesOrStarves result (image_at schema.now (left_of cursor.entry)) }
{
    total_list_orders();
    let (created, rest) = list_of::<Created>(alloc, schema, cursor)?;
    let (dead, rest) = list_of::<Uid>(alloc, schema, rest)?;
    let (cells, rest) = list_of::<CellValue>(alloc, schema, rest)?;
    Ok((Image::new(created, dead, cells), rest))
}

#[tactic(auto, unfolding(crate::specs::Reading::body_at))]
fn body_of<'a>(
    alloc: Global,
    schema: &Schema,
    header: Header,
    cursor: Cursor<'a>,
) -> Result<(Wire, Cursor<'a>), ReadFault>
    requires { IsBytes cursor.bytes.now }
    ensures { GivesOrStarves result (body_at schema.now header.kind header.client header.round
        header.base (left_of cursor.entry)) }
{
    let Header {
        kind,
        client,
        round,
        base,
    } = header;
    match kind {
        Kind::Push => {
            let (change, rest) = change_of(alloc, schema, cursor)?;
            let wire = Wire::Push {
                client,
                round,
                base,
                change,
            };
            Ok((wire, rest))
        }
        Kind::Reply => {
            let (image, rest) = image_of(alloc, schema, cursor)?;
            let wire = Wire::Reply {
                client,
                round,
                base,
                image,
            };
            Ok((wire, rest))
        }
    }
}

#[tactic(auto, unfolding(crate::specs::Reading::wire_at))]
fn wire_of<'a>(
    alloc: Global,
    schema: &Schema,
    cursor: Cursor<'a>,
) -> Result<(Wire, Cursor<'a>), ReadFault>
    requires { IsBytes cursor.bytes.now }
    ensures { GivesOrStarves result (wire_at schema.now (left_of cursor.entry)) }
{
    let (header, rest) = header_of(cursor)?;
    body_of(alloc, schema, header, rest)
}

#[tactic(auto, unfolding(crate::specs::Reading::packet_of))]
fn whole(alloc: Global, schema: &Schema, bytes: &[u8]) -> Result<Wire, ReadFault>
    ensures { Reads result (packet_of schema.now bytes.now) }
{
    let (wire, rest) = wire_of(alloc, schema, Cursor { at: 0, bytes })?;
    if !rest.bytes.is_empty() {
        return Err(ReadFault::Wire(WireFault::Trailing { at: rest.at }));
    }
    Ok(wire)
}

/// The packet that the bytes spell for a schema, all of the bytes, or else the first fault: the
/// first field that is judged wrong, in the order in which the fields are read. A property or an
/// entity with more key types than a cell or an entity may have keys counts as unknown.
///
/// No memory is taken for more elements than were read.
pub fn read(alloc: Global, schema: &Schema, bytes: &[u8]) -> Result<Wire, ReadFault>
    // What is read is spelled so.
    ensures found { IfOk result (λ wire.
        IsPacketOf schema.now wire × (bytes.now ≡ spelling wire)) }
    // What is spelled so is read, unless memory is wanting.
    ensures only { (wire : Wire) → IsPacketOf schema.now wire → bytes.now ≡ spelling wire →
        Reads result (Ok wire) }
    // Which fault it is.
    ensures exact { Reads result (packet_of schema.now bytes.now) }
{
    total_list_orders();
    whole(alloc, schema, bytes)
}

fn put_header(
    out: &mut Vec<u8>,
    kind: Kind,
    client: u8,
    round: u64,
    base: u64,
) -> Result<(), Memory>
    ensures { OnOk result (out.new.items
        ≡ out.old.items ++ header_bytes kind client round base) }
{
    put(out, &[b'C', b'T', 1, kind_tag(kind), client])?;
    put(out, &round.to_be_bytes())?;
    put(out, &base.to_be_bytes())
}

/// The one spelling of a push.
pub fn write_push(
    alloc: Global,
    client: u8,
    round: u64,
    base: u64,
    change: &Change,
) -> Result<Bytes, Memory>
    requires client { client < 8 }
    requires round { 1 ≤ round }
    requires created { length change.now.created < 2 ^ 31 }
    requires dead { length change.now.dead < 2 ^ 31 }
    requires cells { length change.now.cells < 2 ^ 31 }
    ensures { IfOk result (λ bytes. bytes ≡ spelling (Push client round base change.now)) }
{
    let mut out = Vec::new(alloc);
    put_header(&mut out, Kind::Push, client, round, base)?;
    put_list(&mut out, change.created())?;
    put_list(&mut out, change.dead())?;
    put_list(&mut out, change.cells())?;
    Ok(Bytes::from_vec(out)?)
}

/// The one spelling of a reply.
pub fn write_reply(
    alloc: Global,
    client: u8,
    round: u64,
    base: u64,
    image: &Image,
) -> Result<Bytes, Memory>
    requires client { client < 8 }
    requires round { 1 ≤ round }
    requires created { length image.now.created < 2 ^ 31 }
    requires dead { length image.now.dead < 2 ^ 31 }
    requires cells { length image.now.cells < 2 ^ 31 }
    ensures { IfOk result (λ bytes. bytes ≡ spelling (Reply client round base image.now)) }
{
    let mut out = Vec::new(alloc);
    put_header(&mut out, Kind::Reply, client, round, base)?;
    put_list(&mut out, image.created())?;
    put_list(&mut out, image.dead())?;
    put_list(&mut out, image.cells())?;
    Ok(Bytes::from_vec(out)?)
}
