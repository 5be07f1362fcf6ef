// What stands before the lists of a packet.
ghost use Rattle.std.specs.Prelude.{◌≡◌};
ghost use Rattle.packet_bytes.specs.Left.{Gives, left_of};
ghost use Rattle.packet_bytes.specs.Spelling.{kind_tag};
ghost use Rattle.packet_bytes.specs.Reading.{exactly_at, kind_at, round_at, header_at};

use crate::cursor::Cursor;
use crate::fault::WireFault;
use crate::field::{byte_of, client_of, u64_of};

/// What a packet carries: a change, or an image.
#[derive(Clone, Copy)]
pub(crate) enum Kind {
    Push,
    Reply,
}

/// The byte that tells a kind.
pub(crate) fn kind_tag(kind: Kind) -> u8
    ensures { result ≡ kind_tag kind }
{
    match kind {
        Kind::Push => 1,
        Kind::Reply => 2,
    }
}

/// What stands before the lists.
#[derive(Clone, Copy)]
pub(crate) struct Header {
    pub(crate) kind: Kind,
    pub(crate) client: u8,
    pub(crate) round: u64,
    pub(crate) base: u64,
}

// A byte that is always the same.
#[tactic(auto, unfolding(crate::specs::Reading::exactly_at))]
fn exactly_of(wanted: u8, cursor: Cursor<'_>) -> Result<((), Cursor<'_>), WireFault>
    ensures { Gives result (exactly_at wanted (left_of cursor.entry)) }
{
    let (byte, rest) = byte_of(cursor)?;
    if byte != wanted {
        return Err(WireFault::BadTag { at: cursor.at });
    }
    Ok(((), rest))
}

#[tactic(auto, unfolding(crate::specs::Reading::kind_at))]
fn kind_of(cursor: Cursor<'_>) -> Result<(Kind, Cursor<'_>), WireFault>
    ensures { Gives result (kind_at (left_of cursor.entry)) }
{
    let (tag, rest) = byte_of(cursor)?;
    match tag {
        1 => Ok((Kind::Push, rest)),
        2 => Ok((Kind::Reply, rest)),
        _ => Err(WireFault::BadTag { at: cursor.at }),
    }
}

#[tactic(auto, unfolding(crate::specs::Reading::round_at))]
fn round_of(cursor: Cursor<'_>) -> Result<(u64, Cursor<'_>), WireFault>
    ensures { Gives result (round_at (left_of cursor.entry)) }
{
    let (round, rest) = u64_of(cursor)?;
    if round == 0 {
        return Err(WireFault::NotCanonical { at: cursor.at });
    }
    Ok((round, rest))
}

#[tactic(auto, unfolding(crate::specs::Reading::header_at))]
pub(crate) fn header_of(cursor: Cursor<'_>) -> Result<(Header, Cursor<'_>), WireFault>
    ensures { Gives result (header_at (left_of cursor.entry)) }
{
    let (_, rest) = exactly_of(b'C', cursor)?;
    let (_, rest) = exactly_of(b'T', rest)?;
    let (_, rest) = exactly_of(1, rest)?;
    let (kind, rest) = kind_of(rest)?;
    let (client, rest) = client_of(rest)?;
    let (round, rest) = round_of(rest)?;
    let (base, rest) = u64_of(rest)?;
    let header = Header {
        kind,
        client,
        round,
        base,
    };
    Ok((header, rest))
}
