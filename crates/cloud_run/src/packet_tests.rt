// Packets as bytes, for the schemas of sources.
ghost use Rattle.std.specs.Prelude.{◌≡◌, ◌↔◌, ◌<◌, ◌≤◌, ◌^◌, IsTrue};

use crate::packets::{
    COUNT, COUNT_READS, GROCERY, GROCERY_READS, NOTE, NOTE_READS, ORDERS, ORDERS_READS, PACKETS,
    SEATS, SEATS_READS,
};
use bytes::Bytes;
use cloud_base::Schema;
use cloud_parse::parse;
use kind_check::check;
use packet_bytes::{ReadFault, Wire, WireFault, read, write_push, write_reply};
use std::alloc::Global;
use std::test::Fail;

// The schema of these declarations.
fn schema_of(alloc: Global, declared: &str) -> Result<Schema, Fail> {
    let mut source = String::from_str(alloc, "schema { ")?;
    source.push_str(declared)?;
    source.push_str(" } client a { }")?;
    let Ok(parsed) = parse(alloc, source.as_str().as_bytes()) else {
        return Err(Fail::from("no tree"));
    };
    let Ok(program) = check(alloc, parsed) else {
        return Err(Fail::from("no program"));
    };
    Ok(program.schema().copy(alloc)?)
}

fn bytes_of(alloc: Global, digits: &str) -> Result<Vec<u8>, Fail> {
    match hex::decode(alloc, digits) {
        Ok(bytes) => Ok(bytes),
        Err(_) => Err(Fail::from("no hexadecimal digits")),
    }
}

// A fault as the table has it.
fn told(alloc: Global, fault: WireFault) -> Result<String, Fail> {
    Ok(match fault {
        WireFault::Short { at } => format!(in alloc; "Short {at}")?,
        WireFault::BadTag { at } => format!(in alloc; "BadTag {at}")?,
        WireFault::OutOfOrder { at } => format!(in alloc; "OutOfOrder {at}")?,
        WireFault::NotCanonical { at } => format!(in alloc; "NotCanonical {at}")?,
        WireFault::Trailing { at } => format!(in alloc; "Trailing {at}")?,
        WireFault::Unknown { at } => format!(in alloc; "Unknown {at}")?,
    })
}

// Whether a client and a round are those of a packet.
fn are_told(client: u8, round: u64) -> bool
    ensures { IsTrue result ↔ ((client < 8) × (1 ≤ round)) }
{
    client < 8 && round >= 1
}

// Whether lists are no longer than a packet's.
fn are_short(created: usize, dead: usize, cells: usize) -> bool
    ensures { IsTrue result ↔ ((created < 2 ^ 31) × (dead < 2 ^ 31) × (cells < 2 ^ 31)) }
{
    created < 1 << 31 && dead < 1 << 31 && cells < 1 << 31
}

// The spelling of a packet.
fn spelling(alloc: Global, wire: &Wire) -> Result<Bytes, Fail> {
    match wire {
        Wire::Push {
            client,
            round,
            base,
            change,
        } => {
            let (created, dead, cells) = (change.created(), change.dead(), change.cells());
            if !are_told(*client, *round) || !are_short(created.len(), dead.len(), cells.len()) {
                return Err(Fail::from("no packet is read so"));
            }
            Ok(write_push(alloc, *client, *round, *base, change)?)
        }
        Wire::Reply {
            client,
            round,
            base,
            image,
        } => {
            let (created, dead, cells) = (image.created(), image.dead(), image.cells());
            if !are_told(*client, *round) || !are_short(created.len(), dead.len(), cells.len()) {
                return Err(Fail::from("no packet is read so"));
            }
            Ok(write_reply(alloc, *client, *round, *base, image)?)
        }
    }
}

// The fault that is read, or `ok` for a packet. That is to be written so again.
fn answer(alloc: Global, schema: &Schema, bytes: &[u8]) -> Result<String, Fail> {
    let wire = match read(alloc, schema, bytes) {
        Ok(wire) => wire,
        Err(ReadFault::Wire(fault)) => return told(alloc, fault),
        Err(ReadFault::Memory) => return Err(Fail::from("out of memory")),
    };
    if spelling(alloc, &wire)?.as_slice() != bytes {
        return Err(Fail::from("a packet is written otherwise"));
    }
    Ok(String::from_str(alloc, "ok")?)
}

// The first row that is read otherwise.
fn first_wrong<'a>(
    alloc: Global,
    declared: &str,
    rows: &[(&'a str, &str)],
) -> Result<Option<&'a str>, Fail> {
    let schema = schema_of(alloc, declared)?;
    for (digits, wanted) in rows {
        let bytes = bytes_of(alloc, digits)?;
        if answer(alloc, &schema, bytes.as_slice())?.as_str() != *wanted {
            return Ok(Some(*digits));
        }
    }
    Ok(None)
}

#[test]
fn reads_counts_and_notes(rt: HostRuntime) -> Result<(), Fail> {
    assert_eq!(rt; first_wrong(rt.alloc(), COUNT, COUNT_READS)?, None);
    assert_eq!(rt; first_wrong(rt.alloc(), NOTE, NOTE_READS)?, None);
    Ok(())
}

#[test]
fn reads_groceries(rt: HostRuntime) -> Result<(), Fail> {
    assert_eq!(rt; first_wrong(rt.alloc(), GROCERY, GROCERY_READS)?, None);
    Ok(())
}

#[test]
fn reads_seats(rt: HostRuntime) -> Result<(), Fail> {
    assert_eq!(rt; first_wrong(rt.alloc(), SEATS, SEATS_READS)?, None);
    Ok(())
}

#[test]
fn reads_orders(rt: HostRuntime) -> Result<(), Fail> {
    assert_eq!(rt; first_wrong(rt.alloc(), ORDERS, ORDERS_READS)?, None);
    Ok(())
}

// The client, the round and the base of a packet.
fn header(wire: &Wire) -> (u8, u64, u64) {
    match wire {
        Wire::Push {
            client,
            round,
            base,
            ..
        } => (*client, *round, *base),
        Wire::Reply {
            client,
            round,
            base,
            ..
        } => (*client, *round, *base),
    }
}

// Whether each front of the bytes is cut short where it ends.
fn are_cut_short(alloc: Global, schema: &Schema, bytes: &[u8]) -> bool {
    (0..bytes.len()).all(|length| {
        let found = read(alloc, schema, &bytes[..length]);
        matches!(found, Err(ReadFault::Wire(WireFault::Short { at })) if at == length)
    })
}

#[test]
fn reads_and_writes_runs(rt: HostRuntime) -> Result<(), Fail> {
    let alloc = rt.alloc();
    for (declared, client, round, base, push, reply) in PACKETS {
        let schema = schema_of(alloc, declared)?;
        for digits in [push, reply] {
            let bytes = bytes_of(alloc, digits)?;
            let bytes = bytes.as_slice();
            assert_eq!(rt;
                answer(alloc, &schema, bytes)?.as_str(),
                "ok",
                "at {digits}"
            );
            assert!(rt; are_cut_short(alloc, &schema, bytes), "at {digits}");
        }
        let Ok(wire) = read(alloc, &schema, bytes_of(alloc, push)?.as_slice()) else {
            return Err(Fail::from("no push"));
        };
        assert_eq!(rt; header(&wire), (*client, *round, *base), "at {push}");
    }
    Ok(())
}
