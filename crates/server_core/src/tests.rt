// A first push through a server and through a station.
ghost use Rattle.std.specs.Prelude.{◌≡◌, [], ◌∷◌, None, IfOk};
ghost use Rattle.packet_codec.specs.Pushes.{IsPushWire};
ghost use Rattle.server_core.specs.Servers.{IsFor};
ghost use Rattle.server_core.specs.First.{first_batch};

use crate::{Fair, Fate, Server, Storm, Weather};
use bytes::Bytes;
use cloud_base::{Batch, Event, Memory, Schema, Sequence};
use front_table::{Front, Writer};
use packet_codec::{
    Fronts, Push, bounded_records, next_batches_are_pushed, packets_are_spelled, served_records,
    write_push,
};
use schema_fj::State;
use std::alloc::Global;
use std::sync::Arc;
use std::test::Fail;

fn empty_schema(alloc: Global) -> Schema {
    Schema {
        properties: Sequence::new(alloc),
        entities: Sequence::new(alloc),
    }
}

// A first batch, in which its client only yielded.
fn yielded(alloc: Global) -> Result<Batch, Memory>
    ensures { IfOk result (λ batch. batch ≡ first_batch) }
{
    let mut rest = Sequence::new(alloc);
    rest.push(Event::Yield)?;
    let before = Sequence::new(alloc);
    Ok(Batch {
        client: 0,
        round: 1,
        base: 0,
        before,
        rest,
    })
}

// The bytes that tell it.
fn first_wire(alloc: Global, schema: &Schema) -> Result<Bytes, Memory>
    ensures { IfOk result (λ wire. IsPushWire schema.now [] first_batch wire) }
{
    served_records();
    bounded_records();
    next_batches_are_pushed();
    packets_are_spelled();
    let state = State::fresh(alloc, schema)?;
    let change = state.effect()?;
    write_push(alloc, 0, 1, 0, &change)
}

fn first_own(alloc: Global, batch: &Batch) -> Result<Front<Batch>, Memory>
    ensures { IfOk result (λ own. own.list ≡ batch.now ∷ []) }
{
    let mut writer = Writer::new(alloc)?;
    writer.append(batch);
    writer.front()
}

// Its push.
fn first_push(alloc: Global, schema: &Schema, past: Front<Batch>) -> Result<Push, Memory>
    requires { past.list ≡ [] }
    ensures schema { IfOk result (λ push. push.schema ≡ schema.now) }
    ensures past { IfOk result (λ push. push.past ≡ past) }
    ensures batch { IfOk result (λ push. push.batch ≡ first_batch) }
{
    served_records();
    bounded_records();
    next_batches_are_pushed();
    let wire = first_wire(alloc, schema)?;
    let schema = Arc::new(alloc, schema.copy(alloc)?)?;
    let batch = yielded(alloc)?;
    let own = first_own(alloc, &batch)?;
    Ok(Push::new(alloc, schema, wire, batch, Fronts { past, own }))
}

// A server of one client, with its first push.
fn opened(alloc: Global) -> Result<(Server, Push), Memory>
    ensures of { IfOk result (λ both. IsFor both.1 both.0) }
    ensures owns { IfOk result (λ both. both.0.owns ≡ None ∷ []) }
{
    let schema = empty_schema(alloc);
    let mut server = Server::open(alloc, &schema, 1)?;
    let past = server.front()?;
    let push = first_push(alloc, &schema, past)?;
    Ok((server, push))
}

fn is_joined_once(alloc: Global) -> Result<bool, Memory> {
    let (mut server, mut push) = opened(alloc)?;
    let again = push.copy()?;
    let first = matches!(server.take(push), Ok(Some(_)));
    let second = matches!(server.take(again), Ok(Some(_)));
    Ok(first && second && server.batches().len() == 1 && server.close().len() == 1)
}

#[test]
fn a_first_push_is_joined_once(rt: HostRuntime) -> Result<(), Fail> {
    assert!(rt; is_joined_once(rt.alloc())?);
    let mut storm = Storm::new(3);
    assert!(rt; storm.fate() == Fate::LosePush && storm.fate() == Fate::Twice);
    assert!(rt; Fair.fate() == Fate::Pass);
    Ok(())
}
