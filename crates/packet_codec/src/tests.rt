// A client yields, and is answered.
ghost use Rattle.std.specs.Prelude.{◌≡◌, [], ◌∷◌, IfOk};
ghost use Rattle.std.specs.Arc.{arc_value};
ghost use Rattle.packet_codec.specs.Pushes.{nothing, unchanged};
ghost use Rattle.packet_codec.specs.Replies.{blank};
ghost use Rattle.packet_codec.specs.Served.{opening};

use crate::{Fronts, Push, Reply, write_push, write_reply};
use change_lists::{Change, Image};
use cloud_base::{Batch, Event, Schema, Sequence};
use front_table::{Front, Writer};
use slot_hub::Numbered;
use std::alloc::Global;
use std::sync::Arc;
use std::test::Fail;

fn no_schema(alloc: Global) -> Result<Arc<Schema, Global>, Fail>
    ensures { IfOk result (λ schema. arc_value schema ≡ nothing) }
{
    let schema = Schema {
        properties: Sequence::new(alloc),
        entities: Sequence::new(alloc),
    };
    Ok(Arc::new(alloc, schema)?)
}

fn yielded(alloc: Global) -> Result<Batch, Fail>
    ensures { IfOk result (λ batch. batch ≡ opening) }
{
    let mut rest = Sequence::new(alloc);
    rest.push(Event::Yield)?;
    Ok(Batch {
        client: 1,
        round: 1,
        base: 0,
        before: Sequence::new(alloc),
        rest,
    })
}

fn no_change(alloc: Global) -> Result<Change, Fail>
    ensures { IfOk result (λ change. change ≡ unchanged) }
{
    if !Change::are_ordered(&[], &[], &[]) {
        return Err(Fail::from("no order"));
    }
    let (created, dead) = (Sequence::new(alloc), Sequence::new(alloc));
    Ok(Change::new(created, dead, Sequence::new(alloc)))
}

fn no_image(alloc: Global) -> Result<Image, Fail>
    ensures { IfOk result (λ image. image ≡ blank) }
{
    if !Image::are_ordered(&[], &[], &[]) {
        return Err(Fail::from("no order"));
    }
    let (created, dead) = (Sequence::new(alloc), Sequence::new(alloc));
    Ok(Image::new(created, dead, Sequence::new(alloc)))
}

// A front of no batch.
fn none_joined(alloc: Global) -> Result<Front<Batch>, Fail>
    ensures { IfOk result (λ front. front.list ≡ []) }
{
    let mut writer = Writer::new(alloc)?;
    Ok(writer.front()?)
}

// A front of the one batch.
fn one_joined(alloc: Global) -> Result<Front<Batch>, Fail>
    ensures { IfOk result (λ front. front.list ≡ opening ∷ []) }
{
    let batch = yielded(alloc)?;
    let mut writer = Writer::new(alloc)?;
    writer.append(&batch);
    Ok(writer.front()?)
}

fn first_push(alloc: Global) -> Result<Push, Fail> {
    let wire = write_push(alloc, 1, 1, 0, &no_change(alloc)?)?;
    let schema = no_schema(alloc)?;
    let batch = yielded(alloc)?;
    let past = none_joined(alloc)?;
    let own = one_joined(alloc)?;
    Ok(Push::new(alloc, schema, wire, batch, Fronts { past, own }))
}

fn first_reply(alloc: Global) -> Result<Reply, Fail> {
    let wire = write_reply(alloc, 1, 1, 1, &no_image(alloc)?)?;
    let schema = no_schema(alloc)?;
    let past = one_joined(alloc)?;
    let own = one_joined(alloc)?;
    Ok(Reply::new(alloc, schema, wire, 1, 1, Fronts { past, own }))
}

fn tells_of_a_yield(push: &Push) -> Result<bool, Fail> {
    let change = push.change()?;
    let is_first = push.round() == 1 && push.client() == 1 && push.batch().rest.len() == 1;
    Ok(is_first && push.wire().len() == 33 && change.cells().is_empty())
}

fn comes_to_nothing(reply: &Reply) -> Result<bool, Fail> {
    let image = reply.image()?;
    let is_first = reply.round() == 1 && reply.client() == 1;
    Ok(is_first && reply.wire().len() == 33 && image.cells().is_empty())
}

fn is_copied(push: &mut Push) -> Result<bool, Fail> {
    push.keeps();
    let fronts = push.copy_fronts()?;
    let copy = push.copy()?;
    Ok(tells_of_a_yield(&copy)? && fronts.past.len() == 0 && fronts.own.len() == 1)
}

fn has_one(mut reply: Reply) -> Result<bool, Fail> {
    reply.keeps();
    let copies = reply.copy_fronts()?;
    let fronts = reply.into_fronts();
    Ok(copies.past.len() == 1 && fronts.past.len() == 1 && fronts.own.len() == 1)
}

#[test]
fn a_yield_is_pushed_and_answered(rt: HostRuntime) -> Result<(), Fail> {
    let mut push = first_push(rt.alloc())?;
    assert!(rt; tells_of_a_yield(&push)? && is_copied(&mut push)?);
    let reply = first_reply(rt.alloc())?;
    assert!(rt; comes_to_nothing(&reply)? && has_one(reply)?);
    Ok(())
}
