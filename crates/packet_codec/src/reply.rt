// What the server answers.
ghost use Rattle.std.specs.Prelude.{◌≡◌, IfOk};
ghost use Rattle.std.specs.Arc.{arc_value};
ghost use Rattle.batch_joins.specs.Joins.{all_updates};
ghost use Rattle.change_lists.specs.Images.{IsImage};
ghost use Rattle.packet_codec.specs.Replies.{IsReply};
ghost use Rattle.packet_codec.specs.Runs.{reply_of_run};

use crate::fronts::Fronts;
use crate::laws::packets_are_spelled;
use bytes::Bytes;
use change_lists::Image;
use cloud_base::{Memory, Schema};
use packet_bytes::{ReadFault, Wire, read};
use slot_hub::Numbered;
use std::alloc::Global;
use std::marker::Model;
use std::sync::Arc;

/// What the server answers a client's round with: the bytes that tell what its record comes to, and
/// tokens of that record and of the client's batches in it.
///
/// By its type a reply keeps that its bytes are those of the record, that the record is sound and
/// answered right, and that its client's last batch in it is the one of this round.
#[derive(Drop)]
pub struct Reply {
    alloc: Global,
    schema: Arc<Schema, Global>,
    wire: Bytes,
    client: u8,
    round: u64,
    fronts: Fronts,
}

impl Model for Reply {
    ghost use Rattle.std.specs.Arc.{arc_value};
    ghost use Rattle.packet_codec.specs.Replies.{Replied, IsReply};

    ghost Value = { Replied };

    ghost view = { λ r. record {
      schema = arc_value r.schema;
      wire = r.wire;
      client = r.client;
      round = r.round;
      past = r.fronts.past;
      own = r.fronts.own;
    } };

    ghost invariant = { λ r. IsReply (record {
      schema = arc_value r.schema;
      wire = r.wire;
      client = r.client;
      round = r.round;
      past = r.fronts.past;
      own = r.fronts.own;
    }) };
}

impl Reply {
    /// The reply of these parts. It takes no memory.
    pub fn new(
        alloc: Global,
        schema: Arc<Schema, Global>,
        wire: Bytes,
        client: u8,
        round: u64,
        fronts: Fronts,
    ) -> Reply
        requires { IsReply (record {
          schema = arc_value schema;
          wire = wire;
          client = client;
          round = round;
          past = fronts.past;
          own = fronts.own;
        }) }
        ensures { result ≡ record {
          schema = arc_value schema;
          wire = wire;
          client = client;
          round = round;
          past = fronts.past;
          own = fronts.own;
        } }
    {
        Reply {
            alloc,
            schema,
            wire,
            client,
            round,
            fronts,
        }
    }

    /// What each reply keeps.
    pub fn keeps(&self)
        ensures { IsReply self.now }
    {
        let _ = &self.fronts;
    }

    pub fn wire(&self) -> &[u8]
        ensures { result.now ≡ self.now.wire }
    {
        self.wire.as_slice()
    }

    /// What the record comes to, as the bytes tell it. They are read, which fails for nothing but
    /// want of memory.
    pub fn image(&self) -> Result<Image, Memory>
        ensures { IfOk result (λ image.
            IsImage self.now.schema (all_updates self.now.past.list) image) }
    {
        packets_are_spelled();
        match read(self.alloc, &self.schema, self.wire.as_slice()) {
            Ok(Wire::Reply { image, .. }) => Ok(image),
            Ok(Wire::Push { .. }) => unreachable!(),
            Err(ReadFault::Wire(_)) => unreachable!(),
            Err(ReadFault::Memory) => Err(Memory),
        }
    }

    /// Second fronts of its lists.
    pub fn copy_fronts(&mut self) -> Result<Fronts, Memory>
        ensures past { IfOk result (λ fronts. fronts.past ≡ self.old.past) }
        ensures own { IfOk result (λ fronts. fronts.own ≡ self.old.own) }
        ensures same { self.new ≡ self.old }
    {
        self.fronts.copy()
    }

    /// Its fronts. It takes no memory.
    pub fn into_fronts(self) -> Fronts
        ensures past { result.past ≡ self.past }
        ensures own { result.own ≡ self.own }
    {
        let Reply {
            alloc: _,
            schema: _,
            wire: _,
            client: _,
            round: _,
            fronts,
        } = self;
        fronts
    }
}

impl Numbered for Reply {
    ghost round_of = { λ reply. reply.round };

    ghost client_of = { λ reply. reply.client };

    ghost of_run = { reply_of_run };

    fn round(&self) -> u64
        ensures { result ≡ self.now.round }
    {
        self.round
    }

    fn client(&self) -> u8
        ensures { result ≡ self.now.client }
    {
        self.client
    }
}
