// What a client sends.
ghost use Rattle.std.specs.Prelude.{◌≡◌, IfOk};
ghost use Rattle.std.specs.Arc.{arc_value};
ghost use Rattle.batch_history.specs.Batches.{updates_in, flat};
ghost use Rattle.change_lists.specs.Effects.{IsEffect};
ghost use Rattle.packet_codec.specs.Pushes.{IsPush};
ghost use Rattle.packet_codec.specs.Runs.{push_of_run};

use crate::fronts::Fronts;
use crate::laws::packets_are_spelled;
use bytes::Bytes;
use change_lists::Change;
use cloud_base::{Batch, Memory, Schema};
use packet_bytes::{ReadFault, Wire, read};
use slot_hub::Numbered;
use std::alloc::Global;
use std::marker::Model;
use std::sync::Arc;

/// What a client sends to the server: its batch of a round, the bytes that tell what that did, and
/// tokens of what the client had seen.
///
/// By its type a push keeps that its bytes are those of its batch, that it follows what its client
/// had seen, that its client's batches are answered right, and how much they hold.
#[derive(Drop)]
pub struct Push {
    alloc: Global,
    schema: Arc<Schema, Global>,
    wire: Bytes,
    batch: Batch,
    fronts: Fronts,
}

impl Model for Push {
    ghost use Rattle.std.specs.Arc.{arc_value};
    ghost use Rattle.packet_codec.specs.Pushes.{Pushed, IsPush};

    ghost Value = { Pushed };

    ghost view = { λ p. record {
      schema = arc_value p.schema;
      wire = p.wire;
      batch = p.batch;
      past = p.fronts.past;
      own = p.fronts.own;
    } };

    ghost invariant = { λ p. IsPush (record {
      schema = arc_value p.schema;
      wire = p.wire;
      batch = p.batch;
      past = p.fronts.past;
      own = p.fronts.own;
    }) };
}

impl Push {
    /// The push of these parts. It takes no memory.
    pub fn new(
        alloc: Global,
        schema: Arc<Schema, Global>,
        wire: Bytes,
        batch: Batch,
        fronts: Fronts,
    ) -> Push
        requires { IsPush (record {
          schema = arc_value schema;
          wire = wire;
          batch = batch;
          past = fronts.past;
          own = fronts.own;
        }) }
        ensures { result ≡ record {
          schema = arc_value schema;
          wire = wire;
          batch = batch;
          past = fronts.past;
          own = fronts.own;
        } }
    {
        Push {
            alloc,
            schema,
            wire,
            batch,
            fronts,
        }
    }

    /// What each push keeps.
    pub fn keeps(&self)
        ensures { IsPush self.now }
    {
        let _ = &self.batch;
    }

    pub fn wire(&self) -> &[u8]
        ensures { result.now ≡ self.now.wire }
    {
        self.wire.as_slice()
    }

    pub fn batch(&self) -> &Batch
        ensures { result.now ≡ self.now.batch }
    {
        &self.batch
    }

    /// What the batch did after what its client had seen below its base, as the bytes tell it. They
    /// are read, which fails for nothing but want of memory.
    pub fn change(&self) -> Result<Change, Memory>
        ensures { IfOk result (λ change. IsEffect self.now.schema
            (flat self.now.past.list self.now.batch.base) (updates_in self.now.batch) change) }
    {
        packets_are_spelled();
        match read(self.alloc, &self.schema, self.wire.as_slice()) {
            Ok(Wire::Push { change, .. }) => Ok(change),
            Ok(Wire::Reply { .. }) => unreachable!(),
            Err(ReadFault::Wire(_)) => unreachable!(),
            Err(ReadFault::Memory) => Err(Memory),
        }
    }

    /// Second fronts of its lists.
    pub fn copy_fronts(&mut self) -> Result<Fronts, Memory>
        ensures past { IfOk result (λ fronts. fronts.past ≡ self.old.past) }
        ensures own { IfOk result (λ fronts. fronts.own ≡ self.old.own) }
        ensures same { self.new ≡ self.old }
    {
        self.fronts.copy()
    }

    /// A second push of the same. This one stays as it was, also where memory runs out.
    pub fn copy(&mut self) -> Result<Push, Memory>
        ensures whole { IfOk result (λ copy. copy ≡ self.old) }
        ensures same { self.new ≡ self.old }
    {
        let schema = Arc::try_clone(&self.schema)?;
        let wire = self.wire.clone()?;
        let fronts = self.fronts.copy()?;
        let batch = self.batch.copy(self.alloc)?;
        Ok(Push {
            alloc: self.alloc,
            schema,
            wire,
            batch,
            fronts,
        })
    }
}

impl Numbered for Push {
    ghost round_of = { λ push. push.batch.round };

    ghost client_of = { λ push. push.batch.client };

    ghost of_run = { push_of_run };

    fn round(&self) -> u64
        ensures { result ≡ self.now.batch.round }
    {
        self.batch.round
    }

    fn client(&self) -> u8
        ensures { result ≡ self.now.batch.client }
    {
        self.batch.client
    }
}
