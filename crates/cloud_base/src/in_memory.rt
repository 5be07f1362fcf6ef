// A source and a sink in memory.
ghost use Rattle.std.specs.Prelude.{◌≡◌, ◌≤◌, ◌<◌, [], length, min, None, Some, IfOk};
ghost use Rattle.std.specs.Result.{result_ok};
ghost use Rattle.cloud_base.specs.Causes.{HasCause};
ghost use Rattle.cloud_base.specs.Streams.{HandsOut, Ends, Takes, TakesCause, after_read};
ghost use Rattle.cloud_base.specs.Streams.{read_answer, after_write, write_answer};
ghost use Rattle.cloud_base.specs.Streams.{one_sooner as sooner};

use crate::memory::Memory;
use crate::streams::{Failed, Sink, Source};
use std::alloc::Global;
use std::marker::Model;

/// A source over bytes in memory. It hands out at most `piece` bytes a call, and one call may fail.
#[derive(Drop)]
pub struct MemSource {
    bytes: Vec<u8>,
    at: usize,
    piece: usize,
    fails_in: Option<u64>,
    faults: u64,
    ends: u64,
}

impl Model for MemSource {
    ghost use Rattle.std.specs.Prelude.{◌≤◌, drop, vec_len};
    ghost use Rattle.cloud_base.specs.Streams.{Reading};

    ghost Value = { Reading };

    ghost view = { λ s. record {
      left = drop s.at s.bytes.items;
      piece = s.piece;
      fails_in = s.fails_in;
      faults = s.faults;
      ends = s.ends;
    } };

    ghost invariant = { λ s. (s.at ≤ vec_len s.bytes) × (1 ≤ s.piece) };
}

impl MemSource {
    /// A source that has a copy of `bytes` left. Its call number `fail_at`, from 0, fails.
    pub fn new(
        alloc: Global,
        bytes: &[u8],
        piece: usize,
        fail_at: Option<u64>,
    ) -> Result<MemSource, Memory>
        requires { 1 ≤ piece }
        ensures { IfOk result (λ source. source ≡ record {
          left = bytes.now;
          piece = piece;
          fails_in = fail_at;
          faults = 0;
          ends = 0;
        }) }
    {
        Ok(MemSource {
            bytes: Vec::from_slice(alloc, bytes)?,
            at: 0,
            piece,
            fails_in: fail_at,
            faults: 0,
            ends: 0,
        })
    }
}

// The calls before the failing one, after this call.
fn one_sooner(fails_in: Option<u64>) -> Option<u64>
    ensures { result ≡ sooner fails_in }
{
    match fails_in {
        None | Some(0) => None,
        Some(n) => Some(n - 1),
    }
}

impl Source for MemSource {
    ghost left = { λ s. Some s.left };

    ghost faults = { λ s. s.faults };

    ghost ends = { λ s. s.ends };

    fn read(&mut self, into: &mut [u8]) -> Result<usize, Failed>
        requires { 0 < length into.old }
        ensures bound { IfOk result (λ n. n ≤ length into.old) }
        ensures len { length into.new ≡ length into.old }
        ensures bytes { HandsOut (Some self.old.left) (Some self.new.left) result into.new }
        ensures cause { HasCause self.old.faults self.new.faults result }
        ensures end { Ends self.old.ends self.new.ends result }
        ensures answer { result_ok result ≡ read_answer self.old (length into.old) }
        ensures after { self.new ≡ after_read self.old (length into.old) }
    {
        if self.fails_in == Some(0) {
            self.fails_in = None;
            self.faults = self.faults.saturating_add(1);
            return Err(Failed);
        }
        self.fails_in = one_sooner(self.fails_in);
        let count = self.piece.min(into.len()).min(self.bytes.len() - self.at);
        into[..count].copy_from_slice(&self.bytes[self.at..self.at + count]);
        self.at += count;
        if count == 0 {
            self.ends = self.ends.saturating_add(1);
        }
        Ok(count)
    }
}

/// A sink in memory. It takes at most `piece` bytes a call and holds at most `room` bytes, and a
/// call that finds it full fails.
#[derive(Drop)]
pub struct MemSink {
    held: Vec<u8>,
    piece: usize,
    room: usize,
    faults: u64,
}

impl Model for MemSink {
    ghost use Rattle.std.specs.Prelude.{◌≤◌, vec_len, vec_capacity};
    ghost use Rattle.cloud_base.specs.Streams.{Writing};

    ghost Value = { Writing };

    ghost view = { λ s. record {
      held = s.held.items;
      piece = s.piece;
      room = s.room;
      faults = s.faults;
    } };

    ghost invariant = { λ s. (vec_len s.held ≤ s.room)
        × (s.room ≤ vec_capacity s.held)
        × (1 ≤ s.piece) };
}

impl MemSink {
    /// An empty sink. It takes the memory for `room` bytes at once, and a write takes none.
    pub fn new(alloc: Global, piece: usize, room: usize) -> Result<MemSink, Memory>
        requires { 1 ≤ piece }
        ensures { IfOk result (λ sink. sink ≡ record {
          held = [];
          piece = piece;
          room = room;
          faults = 0;
        }) }
    {
        Ok(MemSink {
            held: Vec::with_capacity(alloc, room)?,
            piece,
            room,
            faults: 0,
        })
    }

    pub fn held(&self) -> &[u8]
        ensures { result.now ≡ self.now.held }
    {
        self.held.as_slice()
    }
}

impl Sink for MemSink {
    ghost holds = { λ s. Some s.held };

    ghost faults = { λ s. s.faults };

    fn write(&mut self, piece: &[u8]) -> Result<usize, Failed>
        ensures bound { IfOk result (λ n. n ≤ length piece.now) }
        ensures bytes { Takes (Some self.old.held) (Some self.new.held) result piece.now }
        ensures cause { TakesCause self.old.faults self.new.faults result piece.now }
        ensures answer { result_ok result ≡ write_answer self.old piece.now }
        ensures after { self.new ≡ after_write self.old piece.now }
    {
        if self.held.len() == self.room {
            self.faults = self.faults.saturating_add(1);
            return Err(Failed);
        }
        let count = self.piece.min(piece.len()).min(self.room - self.held.len());
        self.held.extend_from_slice(&piece[..count]).unwrap();
        Ok(count)
    }
}

#[cfg(test)]
mod tests {
    use super::*;
    use std::test::Fail;

    #[test]
    fn a_source_hands_out_pieces(rt: HostRuntime) -> Result<(), Fail> {
        let mut source = MemSource::new(rt.alloc(), b"abc", 2, Some(2))?;
        let mut into = [0; 8];
        for (answer, prefix) in [
            (Ok(2), b"ab".as_slice()),
            (Ok(1), b"c"),
            (Err(Failed), b"c"),
            (Ok(0), b"c"),
        ] {
            assert!(rt; source.read(&mut into) == answer);
            assert!(rt; into.starts_with(prefix));
        }
        Ok(())
    }

    #[test]
    fn a_sink_takes_what_it_has_room_for(rt: HostRuntime) -> Result<(), Fail> {
        let mut sink = MemSink::new(rt.alloc(), 2, 3)?;
        for (answer, held) in [
            (Ok(2), b"ab".as_slice()),
            (Ok(1), b"aba"),
            (Err(Failed), b"aba"),
        ] {
            assert!(rt; sink.write(b"abc") == answer);
            assert_eq!(rt; sink.held(), held);
        }
        Ok(())
    }
}
