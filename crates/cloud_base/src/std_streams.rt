// Sources and sinks over std's readers and writers. They are the trusted edge: what a file or a
// terminal gives or takes no contract tells, nor that a writer is flushed. Of a reader or a writer
// that does tell its bytes, as one over memory, the clauses `reader` and `writer` say that these
// are passed on.
ghost use Rattle.std.specs.Prelude.{◌≡◌, ◌<◌, ◌≤◌, ℕ, [], length, take, None, IfOk, MatchResult};
ghost use Rattle.std.specs.Io.KnownBytes.{ReadConsumes, Appends};
ghost use Rattle.cloud_base.specs.Causes.{HasCause, FaultCount};
ghost use Rattle.cloud_base.specs.Streams.{HandsOut, Ends, EndCount, Takes, TakesCause};

use crate::streams::{Failed, Sink, Source};
use std::io::{Read, Write};

/// A reader of std. Each error of its calls is counted and answered as `Failed`.
#[derive(Drop)]
pub struct StdSource<R> {
    inner: R,
    faults: u64,
    ends: u64,
}

impl<R: Read> StdSource<R> {
    pub fn new(reader: R) -> StdSource<R>
        ensures reader { result.inner ≡ reader }
        ensures faults { ⟦<StdSource<R> as Source>⟧.faults result ≡ 0 }
        ensures ends { ⟦<StdSource<R> as Source>⟧.ends result ≡ 0 }
    {
        StdSource {
            inner: reader,
            faults: 0,
            ends: 0,
        }
    }
}

impl<R: Read> Source for StdSource<R> {
    ghost left = { λ _. None };

    ghost faults = { λ s. s.faults };

    ghost ends = { λ s. s.ends };

    fn read(&mut self, into: &mut [u8]) -> Result<usize, Failed>
        requires { 0 < length into.old }
        ensures bound { IfOk result (λ n. n ≤ length into.old) }
        ensures len { length into.new ≡ length into.old }
        ensures bytes { HandsOut None None result into.new }
        ensures cause { HasCause self.old.faults self.new.faults result }
        ensures end { Ends self.old.ends self.new.ends result }
        ensures reader { ReadConsumes (R.remaining self.old.inner) (R.remaining self.new.inner)
            result into.new }
        ensures fault_count { FaultCount self.old.faults self.new.faults result }
        ensures end_count { EndCount self.old.ends self.new.ends result }
    {
        match self.inner.read(into) {
            Ok(count) => {
                if count == 0 {
                    self.ends = self.ends.saturating_add(1);
                }
                Ok(count)
            }
            Err(_) => {
                self.faults = self.faults.saturating_add(1);
                Err(Failed)
            }
        }
    }
}

/// A writer of std, flushed after each write. Each error of its calls is counted and answered as
/// `Failed`, and so is a write that takes nothing of a piece that isn't empty.
#[derive(Drop)]
pub struct StdSink<W> {
    inner: W,
    faults: u64,
}

impl<W: Write> StdSink<W> {
    pub fn new(writer: W) -> StdSink<W>
        ensures writer { result.inner ≡ writer }
        ensures faults { ⟦<StdSink<W> as Sink>⟧.faults result ≡ 0 }
    {
        StdSink {
            inner: writer,
            faults: 0,
        }
    }
}

impl<W: Write> Sink for StdSink<W> {
    ghost holds = { λ _. None };

    ghost faults = { λ s. s.faults };

    fn write(&mut self, piece: &[u8]) -> Result<usize, Failed>
        ensures bound { IfOk result (λ n. n ≤ length piece.now) }
        ensures bytes { Takes None None result piece.now }
        ensures cause { TakesCause self.old.faults self.new.faults result piece.now }
        ensures writer { let added = λ (n : ℕ). Appends (W.contents self.old.inner)
            (W.contents self.new.inner) (take n piece.now) in
            MatchResult result added (λ _. (n : ℕ) × added n) }
        ensures taken { IfOk result (λ n. n ≡ 0 → piece.now ≡ []) }
        ensures fault_count { FaultCount self.old.faults self.new.faults result }
    {
        let taken = match self.inner.write(piece) {
            Ok(count) => count,
            Err(_) => {
                self.faults = self.faults.saturating_add(1);
                return Err(Failed);
            }
        };
        let took_nothing = taken == 0 && !piece.is_empty();
        if took_nothing || self.inner.flush().is_err() {
            self.faults = self.faults.saturating_add(1);
            return Err(Failed);
        }
        Ok(taken)
    }
}

#[cfg(test)]
mod tests {
    use super::*;
    use std::io::{Error, ErrorKind};

    // A reader whose first call is interrupted, and which then gives one byte and comes to its end.
    #[derive(Drop)]
    struct Interrupted {
        calls: u64,
    }

    impl Read for Interrupted {
        fn read(&mut self, buf: &mut [u8]) -> std::io::Result<usize> {
            self.calls = self.calls.saturating_add(1);
            match self.calls {
                1 => Err(Error::from(ErrorKind::Interrupted)),
                2 if !buf.is_empty() => {
                    buf[0] = b'a';
                    Ok(1)
                }
                _ => Ok(0),
            }
        }
    }

    #[test]
    fn a_reader_is_asked_once_a_read(rt: HostRuntime) {
        let mut source = StdSource::new(Interrupted { calls: 0 });
        let mut into = [0; 4];
        for (answer, calls, faults, ends) in [
            (Err(Failed), 1, 1, 0),
            (Ok(1), 2, 1, 0),
            (Ok(0), 3, 1, 1),
        ] {
            assert!(rt; source.read(&mut into) == answer);
            assert_eq!(rt; source.inner.calls, calls);
            assert_eq!(rt; source.faults, faults);
            assert_eq!(rt; source.ends, ends);
        }
        assert_eq!(rt; into[0], b'a');
    }

    // A writer that takes at most `takes` bytes a call, and fails where it is said.
    #[derive(Drop)]
    struct Faulty {
        takes: usize,
        is_write_refused: bool,
        is_flush_refused: bool,
        flushes: u64,
    }

    impl Write for Faulty {
        fn write(&mut self, buf: &[u8]) -> std::io::Result<usize> {
            if self.is_write_refused {
                return Err(Error::from(ErrorKind::Interrupted));
            }
            Ok(self.takes.min(buf.len()))
        }

        fn flush(&mut self) -> std::io::Result<()> {
            self.flushes = self.flushes.saturating_add(1);
            if self.is_flush_refused {
                return Err(Error::from(ErrorKind::Interrupted));
            }
            Ok(())
        }
    }

    #[test]
    fn a_writer_takes_flushes_or_fails(rt: HostRuntime) {
        for (piece, takes, is_write_refused, is_flush_refused, answer, flushes, faults) in [
            (b"abc".as_slice(), 2, false, false, Ok(2), 1, 0),
            (b"abc", 0, false, false, Err(Failed), 0, 1),
            (b"abc", 2, true, false, Err(Failed), 0, 1),
            (b"abc", 2, false, true, Err(Failed), 1, 1),
            (b"", 2, false, false, Ok(0), 1, 0),
        ] {
            let mut sink = StdSink::new(Faulty {
                takes,
                is_write_refused,
                is_flush_refused,
                flushes: 0,
            });
            assert!(rt; sink.write(piece) == answer);
            assert_eq!(rt; sink.inner.flushes, flushes);
            assert_eq!(rt; sink.faults, faults);
        }
    }
}
