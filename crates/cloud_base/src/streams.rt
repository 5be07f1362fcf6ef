// What is read from and written to.
ghost use Rattle.std.specs.Prelude.{◌≡◌, ℕ, List, [], ◌<◌, ◌≤◌, length, Option, None, IfOk};
ghost use Rattle.cloud_base.specs.Causes.{HasCause};
ghost use Rattle.cloud_base.specs.Streams.{HandsOut, Ends, Takes, TakesCause};

/// The answer of a call of a source or a sink whose count of faults rose.
#[derive(Clone, Copy, Debug, PartialEq, Eq, Drop)]
pub struct Failed;

/// A source of bytes. `left` is what it has left, where it tells that. The counts of faults and of
/// ends never fall, and stand still at `u64::MAX`.
pub trait Source {
    ghost left: { Self → Option (List ℕ) };

    ghost faults: { Self → ℕ };

    ghost ends: { Self → ℕ };

    /// Reads into the first places of `into`. The answer is how many bytes, 0 at the end.
    fn read(&mut self, into: &mut [u8]) -> Result<usize, Failed>
        requires { 0 < length into.old }
        ensures bound { IfOk result (λ n. n ≤ length into.old) }
        ensures len { length into.new ≡ length into.old }
        ensures bytes { HandsOut (left self.old) (left self.new) result into.new }
        ensures cause { HasCause (faults self.old) (faults self.new) result }
        ensures end { Ends (ends self.old) (ends self.new) result };
}

/// A sink of bytes. `holds` is what it holds, where it tells that. The count of faults never falls,
/// and stands still at `u64::MAX`.
pub trait Sink {
    ghost holds: { Self → Option (List ℕ) };

    ghost faults: { Self → ℕ };

    /// Takes the first bytes of `piece`. The answer is how many.
    fn write(&mut self, piece: &[u8]) -> Result<usize, Failed>
        ensures bound { IfOk result (λ n. n ≤ length piece.now) }
        ensures bytes { Takes (holds self.old) (holds self.new) result piece.now }
        ensures cause { TakesCause (faults self.old) (faults self.new) result piece.now };
}
