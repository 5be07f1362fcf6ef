// Reading a whole source and writing a whole text.
ghost use Rattle.std.specs.Prelude.{◌≡◌, ◌<◌, ◌≤◌, ◌+◌, length, OnOk, OnErr, IfOk, vec_len};
ghost use Rattle.cloud_base.specs.Causes.{HasCause};
ghost use Rattle.cloud_run.specs.Flows.{Got, GotPart, ReadsPiece, ReadsAll};

use cloud_base::{Failed, Sequence, Sink, Source};
use cloud_parse::MOST_SOURCE_BYTES;
use std::alloc::Global;

// The most bytes of one read.
const PIECE: usize = 1024;

// The most bytes that are read: one more than a source may have.
const MOST_READ: usize = MOST_SOURCE_BYTES + 1;

// Why a source isn't read whole.
#[derive(Clone, Copy, Debug, PartialEq, Eq, Drop)]
pub(crate) enum ReadError {
    Failed,
    Memory,
}

// What a read found.
#[derive(Clone, Copy, Debug, PartialEq, Eq, Drop)]
pub(crate) enum Found {
    Bytes,
    End,
}

// One read, into `piece`. Its bytes go to the end of what was taken.
fn take_piece<S: Source>(
    source: &mut S,
    taken: &mut Vec<u8>,
    piece: &mut [u8],
) -> Result<Found, ReadError>
    requires { 0 < length piece.old }
    ensures piece { length piece.new ≡ length piece.old }
    ensures read { ReadsPiece S.left S.faults S.ends (length piece.old) source.old source.new
        taken.old.items taken.new.items result }
    // A turn takes a byte, unless it is the last one, and no more than there is room for.
    ensures turn { IfOk result (λ f. f ≡ Found.Bytes → vec_len taken.old + 1 ≤ vec_len taken.new) }
    ensures still { IfOk result (λ f. f ≡ Found.End → vec_len taken.new ≡ vec_len taken.old) }
    ensures bound { OnOk result (vec_len taken.new ≤ vec_len taken.old + length piece.old) }
{
    let Ok(count) = source.read(&mut *piece) else {
        return Err(ReadError::Failed);
    };
    if count == 0 {
        return Ok(Found::End);
    }
    if taken.extend_from_slice(&piece[..count]).is_err() {
        return Err(ReadError::Memory);
    }
    Ok(Found::Bytes)
}

/// All that the source has left, or one byte more than a source may have of it.
#[tactic(auto, using(crate::proofs::Pieces::handed_parts))]
pub(crate) fn take_all<S: Source>(alloc: Global, source: &mut S) -> Result<Sequence<u8>, ReadError>
    ensures { ReadsAll S.left S.faults S.ends source.old source.new result }
{
    let mut taken = Vec::new(alloc);
    let mut piece = [0u8; PIECE];
    while taken.len() < MOST_READ {
        let room = PIECE.min(MOST_READ - taken.len());
        match take_piece(&mut *source, &mut taken, &mut piece[..room])? {
            Found::Bytes => {}
            Found::End => break,
        }
    }
    Ok(Sequence::from_vec(taken))
}

/// Writes the text, piece by piece until all is taken.
pub(crate) fn write_all<K: Sink>(sink: &mut K, text: &[u8]) -> Result<(), Failed>
    ensures cause { HasCause (K.faults sink.old) (K.faults sink.new) result }
    ensures whole { OnOk result (Got (K.holds sink.old) (K.holds sink.new) text.now) }
    ensures part { OnErr result (GotPart (K.holds sink.old) (K.holds sink.new) text.now) }
{
    let mut at = 0;
    while at < text.len() {
        match sink.write(&text[at..]) {
            Ok(0) | Err(_) => return Err(Failed),
            Ok(count) => at += count,
        }
    }
    Ok(())
}
