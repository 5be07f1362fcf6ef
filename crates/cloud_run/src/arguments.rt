// The words that the program is given.
ghost use Rattle.std.specs.Prelude.{◌≡◌, ◌↔◌, ◌⊎◌, drop, map, string_bytes, IfOk, IfErr, IsOkAnd};
ghost use Rattle.std.specs.Prelude.{IsErrAnd, IsErrOf};
ghost use Rattle.std.specs.Vec.Iter.{into_iter_items};
ghost use Rattle.std.specs.IoError.{error_kind};

use crate::status::Status;
use crate::words::Words;
use std::alloc::Global;
use std::env::Args;
use std::io;
use std::io::ErrorKind;

/// The words of the arguments, without the first one, which is the program's name.
pub(crate) fn given_words(alloc: Global, arguments: io::Result<Args>) -> Result<Words, Status>
    ensures words { IfOk result (λ words. IsOkAnd arguments (λ given.
        words ≡ map string_bytes (drop 1 (into_iter_items given)))) }
    // An argument that isn't UTF-8 is no word of a command.
    ensures no_text { IsErrOf result Status.Words ↔
        IsErrAnd arguments (λ e. error_kind e ≡ ErrorKind.InvalidData) }
    ensures refusal { IfErr result (λ s. (s ≡ Status.Words) ⊎ (s ≡ Status.Memory)) }
{
    let mut arguments = match arguments {
        Ok(arguments) => arguments,
        Err(e) if e.kind() == ErrorKind::InvalidData => return Err(Status::Words),
        Err(_) => return Err(Status::Memory),
    };
    let _ = arguments.next();
    let mut words = Words::new(alloc);
    for argument in arguments {
        if words.push(argument.as_str()).is_err() {
            return Err(Status::Memory);
        }
    }
    Ok(words)
}
