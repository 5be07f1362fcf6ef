// Runs one command: reads a source from standard input and writes what the command makes of it.
#![tactic(auto)]

mod arguments;
#[cfg(test)]
mod cases;
mod command;
mod flows;
#[cfg(test)]
mod further_sources;
#[cfg(test)]
mod kinds;
mod laws;
#[cfg(test)]
mod more_sources;
#[cfg(test)]
mod packet_tests;
#[cfg(test)]
mod packets;
#[cfg(test)]
mod reports;
#[cfg(test)]
mod runs;
#[cfg(test)]
mod sources;
mod status;
#[cfg(test)]
mod tests;
mod top;
mod words;

use arguments::given_words;
use cloud_base::{StdSink, StdSource};
pub use command::Command;
pub use laws::texts_come_out_once;
pub use status::Status;
use std::env;
use std::process::ExitCode;
pub use top::{top, top_plain};
pub use words::{Words, words_of_commands};

fn main(rt: HostRuntime) -> ExitCode {
    let mut source = StdSource::new(rt.stdin());
    let mut sink = StdSink::new(rt.stdout());
    let status = match given_words(rt.alloc(), env::args(&rt)) {
        Ok(words) => top(&rt, rt.alloc(), &words, &mut source, &mut sink),
        Err(status) => status,
    };
    if status != Status::Done {
        let _ = eprintln!(rt; "{status}");
    }
    ExitCode::from(status.number())
}
