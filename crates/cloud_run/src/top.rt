// The top call: one command, from the source's bytes to the sink's.
ghost use Rattle.std.specs.Prelude.{Some, Err, IfOk, IfErr, OnOk};
ghost use Rattle.kind_check.specs.KindAnswers.{KindAnswers};
ghost use Rattle.cloud_run.specs.Commands.{command_of};
ghost use Rattle.cloud_run.specs.Runs.{ReadsTree, Runs};
ghost use Rattle.cloud_run.specs.Top.{KeepsKinds, ParsesAgain, ListsCodes, ReportsRun};
ghost use Rattle.cloud_run.specs.Top.{program_of, IsLawfulText, TextOf};

use crate::command::Command;
use crate::flows::{ReadError, take_all, write_all};
use crate::status::Status;
use crate::words::Words;
use cloud_base::{Failed, Sequence, Sink, Source};
use cloud_parse::{ParseFault, Parsed, one_answer, parse};
use cloud_play::run;
use code_gen::{codes_mean_bodies, listing};
use diagram_text::{report, reports_are_diagrams};
use kind_check::{KindFault, check};
use print_parses::print_parses;
use source_print::print;
use source_tokens::scanned_tokens;
use std::alloc::Global;
use std::sync::Wait;
use std::thread::Threads;

// What is parsed of all that the source has left.
#[tactic(auto, using(crate::proofs::Calls::reading))]
fn read_tree<S: Source>(alloc: Global, source: &mut S) -> Result<Parsed, Status>
    ensures { ReadsTree S.left S.faults S.ends source.old source.new result }
{
    let text = match take_all(alloc, &mut *source) {
        Ok(text) => text,
        Err(ReadError::Failed) => return Err(Status::ReadFault),
        Err(ReadError::Memory) => return Err(Status::Memory),
    };
    scanned_tokens();
    match parse(alloc, text.as_slice()) {
        Ok(parsed) => Ok(parsed),
        Err(ParseFault::Limit(which)) => Err(Status::Limit(which)),
        Err(ParseFault::Syntax { line, column }) => Err(Status::Syntax { line, column }),
        Err(ParseFault::Memory) => Err(Status::Memory),
    }
}

// The canonical text of a source.
fn canonical_text(alloc: Global, source: Parsed) -> Result<Sequence<u8>, KindFault>
    ensures text { IfOk result (TextOf Command.Check source) }
    ensures lawful { IfOk result (ParsesAgain source.tree) }
    ensures kinds { OnOk result (KeepsKinds source) }
    ensures fault { IfErr result (λ fault. KindAnswers source (Err fault)) }
{
    let _ = source.tree.program();
    print_parses();
    let text = print(alloc, &source.tree)?;
    check(alloc, source)?;
    Ok(Sequence::from_vec(text))
}

// The listing of the codes of a source's clients.
#[tactic(auto, using(crate::proofs::Calls::listed))]
fn code_listing(alloc: Global, source: Parsed) -> Result<Sequence<u8>, KindFault>
    ensures text { IfOk result (TextOf Command.Code source) }
    ensures lawful { IfOk result (ListsCodes (program_of source)) }
    ensures kinds { OnOk result (KeepsKinds source) }
    ensures fault { IfErr result (λ fault. KindAnswers source (Err fault)) }
{
    let program = check(alloc, source)?;
    let _ = program.schema();
    codes_mean_bodies();
    let text = listing(alloc, &program)?;
    Ok(Sequence::from_vec(text))
}

// The report of the run of a source's program.
#[tactic(auto, using(crate::proofs::Calls::reported))]
fn report_of(alloc: Global, source: Parsed) -> Result<Sequence<u8>, KindFault>
    ensures text { IfOk result (TextOf Command.Play source) }
    ensures lawful { IfOk result (ReportsRun (program_of source)) }
    ensures kinds { OnOk result (KeepsKinds source) }
    ensures fault { IfErr result (λ fault. KindAnswers source (Err fault)) }
{
    let program = check(alloc, source)?;
    let _ = program.schema();
    reports_are_diagrams();
    let history = run(alloc, &program)?;
    let text = report(alloc, &program, &history)?;
    Ok(Sequence::from_vec(text))
}

// The text that the command makes of a source.
fn text_of(alloc: Global, command: Command, source: Parsed) -> Result<Sequence<u8>, KindFault>
    ensures text { IfOk result (TextOf command source) }
    ensures lawful { IfOk result (IsLawfulText command source) }
    ensures kinds { OnOk result (KeepsKinds source) }
    ensures fault { IfErr result (λ fault. KindAnswers source (Err fault)) }
{
    match command {
        Command::Check => canonical_text(alloc, source),
        Command::Code => code_listing(alloc, source),
        Command::Play => report_of(alloc, source),
    }
}

// Does what the command says. It reads the source to its end before it writes.
#[tactic(auto, using(crate::proofs::Calls::ending))]
fn obey<S: Source, K: Sink>(alloc: Global, command: Command, source: &mut S, sink: &mut K) -> Status
    ensures { Runs S.left S.faults S.ends K.holds K.faults (Some command) result
        source.old source.new sink.old sink.new }
{
    one_answer();
    let parsed = match read_tree(alloc, &mut *source) {
        Ok(parsed) => parsed,
        Err(status) => return status,
    };
    let text = match text_of(alloc, command, parsed) {
        Ok(text) => text,
        Err(KindFault::Rule { rule, line }) => return Status::Kind { rule, line },
        Err(KindFault::Memory) => return Status::Memory,
    };
    match write_all(&mut *sink, text.as_slice()) {
        Ok(()) => Status::Done,
        Err(Failed) => Status::WriteFault,
    }
}

/// Runs the command that the words are, for every command that doesn't wait. Each reads the source
/// to its end; then `check` writes its canonical text, `code` the codes of its clients, and `play`
/// the report of its run.
#[tactic(auto, using(crate::proofs::Calls::no_command))]
pub fn top_plain<S: Source, K: Sink>(
    alloc: Global,
    words: &Words,
    source: &mut S,
    sink: &mut K,
) -> Status
    ensures { Runs S.left S.faults S.ends K.holds K.faults (command_of words.now) result
        source.old source.new sink.old sink.new }
{
    match words.command() {
        Some(command) => obey(alloc, command, &mut *source, &mut *sink),
        None => Status::Words,
    }
}

/// Runs the command that the words are.
pub fn top<R: Threads + Wait + Sync, S: Source, K: Sink>(
    rt: &R,
    alloc: Global,
    words: &Words,
    source: &mut S,
    sink: &mut K,
) -> Status
    ensures { Runs S.left S.faults S.ends K.holds K.faults (command_of words.now) result
        source.old source.new sink.old sink.new }
{
    // No command waits so far.
    let _ = rt;
    top_plain(alloc, words, &mut *source, &mut *sink)
}
