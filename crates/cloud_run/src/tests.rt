// Commands over sources and sinks in memory.
use crate::arguments::given_words;
use crate::cases::CASES;
use crate::further_sources::FURTHER_SOURCES;
use crate::kinds::{ALONE, KEPT, KEYS, OPERATIONS, OTHERS, SHOP, TAKEN, UNKNOWN};
use crate::more_sources::MORE_SOURCES;
use crate::reports::REPORTS;
use crate::runs::{RUNS, TOLD};
use crate::sources::SOURCES;
use crate::{Command, Status, Words, top, top_plain};
use cloud_base::{MemSink, MemSource, StdSink, StdSource};
use cloud_parse::Which;
use std::alloc::Global;
use std::io;
use std::io::{Error, ErrorKind, Read, Write};
use std::test::Fail;

const SMALL: &str = "schema { } client a { }";

const SMALL_REPORT: &str = "fork 0 1 a\nend a Done\n";

const ROOM: usize = 1_000_000;

fn words(alloc: Global, given: &[&str]) -> Result<Words, Fail> {
    let mut words = Words::new(alloc);
    for word in given {
        words.push(word)?;
    }
    Ok(words)
}

// The status and what the sink took of a command over the text.
fn told(alloc: Global, word: &str, text: &[u8]) -> Result<(Status, MemSink), Fail> {
    let mut source = MemSource::new(alloc, text, ROOM, None)?;
    let mut sink = MemSink::new(alloc, ROOM, ROOM)?;
    let words = words(alloc, &[word])?;
    let status = top_plain(alloc, &words, &mut source, &mut sink);
    Ok((status, sink))
}

fn played(alloc: Global, text: &str) -> Result<(Status, MemSink), Fail> {
    told(alloc, "play", text.as_bytes())
}

fn checked(alloc: Global, text: &str) -> Result<(Status, MemSink), Fail> {
    told(alloc, "check", text.as_bytes())
}

// So many times the middle, between two ends.
fn around(
    alloc: Global,
    before: &str,
    middle: &str,
    times: u32,
    behind: &str,
) -> Result<String, Fail> {
    let mut text = String::from_str(alloc, before)?;
    for _ in 0..times {
        text.push_str(middle)?;
    }
    text.push_str(behind)?;
    Ok(text)
}

// One client over one global, with so many times this statement.
fn repeated(alloc: Global, statement: &str, times: u32) -> Result<String, Fail> {
    let before = "schema { global g : CInt; } client a {";
    around(alloc, before, statement, times, " }")
}

fn padded(alloc: Global, spaces: u32) -> Result<String, Fail> {
    around(alloc, SMALL, " ", spaces, "")
}

// A source of so many globals.
fn globals(alloc: Global, count: u32) -> Result<String, Fail> {
    let mut text = String::from_str(alloc, "schema { ")?;
    for number in 0..count {
        write!(text, "global g{number} : CInt; ")?;
    }
    text.push_str("} client a { }")?;
    Ok(text)
}

// A source of so many clients.
fn clients(alloc: Global, count: u32) -> Result<String, Fail> {
    let mut text = String::from_str(alloc, "schema { } ")?;
    for number in 0..count {
        write!(text, "client a{number} {{ }} ")?;
    }
    Ok(text)
}

#[test]
fn prints_reports(rt: HostRuntime) -> Result<(), Fail> {
    let alloc = rt.alloc();
    for table in [REPORTS, RUNS] {
        for (source, report) in table {
            let (status, sink) = played(alloc, source)?;
            assert_eq!(rt; status, Status::Done, "at {source}");
            assert_eq!(rt; sink.held(), report.as_bytes(), "at {source}");
        }
    }
    for (source, told) in TOLD {
        let (_, sink) = played(alloc, source)?;
        let Ok(report) = str::from_utf8(sink.held()) else {
            return Err(Fail::from("not a text"));
        };
        let mut lines = report.lines();
        let all = told.iter().all(|wanted| lines.any(|line| line == *wanted));
        assert!(rt; all, "at {source}");
    }
    Ok(())
}

#[test]
fn ends_where_the_turns_do(rt: HostRuntime) -> Result<(), Fail> {
    let alloc = rt.alloc();
    for (statement, times, step, steps, end) in [
        (" print g;", 8_192, "say 1 0", 8_192, "end a Done\n"),
        (" print g;", 8_193, "say 1 0", 8_192, "end a Spent\n"),
        (" yield;", 8_191, "mark ", 8_191, "end a Done\n"),
        (" print 1;", 16_384, "say 1 1", 16_384, "end a Done\n"),
        (" print 1;", 16_385, "say 1 1", 16_384, "end a Spent\n"),
    ] {
        let text = repeated(alloc, statement, times)?;
        let (status, sink) = played(alloc, text.as_str())?;
        assert_eq!(rt; status, Status::Done, "at {times} of {statement}");
        let Ok(report) = str::from_utf8(sink.held()) else {
            return Err(Fail::from("not a text"));
        };
        let found = report.lines().filter(|line| line.starts_with(step)).count();
        assert_eq!(rt; found, steps, "at {times} of {statement}");
        assert!(rt; report.ends_with(end), "at {times} of {statement}");
    }
    Ok(())
}

#[test]
fn refuses_texts_and_words(rt: HostRuntime) -> Result<(), Fail> {
    let alloc = rt.alloc();
    for (spaces, wanted) in [
        (262_121, Status::Done),
        (262_122, Status::Limit(Which::Bytes)),
    ] {
        let (status, _sink) = played(alloc, padded(alloc, spaces)?.as_str())?;
        assert_eq!(rt; status, wanted, "at {spaces} spaces");
    }
    let status = Status::Limit(Which::Steps);
    assert_eq!(rt; status.number(), 6);
    assert_eq!(rt; status.to_string(alloc)?.as_str(), "limit Steps");
    for given in [&[][..], &["play", "x"][..], &["plays"][..], &["Play"][..]] {
        let mut source = MemSource::new(alloc, SMALL.as_bytes(), 1, Some(0))?;
        let mut sink = MemSink::new(alloc, 1, 0)?;
        let words = words(alloc, given)?;
        assert_eq!(rt;
            top(&rt, alloc, &words, &mut source, &mut sink),
            Status::Words
        );
    }
    Ok(())
}

#[test]
fn checks_cases(rt: HostRuntime) -> Result<(), Fail> {
    let alloc = rt.alloc();
    for (source, line, written) in CASES {
        let (status, sink) = checked(alloc, source)?;
        assert_eq!(rt; status.to_string(alloc)?.as_str(), *line, "at {source}");
        assert_eq!(rt; sink.held(), written.as_bytes(), "at {source}");
        if status == Status::Done {
            let (_, again) = told(alloc, "check", sink.held())?;
            assert_eq!(rt; again.held(), written.as_bytes(), "at {written}");
        }
    }
    Ok(())
}

// The line of the status of `check`. Where that is a rule of kinds, the other commands say the
// same, and none writes.
fn kind_line(alloc: Global, source: &str) -> Result<String, Fail> {
    let (status, canonical) = checked(alloc, source)?;
    if let Status::Kind { .. } = status {
        for word in ["code", "play"] {
            let (other, text) = told(alloc, word, source.as_bytes())?;
            if other != status || !canonical.held().is_empty() || !text.held().is_empty() {
                return Err(Fail::from("the commands differ, or one writes"));
            }
        }
    }
    Ok(status.to_string(alloc)?)
}

#[test]
fn tells_kinds(rt: HostRuntime) -> Result<(), Fail> {
    let alloc = rt.alloc();
    for rows in [TAKEN, UNKNOWN, KEYS, OPERATIONS, OTHERS, KEPT] {
        for (clients, line) in rows {
            let source = around(alloc, SHOP, clients, 1, "")?;
            let found = kind_line(alloc, source.as_str())?;
            assert_eq!(rt; found.as_str(), *line, "at {clients}");
        }
    }
    for (source, line) in ALONE {
        assert_eq!(rt; kind_line(alloc, source)?.as_str(), *line, "at {source}");
    }
    assert_eq!(rt; Status::Kind { rule: 1, line: 2 }.number(), 5);
    Ok(())
}

#[test]
fn prints_sources(rt: HostRuntime) -> Result<(), Fail> {
    let alloc = rt.alloc();
    for table in [SOURCES, MORE_SOURCES, FURTHER_SOURCES] {
        for (source, canonical, listing, report) in table {
            let (_, sink) = checked(alloc, source)?;
            assert_eq!(rt; sink.held(), canonical.as_bytes(), "at {source}");
            let (_, again) = told(alloc, "check", sink.held())?;
            assert_eq!(rt; again.held(), canonical.as_bytes(), "at {canonical}");
            let (status, codes) = told(alloc, "code", source.as_bytes())?;
            assert_eq!(rt; status, Status::Done, "at {source}");
            assert_eq!(rt; codes.held(), listing.as_bytes(), "at {source}");
            let (_, played) = played(alloc, source)?;
            assert_eq!(rt; played.held(), report.as_bytes(), "at {source}");
        }
    }
    Ok(())
}

#[test]
fn tells_limits(rt: HostRuntime) -> Result<(), Fail> {
    let alloc = rt.alloc();
    let print = "schema { } client a { print ";
    let quote = "schema { } client a { print \"";
    let steps = "schema { } client a { } schedule { a 100000; ";
    for (source, line) in [
        (around(alloc, print, "9223372036854775807", 1, "; }")?, ""),
        (
            around(alloc, print, "9223372036854775808", 1, "; }")?,
            "limit Number",
        ),
        (around(alloc, print, "-", 30, "1; }")?, ""),
        (around(alloc, print, "-", 31, "1; }")?, "limit Height"),
        (around(alloc, quote, "x", 128, "\"; }")?, ""),
        (around(alloc, quote, "x", 129, "\"; }")?, "limit Text"),
        (globals(alloc, 256)?, ""),
        (globals(alloc, 257)?, "limit Names"),
        (clients(alloc, 8)?, ""),
        (clients(alloc, 9)?, "limit Clients"),
        (around(alloc, steps, "a 1; ", 0, "}")?, ""),
        (around(alloc, steps, "a 1; ", 1, "}")?, "limit Steps"),
        (padded(alloc, 262_121)?, ""),
        (padded(alloc, 262_122)?, "limit Bytes"),
        (around(alloc, "", "(", 64, "")?, "syntax 1 1"),
        (around(alloc, "", "(", 65, "")?, "limit Brackets"),
    ] {
        let (status, _sink) = checked(alloc, source.as_str())?;
        assert_eq!(rt; status.to_string(alloc)?.as_str(), line, "at {source}");
    }
    Ok(())
}

#[test]
fn answers_faults_of_reading_and_writing(rt: HostRuntime) -> Result<(), Fail> {
    let alloc = rt.alloc();
    let play = words(alloc, &["play"])?;
    for (fail_at, room, wanted, held) in [
        (Some(1), ROOM, Status::ReadFault, ""),
        (None, 10, Status::WriteFault, "fork 0 1 a"),
        (Some(4), ROOM, Status::Done, SMALL_REPORT),
        (Some(3), ROOM, Status::ReadFault, ""),
    ] {
        let mut source = MemSource::new(alloc, SMALL.as_bytes(), 10, fail_at)?;
        let mut sink = MemSink::new(alloc, ROOM, room)?;
        assert_eq!(rt; top_plain(alloc, &play, &mut source, &mut sink), wanted);
        assert_eq!(rt; sink.held(), held.as_bytes());
    }
    Ok(())
}

// A reader and a writer whose calls fail.
#[derive(Drop)]
struct Broken;

impl Read for Broken {
    fn read(&mut self, _buf: &mut [u8]) -> io::Result<usize> {
        Err(Error::from(ErrorKind::BrokenPipe))
    }
}

impl Write for Broken {
    fn write(&mut self, _buf: &[u8]) -> io::Result<usize> {
        Err(Error::from(ErrorKind::BrokenPipe))
    }

    fn flush(&mut self) -> io::Result<()> {
        Ok(())
    }
}

#[test]
fn runs_over_readers_and_writers(rt: HostRuntime) -> Result<(), Fail> {
    let alloc = rt.alloc();
    let play = words(alloc, &["play"])?;
    let mut written = Vec::new(alloc);
    let mut source = StdSource::new(SMALL.as_bytes());
    let mut sink = StdSink::new(&mut written);
    let status = top(&rt, alloc, &play, &mut source, &mut sink);
    assert_eq!(rt; status, Status::Done);
    assert_eq!(rt; written.as_slice(), SMALL_REPORT.as_bytes());
    let mut sink = MemSink::new(alloc, ROOM, ROOM)?;
    let status = top(&rt, alloc, &play, &mut StdSource::new(Broken), &mut sink);
    assert_eq!(rt; status, Status::ReadFault);
    assert!(rt; sink.held().is_empty());
    let mut source = StdSource::new(SMALL.as_bytes());
    let status = top(&rt, alloc, &play, &mut source, &mut StdSink::new(Broken));
    assert_eq!(rt; status, Status::WriteFault);
    Ok(())
}

#[test]
fn the_first_argument_is_no_word(rt: HostRuntime) -> Result<(), Fail> {
    let alloc = rt.alloc();
    for (given, command) in [
        (&["cloud", "play"][..], Some(Command::Play)),
        (&["cloud", "check"][..], Some(Command::Check)),
        (&["cloud", "code"][..], Some(Command::Code)),
        (&["cloud", "", "play"][..], None),
        (&["play"][..], None),
        (&[][..], None),
    ] {
        let mut arguments = Vec::new(alloc);
        for argument in given {
            arguments.push(String::from_str(alloc, argument)?)?;
        }
        let words = given_words(alloc, Ok(arguments.into_iter()))?;
        assert!(rt; words.command() == command);
    }
    Ok(())
}
