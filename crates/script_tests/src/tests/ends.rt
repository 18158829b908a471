//! Readers and writers that end before they should: at each of their calls, with each kind of error, and in the flush.

use super::ENGINES;
use super::streams::{Drip, End, Endless, Sips};
use registry_script::{Cause, Engine, RunFault, ScriptFault, run};
use std::alloc::Global;
use std::io::ErrorKind;
use std::process::Abort;
use std::sync::Wait;

/// The row all-limits.
const SCRIPT: &[u8] =
    b"domain 1 1\nlimits 10 1 1 1\nattach 0 driver wm 7\nenter 0\nref 0 a\nfind 0 driver wm\nref 0 a\ncopy 0 a b\ncount 0 x\npeek x\nexit 0\nenter 0\nfind 0 driver wm\ndrop 0 b\ndrop 0 a\ndetach 0 driver vga\n";

const REPORT: &[u8] =
    b"domain 1 1\nlimits 10 1 1 1\nattached 1 slot 0\ninside\nrefused NothingFound\nfound 1 slot 0 value 7\nref a 1\nrefused PassiveFull\ncount x 1\npeek 1 value 7\noutside\nrefused SectionsSpent\nnot inside\nno label\ndropped a 1\nrefused NotFound\n";

/// The kinds of error that a reader or a writer may tell of.
const KINDS: &[ErrorKind] = &[
    ErrorKind::NotFound,
    ErrorKind::PermissionDenied,
    ErrorKind::ConnectionRefused,
    ErrorKind::ConnectionReset,
    ErrorKind::HostUnreachable,
    ErrorKind::NetworkUnreachable,
    ErrorKind::ConnectionAborted,
    ErrorKind::NotConnected,
    ErrorKind::AddrInUse,
    ErrorKind::AddrNotAvailable,
    ErrorKind::NetworkDown,
    ErrorKind::BrokenPipe,
    ErrorKind::AlreadyExists,
    ErrorKind::WouldBlock,
    ErrorKind::NotADirectory,
    ErrorKind::IsADirectory,
    ErrorKind::DirectoryNotEmpty,
    ErrorKind::ReadOnlyFilesystem,
    ErrorKind::FilesystemLoop,
    ErrorKind::StaleNetworkFileHandle,
    ErrorKind::InvalidInput,
    ErrorKind::InvalidData,
    ErrorKind::TimedOut,
    ErrorKind::WriteZero,
    ErrorKind::StorageFull,
    ErrorKind::NotSeekable,
    ErrorKind::QuotaExceeded,
    ErrorKind::FileTooLarge,
    ErrorKind::ResourceBusy,
    ErrorKind::ExecutableFileBusy,
    ErrorKind::Deadlock,
    ErrorKind::CrossesDevices,
    ErrorKind::TooManyLinks,
    ErrorKind::InvalidFilename,
    ErrorKind::ArgumentListTooLong,
    ErrorKind::Interrupted,
    ErrorKind::Unsupported,
    ErrorKind::UnexpectedEof,
    ErrorKind::OutOfMemory,
    ErrorKind::InProgress,
    ErrorKind::Other,
];

#[test]
fn one_byte_a_call(rt: HostRuntime) {
    for engine in ENGINES {
        let mut reader = Drip {
            rest: SCRIPT,
            calls: 0,
            failing: 1000,
            kind: ErrorKind::Interrupted,
        };
        let mut writer = Sips::until(rt.alloc(), 1000, None);
        let result = run(&rt, rt.alloc(), engine, &mut reader, &mut writer);
        assert!(rt;
            result == Ok(()) && writer.taken.as_slice() == REPORT,
            "a whole report"
        );
        assert!(rt;
            reader.calls == SCRIPT.len() + 1 && writer.calls == REPORT.len() + 1,
            "no call more"
        );
    }
}

/// A short script and its report, for each kind of error at each call.
const SHORT: Written = (b"domain 1 1\nenter 0\n", b"domain 1 1\ninside\n");

/// Whether the run ends with the failure of the reader's call, and nothing is read or written afterwards.
fn ends_reading<R: Wait>(
    rt: &R,
    alloc: Global,
    engine: Engine,
    rest: &[u8],
    failing: usize,
    kind: ErrorKind,
) -> bool {
    let mut reader = Drip {
        rest,
        calls: 0,
        failing,
        kind,
    };
    let mut writer = Sips::until(alloc, usize::MAX, None);
    let result = run(rt, alloc, engine, &mut reader, &mut writer);
    result == Err(RunFault::Read) && reader.calls == failing.saturating_add(1) && writer.calls == 0
}

fn reader_fails_by<R: Wait + Abort>(rt: &R, alloc: Global, script: &[u8], kind: ErrorKind) {
    for failing in 0..=script.len() {
        for engine in ENGINES {
            assert!(rt;
                ends_reading(rt, alloc, engine, script, failing, kind),
                "at call {failing}, {kind:?}"
            );
        }
    }
}

#[test]
fn reader_that_fails(rt: HostRuntime) {
    reader_fails_by(&rt, rt.alloc(), SCRIPT, ErrorKind::Interrupted);
    for kind in KINDS {
        reader_fails_by(&rt, rt.alloc(), SHORT.0, *kind);
    }
}

/// The fault of a script's line.
fn fault(line: u32, cause: Cause) -> Result<(), RunFault> {
    Err(RunFault::Script(ScriptFault { line, cause }))
}

#[test]
fn reader_that_never_ends(rt: HostRuntime) {
    for engine in ENGINES {
        let mut reader = Endless { reads: 0 };
        let mut written = Vec::new(rt.alloc());
        let result = run(&rt, rt.alloc(), engine, &mut reader, &mut written);
        assert!(rt;
            result == fault(1, Cause::TooLong) && written.is_empty(),
            "too long"
        );
        assert!(rt; reader.reads == 65_537, "no call more");
    }
}

/// A script and its report.
type Written = (&'static [u8], &'static [u8]);

/// Whether the run ends as the writer's call does, and what was written by then is a front of the report.
fn ends_writing<R: Wait>(
    rt: &R,
    alloc: Global,
    engine: Engine,
    row: Written,
    ending: usize,
    end: End,
) -> bool {
    let (mut reader, report) = row;
    let mut writer = Sips::until(alloc, ending, end);
    let result = run(rt, alloc, engine, &mut reader, &mut writer);
    result == Err(RunFault::Write)
        && writer.calls == ending.saturating_add(1)
        && report.get(..ending) == Some(writer.taken.as_slice())
}

/// The last call is the flush. A writer isn't flushed with bytes, so there it can only fail.
fn writer_ends_by<R: Wait + Abort>(rt: &R, alloc: Global, row: Written, end: End) {
    let calls = row.1.len().saturating_add(usize::from(end.is_some()));
    for ending in 0..calls {
        for engine in ENGINES {
            assert!(rt;
                ends_writing(rt, alloc, engine, row, ending, end),
                "at call {ending}, {end:?}"
            );
        }
    }
}

#[test]
fn writer_that_fails(rt: HostRuntime) {
    let end = Some(ErrorKind::Interrupted);
    writer_ends_by(&rt, rt.alloc(), (SCRIPT, REPORT), end);
    for kind in KINDS {
        writer_ends_by(&rt, rt.alloc(), SHORT, Some(*kind));
    }
}

#[test]
fn writer_that_takes_nothing(rt: HostRuntime) {
    writer_ends_by(&rt, rt.alloc(), (SCRIPT, REPORT), None);
}

#[test]
fn script_fault_before_the_writer_fails(rt: HostRuntime) {
    for engine in ENGINES {
        let mut reader = b"domain 2 2\natt".as_slice();
        let mut writer = Sips::until(rt.alloc(), 0, Some(ErrorKind::BrokenPipe));
        let result = run(&rt, rt.alloc(), engine, &mut reader, &mut writer);
        assert!(rt;
            result == fault(2, Cause::UnknownCommand) && writer.calls == 0,
            "nothing is written"
        );
    }
}
