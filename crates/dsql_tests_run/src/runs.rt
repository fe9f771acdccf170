//! Runs over a driver that never fails: words and lines that are refused, and streams that fail at each turn.
ghost use Rattle.std.specs.Prelude.{◌<◌};

use crate::driver::ToldFleet;
use crate::outcome::run_over;
use dsql_driver::{SliceSource, VecSink};
use std::alloc::Global;
use std::sync::Wait;
use std::test::Fail;
use std::thread::Threads;

pub(super) const ONE: &str = "c1 exec db [\"SET a 1\"]\n";

/// One call, and a line that is cut off.
const CUT: &str = "c1 exec db [\"SET a 1\"]\nc1 exec db [\"SET a";

pub(super) const TWO: &str = "c1 exec db [\"SET a 1\"]\nc1 exec db [\"SET a 2\"]\n";

/// Two calls, the second without its line feed.
const UNFINISHED: &str = "c1 exec db [\"SET a 1\"]\nc1 exec db [\"SET a 2\"]";

pub(super) const REPORT_OF_NONE: &str =
    r#"["run",1,["fast_exec","fast_query","begin_options","pinger","resetter","validator"]]
["ended"]
"#;

pub(super) const REPORT_OF_ONE: &str =
    r#"["run",1,["fast_exec","fast_query","begin_options","pinger","resetter","validator"]]
["enter",1,1,"exec db",["SET a 1"]]
["open",1,1]
["heard",1,1,"house",0,0,["connect"],["done"]]
["lend",1,2,"call:1"]
["heard",1,2,"call:1",1,0,["exec","SET a 1",[]],["result",0,1]]
["heard",1,2,"call:1",1,0,["valid"],["done"]]
["back",1]
["reply",1,["ok","result",0,1]]
["ended"]
["close",1,"db_closed"]
["heard",1,3,"house",0,0,["shut"],["done"]]
["gone",1]
"#;

pub(super) const REPORT_OF_TWO: &str =
    r#"["run",1,["fast_exec","fast_query","begin_options","pinger","resetter","validator"]]
["enter",1,1,"exec db",["SET a 1"]]
["open",1,1]
["heard",1,1,"house",0,0,["connect"],["done"]]
["lend",1,2,"call:1"]
["heard",1,2,"call:1",1,0,["exec","SET a 1",[]],["result",0,1]]
["heard",1,2,"call:1",1,0,["valid"],["done"]]
["back",1]
["reply",1,["ok","result",0,1]]
["enter",1,2,"exec db",["SET a 2"]]
["lend",1,3,"call:2"]
["heard",1,3,"call:2",2,0,["reset"],["done"]]
["heard",1,3,"call:2",2,0,["exec","SET a 2",[]],["result",0,1]]
["heard",1,3,"call:2",2,0,["valid"],["done"]]
["back",1]
["reply",2,["ok","result",0,1]]
["ended"]
["close",1,"db_closed"]
["heard",1,4,"house",0,0,["shut"],["done"]]
["gone",1]
"#;

/// A script, how many bytes its streams take at once, and the turns at which they fail. 0 means that they don't
/// fail.
#[derive(Clone, Copy, Drop)]
pub(super) struct Streams<'a> {
    pub script: &'a [u8],
    pub piece: usize,
    pub read: u64,
    pub write: u64,
    pub note: u64,
}

/// Returns streams of a script that don't fail.
pub(super) fn unfailing(script: &[u8], piece: usize) -> Streams<'_> {
    Streams {
        script,
        piece,
        read: 0,
        write: 0,
        note: 0,
    }
}

/// How a run ends: its status, its note and its report.
pub(super) type End<'a> = (u8, &'a str, &'a str);

/// Returns an empty sink that fails at this write.
fn sink(alloc: Global, piece: usize, turn: u64) -> Result<VecSink, Fail>
    requires { 0 < piece }
{
    let turns = vec![in alloc; turn]?;
    Ok(VecSink::new(alloc, piece, turns))
}

/// Is true if a run over these streams ends like this.
pub(super) fn ends<R: AllocGlobal + Threads + Wait + Sync>(
    rt: &R,
    words: &[&str],
    streams: Streams<'_>,
    end: End<'_>,
) -> Result<bool, Fail> {
    let piece = streams.piece.max(1);
    let failing = [streams.read];
    let mut input = SliceSource::new(streams.script, piece, &failing);
    let report = sink(rt.alloc(), piece, streams.write)?;
    let notes = sink(rt.alloc(), piece, streams.note)?;
    let mut fleet = ToldFleet::new(rt.alloc(), REPORT_OF_TWO);
    let ran = run_over(rt, words, &mut input, report, notes, &mut fleet)?;
    let (status, note, report) = end;
    Ok(ran.is(status, note, report))
}

/// Is true if a script that is played over these streams ends like this.
fn plays<R: AllocGlobal + Threads + Wait + Sync>(
    rt: &R,
    streams: Streams<'_>,
    end: End<'_>,
) -> Result<bool, Fail> {
    ends(rt, &["play"], streams, end)
}

/// Is true if these words get the usage.
fn get_usage<R: AllocGlobal + Threads + Wait + Sync>(rt: &R, words: &[&str]) -> Result<bool, Fail> {
    let usage = "sqlrun: usage: sqlrun play [--summary] | race | gen N\n";
    ends(rt, words, unfailing(b"", 4096), (2, usage, ""))
}

#[test]
fn other_words_get_the_usage(rt: HostRuntime) -> Result<(), Fail> {
    assert!(rt; get_usage(&rt, &["play", "--"])?);
    assert!(rt; get_usage(&rt, &["gen", "0"])?);
    assert!(rt; get_usage(&rt, &[])?);
    Ok(())
}

#[test]
fn a_usage_that_fails_makes_the_status_4(rt: HostRuntime) -> Result<(), Fail> {
    let failing = Streams {
        note: 1,
        ..unfailing(b"", 4096)
    };
    assert!(rt; ends(&rt, &[], failing, (4, "", ""))?);
    Ok(())
}

/// Returns a text followed by bytes, each repeated many times.
fn filled(alloc: Global, head: &str, runs: &[(u8, usize)]) -> Result<Vec<u8>, Fail> {
    let mut script = Vec::new(alloc);
    script.extend_from_slice(head.as_bytes())?;
    for (byte, times) in runs {
        for _ in 0..*times {
            script.push(*byte)?;
        }
    }
    Ok(script)
}

/// Scripts without a call: a head, the bytes after it, and the note of the line that is refused, if one is.
const HOSTILE: &[(&str, &[(u8, usize)], &str)] = &[
    ("#", &[(b'x', 4095)], ""),
    ("#", &[(b'x', 4096)], "sqlrun: line 1: line too long\n"),
    ("", &[(0xff, 1)], "sqlrun: line 1: not UTF-8\n"),
    ("", &[(0xff, 4097)], "sqlrun: line 1: line too long\n"),
    (
        "c1 exec db ",
        &[(b'[', 128), (b']', 128)],
        "sqlrun: line 1: not JSON\n",
    ),
    (
        "c1 exec db ",
        &[(b'[', 127), (b']', 127)],
        "sqlrun: line 1: wrong shape\n",
    ),
    ("", &[(b'\n', 10_000)], ""),
    (
        "",
        &[(b'\n', 10_001)],
        "sqlrun: line 10001: too many lines\n",
    ),
    (
        "",
        &[(b'\n', 10_000), (0xff, 4097)],
        "sqlrun: line 10001: too many lines\n",
    ),
];

/// Is true if a line of such a script is refused with this note, or none is refused if the note is empty.
fn is_refused<R: AllocGlobal + Threads + Wait + Sync>(
    rt: &R,
    script: &[u8],
    note: &str,
) -> Result<bool, Fail> {
    let end = (if note.is_empty() { 0 } else { 7 }, note, REPORT_OF_NONE);
    Ok(plays(rt, unfailing(script, 1), end)? && plays(rt, unfailing(script, 4096), end)?)
}

#[test]
fn hostile_lines_are_refused_by_their_first_fault(rt: HostRuntime) -> Result<(), Fail> {
    for (head, runs, note) in HOSTILE {
        let script = filled(rt.alloc(), head, runs)?;
        assert!(rt; is_refused(&rt, &script, note)?, "{head} {runs:?}");
    }
    Ok(())
}

/// Returns how a run of two calls ends if the read after `taken` bytes fails, provided that there is such a
/// read. The script has `len` bytes. The line feed of its second call, if it has one, comes after `second`
/// bytes.
fn end_of_read(taken: usize, piece: usize, len: usize, second: usize) -> End<'static> {
    let fault = "sqlrun: read fault\n";
    if taken >= len.saturating_add(piece) {
        (0, "", REPORT_OF_TWO)
    } else if taken < ONE.len() {
        (3, fault, REPORT_OF_NONE)
    } else if taken < second {
        (3, fault, REPORT_OF_ONE)
    } else {
        (3, fault, REPORT_OF_TWO)
    }
}

/// Is true if a run of two calls ends after whole lines when its kth read fails, provided that there is such a
/// read.
fn ends_behind_whole_lines<R: AllocGlobal + Threads + Wait + Sync>(
    rt: &R,
    script: &str,
    second: usize,
    piece: usize,
    k: u64,
) -> Result<bool, Fail> {
    let taken = piece.saturating_mul(k.saturating_sub(1) as usize);
    let failing = Streams {
        read: k,
        ..unfailing(script.as_bytes(), piece)
    };
    plays(rt, failing, end_of_read(taken, piece, script.len(), second))
}

#[test]
fn a_read_that_fails_ends_the_run_behind_whole_lines(rt: HostRuntime) -> Result<(), Fail> {
    for (script, second) in [(TWO, TWO.len()), (UNFINISHED, usize::MAX)] {
        for piece in [1, 7, 4096] {
            for k in 1..=50 {
                assert!(rt;
                    ends_behind_whole_lines(&rt, script, second, piece, k)?,
                    "read {k} by {piece}"
                );
            }
        }
    }
    Ok(())
}

/// Returns the first `count` bytes of a text.
pub(super) fn front(text: &str, count: usize) -> &str {
    text.get(..count).unwrap_or(text)
}

/// Scripts of one call, the read at which their source fails, and the note.
const ENDS: &[(&str, u64, &str)] = &[
    (ONE, 0, ""),
    (ONE, 24, "sqlrun: read fault\n"),
    (CUT, 0, "sqlrun: line 2: not JSON\n"),
];

/// Returns streams of a script that take one byte at once, with a source that fails at this read.
pub(super) fn bytewise(script: &str, read: u64) -> Streams<'_> {
    Streams {
        read,
        ..unfailing(script.as_bytes(), 1)
    }
}

/// Is true if a write that fails after so many bytes leaves exactly these bytes.
fn leaves_a_beginning<R: AllocGlobal + Threads + Wait + Sync>(
    rt: &R,
    script: &str,
    read: u64,
    written: usize,
) -> Result<bool, Fail> {
    let failing = Streams {
        write: (written as u64).saturating_add(1),
        ..bytewise(script, read)
    };
    let end = (4, "sqlrun: write fault\n", front(REPORT_OF_ONE, written));
    plays(rt, failing, end)
}

#[test]
fn a_write_that_fails_leaves_a_beginning(rt: HostRuntime) -> Result<(), Fail> {
    for (script, read, _) in ENDS {
        for written in 0..REPORT_OF_ONE.len() {
            assert!(rt;
                leaves_a_beginning(&rt, script, *read, written)?,
                "{script} behind {written}"
            );
        }
    }
    Ok(())
}

/// Is true if the events from this one on are written by the write of this number.
fn is_in_write<R: AllocGlobal + Threads + Wait + Sync>(
    rt: &R,
    event: &str,
    write: u64,
) -> Result<bool, Fail> {
    let written = REPORT_OF_ONE.find(event).ok_or("no such event")?;
    let failing = Streams {
        write,
        ..unfailing(ONE.as_bytes(), 4096)
    };
    let end = (4, "sqlrun: write fault\n", front(REPORT_OF_ONE, written));
    plays(rt, failing, end)
}

#[test]
fn events_of_a_line_are_written_in_one_piece(rt: HostRuntime) -> Result<(), Fail> {
    for (write, event) in [(1, "[\"run\""), (2, "[\"enter\""), (3, "[\"ended\"")] {
        assert!(rt; is_in_write(&rt, event, write)?, "write {write}");
    }
    Ok(())
}

/// Is true if a write of the note that fails after so many bytes leaves exactly these bytes.
fn leaves_its_note<R: AllocGlobal + Threads + Wait + Sync>(
    rt: &R,
    streams: Streams<'_>,
    note: &str,
    written: usize,
) -> Result<bool, Fail> {
    let failing = Streams {
        note: (written as u64).saturating_add(1),
        ..streams
    };
    plays(rt, failing, (4, front(note, written), REPORT_OF_ONE))
}

#[test]
fn a_note_that_fails_makes_the_status_4(rt: HostRuntime) -> Result<(), Fail> {
    for (script, read, note) in ENDS {
        for written in 0..note.len() {
            let streams = bytewise(script, *read);
            assert!(rt;
                leaves_its_note(&rt, streams, note, written)?,
                "{note} behind {written}"
            );
        }
    }
    Ok(())
}

#[test]
fn a_summary_that_fails_leaves_a_beginning(rt: HostRuntime) -> Result<(), Fail> {
    let failing = Streams {
        write: 9,
        ..bytewise(ONE, 0)
    };
    let cut = (4, "sqlrun: write fault\n", "[\"summar");
    assert!(rt; ends(&rt, &["play", "--summary"], failing, cut)?);
    Ok(())
}

#[test]
fn a_generated_script_that_fails_leaves_a_beginning(rt: HostRuntime) -> Result<(), Fail> {
    let failing = Streams {
        write: 5,
        ..bytewise(ONE, 1)
    };
    let cut = (4, "sqlrun: write fault\n", "c1 b");
    assert!(rt; ends(&rt, &["gen", "2"], failing, cut)?);
    Ok(())
}
