//! Races of one client. Their reports don't depend on the order in which threads take their steps.

use crate::replayed::stops_at_each_answer;
use crate::runs::{
    End, ONE, REPORT_OF_NONE, REPORT_OF_ONE, REPORT_OF_TWO, Streams, TWO, bytewise, ends, front,
    unfailing,
};
use std::sync::Wait;
use std::test::Fail;
use std::thread::Threads;

/// Lines that a race refuses.
const REFUSED: &[&str] = &[
    "start c1 exec db [\"SET a 1\"]\n",
    "step c1\n",
    "step house\n",
    "tick 5\n",
];

/// Is true if a script that is raced over these streams ends like this.
fn races<R: AllocGlobal + Threads + Wait + Sync>(
    rt: &R,
    streams: Streams<'_>,
    end: End<'_>,
) -> Result<bool, Fail> {
    ends(rt, &["race"], streams, end)
}

#[test]
fn a_client_alone_gives_the_report_of_its_play(rt: HostRuntime) -> Result<(), Fail> {
    assert!(rt; races(&rt, unfailing(b"", 7), (0, "", REPORT_OF_NONE))?);
    assert!(rt; races(&rt, unfailing(ONE.as_bytes(), 7), (0, "", REPORT_OF_ONE))?);
    assert!(rt; races(&rt, unfailing(TWO.as_bytes(), 7), (0, "", REPORT_OF_TWO))?);
    Ok(())
}

/// Is true if a race refuses this line after the line of a call, which it carries out.
fn is_refused<R: AllocGlobal + Threads + Wait + Sync>(rt: &R, line: &str) -> Result<bool, Fail> {
    let script = format!(in rt.alloc(); "{ONE}{line}")?;
    let end = (7, "sqlrun: line 2: no such word\n", REPORT_OF_ONE);
    races(rt, unfailing(script.as_bytes(), 4096), end)
}

#[test]
fn a_race_refuses_lines_that_tell_when_to_step(rt: HostRuntime) -> Result<(), Fail> {
    for line in REFUSED {
        assert!(rt; is_refused(&rt, line)?, "{line}");
    }
    Ok(())
}

#[test]
fn a_race_is_over_even_if_the_source_fails(rt: HostRuntime) -> Result<(), Fail> {
    let end = (3, "sqlrun: read fault\n", REPORT_OF_ONE);
    assert!(rt; races(&rt, bytewise(TWO, 30), end)?);
    Ok(())
}

#[test]
fn a_race_without_memory_stops(rt: HostRuntime) -> Result<(), Fail> {
    assert!(rt; stops_at_each_answer(&rt, "race", TWO, REPORT_OF_TWO)?);
    Ok(())
}

/// Is true if a write that fails after so many bytes of a race's report leaves exactly these bytes.
fn leaves_a_beginning<R: AllocGlobal + Threads + Wait + Sync>(
    rt: &R,
    written: usize,
) -> Result<bool, Fail> {
    let failing = Streams {
        write: (written as u64).saturating_add(1),
        ..bytewise(ONE, 0)
    };
    let end = (4, "sqlrun: write fault\n", front(REPORT_OF_ONE, written));
    races(rt, failing, end)
}

#[test]
fn a_write_that_fails_leaves_a_beginning(rt: HostRuntime) -> Result<(), Fail> {
    for written in 0..REPORT_OF_ONE.len() {
        assert!(rt; leaves_a_beginning(&rt, written)?, "after {written} bytes");
    }
    Ok(())
}

#[test]
fn no_words_follow_the_word_of_a_race(rt: HostRuntime) -> Result<(), Fail> {
    let usage = "sqlrun: usage: sqlrun play [--summary] | race | gen N\n";
    assert!(rt;
        ends(
            &rt,
            &["race", "--summary"],
            unfailing(b"", 4096),
            (2, usage, "")
        )?
    );
    Ok(())
}
