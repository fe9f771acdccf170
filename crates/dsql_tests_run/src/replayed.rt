//! Scripts over a driver that answers as a report says. The run writes that same report.

mod execs;
mod open_rows;
mod prepared_rows;
mod single_rows;

use crate::outcome::run_as_told;
use dsql_value::Memory;
use std::alloc::Global;
use std::sync::Wait;
use std::test::Fail;
use std::thread::Threads;

/// A script, what its reports begin with, and how each of them goes on.
type Case = (&'static str, &'static str, &'static [&'static str]);

const ALL: [&[Case]; 4] = [
    execs::REPORTS,
    single_rows::REPORTS,
    prepared_rows::REPORTS,
    open_rows::REPORTS,
];

/// Returns each script with each of its reports.
fn all_reports(alloc: Global) -> Result<Vec<(&'static str, String)>, Memory> {
    let mut reports = Vec::new(alloc);
    for cases in ALL {
        for (script, begins, ends) in cases {
            for end in *ends {
                reports.push((*script, format!(in alloc; "{begins}{end}")?))?;
            }
        }
    }
    Ok(reports)
}

/// Is true if a script gives this report.
fn gives<R: AllocGlobal + Threads + Wait + Sync>(
    rt: &R,
    script: &str,
    report: &str,
) -> Result<bool, Memory> {
    Ok(run_as_told(rt, "play", script, report)?.is(0, "", report))
}

#[test]
fn scripts_give_the_reports_that_their_driver_tells(rt: HostRuntime) -> Result<(), Fail> {
    let reports = all_reports(rt.alloc())?;
    for (script, report) in &reports {
        let report = report.as_str();
        assert!(rt; gives(&rt, script, report)?, "{report}");
    }
    Ok(())
}

/// Is true if a driver that lacks memory at any one answer stops the run of a script there. The word says which run.
pub(super) fn stops_at_each_answer<R: AllocGlobal + Threads + Wait + Sync>(
    rt: &R,
    word: &str,
    script: &str,
    report: &str,
) -> Result<bool, Memory> {
    let mut before = 0usize;
    for line in report.lines() {
        if line.starts_with("[\"heard\"") {
            let told = report.get(..before).unwrap_or(report);
            if !run_as_told(rt, word, script, told)?.lacked_memory(report) {
                return Ok(false);
            }
        }
        before = before.saturating_add(line.len()).saturating_add(1);
    }
    Ok(true)
}

#[test]
fn a_driver_without_memory_stops_the_run(rt: HostRuntime) -> Result<(), Fail> {
    let reports = all_reports(rt.alloc())?;
    for (script, report) in &reports {
        let report = report.as_str();
        assert!(rt;
            stops_at_each_answer(&rt, "play", script, report)?,
            "{report}"
        );
    }
    Ok(())
}
