//! The race of four clients over two connections.

use crate::outcome::race_over;
use dsql_driver::{ListClock, OpenGate};
use dsql_mem::MemFleet;
use dsql_value::Memory;
use std::alloc::Global;
use std::test::Fail;

const SCRIPT: &str = "maxopen 2
c1 exec db [\"SET k1 1\"]
c1 one db i64 [\"GET k1\"]
c2 exec db [\"SET k2 2\"]
c2 one db i64 [\"GET k2\"]
c3 exec db [\"SET k3 3\"]
c3 one db i64 [\"GET k3\"]
c4 exec db [\"SET k4 4\"]
c4 one db i64 [\"GET k4\"]
";

/// Returns the reply to a call as the report spells it, or nothing if there is none.
fn reply_to<'a>(alloc: Global, report: &'a str, call: &str) -> Result<&'a str, Memory> {
    let head = format!(in alloc; "[\"reply\",{call},")?;
    let found = report
        .lines()
        .find_map(|line| line.strip_prefix(head.as_str()));
    Ok(found.unwrap_or(""))
}

/// Returns the replies to a client's calls as the report spells them, in the order of its calls.
fn replies_to<'a>(alloc: Global, report: &'a str, client: u8) -> Result<Vec<&'a str>, Memory> {
    let head = format!(in alloc; "[\"enter\",{client},")?;
    let mut replies = Vec::new(alloc);
    for line in report.lines() {
        if let Some(entered) = line.strip_prefix(head.as_str()) {
            let (call, _) = entered.split_once(",").unwrap_or((entered, ""));
            replies.push(reply_to(alloc, report, call)?)?;
        }
    }
    Ok(replies)
}

/// Is true if the client set its key and then got its number.
fn finds_its_number(alloc: Global, report: &str, client: u8) -> Result<bool, Memory> {
    let cells = format!(in alloc; "[\"ok\",\"cells\",[{client}]]]")?;
    let replies = replies_to(alloc, report, client)?;
    Ok(match replies.as_slice() {
        [set, got] => *set == "[\"ok\",\"result\",0,1]]" && *got == cells.as_str(),
        _ => false,
    })
}

#[test]
fn four_clients_race_over_two_connections(rt: HostRuntime) -> Result<(), Fail> {
    let mut fleet = MemFleet::new(rt.clone()?)?;
    let mut clock = ListClock::new(Vec::new(rt.alloc()));
    let ran = race_over(&rt, SCRIPT, &mut fleet, &mut clock, &OpenGate)?;
    assert!(rt; ran.is_over());
    for client in 1..=4 {
        assert!(rt;
            finds_its_number(rt.alloc(), ran.report(), client)?,
            "client {client}"
        );
    }
    Ok(())
}
