//! The example at the head of dsql_script.

use dsql_script::{append_line, read_event};
use std::alloc::Global;
use std::test::Fail;

/// Is true if the event that a line is read as is written as that line.
fn is_read_back(alloc: Global) -> Result<bool, Fail> {
    let line = "[\"enter\",1,7,\"exec db\",[\"SET a 1\"]]\n";
    let event = read_event(alloc, line.trim_end().as_bytes())?;
    let mut lines = Vec::new(alloc);
    append_line(alloc, &event, &mut lines)?;
    Ok(lines.as_slice() == line.as_bytes())
}

#[test]
fn a_line_is_read_back(rt: HostRuntime) -> Result<(), Fail> {
    assert!(rt; is_read_back(rt.alloc())?);
    Ok(())
}
