//! Lines of reports: lines of each form are read, and some are refused.

use dsql_script::{append_line, read_event};
use std::alloc::{AllocError, Global};
use std::test::Fail;

/// Lines about the beginning and the end of a run, and about connections and their driver calls.
const RUN: &str = r#"["run",1,["named","resetter"]]
["enter",2,7,"exec db",["a"]]
["open",2,7]
["heard",2,1,"house",0,0,["connect"],["done"]]
["lend",4294967295,4294967295,"tx:4294967295"]
["lend",4294967295,4294967295,"pin:4294967295"]
["lend",4294967295,4294967295,"house"]
["lend",2,2,"call:7"]
["heard",2,2,"call:7",7,0,["exec","a",[]],["result",-1,3]]
["heard",2,2,"call:7",7,0,["valid"],["invalid"]]
["back",2]
["ended"]
["close",2,"invalid"]
["heard",2,3,"house",0,0,["shut"],["done"]]
["gone",2]
"#;

/// Lines about calls, driver calls and their answers.
const CALLS: &str =
    r#"["enter",64,4294967295,"query r_2 db",["a \"é\" \n",null,-1,{"u64":5},{"arg":{"bytes":"00ff"},"name":"x"}]]
["enter",1,2,"one db text,null:time",["",18446744073709551615]]
["enter",1,2,"scan r i64"]
["enter",1,2,"next r"]
["enter",1,2,"rowsclose r"]
["enter",1,2,"err r"]
["enter",1,2,"begin x_1 db level=linearizable ro"]
["enter",1,2,"exec x_1",["a"]]
["enter",1,2,"commit x_1"]
["enter",1,2,"rollback x_1"]
["enter",1,2,"ping db"]
["enter",1,2,"dbclose"]
["enter",1,2,"stats"]
["heard",1,4,"tx:2",3,2,["prepare","a \"b\" \\ \n \u0001 é"],["prepared",8,-1]]
["heard",1,4,"tx:2",3,2,["begin","repeatable_read",true],["fail","down"]]
["heard",1,4,"call:2",3,0,["query",5,[{"name":"x","value":{"time":-1}},null,true,"b",{"bytes":""},-5]],["cursor",7,["value"]]]
["heard",1,4,"call:2",3,0,["next",7],["row",[5,null,{"bytes":"0a"},{"time":9}]]]
["heard",1,4,"call:2",3,0,["close_rows",7],["bad"]]
["heard",1,4,"call:2",3,0,["close_stmt",7],["skip"]]
"#;

/// Lines about waits, moments, limits and replies.
const REPLIES: &str = r#"["wait",4294967295]
["tick",18446744073709551615]
["set","maxidle",-9223372036854775808]
["fell",3,0]
["reply",5,["ok"]]
["reply",5,["ok",false]]
["reply",5,["ok","rows",["key","value"]]]
["reply",5,["ok","cells",[-5,null,"b",{"u64":5},9223372036854775808,{"bytes":"ff"},{"time":0},true]]]
["reply",5,["ok","stats",[18446744073709551615,18446744073709551614,3,4,5,6,7,8,9]]]
["reply",5,["err","driver","down"]]
["reply",5,["err","bad_conn",1,"driver: bad connection"]]
["reply",5,["err","num_args",1,2,"sql: expected 1 arguments, got 2"]]
["reply",5,["err","high_bit",9223372036854775808,"sql: unsigned value has its high bit set"]]
["reply",5,["err","rows_closed","failed","sql: Rows are closed"]]
["reply",5,["err","rows_closed","bad","sql: Rows are closed"]]
["reply",5,["err","rows_closed","end","sql: Rows are closed"]]
["reply",5,["err","rows_closed","tx","sql: Rows are closed"]]
["reply",5,["err","rows_closed","canceled","sql: Rows are closed"]]
["reply",5,["err","rows_closed","deadline","sql: Rows are closed"]]
["reply",5,["err","scan",0,"not_a_number","sql: scan of column 0: not_a_number"]]
["reply",5,["err","too_many",1000,"sql: too many open connections"]]
["reply",5,["err","db_closed","end","sql: database is closed"]]
["reply",5,["err","tx_done","rollback","sql: transaction has already been committed or rolled back"]]
["reply",5,["err","isolation","snapshot","sql: driver does not support non-default isolation level"]]
["reply",5,["err","read_only","sql: driver does not support read-only transactions"]]
"#;

/// Lines that no event has, each with why it is refused.
const REFUSED: [(&str, &str); 6] = [
    ("[1", "not JSON"),
    ("[\"back\", 1]", "wrong shape"),
    ("[\"back\",4294967296]", "wrong shape"),
    ("[\"set\",\"maxopen\",1.0]", "wrong shape"),
    (
        "[\"reply\",5,[\"err\",\"no_rows\",\"sql: no rows\"]]",
        "wrong shape",
    ),
    ("[\"enter\",1,2,\"one db\",[\"a\"]]", "wrong shape"),
];

/// Returns the lines of the events that these lines are read as.
fn told(alloc: Global, lines: &str) -> Result<String, Fail> {
    let mut told = Vec::new(alloc);
    for line in lines.lines() {
        let event = read_event(alloc, line.as_bytes())?;
        append_line(alloc, &event, &mut told)?;
    }
    Ok(String::from_utf8(told)?)
}

#[test]
fn lines_are_read_back(rt: HostRuntime) -> Result<(), Fail> {
    for lines in [RUN, CALLS, REPLIES] {
        let told = told(rt.alloc(), lines)?;
        assert_eq!(rt; told.as_str(), lines);
    }
    Ok(())
}

/// Returns why a line is refused, or `read` if it isn't.
fn refusal(alloc: Global, line: &str) -> Result<String, AllocError> {
    match read_event(alloc, line.as_bytes()) {
        Ok(_) => String::from_str(alloc, "read"),
        Err(fault) => fault.to_string(alloc),
    }
}

#[test]
fn lines_of_no_event_are_refused(rt: HostRuntime) -> Result<(), Fail> {
    for (line, want) in REFUSED {
        let told = refusal(rt.alloc(), line)?;
        assert!(rt; told.as_str() == want, "{line}");
    }
    Ok(())
}
