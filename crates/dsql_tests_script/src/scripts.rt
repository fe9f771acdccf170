//! Transcripts of readers. Each has a title and then, after `= `, what the reader says of each of the lines
//! below it.

use dsql_script::Reader;
use std::alloc::{AllocError, Global};
use std::process::Abort;
use std::test::Fail;

/// Labels. A line that is taken makes each of them once, and later lines name it.
const LABELS: &str = r#"Labels
= unknown label
c1 query r x ["a"]
c1 query r db @k ["a"]
= not JSON
c1 query r db [
= unknown label
c1 scan r i64
= taken
c1 query r db ["a",1]
= label taken
c2 query r db ["a"]
= unknown label
c1 query r r ["a"]
c1 one r i64 ["a"]
start c1 exec r ["a"]
= label taken
start c3 query r db ["a"]
= taken
c2 next r
c1 scan r text,null:i64
c1 err r
c1 rowsclose r
c1 next r
= unknown label
c1 next s
= taken
c1 begin x db level=snapshot ro
c2 exec x ["a"]
start c2 query q x ["a"]
= unknown label
c1 next x
c1 exec q ["a"]
c1 commit r
c1 begin y x
c1 begin y db @k
c1 rollback y
= label taken
c1 begin r db
c1 query x x ["a"]
= wrong shape
c1 begin y db ro level=snapshot
c1 begin y db level=default
c1 commit x []
= taken
c1 rollback x
c1 query abcdefghijklmnopqrstuvwxyz_01234 db ["a"]
c1 next abcdefghijklmnopqrstuvwxyz_01234
"#;

/// The lines that precede those of clients.
const HEAD: &str = r#"The head of a script
= taken
# a comment

#c1 exec x [
= wrong shape
version
version 01
version 1 1
version 1 [
= taken
version 1
= no such word
version 1
= wrong shape
caps named fast_exec
caps Named
caps named named
caps 
caps []
= taken
caps fast_exec fast_query begin_options named pinger resetter validator
= no such word
caps
version 1
"#;

/// Limits, a moment, plans, held calls, steps, and calls without further words.
const SEVERAL_CLIENTS: &str = r#"Several clients
= taken
maxopen 0
maxidle -9223372036854775808
maxlife 9223372036854775807
maxidletime 0
tick 18446744073709551615
fault 1 2 bad
fault 4294967295 1 invalid
fault 3 4294967295 fail [ "\u00e9 \"[\"" ]
= no such word
version 1
caps
= taken
start c64 exec db ["a",1]
start c1 one db i64,any ["a"]
start c2 query r db ["a"]
start c2 next r
start c1 scan r i64
start c1 rowsclose r
start c1 err r
start c1 ping db
start c1 dbclose
start c1 stats
c3 dbclose
c3 stats
step c1
step c64
step house
#step c1
"#;

/// Refused lines of limits, plans, held calls and steps.
const OTHER_LINES: &str = r#"Lines for several clients that are refused
= no such word
maxconns 5
Maxopen 5
maxopen5
maxlifetime 100
faults 1 2 bad
start 
start [
start step c1
start version 1
start c1 
start c0 stats
start  c1 stats
start # c1
house
steps c1
c1 step
c1 maxopen 5
c1 Stats
c1 close
= wrong shape
maxopen --5
maxopen 5 
maxopen  5
maxopen 0x5
maxopen 1e3
maxopen 00
maxopen -05
maxopen ٣
maxidle [5]
maxidle
maxidle 18446744073709551616
fault 1 1  bad
fault c1 1 bad
fault ١ 1 bad
fault 18446744073709551616 1 bad
fault 1 1 fail "down"
start c1 stats 
start c1 dbclose r
start c1 next
step 
step c0
step 1
step c01
step  c1
step c1 
step houses
step house c1
step c1 ["a"]
c1 stats 
= not JSON
start c1 exec db ["a",]
fault 1 1 fail ["a"] ["b"]
= unknown label
start c1 scan r i64
"#;

/// Refused calls whose words begin no form or aren't those of a form.
const OTHER_WORDS: &str = r#"Words that are refused
= no such word
[
 ["a"]
 
 # c
c
c0 exec db ["x"]
c256 exec db ["x"]
c257 exec db ["x"]
c+1 exec db ["x"]
C1 exec db ["x"]
c1x exec db ["x"]
c1
c1 
c1 ["x"]
c1 Exec db ["x"]
c1 nexts r
c1  exec db ["x"]
= wrong shape
c1 exec
c1 exec ["x"]
c1 exec db["x"]
c1 exec db  ["x"]
c1 exec db x ["x"]
c1 exec db @ ["a"]
c1 exec db @db ["a"]
c1 exec db @K ["a"]
c1 exec db @k @l ["a"]
c1 exec 1x ["a"]
c1 exec _x ["a"]
c1 exec x-y ["a"]
c1 exec abcdefghijklmnopqrstuvwxyz0123456 ["a"]
c1 one
c1 one db ,i64 ["x"]
c1 one db i64,,i64 ["x"]
c1 one db i64 i64 ["x"]
c1 one db i64 @k @l ["x"]
c1 query r
c1 query R db ["a"]
c1 query r Db ["a"]
c1 query r db r ["a"]
c1 next
c1 next 
c1 next db
c1 next r r
c1 scan r
c1 scan r i64,
c1 scan r i64 ["a"]
c1 rowsclose @r
"#;

/// Refused calls whose array isn't one of a call.
const OTHER_ARRAYS: &str = r#"Arrays that are refused
= not JSON
c1 exec x ["a"] x
c1 exec x ["a",]
c1 exec x ["a]
c1 exec x ["a",1e400]
= wrong shape
c1 exec x []
c1 exec x [["a"]]
c1 exec x ["a",1e2]
c1 exec x ["a",-0]
c1 exec x ["a",18446744073709551616]
c1 exec x ["a",-9223372036854775809]
c1 exec x ["a",[]]
c1 exec x ["a",{}]
c1 exec x ["a",{"i8":-129}]
c1 exec x ["a",{"i8":1.0}]
c1 exec x ["a",{"i8":null}]
c1 exec x ["a",{"i8":1,"u8":1}]
c1 exec x ["a",{"I8":1}]
c1 exec x ["a",{"u8":-1}]
c1 exec x ["a",{"u32":4294967296}]
c1 exec x ["a",{"u64":-1}]
c1 exec x ["a",{"time":9223372036854775808}]
c1 exec x ["a",{"bytes":"000"}]
c1 exec x ["a",{"bytes":"0g"}]
c1 exec x ["a",{"bytes":0}]
c1 exec x ["a",{"null_text":0}]
c1 exec x ["a",{"null_u8":256}]
c1 exec x ["a",{"null_bool":0}]
c1 exec x ["a",{"null":null}]
c1 exec x ["a",{"name":"x"}]
c1 exec x ["a",{"arg":1}]
c1 exec x ["a",{"name":1,"arg":1}]
c1 exec x ["a",{"name":"x","arg":[]}]
c1 exec x ["a",{"name":"x","arg":{"name":"y","arg":1}}]
c1 exec x ["a",{"name":"x","arg":1,"u8":1}]
c1 exec x ["a",0,0,0,0,0,0,0,0,0,0,0,0,0,0,0,0,0,0,0,0,0,0,0,0,0,0,0,0,0,0,0,0,0,1.5]
= unknown label
c1 exec x ["a",0,0,0,0,0,0,0,0,0,0,0,0,0,0,0,0,0,0,0,0,0,0,0,0,0,0,0,0,0,0,0,0]
c1 one x i8,i8,i8,i8,i8,i8,i8,i8,i8,i8,i8,i8,i8,i8,i8,i8,i8,i8,i8,i8,i8,i8,i8,i8,i8,i8,i8,i8,i8,i8,i8,i8 ["a"]
"#;

/// Returns what the reader says of its next line: that it is taken, or why it is refused.
fn told(alloc: Global, reader: &mut Reader, line: &str) -> Result<String, AllocError> {
    match reader.read_line(alloc, line.as_bytes()) {
        Ok(_) => String::from_str(alloc, "taken"),
        Err(fault) => fault.to_string(alloc),
    }
}

/// Asserts that the reader says this of each of these lines.
fn assert_told(
    rt: &(impl Abort + AllocGlobal),
    reader: &mut Reader,
    lines: &str,
    want: &str,
) -> Result<(), Fail> {
    for line in lines.lines() {
        let told = told(rt.alloc(), reader, line)?;
        assert!(rt; told.as_str() == want, "{line}");
    }
    Ok(())
}

#[test]
fn transcripts_are_those_of_a_reader(rt: HostRuntime) -> Result<(), Fail> {
    for transcript in [
        LABELS,
        HEAD,
        SEVERAL_CLIENTS,
        OTHER_WORDS,
        OTHER_ARRAYS,
        OTHER_LINES,
    ] {
        let mut reader = Reader::new(rt.alloc(), false);
        for part in transcript.split("\n= ") {
            let (want, lines) = part.split_once('\n').unwrap_or((part, ""));
            assert_told(&rt, &mut reader, lines, want)?;
        }
    }
    Ok(())
}
