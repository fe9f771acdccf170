//! Scripts of calls that read one row, over a driver with faults, each with its report, by the rules of the layer.

use super::Case;

pub(super) const REPORTS: &[Case] = &[
    (
        r#"caps fast_exec fast_query resetter validator
c1 one db i64 ["GET a"]
"#,
        r#"["run",1,["fast_exec","fast_query","resetter","validator"]]
["enter",1,1,"one db i64",["GET a"]]
["open",1,1]
["heard",1,1,"house",0,0,["connect"],["done"]]
["lend",1,2,"call:1"]
["heard",1,2,"call:1",1,0,["query","GET a",[]],["cursor",1,["value"]]]
["heard",1,2,"call:1",1,0,["next",1],["row",[1]]]
"#,
        &[
            // A row is read.
            r#"["heard",1,2,"call:1",1,0,["close_rows",1],["done"]]
["heard",1,2,"call:1",1,0,["valid"],["done"]]
["back",1]
["reply",1,["ok","cells",[1]]]
["ended"]
["close",1,"db_closed"]
["heard",1,3,"house",0,0,["shut"],["done"]]
["gone",1]
"#,
            // The close of the cursor fails. The row was read, but the call succeeds only after its cursor is closed.
            r#"["heard",1,2,"call:1",1,0,["close_rows",1],["fail","boom"]]
["heard",1,2,"call:1",1,0,["valid"],["done"]]
["back",1]
["reply",1,["err","driver","boom"]]
["ended"]
["close",1,"db_closed"]
["heard",1,3,"house",0,0,["shut"],["done"]]
["gone",1]
"#,
            // The driver answers the close of the cursor with bad.
            r#"["heard",1,2,"call:1",1,0,["close_rows",1],["bad"]]
["close",1,"bad"]
["reply",1,["err","bad_conn",1,"driver: bad connection"]]
["heard",1,3,"house",0,0,["shut"],["done"]]
["gone",1]
["ended"]
"#,
            // The connection fails its test. The row was read, so its reply stays.
            r#"["heard",1,2,"call:1",1,0,["close_rows",1],["done"]]
["heard",1,2,"call:1",1,0,["valid"],["invalid"]]
["close",1,"invalid"]
["reply",1,["ok","cells",[1]]]
["heard",1,3,"house",0,0,["shut"],["done"]]
["gone",1]
["ended"]
"#,
        ],
    ),
    (
        r#"caps fast_exec fast_query resetter validator
c1 one db i64,i64 ["GET a"]
"#,
        r#"["run",1,["fast_exec","fast_query","resetter","validator"]]
["enter",1,1,"one db i64,i64",["GET a"]]
["open",1,1]
["heard",1,1,"house",0,0,["connect"],["done"]]
["lend",1,2,"call:1"]
"#,
        &[
            // The row has too few values, and the close of the cursor fails. The reply stays what became of the row.
            r#"["heard",1,2,"call:1",1,0,["query","GET a",[]],["cursor",1,["value"]]]
["heard",1,2,"call:1",1,0,["next",1],["row",[1]]]
["heard",1,2,"call:1",1,0,["close_rows",1],["fail","boom"]]
["heard",1,2,"call:1",1,0,["valid"],["done"]]
["back",1]
["reply",1,["err","dest_count",1,2,"sql: expected 1 destination arguments in Scan, not 2"]]
["ended"]
["close",1,"db_closed"]
["heard",1,3,"house",0,0,["shut"],["done"]]
["gone",1]
"#,
        ],
    ),
];
