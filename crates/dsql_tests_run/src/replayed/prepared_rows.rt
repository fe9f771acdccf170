//! Scripts of calls that prepare their text and read one row, over a driver with faults. Each has its report, by the
//! rules of the layer.

use super::Case;

pub(super) const REPORTS: &[Case] = &[
    (
        r#"caps fast_exec fast_query resetter validator
c1 one db i64 ["GET ?","a"]
"#,
        r#"["run",1,["fast_exec","fast_query","resetter","validator"]]
["enter",1,1,"one db i64",["GET ?","a"]]
["open",1,1]
["heard",1,1,"house",0,0,["connect"],["done"]]
["lend",1,2,"call:1"]
["heard",1,2,"call:1",1,0,["query","GET ?",["a"]],["skip"]]
"#,
        &[
            // The driver skips the text, so the layer prepares it and queries its handle. It closes the cursor before
            // the handle.
            r#"["heard",1,2,"call:1",1,0,["prepare","GET ?"],["prepared",1,1]]
["heard",1,2,"call:1",1,0,["query",1,["a"]],["cursor",1,["value"]]]
["heard",1,2,"call:1",1,0,["next",1],["row",[1]]]
["heard",1,2,"call:1",1,0,["close_rows",1],["done"]]
["heard",1,2,"call:1",1,0,["close_stmt",1],["done"]]
["heard",1,2,"call:1",1,0,["valid"],["done"]]
["back",1]
["reply",1,["ok","cells",[1]]]
["ended"]
["close",1,"db_closed"]
["heard",1,3,"house",0,0,["shut"],["done"]]
["gone",1]
"#,
            // The driver answers the close of the handle's cursor with bad.
            r#"["heard",1,2,"call:1",1,0,["prepare","GET ?"],["prepared",1,1]]
["heard",1,2,"call:1",1,0,["query",1,["a"]],["cursor",1,["value"]]]
["heard",1,2,"call:1",1,0,["next",1],["row",[1]]]
["heard",1,2,"call:1",1,0,["close_rows",1],["bad"]]
["close",1,"bad"]
["reply",1,["err","bad_conn",1,"driver: bad connection"]]
["heard",1,3,"house",0,0,["shut"],["done"]]
["gone",1]
["ended"]
"#,
            // The driver answers the close of the handle with bad. The row was read and its cursor closed, so its reply
            // stays.
            r#"["heard",1,2,"call:1",1,0,["prepare","GET ?"],["prepared",1,1]]
["heard",1,2,"call:1",1,0,["query",1,["a"]],["cursor",1,["value"]]]
["heard",1,2,"call:1",1,0,["next",1],["row",[1]]]
["heard",1,2,"call:1",1,0,["close_rows",1],["done"]]
["heard",1,2,"call:1",1,0,["close_stmt",1],["bad"]]
["close",1,"bad"]
["reply",1,["ok","cells",[1]]]
["heard",1,3,"house",0,0,["shut"],["done"]]
["gone",1]
["ended"]
"#,
            // The statement wants two inputs, so the layer queries nothing.
            r#"["heard",1,2,"call:1",1,0,["prepare","GET ?"],["prepared",1,2]]
["heard",1,2,"call:1",1,0,["close_stmt",1],["done"]]
["heard",1,2,"call:1",1,0,["valid"],["done"]]
["back",1]
["reply",1,["err","num_args",2,1,"sql: expected 2 arguments, got 1"]]
["ended"]
["close",1,"db_closed"]
["heard",1,3,"house",0,0,["shut"],["done"]]
["gone",1]
"#,
        ],
    ),
    (
        r#"caps
c1 one db i64 ["GET ?","a"]
"#,
        r#"["run",1,[]]
["enter",1,1,"one db i64",["GET ?","a"]]
["open",1,1]
["heard",1,1,"house",0,0,["connect"],["done"]]
["lend",1,2,"call:1"]
"#,
        &[
            // A driver that has neither the fast path nor a test is asked for neither.
            r#"["heard",1,2,"call:1",1,0,["prepare","GET ?"],["prepared",1,1]]
["heard",1,2,"call:1",1,0,["query",1,["a"]],["cursor",1,["value"]]]
["heard",1,2,"call:1",1,0,["next",1],["row",[1]]]
["heard",1,2,"call:1",1,0,["close_rows",1],["done"]]
["heard",1,2,"call:1",1,0,["close_stmt",1],["done"]]
["back",1]
["reply",1,["ok","cells",[1]]]
["ended"]
["close",1,"db_closed"]
["heard",1,3,"house",0,0,["shut"],["done"]]
["gone",1]
"#,
        ],
    ),
];
