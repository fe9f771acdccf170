//! Scripts of queries that hand out rows, over a driver with faults, each with its report, by the rules of the
//! layer.

use super::Case;

pub(super) const REPORTS: &[Case] = &[
    (
        r#"caps fast_exec fast_query resetter validator
c1 query r db ["GET a"]
c1 next r
c1 rowsclose r
c1 err r
"#,
        r#"["run",1,["fast_exec","fast_query","resetter","validator"]]
["enter",1,1,"query r db",["GET a"]]
["open",1,1]
["heard",1,1,"house",0,0,["connect"],["done"]]
["lend",1,2,"call:1"]
["heard",1,2,"call:1",1,0,["query","GET a",[]],["cursor",1,["value"]]]
["reply",1,["ok","rows",["value"]]]
["enter",1,2,"next r"]
["heard",1,2,"call:1",2,0,["next",1],["row",[1]]]
["reply",2,["ok",true]]
["enter",1,3,"rowsclose r"]
"#,
        &[
            // The close of the cursor fails. The call that closes the rows replies with that fault. The rows themselves
            // keep no fault.
            r#"["heard",1,2,"call:1",3,0,["close_rows",1],["fail","boom"]]
["heard",1,2,"call:1",3,0,["valid"],["done"]]
["back",1]
["reply",3,["err","driver","boom"]]
["enter",1,4,"err r"]
["reply",4,["ok"]]
["ended"]
["close",1,"db_closed"]
["heard",1,3,"house",0,0,["shut"],["done"]]
["gone",1]
"#,
            // The driver answers the close of the cursor with bad.
            r#"["heard",1,2,"call:1",3,0,["close_rows",1],["bad"]]
["close",1,"bad"]
["reply",3,["err","bad_conn",1,"driver: bad connection"]]
["heard",1,3,"house",0,0,["shut"],["done"]]
["gone",1]
["enter",1,4,"err r"]
["reply",4,["ok"]]
["ended"]
"#,
        ],
    ),
    (
        r#"caps fast_exec fast_query resetter validator
c1 query r db ["GET ?","a"]
c1 next r
c1 rowsclose r
"#,
        r#"["run",1,["fast_exec","fast_query","resetter","validator"]]
["enter",1,1,"query r db",["GET ?","a"]]
["open",1,1]
["heard",1,1,"house",0,0,["connect"],["done"]]
["lend",1,2,"call:1"]
"#,
        &[
            // The handle that was prepared for the query lives as long as its rows.
            r#"["heard",1,2,"call:1",1,0,["query","GET ?",["a"]],["skip"]]
["heard",1,2,"call:1",1,0,["prepare","GET ?"],["prepared",1,1]]
["heard",1,2,"call:1",1,0,["query",1,["a"]],["cursor",1,["value"]]]
["reply",1,["ok","rows",["value"]]]
["enter",1,2,"next r"]
["heard",1,2,"call:1",2,0,["next",1],["row",[1]]]
["reply",2,["ok",true]]
["enter",1,3,"rowsclose r"]
["heard",1,2,"call:1",3,0,["close_rows",1],["done"]]
["heard",1,2,"call:1",3,0,["close_stmt",1],["done"]]
["heard",1,2,"call:1",3,0,["valid"],["done"]]
["back",1]
["reply",3,["ok"]]
["ended"]
["close",1,"db_closed"]
["heard",1,3,"house",0,0,["shut"],["done"]]
["gone",1]
"#,
        ],
    ),
];
