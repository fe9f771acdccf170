//! Scripts of execs over a driver with faults, each with its report, by the rules of the layer.

use super::Case;

pub(super) const REPORTS: &[Case] = &[(
    r#"caps fast_exec resetter validator
c1 exec db ["SET a ?",1]
"#,
    r#"["run",1,["fast_exec","resetter","validator"]]
["enter",1,1,"exec db",["SET a ?",1]]
["open",1,1]
["heard",1,1,"house",0,0,["connect"],["done"]]
["lend",1,2,"call:1"]
["heard",1,2,"call:1",1,0,["exec","SET a ?",[1]],["skip"]]
["heard",1,2,"call:1",1,0,["prepare","SET a ?"],["prepared",1,2]]
"#,
    &[
        // The statement wants two inputs, so the layer closes it without running it.
        r#"["heard",1,2,"call:1",1,0,["close_stmt",1],["done"]]
["heard",1,2,"call:1",1,0,["valid"],["done"]]
["back",1]
["reply",1,["err","num_args",2,1,"sql: expected 2 arguments, got 1"]]
["ended"]
["close",1,"db_closed"]
["heard",1,3,"house",0,0,["shut"],["done"]]
["gone",1]
"#,
        // The same, and the driver answers the close of the handle with bad.
        r#"["heard",1,2,"call:1",1,0,["close_stmt",1],["bad"]]
["close",1,"bad"]
["reply",1,["err","num_args",2,1,"sql: expected 2 arguments, got 1"]]
["heard",1,3,"house",0,0,["shut"],["done"]]
["gone",1]
["ended"]
"#,
    ],
)];
