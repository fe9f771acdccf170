//! The lines of worked events. The functions do nothing: their contracts are the statements.
ghost use Rattle.std.specs.Prelude.{◌≡◌, ◌∷◌, [], Some, None, true, false, pos, negsuc, codes};
ghost use Rattle.dsql_history.specs.value.declared.arg.Arg.{Arg};
ghost use Rattle.dsql_history.specs.value.declared.arg.Arg.TheVariants as arg;
ghost use Rattle.dsql_history.specs.value.WorkedArguments.{plain, named_one};
ghost use Rattle.dsql_history.specs.value.declared.value.Value.TheVariants as value;
ghost use Rattle.dsql_history.specs.scan.declared.dest.Dest.TheVariants as dest;
ghost use Rattle.dsql_history.specs.scan.declared.cell.Cell.TheVariants as cell;
ghost use Rattle.dsql_history.specs.driver.declared.call.Input.TheVariants as input;
ghost use Rattle.dsql_history.specs.driver.declared.call.DriverCall.TheVariants as call;
ghost use Rattle.dsql_history.specs.driver.declared.answer.DriverAnswer.TheVariants as answer;
ghost use Rattle.dsql_history.specs.rows.declared.end.RowsOver.TheVariants as over;
ghost use Rattle.dsql_history.specs.pool.declared.moves.CloseCause.TheVariants as cause;
ghost use Rattle.dsql_history.specs.pool.declared.moves.Move.TheVariants as moved;
ghost use Rattle.dsql_history.specs.works.declared.fault_word.FaultWord.TheVariants as fault;
ghost use Rattle.dsql_history.specs.declared.event.Event.TheVariants as event;
ghost use Rattle.dsql_history.specs.declared.event.Op.TheVariants as op;
ghost use Rattle.dsql_history.specs.declared.event.Target.TheVariants as target;
ghost use Rattle.dsql_history.specs.declared.event.Setting.TheVariants as setting;
ghost use Rattle.dsql_history.specs.declared.reply.DbEnd.TheVariants as db_end;
ghost use Rattle.dsql_history.specs.declared.reply.Reply.{Reply};
ghost use Rattle.dsql_history.specs.declared.reply.Reply.TheVariants as reply;
ghost use Rattle.dsql_script_read_back.specs.WorkedLines.{counted, exec_line, one_line, entered_line, heard_line, move_line, close_line, reply_line};
ghost use Rattle.dsql_script_report.specs.Lines.{line_of};

/// Arguments follow a call's text, and replies say what is wrong with them.
pub fn worked_argument_lines()
    ensures numbers { exec_line (plain (arg.I64 (negsuc 0)) ∷ plain (arg.U64 5)
        ∷ plain (arg.U64 9223372036854775807) ∷ plain (arg.U64 9223372036854775808) ∷ [])
        ≡ codes "[\"enter\",1,3,\"exec x\",[\"SET a ?\",-1,{\"u64\":5},{\"u64\":9223372036854775807},9223372036854775808]]\n" }
    ensures bytes { exec_line (plain (arg.Bytes (0 ∷ 171 ∷ [])) ∷ plain (arg.NullTime None) ∷ plain
        (arg.NullU8 (Some 7)) ∷ [])
        ≡ codes "[\"enter\",1,3,\"exec x\",[\"SET a ?\",{\"bytes\":\"00ab\"},{\"null_time\":null},{\"null_u8\":7}]]\n" }
    ensures name { exec_line (named_one (codes "x") ∷ [])
        ≡ codes "[\"enter\",1,3,\"exec x\",[\"SET a ?\",{\"arg\":1,\"name\":\"x\"}]]\n" }
    ensures num_args { reply_line (reply.NumArgs 1 2)
        ≡ codes "[\"reply\",3,[\"err\",\"num_args\",1,2,\"sql: expected 1 arguments, got 2\"]]\n" }
    ensures high_bit { reply_line (reply.HighBit 9223372036854775808)
        ≡ codes "[\"reply\",3,[\"err\",\"high_bit\",9223372036854775808,\"sql: unsigned value has its high bit set\"]]\n" }
    ensures named { reply_line (reply.NamedRefused (codes "x"))
        ≡ codes "[\"reply\",3,[\"err\",\"named\",\"x\",\"sql: driver does not support the use of Named Parameters\"]]\n" }
    ensures bad_name { reply_line (reply.BadName (codes "9x"))
        ≡ codes "[\"reply\",3,[\"err\",\"bad_name\",\"9x\",\"sql: name does not begin with a letter\"]]\n" }
{}

/// A call that reads one row names its destinations, a driver answers with rows, and replies say what became of
/// a row.
pub fn worked_row_lines()
    ensures one { one_line (dest.I64 ∷ [])
        ≡ codes "[\"enter\",1,2,\"one x i64\",[\"GET a\"]]\n" }
    ensures two { one_line (dest.Text ∷ dest.NullI16 ∷ [])
        ≡ codes "[\"enter\",1,2,\"one x text,null:i16\",[\"GET a\"]]\n" }
    ensures query { heard_line (call.Query (input.Text (codes "GET a")) []) (answer.Cursor 7 (codes "value" ∷ []))
        ≡ codes "[\"heard\",1,4,\"tx:1\",2,1,[\"query\",\"GET a\",[]],[\"cursor\",7,[\"value\"]]]\n" }
    ensures handle { heard_line (call.Query (input.Handle 5) []) answer.Bad
        ≡ codes "[\"heard\",1,4,\"tx:1\",2,1,[\"query\",5,[]],[\"bad\"]]\n" }
    ensures row { heard_line (call.Next 7) (answer.Row (value.Int (pos 5) ∷ value.Nil ∷ []))
        ≡ codes "[\"heard\",1,4,\"tx:1\",2,1,[\"next\",7],[\"row\",[5,null]]]\n" }
    ensures end { heard_line (call.Next 7) answer.End
        ≡ codes "[\"heard\",1,4,\"tx:1\",2,1,[\"next\",7],[\"end\"]]\n" }
    ensures close_rows { heard_line (call.CloseRows 7) answer.Done
        ≡ codes "[\"heard\",1,4,\"tx:1\",2,1,[\"close_rows\",7],[\"done\"]]\n" }
    ensures cells { reply_line (reply.Cells (cell.Int (negsuc 4) ∷ cell.Null ∷ cell.Text (codes "b") ∷ []))
        ≡ codes "[\"reply\",3,[\"ok\",\"cells\",[-5,null,\"b\"]]]\n" }
    ensures unsigned { reply_line
        (reply.Cells (cell.Uint 5 ∷ cell.Uint 9223372036854775807 ∷ cell.Uint 9223372036854775808 ∷ []))
        ≡ codes "[\"reply\",3,[\"ok\",\"cells\",[{\"u64\":5},{\"u64\":9223372036854775807},9223372036854775808]]]\n" }
    ensures no_rows { reply_line reply.NoRows
        ≡ codes "[\"reply\",3,[\"err\",\"no_rows\",\"sql: no rows in result set\"]]\n" }
    ensures dest_count { reply_line (reply.DestCount 1 2)
        ≡ codes "[\"reply\",3,[\"err\",\"dest_count\",1,2,\"sql: expected 1 destination arguments in Scan, not 2\"]]\n" }
    ensures scan { reply_line (reply.Scan 0 fault.NotANumber)
        ≡ codes "[\"reply\",3,[\"err\",\"scan\",0,\"not_a_number\",\"sql: scan of column 0: not_a_number\"]]\n" }
{}

/// A query and the calls on its rows name its label, and replies say what these calls returned.
pub fn worked_rows_lines()
    ensures query { entered_line (op.Query (codes "r") (target.Label (codes "x")) (codes "GET a")
        (plain (arg.I64 (pos 1)) ∷ []))
        ≡ codes "[\"enter\",1,4,\"query r x\",[\"GET a\",1]]\n" }
    ensures next { entered_line (op.Next (codes "r"))
        ≡ codes "[\"enter\",1,4,\"next r\"]\n" }
    ensures scan { entered_line (op.Scan (codes "r") (dest.Text ∷ dest.I64 ∷ []))
        ≡ codes "[\"enter\",1,4,\"scan r text,i64\"]\n" }
    ensures rows_close { entered_line (op.RowsClose (codes "r_2"))
        ≡ codes "[\"enter\",1,4,\"rowsclose r_2\"]\n" }
    ensures err { entered_line (op.Err (codes "r"))
        ≡ codes "[\"enter\",1,4,\"err r\"]\n" }
    ensures ok { reply_line reply.Ok ≡ codes "[\"reply\",3,[\"ok\"]]\n" }
    ensures rows { reply_line (reply.Rows (codes "key" ∷ codes "value" ∷ []))
        ≡ codes "[\"reply\",3,[\"ok\",\"rows\",[\"key\",\"value\"]]]\n" }
    ensures truth { reply_line (reply.Truth true) ≡ codes "[\"reply\",3,[\"ok\",true]]\n" }
    ensures no_row { reply_line (reply.Truth false) ≡ codes "[\"reply\",3,[\"ok\",false]]\n" }
    ensures absent { reply_line (reply.Absent (codes "r"))
        ≡ codes "[\"reply\",3,[\"err\",\"absent\",\"r\",\"sql: no value has this label\"]]\n" }
    ensures closed { reply_line (reply.RowsClosed over.EndOfRows)
        ≡ codes "[\"reply\",3,[\"err\",\"rows_closed\",\"end_of_rows\",\"sql: Rows are closed\"]]\n" }
    ensures no_next { reply_line reply.NoNextYet
        ≡ codes "[\"reply\",3,[\"err\",\"no_next\",\"sql: Scan called without calling Next\"]]\n" }
{}

/// Calls wait, the clock is set, limits are set. Connections are opened for a call or for the waiting list, and
/// closed for each cause. A connection is pinged. Replies report a full pool, a closed database and statistics.
pub fn worked_pool_lines()
    ensures wait { line_of (event.Waits 3) ≡ codes "[\"wait\",3]\n" }
    ensures max_open { line_of (event.SetLimit setting.MaxOpen (pos 2))
        ≡ codes "[\"set\",\"maxopen\",2]\n" }
    ensures max_idle { line_of (event.SetLimit setting.MaxIdle (negsuc 0))
        ≡ codes "[\"set\",\"maxidle\",-1]\n" }
    ensures max_life { line_of (event.SetLimit setting.MaxLife (pos 3600000000000))
        ≡ codes "[\"set\",\"maxlife\",3600000000000]\n" }
    ensures max_idle_time { line_of (event.SetLimit setting.MaxIdleTime (negsuc 9223372036854775807))
        ≡ codes "[\"set\",\"maxidletime\",-9223372036854775808]\n" }
    ensures first_moment { line_of (event.Ticked 0) ≡ codes "[\"tick\",0]\n" }
    ensures last_moment { line_of (event.Ticked 18446744073709551615)
        ≡ codes "[\"tick\",18446744073709551615]\n" }
    ensures open_for_call { move_line (moved.OpenStart 2 5) ≡ codes "[\"open\",2,5]\n" }
    ensures open_for_list { move_line (moved.OpenStart 2 0) ≡ codes "[\"open\",2,0]\n" }
    ensures bad { close_line cause.Bad ≡ codes "[\"close\",2,\"bad\"]\n" }
    ensures invalid { close_line cause.Invalid ≡ codes "[\"close\",2,\"invalid\"]\n" }
    ensures over_limit { close_line cause.OverLimit ≡ codes "[\"close\",2,\"over_limit\"]\n" }
    ensures idle_full { close_line cause.IdleFull ≡ codes "[\"close\",2,\"idle_full\"]\n" }
    ensures lifetime { close_line cause.Lifetime ≡ codes "[\"close\",2,\"lifetime\"]\n" }
    ensures idle_time { close_line cause.IdleTime ≡ codes "[\"close\",2,\"idle_time\"]\n" }
    ensures db_closed { close_line cause.DbClosed ≡ codes "[\"close\",2,\"db_closed\"]\n" }
    ensures discarded { close_line cause.Discarded ≡ codes "[\"close\",2,\"discarded\"]\n" }
    ensures ping { entered_line op.Ping ≡ codes "[\"enter\",1,4,\"ping db\"]\n" }
    ensures db_close { entered_line op.DbClose ≡ codes "[\"enter\",1,4,\"dbclose\"]\n" }
    ensures stats { entered_line op.Stats ≡ codes "[\"enter\",1,4,\"stats\"]\n" }
    ensures too_many { reply_line reply.TooMany
        ≡ codes "[\"reply\",3,[\"err\",\"too_many\",1000,\"sql: too many open connections\"]]\n" }
    ensures closed_by_call { reply_line (reply.DbClosed db_end.Close)
        ≡ codes "[\"reply\",3,[\"err\",\"db_closed\",\"close\",\"sql: database is closed\"]]\n" }
    ensures closed_by_end { reply_line (reply.DbClosed db_end.EndOfRun)
        ≡ codes "[\"reply\",3,[\"err\",\"db_closed\",\"end\",\"sql: database is closed\"]]\n" }
    ensures told { reply_line (reply.Stats counted)
        ≡ codes "[\"reply\",3,[\"ok\",\"stats\",[2,1,1,0,4,18446744073709551615,5,6,7]]]\n" }
{}
