//! Worked reports and lines of transactions.
ghost use Rattle.std.specs.Prelude.{◌≡◌, ◌∷◌, [], true, pos, codes, reverse};
ghost use Rattle.dsql_history.specs.value.declared.arg.Arg.TheVariants as arg;
ghost use Rattle.dsql_history.specs.value.WorkedArguments.{plain};
ghost use Rattle.dsql_history.specs.scan.declared.dest.Dest.TheVariants as dest;
ghost use Rattle.dsql_history.specs.cancel.declared.token.Cause.TheVariants as cause;
ghost use Rattle.dsql_history.specs.rows.declared.end.RowsOver.TheVariants as over;
ghost use Rattle.dsql_history.specs.driver.declared.call.Level.TheVariants as level;
ghost use Rattle.dsql_history.specs.driver.declared.call.DriverCall.TheVariants as call;
ghost use Rattle.dsql_history.specs.driver.declared.answer.DriverAnswer.TheVariants as answer;
ghost use Rattle.dsql_history.specs.tx.declared.end.TxEnd.TheVariants as end;
ghost use Rattle.dsql_history.specs.declared.event.Op.TheVariants as op;
ghost use Rattle.dsql_history.specs.declared.event.Target.TheVariants as target;
ghost use Rattle.dsql_history.specs.declared.reply.Reply.TheVariants as reply;
ghost use Rattle.dsql_follows.specs.Follows.{history};
ghost use Rattle.dsql_cases_runs.specs.Block.{one_block};
ghost use Rattle.dsql_cases_histories.specs.Words.{x, r, lend_tx, within};
ghost use Rattle.dsql_script_show.specs.Summary.{line_of as summary_line_of, summary_of};
ghost use Rattle.dsql_script_report.specs.Lines.{line_of, text_of};
ghost use Rattle.dsql_cases_runs.specs.OneBlock.{one_block_report};
ghost use Rattle.dsql_cases_runs.specs.WorkedLines.{entered_line, level_line, reply_line, refused_begin, isolation_report, read_only_report};

/// States that a run of a generated script's first block, which is a transaction, has the worked report, byte
/// for byte, and the worked summary.
pub fn worked_block()
    ensures report { text_of (history one_block) ≡ one_block_report }
    ensures summary { summary_line_of (summary_of 8 (history one_block)) ≡ codes "[\"summary\",8,8,1,23,8,0]\n" }
{}

/// States that a run has the worked report if the driver refuses the transaction for its level, or because the
/// transaction is read-only.
pub fn worked_refused_begins()
    ensures level { text_of (reverse (refused_begin level.Snapshot (reply.Isolation level.Snapshot)))
        ≡ isolation_report }
    ensures read_only { text_of (reverse (refused_begin level.Default reply.ReadOnly)) ≡ read_only_report }
{}

/// States that the line of a begin names the level, except the default one.
pub fn worked_level_lines()
    ensures default { level_line level.Default ≡ codes "[\"enter\",1,4,\"begin x db\"]\n" }
    ensures read_uncommitted { level_line level.ReadUncommitted
        ≡ codes "[\"enter\",1,4,\"begin x db level=read_uncommitted\"]\n" }
    ensures read_committed { level_line level.ReadCommitted
        ≡ codes "[\"enter\",1,4,\"begin x db level=read_committed\"]\n" }
    ensures write_committed { level_line level.WriteCommitted
        ≡ codes "[\"enter\",1,4,\"begin x db level=write_committed\"]\n" }
    ensures repeatable_read { level_line level.RepeatableRead
        ≡ codes "[\"enter\",1,4,\"begin x db level=repeatable_read\"]\n" }
    ensures snapshot { level_line level.Snapshot
        ≡ codes "[\"enter\",1,4,\"begin x db level=snapshot\"]\n" }
    ensures serializable { level_line level.Serializable
        ≡ codes "[\"enter\",1,4,\"begin x db level=serializable\"]\n" }
    ensures linearizable { level_line level.Linearizable
        ≡ codes "[\"enter\",1,4,\"begin x db level=linearizable\"]\n" }
{}

/// States the worked lines of a lending to a transaction, of entries, and of calls in a transaction, which name
/// its label.
pub fn worked_call_lines()
    ensures lend { line_of (lend_tx 1 2 3) ≡ codes "[\"lend\",1,2,\"tx:3\"]\n" }
    ensures begin { line_of (within 1 2 3 3 (call.Begin level.Serializable true) answer.Done)
        ≡ codes "[\"heard\",1,2,\"tx:3\",3,3,[\"begin\",\"serializable\",true],[\"done\"]]\n" }
    ensures rollback { line_of (within 1 2 3 0 call.Rollback answer.Done)
        ≡ codes "[\"heard\",1,2,\"tx:3\",0,3,[\"rollback\"],[\"done\"]]\n" }
    ensures exec { entered_line (op.Exec (target.Label x) (codes "SET a ?") (plain (arg.I64 (pos 1)) ∷ []))
        ≡ codes "[\"enter\",1,4,\"exec x\",[\"SET a ?\",1]]\n" }
    ensures query { entered_line (op.Query r (target.Label x) (codes "GET a") [])
        ≡ codes "[\"enter\",1,4,\"query r x\",[\"GET a\"]]\n" }
    ensures one { entered_line (op.One (target.Label x) (dest.Text ∷ dest.NullI16 ∷ []) (codes "GET a") [])
        ≡ codes "[\"enter\",1,4,\"one x text,null:i16\",[\"GET a\"]]\n" }
    ensures exec_on_database { entered_line (op.Exec target.Db (codes "SET a 1") [])
        ≡ codes "[\"enter\",1,4,\"exec db\",[\"SET a 1\"]]\n" }
    ensures query_on_database { entered_line (op.Query r target.Db (codes "GET a") [])
        ≡ codes "[\"enter\",1,4,\"query r db\",[\"GET a\"]]\n" }
    ensures one_on_database { entered_line (op.One target.Db (dest.I64 ∷ []) (codes "GET a") [])
        ≡ codes "[\"enter\",1,4,\"one db i64\",[\"GET a\"]]\n" }
{}

/// States the worked lines of a commit and a rollback, and of replies that a transaction, or rows with it, has
/// ended.
pub fn worked_end_lines()
    ensures commit { entered_line (op.Commit x) ≡ codes "[\"enter\",1,4,\"commit x\"]\n" }
    ensures rollback { entered_line (op.Rollback x) ≡ codes "[\"enter\",1,4,\"rollback x\"]\n" }
    ensures committed { reply_line (reply.TxDone end.Commit)
        ≡ codes "[\"reply\",3,[\"err\",\"tx_done\",\"commit\",\"sql: transaction has already been committed or rolled back\"]]\n" }
    ensures rolled_back { reply_line (reply.TxDone end.Rollback)
        ≡ codes "[\"reply\",3,[\"err\",\"tx_done\",\"rollback\",\"sql: transaction has already been committed or rolled back\"]]\n" }
    ensures canceled { reply_line (reply.TxDone (end.Cancel cause.Canceled))
        ≡ codes "[\"reply\",3,[\"err\",\"tx_done\",\"canceled\",\"sql: transaction has already been committed or rolled back\"]]\n" }
    ensures deadline { reply_line (reply.TxDone (end.Cancel cause.Deadline))
        ≡ codes "[\"reply\",3,[\"err\",\"tx_done\",\"deadline\",\"sql: transaction has already been committed or rolled back\"]]\n" }
    ensures end_of_run { reply_line (reply.TxDone end.EndOfRun)
        ≡ codes "[\"reply\",3,[\"err\",\"tx_done\",\"end\",\"sql: transaction has already been committed or rolled back\"]]\n" }
    ensures rows { reply_line (reply.RowsClosed over.TxEnded)
        ≡ codes "[\"reply\",3,[\"err\",\"rows_closed\",\"tx\",\"sql: Rows are closed\"]]\n" }
    ensures absent { reply_line (reply.Absent x)
        ≡ codes "[\"reply\",3,[\"err\",\"absent\",\"x\",\"sql: no value has this label\"]]\n" }
{}
