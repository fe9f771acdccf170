//! Laws of the lines of reports. Each law is the contract of a function that does nothing.
ghost use Rattle.std.specs.Prelude.{◌≡◌, ◌∷◌, ◌++◌, [], pos, true, false, codes, replicate, Ok, Err};
ghost use Rattle.dsql_history.specs.scan.declared.dest.Dest.TheVariants as dest;
ghost use Rattle.dsql_history.specs.cancel.declared.token.Cause.TheVariants as cause;
ghost use Rattle.dsql_history.specs.driver.declared.call.Level.TheVariants as level;
ghost use Rattle.dsql_history.specs.driver.declared.call.DriverCall.TheVariants as call;
ghost use Rattle.dsql_history.specs.driver.declared.answer.DriverAnswer.TheVariants as answer;
ghost use Rattle.dsql_history.specs.journal.declared.entry.Owner.TheVariants.{Tx};
ghost use Rattle.dsql_history.specs.tx.declared.end.TxEnd.TheVariants as end;
ghost use Rattle.dsql_history.specs.pool.declared.moves.Move.TheVariants.{Back, Lend};
ghost use Rattle.dsql_history.specs.declared.event.Setting.TheVariants.{MaxOpen};
ghost use Rattle.dsql_history.specs.declared.event.Op.TheVariants as op;
ghost use Rattle.dsql_history.specs.declared.event.Target.TheVariants as target;
ghost use Rattle.dsql_history.specs.declared.event.Event.TheVariants.{Entered, Heard, Pool, SetLimit, Replied, Ended};
ghost use Rattle.dsql_history.specs.declared.reply.Reply.TheVariants as reply;
ghost use Rattle.dsql_script_forms.specs.declared.fault.LineFault.TheVariants.{TooLong, NotUtf8, BadJson, BadShape};
ghost use Rattle.dsql_script_event_reader.specs.Events.{reading_of};
ghost use Rattle.dsql_script_event_reader.specs.Refusals.{ReadsEventsBack, LinesTellEvents};

/// The line of an event, if it isn't too long, is read as this event. The one thing that a line doesn't show is
/// for which call a connection is lent. It is read as the owner's number, or as 0 if the owner is the layer
/// itself.
pub fn spelled_events_are_read_back()
    ensures { ReadsEventsBack }
{}

/// Two events that fit their types and have the same line, of any length, are equal. They may differ in the call for
/// which a connection is lent.
pub fn lines_tell_their_events()
    ensures { LinesTellEvents }
{}

/// Lines of transactions, each with the event that it is read as.
pub fn worked_transaction_lines()
    ensures lend { reading_of (codes "[\"lend\",1,2,\"tx:7\"]") ≡ Ok (Pool (Lend 1 2 (Tx 7) 7)) }
    ensures begin { reading_of (codes "[\"enter\",1,2,\"begin x db\"]")
        ≡ Ok (Entered 1 2 (op.Begin (codes "x") level.Default false)) }
    ensures read_only { reading_of (codes "[\"enter\",1,2,\"begin x db ro\"]")
        ≡ Ok (Entered 1 2 (op.Begin (codes "x") level.Default true)) }
    ensures leveled { reading_of (codes "[\"enter\",1,2,\"begin x db level=serializable\"]")
        ≡ Ok (Entered 1 2 (op.Begin (codes "x") level.Serializable false)) }
    ensures both { reading_of (codes "[\"enter\",1,2,\"begin x db level=snapshot ro\"]")
        ≡ Ok (Entered 1 2 (op.Begin (codes "x") level.Snapshot true)) }
    ensures commit { reading_of (codes "[\"enter\",1,2,\"commit x\"]") ≡ Ok (Entered 1 2 (op.Commit (codes "x"))) }
    ensures rollback { reading_of (codes "[\"enter\",1,2,\"rollback x\"]")
        ≡ Ok (Entered 1 2 (op.Rollback (codes "x"))) }
    ensures exec { reading_of (codes "[\"enter\",1,2,\"exec x\",[\"SET a 1\"]]")
        ≡ Ok (Entered 1 2 (op.Exec (target.Label (codes "x")) (codes "SET a 1") [])) }
    ensures on_database { reading_of (codes "[\"enter\",1,2,\"exec db\",[\"SET a 1\"]]")
        ≡ Ok (Entered 1 2 (op.Exec target.Db (codes "SET a 1") [])) }
    ensures query { reading_of (codes "[\"enter\",1,2,\"query r x\",[\"GET a\"]]")
        ≡ Ok (Entered 1 2 (op.Query (codes "r") (target.Label (codes "x")) (codes "GET a") [])) }
    ensures one { reading_of (codes "[\"enter\",1,2,\"one x i64\",[\"GET a\"]]")
        ≡ Ok (Entered 1 2 (op.One (target.Label (codes "x")) (dest.I64 ∷ []) (codes "GET a") [])) }
    ensures heard { reading_of (codes "[\"heard\",1,2,\"tx:3\",4,3,[\"commit\"],[\"done\"]]")
        ≡ Ok (Heard (record {
          conn = 1;
          tenure = 2;
          owner = Tx 3;
          call_no = 4;
          tx = 3;
          call = call.Commit;
          answer = answer.Done;
        })) }
    ensures committed { reading_of
        (codes "[\"reply\",3,[\"err\",\"tx_done\",\"commit\",\"sql: transaction has already been committed or rolled back\"]]")
        ≡ Ok (Replied 3 (reply.TxDone end.Commit)) }
    ensures canceled { reading_of
        (codes "[\"reply\",3,[\"err\",\"tx_done\",\"canceled\",\"sql: transaction has already been committed or rolled back\"]]")
        ≡ Ok (Replied 3 (reply.TxDone (end.Cancel cause.Canceled))) }
    ensures end_of_run { reading_of
        (codes "[\"reply\",3,[\"err\",\"tx_done\",\"end\",\"sql: transaction has already been committed or rolled back\"]]")
        ≡ Ok (Replied 3 (reply.TxDone end.EndOfRun)) }
    ensures isolation { reading_of
        (codes "[\"reply\",3,[\"err\",\"isolation\",\"snapshot\",\"sql: driver does not support non-default isolation level\"]]")
        ≡ Ok (Replied 3 (reply.Isolation level.Snapshot)) }
    ensures reads_alone { reading_of
        (codes "[\"reply\",3,[\"err\",\"read_only\",\"sql: driver does not support read-only transactions\"]]")
        ≡ Ok (Replied 3 reply.ReadOnly) }
{}

/// Lines of no transaction, each with the event that it is read as.
pub fn worked_event_lines()
    ensures back { reading_of (codes "[\"back\",4294967295]") ≡ Ok (Pool (Back 4294967295)) }
    ensures limit { reading_of (codes "[\"set\",\"maxopen\",2]") ≡ Ok (SetLimit MaxOpen (pos 2)) }
    ensures next { reading_of (codes "[\"enter\",1,2,\"next r\"]") ≡ Ok (Entered 1 2 (op.Next (codes "r"))) }
    ensures ping { reading_of (codes "[\"enter\",1,2,\"ping db\"]") ≡ Ok (Entered 1 2 op.Ping) }
    ensures client_64 { reading_of (codes "[\"enter\",64,1,\"dbclose\"]") ≡ Ok (Entered 64 1 op.DbClose) }
    ensures ended { reading_of (codes "[\"ended\"]") ≡ Ok Ended }
{}

/// Refused lines, each with its fault.
pub fn worked_refusals()
    ensures too_long { reading_of (replicate 65537 97) ≡ Err TooLong }
    ensures not_utf8 { reading_of (codes "[" ++ 255 ∷ []) ≡ Err NotUtf8 }
    ensures not_json { reading_of (codes "[1") ≡ Err BadJson }
    ensures empty { reading_of [] ≡ Err BadJson }
    ensures space { reading_of (codes "[\"back\", 1]") ≡ Err BadShape }
    ensures too_great { reading_of (codes "[\"back\",4294967296]") ≡ Err BadShape }
    ensures more { reading_of (codes "[\"back\",1,2]") ≡ Err BadShape }
    ensures no_word { reading_of (codes "[1]") ≡ Err BadShape }
    ensures no_name { reading_of (codes "[\"enter\",1,2,\"next R\"]") ≡ Err BadShape }
    ensures ping_of_label { reading_of (codes "[\"enter\",1,2,\"ping r\"]") ≡ Err BadShape }
    ensures memory { reading_of (codes "[\"heard\",1,1,\"house\",0,0,[\"connect\"],[\"memory\"]]") ≡ Err BadShape }
    ensures no_client { reading_of (codes "[\"enter\",0,1,\"stats\"]") ≡ Err BadShape }
    ensures client_65 { reading_of (codes "[\"enter\",65,1,\"stats\"]") ≡ Err BadShape }
    ensures line_feed { reading_of (codes "[\"ended\"]\n") ≡ Err BadShape }
    ensures default_level { reading_of (codes "[\"enter\",1,2,\"begin x db level=default\"]") ≡ Err BadShape }
    ensures out_of_order { reading_of (codes "[\"enter\",1,2,\"begin x db ro level=snapshot\"]") ≡ Err BadShape }
    ensures begin_in_transaction { reading_of (codes "[\"enter\",1,2,\"begin y x\"]") ≡ Err BadShape }
    ensures token { reading_of (codes "[\"enter\",1,2,\"exec x @k\",[\"SET a 1\"]]") ≡ Err BadShape }
    ensures no_target { reading_of (codes "[\"enter\",1,2,\"exec X\",[\"SET a 1\"]]") ≡ Err BadShape }
    ensures commit_of_database { reading_of (codes "[\"enter\",1,2,\"commit db\"]") ≡ Err BadShape }
    ensures no_such_end { reading_of
        (codes "[\"reply\",3,[\"err\",\"tx_done\",\"close\",\"sql: transaction has already been committed or rolled back\"]]") ≡ Err BadShape }
{}
