//! What worked lines of transactions are read as. The functions do nothing: their contracts are the examples.
ghost use Rattle.std.specs.Prelude.{◌≡◌, ◌∷◌, [], pos, false, true, codes, Ok, Err};
ghost use Rattle.dsql_history.specs.value.declared.arg.Arg.TheVariants as arg;
ghost use Rattle.dsql_history.specs.value.WorkedArguments.{plain};
ghost use Rattle.dsql_history.specs.scan.declared.dest.Dest.TheVariants as dest;
ghost use Rattle.dsql_history.specs.driver.declared.call.Level.TheVariants as level;
ghost use Rattle.dsql_script_forms.specs.declared.fault.What.TheVariants.{Args};
ghost use Rattle.dsql_script_forms.specs.declared.fault.LineFault.TheVariants.{NoSuchWord, BadJson, BadShape, UnknownLabel, LabelTaken, TooMany};
ghost use Rattle.dsql_history.specs.declared.event.Op.TheVariants.{Begin};
ghost use Rattle.dsql_history.specs.declared.event.Op.TheVariants as op;
ghost use Rattle.dsql_history.specs.declared.event.Target.TheVariants.{Label};
ghost use Rattle.dsql_script_reader.specs.declared.kind.Kind.TheVariants.{Rows, Transaction};
ghost use Rattle.dsql_script_reader.specs.declared.script.ScriptLine.TheVariants.{Client};
ghost use Rattle.dsql_script_reader.specs.declared.script.Head.TheVariants.{Begun};
ghost use Rattle.dsql_script_reader.specs.ScriptHead.{unread, progress, progress_past, after};
ghost use Rattle.dsql_script_reader.specs.ScriptLines.{read_of};

/// States what is read of lines that begin a transaction.
pub fn worked_begin_lines()
    ensures begin { read_of unread (codes "c1 begin x db")
        ≡ Ok (Client 1 (Begin (codes "x") level.Default false) false) }
    ensures last_client { read_of (progress 9999 Begun) (codes "c64 begin x_2 db\r")
        ≡ Ok (Client 64 (Begin (codes "x_2") level.Default false) false) }
    ensures held { read_of unread (codes "start c2 begin x db")
        ≡ Ok (Client 2 (Begin (codes "x") level.Default false) true) }
    ensures read_only { read_of unread (codes "c1 begin x db ro")
        ≡ Ok (Client 1 (Begin (codes "x") level.Default true) false) }
    ensures both { read_of unread (codes "c1 begin x db level=snapshot ro")
        ≡ Ok (Client 1 (Begin (codes "x") level.Snapshot true) false) }
    ensures read_uncommitted { read_of unread (codes "c1 begin x db level=read_uncommitted")
        ≡ Ok (Client 1 (Begin (codes "x") level.ReadUncommitted false) false) }
    ensures read_committed { read_of unread (codes "c1 begin x db level=read_committed")
        ≡ Ok (Client 1 (Begin (codes "x") level.ReadCommitted false) false) }
    ensures write_committed { read_of unread (codes "c1 begin x db level=write_committed")
        ≡ Ok (Client 1 (Begin (codes "x") level.WriteCommitted false) false) }
    ensures repeatable_read { read_of unread (codes "c1 begin x db level=repeatable_read")
        ≡ Ok (Client 1 (Begin (codes "x") level.RepeatableRead false) false) }
    ensures snapshot { read_of unread (codes "c1 begin x db level=snapshot")
        ≡ Ok (Client 1 (Begin (codes "x") level.Snapshot false) false) }
    ensures serializable { read_of unread (codes "c1 begin x db level=serializable")
        ≡ Ok (Client 1 (Begin (codes "x") level.Serializable false) false) }
    ensures linearizable { read_of unread (codes "c1 begin x db level=linearizable")
        ≡ Ok (Client 1 (Begin (codes "x") level.Linearizable false) false) }
    ensures default_level { read_of unread (codes "c1 begin x db level=default") ≡ Err BadShape }
    ensures no_level { read_of unread (codes "c1 begin x db level=") ≡ Err BadShape }
    ensures upper_case { read_of unread (codes "c1 begin x db level=Snapshot") ≡ Err BadShape }
    ensures two_levels { read_of unread (codes "c1 begin x db level=snapshot level=snapshot") ≡ Err BadShape }
    ensures out_of_order { read_of unread (codes "c1 begin x db ro level=snapshot") ≡ Err BadShape }
    ensures twice { read_of unread (codes "c1 begin x db ro ro") ≡ Err BadShape }
    ensures other_option { read_of unread (codes "c1 begin x db rw") ≡ Err BadShape }
    ensures empty_word { read_of unread (codes "c1 begin x db ") ≡ Err BadShape }
    ensures alone { read_of unread (codes "c1 begin") ≡ Err BadShape }
    ensures no_target { read_of unread (codes "c1 begin x") ≡ Err BadShape }
    ensures no_label { read_of unread (codes "c1 begin db db") ≡ Err BadShape }
    ensures no_such_target { read_of unread (codes "c1 begin x Db") ≡ Err BadShape }
    ensures unwanted_array { read_of unread (codes "c1 begin x db [") ≡ Err BadShape }
    ensures two_tokens { read_of unread (codes "c1 begin x db @k @l") ≡ Err BadShape }
    ensures option_behind_token { read_of unread (codes "c1 begin x db @k ro") ≡ Err BadShape }
    ensures token { read_of unread (codes "c1 begin x db @k") ≡ Err UnknownLabel }
    ensures token_behind_options { read_of unread (codes "start c1 begin x db level=snapshot ro @k")
        ≡ Err UnknownLabel }
    ensures label { read_of unread (codes "c1 begin x y") ≡ Err UnknownLabel }
    ensures label_of_transaction { read_of (progress_past ((codes "x", Transaction) ∷ [])) (codes "c1 begin y x")
        ≡ Err UnknownLabel }
    ensures taken { read_of (progress_past ((codes "x", Transaction) ∷ [])) (codes "c1 begin x db") ≡ Err LabelTaken }
    ensures taken_by_rows { read_of (progress_past ((codes "x", Rows) ∷ [])) (codes "c1 begin x db ro")
        ≡ Err LabelTaken }
    ensures token_before_label { read_of (progress_past ((codes "x", Transaction) ∷ [])) (codes "c1 begin x db @k")
        ≡ Err UnknownLabel }
    ensures no_version_behind { read_of (after unread (Client 1 (Begin (codes "x") level.Default false) false))
        (codes "version 1")
        ≡ Err NoSuchWord }
{}

/// States what is read of lines that name a transaction, if an earlier line began `x` and a query made `r`. For some
/// lines, states it if none did.
pub fn worked_transaction_lines()
    ensures exec { read_of (progress_past ((codes "x", Transaction) ∷ [])) (codes "c1 exec x [\"SET ? ?\",\"a\",1]")
        ≡ Ok (Client 1 (op.Exec (Label (codes "x")) (codes "SET ? ?")
        (plain (arg.Text (codes "a")) ∷ plain (arg.I64 (pos 1)) ∷ [])) false) }
    ensures text_alone { read_of (progress_past ((codes "x", Transaction) ∷ [])) (codes "start c2 exec x [\"SET a 1\"]")
        ≡ Ok (Client 2 (op.Exec (Label (codes "x")) (codes "SET a 1") []) true) }
    ensures query { read_of (progress_past ((codes "x", Transaction) ∷ [])) (codes "c1 query r x [\"GET a\"]")
        ≡ Ok (Client 1 (op.Query (codes "r") (Label (codes "x")) (codes "GET a") []) false) }
    ensures one { read_of (progress_past ((codes "x", Transaction) ∷ [])) (codes "c1 one x i64 [\"GET a\"]")
        ≡ Ok (Client 1 (op.One (Label (codes "x")) (dest.I64 ∷ []) (codes "GET a") []) false) }
    ensures next { read_of (progress_past ((codes "x", Transaction) ∷ (codes "r", Rows) ∷ [])) (codes "c1 next r")
        ≡ Ok (Client 1 (op.Next (codes "r")) false) }
    ensures commit { read_of (progress_past ((codes "x", Transaction) ∷ [])) (codes "c1 commit x")
        ≡ Ok (Client 1 (op.Commit (codes "x")) false) }
    ensures rollback { read_of (progress_past ((codes "x", Transaction) ∷ [])) (codes "c64 rollback x\r")
        ≡ Ok (Client 64 (op.Rollback (codes "x")) false) }
    ensures held { read_of (progress_past ((codes "x", Transaction) ∷ [])) (codes "start c1 commit x")
        ≡ Ok (Client 1 (op.Commit (codes "x")) true) }
    ensures names_label { read_of (after unread (Client 1 (Begin (codes "x") level.Default false) true))
        (codes "c2 rollback x")
        ≡ Ok (Client 2 (op.Rollback (codes "x")) false) }
    ensures unknown_target { read_of unread (codes "c1 exec x [\"SET a 1\"]") ≡ Err UnknownLabel }
    ensures rows_for_target { read_of (progress_past ((codes "r", Rows) ∷ [])) (codes "c1 one r i64 [\"GET a\"]")
        ≡ Err UnknownLabel }
    ensures token { read_of (progress_past ((codes "x", Transaction) ∷ [])) (codes "c1 exec x @k [\"SET a 1\"]")
        ≡ Err UnknownLabel }
    ensures ping { read_of (progress_past ((codes "x", Transaction) ∷ [])) (codes "c1 ping x") ≡ Err UnknownLabel }
    ensures target_before_label { read_of (progress_past ((codes "r", Rows) ∷ []))
        (codes "c1 query r x [\"GET a\"]") ≡ Err UnknownLabel }
    ensures label_of_target { read_of (progress_past ((codes "x", Transaction) ∷ []))
        (codes "c1 query x x [\"GET a\"]") ≡ Err LabelTaken }
    ensures label_of_transaction { read_of (progress_past ((codes "x", Transaction) ∷ []))
        (codes "c1 query x db [\"GET a\"]") ≡ Err LabelTaken }
    ensures too_many_first { read_of unread (codes
        "c1 exec x [\"a\",0,0,0,0,0,0,0,0,0,0,0,0,0,0,0,0,0,0,0,0,0,0,0,0,0,0,0,0,0,0,0,0,0]")
        ≡ Err (TooMany Args) }
    ensures json_first { read_of unread (codes "c1 query r x [\"GET a\"") ≡ Err BadJson }
    ensures unknown { read_of unread (codes "c1 commit x") ≡ Err UnknownLabel }
    ensures commit_of_rows { read_of (progress_past ((codes "r", Rows) ∷ [])) (codes "c1 commit r") ≡ Err UnknownLabel }
    ensures next_of_transaction { read_of (progress_past ((codes "x", Transaction) ∷ [])) (codes "c1 next x")
        ≡ Err UnknownLabel }
    ensures scan_of_transaction { read_of (progress_past ((codes "x", Transaction) ∷ [])) (codes "c1 scan x i64")
        ≡ Err UnknownLabel }
    ensures commit_alone { read_of unread (codes "c1 commit") ≡ Err BadShape }
    ensures commit_of_database { read_of unread (codes "c1 commit db") ≡ Err BadShape }
    ensures two_labels { read_of unread (codes "c1 rollback x x") ≡ Err BadShape }
    ensures token_of_rollback { read_of unread (codes "c1 rollback x @k") ≡ Err BadShape }
    ensures unwanted_array { read_of unread (codes "c1 commit x [\"a\"]") ≡ Err BadShape }
    ensures no_caps_behind { read_of (after unread (Client 1 (op.Commit (codes "x")) false)) (codes "caps")
        ≡ Err NoSuchWord }
{}
