//! What worked lines of scripts are read as. The functions do nothing: their contracts are the examples.
ghost use Rattle.std.specs.Prelude.{◌≡◌, ◌∷◌, ◌++◌, [], pos, negsuc, false, true, codes, replicate, Ok, Err};
ghost use Rattle.dsql_history.specs.value.declared.arg.Arg.TheVariants as arg;
ghost use Rattle.dsql_history.specs.value.WorkedArguments.{plain, named_one};
ghost use Rattle.dsql_history.specs.scan.declared.dest.Dest.TheVariants as dest;
ghost use Rattle.dsql_history.specs.driver.declared.wire.Planned.TheVariants.{Bad, Fail, Invalid};
ghost use Rattle.dsql_history.specs.declared.event.Setting.TheVariants.{MaxOpen, MaxIdle, MaxLife, MaxIdleTime};
ghost use Rattle.dsql_history.specs.declared.event.Control.TheVariants.{Tick, Set};
ghost use Rattle.dsql_script_forms.specs.declared.fault.What.TheVariants.{Lines, Args};
ghost use Rattle.dsql_script_forms.specs.declared.fault.LineFault.TheVariants.{TooLong, NotUtf8, NoSuchWord, BadJson, BadShape, UnknownLabel, LabelTaken, TooMany};
ghost use Rattle.dsql_script_reader.specs.ScriptHead.{caps_among, unread, unread_by, progress, progress_past, after};
ghost use Rattle.dsql_history.specs.declared.event.Op.TheVariants.{Exec, One};
ghost use Rattle.dsql_history.specs.declared.event.Op.TheVariants as op;
ghost use Rattle.dsql_history.specs.declared.event.Target.TheVariants.{Db};
ghost use Rattle.dsql_script_reader.specs.declared.kind.Kind.TheVariants.{Rows};
ghost use Rattle.dsql_script_reader.specs.declared.script.ScriptLine.TheVariants.{Skip, Version, UseCaps, Client, Step, StepHouse};
ghost use Rattle.dsql_script_reader.specs.declared.script.ScriptLine.TheVariants as script;
ghost use Rattle.dsql_script_reader.specs.declared.script.Head.TheVariants.{First, AfterVersion, Begun};
ghost use Rattle.dsql_script_reader.specs.ScriptLines.{read_of};

/// States what is read of lines of scripts.
pub fn worked_script_lines()
    ensures exec { read_of unread (codes "c1 exec db [\"SET a 1\"]")
        ≡ Ok (Client 1 (Exec Db (codes "SET a 1") []) false) }
    ensures last_client { read_of (progress 9999 Begun) (codes "c64 exec db [ \"\" ]\r")
        ≡ Ok (Client 64 (Exec Db (codes "") []) false) }
    ensures comment { read_of (progress 7 First) (codes "#c1 exec") ≡ Ok Skip }
    ensures empty { read_of (progress 7 First) (codes "\r") ≡ Ok Skip }
    ensures too_many { read_of (progress 10000 Begun) (codes "# one more") ≡ Err (TooMany Lines) }
    ensures too_long { read_of unread (replicate 4097 97) ≡ Err TooLong }
    ensures not_utf8 { read_of unread (codes "# " ++ 255 ∷ []) ≡ Err NotUtf8 }
    ensures client_too_large { read_of unread (codes "c65 exec db [\"a\"]") ≡ Err NoSuchWord }
    ensures leading_zero { read_of unread (codes "c01 exec db [\"a\"]") ≡ Err NoSuchWord }
    ensures no_array { read_of unread (codes "c1 exec db") ≡ Err BadShape }
    ensures words_first { read_of unread (codes "c1 exec Db [") ≡ Err BadShape }
    ensures not_json { read_of unread (codes "c1 exec x [") ≡ Err BadJson }
    ensures no_text { read_of unread (codes "c1 exec x [1]") ≡ Err BadShape }
    ensures arguments { read_of unread (codes "c1 exec db [\"a\",null,-1,{\"u64\":5},{\"bytes\":\"00ff\"}]")
        ≡ Ok (Client 1 (Exec Db (codes "a") (plain arg.Nil ∷ plain (arg.I64 (negsuc 0)) ∷ plain (arg.U64 5)
        ∷ plain (arg.Bytes (0 ∷ 255 ∷ [])) ∷ [])) false) }
    ensures named_argument { read_of unread (codes "c1 exec db [\"a\",{\"name\":\"x\",\"arg\":1}]")
        ≡ Ok (Client 1 (Exec Db (codes "a") (named_one (codes "x") ∷ [])) false) }
    ensures largest { read_of unread (codes "c1 exec db [\"a\",9223372036854775807,9223372036854775808]")
        ≡ Ok (Client 1 (Exec Db (codes "a")
        (plain (arg.I64 (pos 9223372036854775807)) ∷ plain (arg.U64 9223372036854775808) ∷ [])) false) }
    ensures out_of_range { read_of unread (codes "c1 exec x [\"a\",{\"i8\":128}]") ≡ Err BadShape }
    ensures upper_case { read_of unread (codes "c1 exec x [\"a\",{\"bytes\":\"00FF\"}]") ≡ Err BadShape }
    ensures fraction { read_of unread (codes "c1 exec x [\"a\",1.5]") ≡ Err BadShape }
    ensures no_such_form { read_of unread (codes "c1 exec x [\"a\",{\"i64\":1}]") ≡ Err BadShape }
    ensures too_many_arguments { read_of unread
        (codes "c1 exec x [\"a\",0,0,0,0,0,0,0,0,0,0,0,0,0,0,0,0,0,0,0,0,0,0,0,0,0,0,0,0,0,0,0,0,0]")
        ≡ Err (TooMany Args) }
    ensures version { read_of unread (codes "version 1") ≡ Ok (Version 1) }
    ensures later_version { read_of unread (codes "version 3") ≡ Err BadShape }
    ensures second_version { read_of (progress 1 AfterVersion) (codes "version 3") ≡ Err NoSuchWord }
    ensures no_caps { read_of (progress 1 AfterVersion) (codes "caps") ≡ Ok (UseCaps (caps_among [])) }
    ensures some_caps { read_of unread (codes "caps begin_options named")
        ≡ Ok (UseCaps (record {
          fast_exec = false;
          fast_query = false;
          begin_options = true;
          named = true;
          pinger = false;
          resetter = false;
          validator = false;
        })) }
    ensures caps_out_of_order { read_of unread (codes "caps named begin_options") ≡ Err BadShape }
    ensures caps_twice { read_of (progress 1 Begun) (codes "caps named named") ≡ Err NoSuchWord }
    ensures label { read_of unread (codes "c1 exec x [\"a\"]") ≡ Err UnknownLabel }
    ensures token { read_of unread (codes "c1 exec db @k [\"a\"]") ≡ Err UnknownLabel }
{}

/// States what is read of lines that read one row.
pub fn worked_one_lines()
    ensures one { read_of unread (codes "c1 one db i64 [\"GET a\"]")
        ≡ Ok (Client 1 (One Db (dest.I64 ∷ []) (codes "GET a") []) false) }
    ensures some { read_of unread (codes "c2 one db text,null:i16,any [\"GET a\",1]")
        ≡ Ok (Client 2 (One Db (dest.Text ∷ dest.NullI16 ∷ dest.Any ∷ []) (codes "GET a")
        (plain (arg.I64 (pos 1)) ∷ [])) false) }
    ensures no_destination { read_of unread (codes "c1 one db [\"GET a\"]") ≡ Err BadShape }
    ensures empty_part { read_of unread (codes "c1 one db i64, [\"GET a\"]") ≡ Err BadShape }
    ensures upper_case { read_of unread (codes "c1 one db I64 [\"GET a\"]") ≡ Err BadShape }
    ensures other_prefix { read_of unread (codes "c1 one db null_i64 [\"GET a\"]") ≡ Err BadShape }
    ensures no_null_form { read_of unread (codes "c1 one db null:u16 [\"GET a\"]") ≡ Err BadShape }
    ensures words_first { read_of unread (codes "c1 one x i46 [") ≡ Err BadShape }
    ensures no_array { read_of unread (codes "c1 one db i64") ≡ Err BadShape }
    ensures not_json { read_of unread (codes "c1 one x i64 [") ≡ Err BadJson }
    ensures no_text { read_of unread (codes "c1 one x i64 []") ≡ Err BadShape }
    ensures too_many_after_json { read_of unread (codes
        "c1 one x i8,i8,i8,i8,i8,i8,i8,i8,i8,i8,i8,i8,i8,i8,i8,i8,i8,i8,i8,i8,i8,i8,i8,i8,i8,i8,i8,i8,i8,i8,i8,i8,i8 [") ≡ Err BadJson }
    ensures too_many { read_of unread (codes
        "c1 one x i8,i8,i8,i8,i8,i8,i8,i8,i8,i8,i8,i8,i8,i8,i8,i8,i8,i8,i8,i8,i8,i8,i8,i8,i8,i8,i8,i8,i8,i8,i8,i8,i8 [\"GET a\"]") ≡ Err (TooMany Args) }
    ensures label { read_of unread (codes "c1 one x i64 [\"GET a\"]") ≡ Err UnknownLabel }
    ensures token { read_of unread (codes "c1 one db i64 @k [\"GET a\"]") ≡ Err UnknownLabel }
{}

/// States what is read of lines that make or name a label, if an earlier line made the label `r`. For some lines,
/// states it if none did.
pub fn worked_label_lines()
    ensures query { read_of (progress_past ((codes "r", Rows) ∷ [])) (codes "c1 query s db [\"GET a\",1]")
        ≡ Ok (Client 1 (op.Query (codes "s") Db (codes "GET a") (plain (arg.I64 (pos 1)) ∷ [])) false) }
    ensures next { read_of (progress_past ((codes "r", Rows) ∷ [])) (codes "c2 next r")
        ≡ Ok (Client 2 (op.Next (codes "r")) false) }
    ensures scan { read_of (progress_past ((codes "r", Rows) ∷ [])) (codes "c1 scan r text,i64")
        ≡ Ok (Client 1 (op.Scan (codes "r") (dest.Text ∷ dest.I64 ∷ [])) false) }
    ensures rows_close { read_of (progress_past ((codes "r", Rows) ∷ [])) (codes "c1 rowsclose r")
        ≡ Ok (Client 1 (op.RowsClose (codes "r")) false) }
    ensures err { read_of (progress_past ((codes "q", Rows) ∷ (codes "r", Rows) ∷ [])) (codes "c1 err r")
        ≡ Ok (Client 1 (op.Err (codes "r")) false) }
    ensures taken { read_of (progress_past ((codes "r", Rows) ∷ [])) (codes "c1 query r db [\"GET a\"]")
        ≡ Err LabelTaken }
    ensures target_before_label { read_of (progress_past ((codes "r", Rows) ∷ []))
        (codes "c1 query r x [\"GET a\"]") ≡ Err UnknownLabel }
    ensures shape_before_label { read_of (progress_past ((codes "r", Rows) ∷ [])) (codes "c1 query r db [1]")
        ≡ Err BadShape }
    ensures no_text_on_rows { read_of (progress_past ((codes "r", Rows) ∷ [])) (codes "c1 exec r [\"a\"]")
        ≡ Err UnknownLabel }
    ensures unknown { read_of unread (codes "c1 next r") ≡ Err UnknownLabel }
    ensures unwanted_array { read_of unread (codes "c1 next r [") ≡ Err BadShape }
    ensures no_label { read_of unread (codes "c1 query db db [\"GET a\"]") ≡ Err BadShape }
    ensures too_many { read_of unread (codes
        "c1 scan r i8,i8,i8,i8,i8,i8,i8,i8,i8,i8,i8,i8,i8,i8,i8,i8,i8,i8,i8,i8,i8,i8,i8,i8,i8,i8,i8,i8,i8,i8,i8,i8,i8") ≡ Err (TooMany Args) }
{}

/// States what is read of lines that set a limit.
pub fn worked_limit_lines()
    ensures max_open { read_of unread (codes "maxopen 5") ≡ Ok (script.Control (Set MaxOpen (pos 5))) }
    ensures max_idle { read_of (progress 7 Begun) (codes "maxidle 0\r") ≡ Ok (script.Control (Set MaxIdle (pos 0))) }
    ensures below_zero { read_of (progress 1 AfterVersion) (codes "maxidle -1")
        ≡ Ok (script.Control (Set MaxIdle (negsuc 0))) }
    ensures greatest { read_of unread (codes "maxopen 9223372036854775807")
        ≡ Ok (script.Control (Set MaxOpen (pos 9223372036854775807))) }
    ensures least { read_of unread (codes "maxopen -9223372036854775808")
        ≡ Ok (script.Control (Set MaxOpen (negsuc 9223372036854775807))) }
    ensures max_life { read_of unread (codes "maxlife 3600000000000")
        ≡ Ok (script.Control (Set MaxLife (pos 3600000000000))) }
    ensures max_idle_time { read_of (progress 7 Begun) (codes "maxidletime -1")
        ≡ Ok (script.Control (Set MaxIdleTime (negsuc 0))) }
    ensures life_too_long { read_of unread (codes "maxlife 9223372036854775808") ≡ Err BadShape }
    ensures no_idle_time { read_of unread (codes "maxidletime") ≡ Err BadShape }
    ensures too_great { read_of unread (codes "maxopen 9223372036854775808") ≡ Err BadShape }
    ensures too_small { read_of unread (codes "maxopen -9223372036854775809") ≡ Err BadShape }
    ensures leading_zero { read_of unread (codes "maxopen 05") ≡ Err BadShape }
    ensures zero_behind_minus { read_of unread (codes "maxopen -0") ≡ Err BadShape }
    ensures plus { read_of unread (codes "maxopen +5") ≡ Err BadShape }
    ensures minus_alone { read_of unread (codes "maxidle -") ≡ Err BadShape }
    ensures fraction { read_of unread (codes "maxidle 1.5") ≡ Err BadShape }
    ensures no_number { read_of unread (codes "maxopen") ≡ Err BadShape }
    ensures empty_word { read_of unread (codes "maxopen ") ≡ Err BadShape }
    ensures two_numbers { read_of unread (codes "maxopen 1 2") ≡ Err BadShape }
    ensures unwanted_array { read_of unread (codes "maxidle 1 [") ≡ Err BadShape }
    ensures no_version_behind { read_of (after unread (script.Control (Set MaxOpen (pos 5)))) (codes "version 1")
        ≡ Err NoSuchWord }
{}

/// States what is read of lines that give the present moment.
pub fn worked_tick_lines()
    ensures first { read_of unread (codes "tick 0") ≡ Ok (script.Control (Tick 0)) }
    ensures later { read_of (progress 7 Begun) (codes "tick 1500000000\r") ≡ Ok (script.Control (Tick 1500000000)) }
    ensures last { read_of unread (codes "tick 18446744073709551615")
        ≡ Ok (script.Control (Tick 18446744073709551615)) }
    ensures too_late { read_of unread (codes "tick 18446744073709551616") ≡ Err BadShape }
    ensures below_zero { read_of unread (codes "tick -1") ≡ Err BadShape }
    ensures leading_zero { read_of unread (codes "tick 01") ≡ Err BadShape }
    ensures plus { read_of unread (codes "tick +1") ≡ Err BadShape }
    ensures no_number { read_of unread (codes "tick") ≡ Err BadShape }
    ensures empty_word { read_of unread (codes "tick ") ≡ Err BadShape }
    ensures two_numbers { read_of unread (codes "tick 1 2") ≡ Err BadShape }
    ensures unwanted_array { read_of unread (codes "tick 1 []") ≡ Err BadShape }
    ensures held { read_of unread (codes "start tick 1") ≡ Err NoSuchWord }
    ensures no_version_behind { read_of (after unread (script.Control (Tick 5))) (codes "version 1") ≡ Err NoSuchWord }
{}

/// States what is read of lines that plan a fault.
pub fn worked_fault_lines()
    ensures bad { read_of unread (codes "fault 1 2 bad") ≡ Ok (script.Fault 1 2 Bad) }
    ensures invalid { read_of (progress 7 Begun) (codes "fault 3 1 invalid\r") ≡ Ok (script.Fault 3 1 Invalid) }
    ensures fail { read_of unread (codes "fault 2 5 fail [\"down\"]") ≡ Ok (script.Fault 2 5 (Fail (codes "down"))) }
    ensures no_words { read_of (progress 1 AfterVersion) (codes "fault 1 1 fail [ \"\" ] ")
        ≡ Ok (script.Fault 1 1 (Fail (codes ""))) }
    ensures last { read_of unread (codes "fault 4294967295 4294967295 bad")
        ≡ Ok (script.Fault 4294967295 4294967295 Bad) }
    ensures no_connection { read_of unread (codes "fault 0 1 bad") ≡ Err BadShape }
    ensures no_call { read_of unread (codes "fault 1 0 bad") ≡ Err BadShape }
    ensures connection_too_large { read_of unread (codes "fault 4294967296 1 bad") ≡ Err BadShape }
    ensures call_too_large { read_of unread (codes "fault 1 4294967296 bad") ≡ Err BadShape }
    ensures leading_zero { read_of unread (codes "fault 01 1 bad") ≡ Err BadShape }
    ensures plus { read_of unread (codes "fault 1 +1 bad") ≡ Err BadShape }
    ensures below_zero { read_of unread (codes "fault -1 1 bad") ≡ Err BadShape }
    ensures alone { read_of unread (codes "fault") ≡ Err BadShape }
    ensures no_word { read_of unread (codes "fault 1 2") ≡ Err BadShape }
    ensures empty_word { read_of unread (codes "fault 1 2 ") ≡ Err BadShape }
    ensures two_words { read_of unread (codes "fault 1 2 bad bad") ≡ Err BadShape }
    ensures other_word { read_of unread (codes "fault 1 2 skip") ≡ Err BadShape }
    ensures upper_case { read_of unread (codes "fault 1 2 Bad") ≡ Err BadShape }
    ensures no_array { read_of unread (codes "fault 1 2 fail") ≡ Err BadShape }
    ensures bad_array { read_of unread (codes "fault 1 2 bad [\"down\"]") ≡ Err BadShape }
    ensures invalid_array { read_of unread (codes "fault 1 2 invalid [") ≡ Err BadShape }
    ensures numbers_first { read_of unread (codes "fault 0 2 fail [") ≡ Err BadShape }
    ensures not_json { read_of unread (codes "fault 1 2 fail [\"down\",]") ≡ Err BadJson }
    ensures no_text { read_of unread (codes "fault 1 2 fail []") ≡ Err BadShape }
    ensures two_texts { read_of unread (codes "fault 1 2 fail [\"down\",\"up\"]") ≡ Err BadShape }
    ensures not_a_text { read_of unread (codes "fault 1 2 fail [1]") ≡ Err BadShape }
    ensures inner_array { read_of unread (codes "fault 1 2 fail [[\"down\"]]") ≡ Err BadShape }
    ensures held { read_of unread (codes "start fault 1 2 bad") ≡ Err NoSuchWord }
    ensures no_version_behind { read_of (after unread (script.Fault 1 2 Bad)) (codes "version 1") ≡ Err NoSuchWord }
{}

/// States what is read of lines of held calls.
pub fn worked_start_lines()
    ensures exec { read_of unread (codes "start c1 exec db [\"SET a 1\"]")
        ≡ Ok (Client 1 (Exec Db (codes "SET a 1") []) true) }
    ensures query { read_of (progress_past ((codes "r", Rows) ∷ [])) (codes "start c2 query s db [\"GET a\"]")
        ≡ Ok (Client 2 (op.Query (codes "s") Db (codes "GET a") []) true) }
    ensures next { read_of (progress_past ((codes "r", Rows) ∷ [])) (codes "start c64 next r")
        ≡ Ok (Client 64 (op.Next (codes "r")) true) }
    ensures stats { read_of unread (codes "start c1 stats") ≡ Ok (Client 1 op.Stats true) }
    ensures alone { read_of unread (codes "start") ≡ Err NoSuchWord }
    ensures no_client { read_of unread (codes "start house") ≡ Err NoSuchWord }
    ensures client_too_large { read_of unread (codes "start c65 stats") ≡ Err NoSuchWord }
    ensures client_alone { read_of unread (codes "start c1") ≡ Err NoSuchWord }
    ensures no_form { read_of unread (codes "start c1 put [") ≡ Err NoSuchWord }
    ensures twice { read_of unread (codes "start start c1 stats") ≡ Err NoSuchWord }
    ensures limit { read_of unread (codes "start maxopen 5") ≡ Err NoSuchWord }
    ensures no_array { read_of unread (codes "start c1 exec db") ≡ Err BadShape }
    ensures not_json { read_of unread (codes "start c1 exec db [") ≡ Err BadJson }
    ensures unknown { read_of unread (codes "start c1 next r") ≡ Err UnknownLabel }
    ensures taken { read_of (progress_past ((codes "r", Rows) ∷ [])) (codes "start c1 query r db [\"GET a\"]")
        ≡ Err LabelTaken }
    ensures names_label { read_of (after unread (Client 1 (op.Query (codes "r") Db (codes "GET a") []) true))
        (codes "c1 next r")
        ≡ Ok (Client 1 (op.Next (codes "r")) false) }
    ensures no_caps_behind { read_of (after unread (Client 1 op.Stats true)) (codes "caps") ≡ Err NoSuchWord }
{}

/// States what is read of lines of a script for a race.
pub fn worked_race_lines()
    ensures tick { read_of (unread_by true) (codes "tick 5") ≡ Err NoSuchWord }
    ensures start { read_of (unread_by true) (codes "start c1 ping db") ≡ Err NoSuchWord }
    ensures step { read_of (unread_by true) (codes "step c1") ≡ Err NoSuchWord }
    ensures step_of_house { read_of (unread_by true) (codes "step house\r") ≡ Err NoSuchWord }
    ensures too_many_first { read_of (record (progress 10000 Begun) { race = true }) (codes "step c1")
        ≡ Err (TooMany Lines) }
    ensures too_long_first { read_of (unread_by true) (codes "tick " ++ replicate 4092 48) ≡ Err TooLong }
    ensures not_utf8_first { read_of (unread_by true) (codes "start " ++ 255 ∷ []) ≡ Err NotUtf8 }
    ensures shape_behind { read_of (unread_by true) (codes "tick") ≡ Err NoSuchWord }
    ensures json_behind { read_of (unread_by true) (codes "start c1 exec db [") ≡ Err NoSuchWord }
    ensures label_behind { read_of (unread_by true) (codes "start c1 next r") ≡ Err NoSuchWord }
    ensures comment { read_of (unread_by true) (codes "#tick 5") ≡ Ok Skip }
    ensures version { read_of (unread_by true) (codes "version 1") ≡ Ok (Version 1) }
    ensures limit { read_of (unread_by true) (codes "maxopen 2") ≡ Ok (script.Control (Set MaxOpen (pos 2))) }
    ensures fault { read_of (unread_by true) (codes "fault 1 2 bad") ≡ Ok (script.Fault 1 2 Bad) }
    ensures ping { read_of (unread_by true) (codes "c1 ping db") ≡ Ok (Client 1 op.Ping false) }
    ensures unknown { read_of (unread_by true) (codes "c1 next r") ≡ Err UnknownLabel }
    ensures step_behind { read_of (after (unread_by true) (Client 1 op.Ping false)) (codes "step c1") ≡ Err NoSuchWord }
{}

/// States what is read of lines that ping.
pub fn worked_ping_lines()
    ensures ping { read_of unread (codes "c1 ping db") ≡ Ok (Client 1 op.Ping false) }
    ensures last_client { read_of (progress 9999 Begun) (codes "c64 ping db\r") ≡ Ok (Client 64 op.Ping false) }
    ensures held { read_of unread (codes "start c2 ping db") ≡ Ok (Client 2 op.Ping true) }
    ensures alone { read_of unread (codes "c1 ping") ≡ Err BadShape }
    ensures empty_word { read_of unread (codes "c1 ping ") ≡ Err BadShape }
    ensures upper_case { read_of unread (codes "c1 ping Db") ≡ Err BadShape }
    ensures two_words { read_of unread (codes "c1 ping db db") ≡ Err BadShape }
    ensures three_words { read_of unread (codes "c1 ping db @k @k") ≡ Err BadShape }
    ensures unwanted_array { read_of unread (codes "c1 ping db [\"a\"]") ≡ Err BadShape }
    ensures array_before_label { read_of unread (codes "c1 ping x [") ≡ Err BadShape }
    ensures label { read_of unread (codes "c1 ping x") ≡ Err UnknownLabel }
    ensures rows { read_of (progress_past ((codes "r", Rows) ∷ [])) (codes "c1 ping r") ≡ Err UnknownLabel }
    ensures token { read_of unread (codes "c1 ping db @k") ≡ Err UnknownLabel }
    ensures no_version_behind { read_of (after unread (Client 1 op.Ping false)) (codes "version 1") ≡ Err NoSuchWord }
{}

/// States what is read of lines of steps, and of calls whose word stands alone.
pub fn worked_step_lines()
    ensures step { read_of unread (codes "step c2") ≡ Ok (Step 2) }
    ensures house { read_of (progress 7 Begun) (codes "step house") ≡ Ok StepHouse }
    ensures alone { read_of unread (codes "step") ≡ Err BadShape }
    ensures no_client { read_of unread (codes "step c65") ≡ Err BadShape }
    ensures upper_case { read_of unread (codes "step House") ≡ Err BadShape }
    ensures two_clients { read_of unread (codes "step c1 c2") ≡ Err BadShape }
    ensures unwanted_array { read_of unread (codes "step house [") ≡ Err BadShape }
    ensures no_caps_behind { read_of (after unread (Step 2)) (codes "caps") ≡ Err NoSuchWord }
    ensures no_version_behind { read_of (after unread StepHouse) (codes "version 1") ≡ Err NoSuchWord }
    ensures close { read_of unread (codes "c1 dbclose") ≡ Ok (Client 1 op.DbClose false) }
    ensures stats { read_of unread (codes "c64 stats") ≡ Ok (Client 64 op.Stats false) }
    ensures close_of_label { read_of (progress_past ((codes "r", Rows) ∷ [])) (codes "c1 dbclose r") ≡ Err BadShape }
    ensures stats_of_database { read_of unread (codes "c1 stats db") ≡ Err BadShape }
    ensures close_array { read_of unread (codes "c1 dbclose [") ≡ Err BadShape }
    ensures stats_array { read_of unread (codes "c1 stats [\"a\"]") ≡ Err BadShape }
{}
