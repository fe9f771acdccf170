//! What generated lines are read as. The function does nothing: its contract is the statement.
ghost use Rattle.std.specs.Prelude.{◌≡◌, ◌∷◌, [], pos, None, false, codes};
ghost use Rattle.dsql_history.specs.value.declared.arg.Arg.TheVariants as arg;
ghost use Rattle.dsql_history.specs.value.WorkedArguments.{plain};
ghost use Rattle.dsql_history.specs.scan.declared.dest.Dest.TheVariants as dest;
ghost use Rattle.dsql_history.specs.driver.declared.call.Level.TheVariants as level;
ghost use Rattle.dsql_script_generator.specs.Script.{generated};
ghost use Rattle.dsql_history.specs.declared.event.Op.TheVariants.{Exec, Query, Begin, Next, Scan, Commit};
ghost use Rattle.dsql_history.specs.declared.event.Target.TheVariants.{Label};
ghost use Rattle.dsql_follows.specs.declared.line.Line.TheVariants.{Client};
ghost use Rattle.dsql_script_source.specs.Script.{script_of, whole};
ghost use Rattle.dsql_script_source.specs.Plays.{saying};

/// States that a generated script's first block is read as a transaction, and that no line of the first blocks
/// is refused.
pub fn generated_lines_are_read()
    ensures block { script_of (generated 8) ≡ whole (saying None (
        Client 1 (Begin (codes "x1") level.Default false)
        ∷ Client 1 (Exec (Label (codes "x1")) (codes "SET ? ?")
        (plain (arg.Text (codes "u1")) ∷ plain (arg.Text (codes "Ann")) ∷ []))
        ∷ Client 1 (Exec (Label (codes "x1")) (codes "ADD ? ?")
        (plain (arg.Text (codes "n")) ∷ plain (arg.I64 (pos 1)) ∷ []))
        ∷ Client 1 (Exec (Label (codes "x1")) (codes "SET ? ?") (plain (arg.Text (codes "e1")) ∷ plain arg.Nil ∷ []))
        ∷ Client 1 (Query (codes "r1") (Label (codes "x1")) (codes "LIST ?") (plain (arg.Text (codes "e1")) ∷ []))
        ∷ Client 1 (Next (codes "r1"))
        ∷ Client 1 (Scan (codes "r1") (dest.Text ∷ dest.NullText ∷ []))
        ∷ Client 1 (Commit (codes "x1"))
        ∷ [])) }
    ensures blocks { (script_of (generated 24)).refused ≡ None }
{}
