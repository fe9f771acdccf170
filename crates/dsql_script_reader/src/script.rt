use dsql_history::{Caps, Control, Op, Planned};

/// What a line of a script says.
#[derive(Drop)]
pub enum ScriptLine {
    /// Nothing: the line is empty or begins with `#`.
    Skip,
    /// The version that the script is for, which is 1. The line is `version 1`.
    Version(u8),
    /// The driver can do exactly this. The line is `caps` and the names of what it can do, each once and in the
    /// order of a report.
    UseCaps(Caps),
    /// Sets a limit or the clock. The line is `maxopen N`, `maxidle N`, `maxlife D`, `maxidletime D` or `tick
    /// NOW`.
    Control(Control),
    /// Plans a fault in place of the answer to the nth call of a connection, its Connect being the first. The
    /// line is `fault CONN NTH bad`, `fault CONN NTH invalid` or `fault CONN NTH fail ["TEXT"]`, with numbers
    /// from 1 on that fit a `u32`.
    Fault { conn: u32, nth: u32, what: Planned },
    /// A client, numbered from 1 to 64, makes a call. The line is one of these:
    ///
    /// | line | call in Go |
    /// |---|---|
    /// | `cN exec T ["TEXT",ARGS]` | `ExecContext` of that text with these arguments |
    /// | `cN one T DESTS ["TEXT",ARGS]` | `QueryRowContext`, and `Row.Scan` into these destinations |
    /// | `cN query R T ["TEXT",ARGS]` | `QueryContext`, whose rows get the label R |
    /// | `cN next R`, `cN scan R DESTS` | `Rows.Next`, and `Rows.Scan` into these destinations |
    /// | `cN rowsclose R`, `cN err R` | `Rows.Close`, `Rows.Err` |
    /// | `cN begin X db`, `cN begin X db level=L ro` | `DB.BeginTx`, whose transaction gets the label X |
    /// | `cN commit X`, `cN rollback X` | `Tx.Commit`, `Tx.Rollback` |
    /// | `cN ping db` | `DB.PingContext` |
    /// | `cN dbclose`, `cN stats` | `DB.Close`, `DB.Stats` |
    ///
    /// T is `db`, for `DB`, or the label of a transaction, for its `Tx`.
    ///
    /// If the line stands after `start`, the call is held: it goes on by single steps alone, until the script
    /// ends.
    Client { client: u8, op: Op, held: bool },
    /// A client makes one step. The line is `step cN`.
    Step(u8),
    /// The layer makes one driver call of its own. The line is `step house`.
    StepHouse,
}

/// Which of the lines that stand before all others may still follow.
#[derive(Clone, Copy, PartialEq, Eq)]
pub enum Head {
    /// A version line or a caps line, since all lines so far were skipped.
    First,
    /// A caps line, because the last line that wasn't skipped was the version line.
    AfterVersion,
    /// Neither.
    Begun,
}

impl Head {
    ghost use Rattle.std.specs.Prelude.{◌≡◌};
    ghost use Rattle.dsql_script_reader.specs.ScriptHead.{head_after};

    /// Returns which of them may still follow such a line.
    pub fn after(self, line: &ScriptLine) -> Head
        ensures { result ≡ head_after self line.now }
    {
        match line {
            ScriptLine::Skip => self,
            ScriptLine::Version(_) => Head::AfterVersion,
            _ => Head::Begun,
        }
    }
}
