ghost use Rattle.std.specs.Prelude.{◌≡◌};

use dsql_driver::Caps;

/// What a call on the database does with the connection that is lent to it.
#[derive(Clone, Copy)]
pub enum Course {
    /// `DB.ExecContext`: executes a text.
    Exec,
    /// `DB.QueryContext`: queries a text, and the rows keep the connection.
    Query,
    /// `DB.QueryRowContext` with its scan: queries a text and reads one row.
    One,
    /// `DB.PrepareContext`: prepares a text, and the handle stays.
    Prepare,
    /// A run of a statement that was prepared on the database. If `reads` is true it queries, otherwise it
    /// executes. If `one` is true too it reads one row itself, otherwise it hands the rows out. `live` is the
    /// statement's live handle on the connection, if it has one, with the number of its inputs.
    Run {
        reads: bool,
        one: bool,
        live: Option<(u32, i32)>,
    },
    /// `DB.PingContext`.
    Ping,
    /// `DB.BeginTx`.
    Begin,
}

/// What is wanted of rows that a query handed out.
#[derive(Clone, Copy)]
pub enum Wish {
    /// Nothing for the moment.
    Nothing,
    /// The next row: `Rows.Next`.
    Fetch,
    /// Their close: `Rows.Close`, or the end of the run.
    Close,
}

impl Course {
    ghost use Rattle.dsql_course.specs.Made.{live_handle as live_handle_of, reads_rows as reads_rows_of, reads_one as reads_one_of, has_fast_way as has_fast_way_of};

    /// Returns the handle that a statement already has on the connection.
    pub(crate) fn live_handle(self) -> Option<(u32, i32)>
        ensures { result ≡ live_handle_of self }
    {
        match self {
            Course::Run { live, .. } => live,
            _ => None,
        }
    }

    /// Returns true if the course asks for rows.
    pub(crate) fn reads_rows(self) -> bool
        ensures { result ≡ reads_rows_of self }
    {
        match self {
            Course::Query | Course::One => true,
            Course::Run { reads, .. } => reads,
            _ => false,
        }
    }

    /// Returns true if the course reads one row itself and hands none out.
    pub(crate) fn reads_one(self) -> bool
        ensures { result ≡ reads_one_of self }
    {
        match self {
            Course::One => true,
            Course::Run { reads, one, .. } => reads && one,
            _ => false,
        }
    }

    /// Returns true if the driver can run the course's text at once.
    pub(crate) fn has_fast_way(self, caps: Caps) -> bool
        ensures { result ≡ has_fast_way_of self caps }
    {
        match self {
            Course::Exec => caps.fast_exec,
            Course::Query | Course::One => caps.fast_query,
            _ => false,
        }
    }
}
