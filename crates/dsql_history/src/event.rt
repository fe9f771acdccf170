use crate::reply::Reply;
use dsql_history_work::{Args, Caps, Dests, Entry, Level, Txt};
use dsql_pool::Move;

/// A limit that can be set.
#[derive(Clone, Copy)]
pub enum Setting {
    /// `DB.SetMaxOpenConns`.
    MaxOpen,
    /// `DB.SetMaxIdleConns`.
    MaxIdle,
    /// `DB.SetConnMaxLifetime`, in nanoseconds.
    MaxLife,
    /// `DB.SetConnMaxIdleTime`, in nanoseconds.
    MaxIdleTime,
}

/// An input from outside other than a client's call.
#[derive(Clone, Copy)]
pub enum Control {
    /// The present moment, in nanoseconds. Time never goes back: an earlier moment counts as the present one.
    Tick(u64),
    /// A limit, and the number to which it is set.
    Set(Setting, i64),
}

/// The object that a call is made on: the database, or the transaction with a label.
#[derive(Drop)]
pub enum Target {
    Db,
    Label(Txt),
}

/// An operation that a client asks of the layer. Labels name transactions and the rows that queries hand out.
#[derive(Drop)]
pub enum Op {
    /// `ExecContext` of `DB` or `Tx`, with a text and arguments.
    Exec {
        target: Target,
        text: Txt,
        args: Args,
    },
    /// `QueryContext` of `DB` or `Tx`, with a text and arguments. Its rows get this label.
    Query {
        label: Txt,
        target: Target,
        text: Txt,
        args: Args,
    },
    /// `QueryRowContext` of `DB` or `Tx`, with a text and arguments, and `Row.Scan` into destinations.
    One {
        target: Target,
        dests: Dests,
        text: Txt,
        args: Args,
    },
    /// `Rows.Next`.
    Next {
        rows: Txt,
    },
    /// `Rows.Scan` into destinations.
    Scan {
        rows: Txt,
        dests: Dests,
    },
    /// `Rows.Close`.
    RowsClose {
        rows: Txt,
    },
    /// `Rows.Err`.
    Err {
        rows: Txt,
    },
    /// `DB.BeginTx` with `sql.TxOptions`. The transaction gets this label.
    Begin {
        label: Txt,
        level: Level,
        read_only: bool,
    },
    /// `Tx.Commit`.
    Commit {
        tx: Txt,
    },
    /// `Tx.Rollback`.
    Rollback {
        tx: Txt,
    },
    /// `DB.PingContext`.
    Ping,
    /// `DB.Close`.
    DbClose,
    /// `DB.Stats`.
    Stats,
}

/// An event of a run.
#[derive(Drop)]
pub enum Event {
    /// The run began.
    Run { version: u8, caps: Caps },
    /// A client's call entered. Calls are numbered from 1.
    Entered { client: u8, n: u32, op: Op },
    /// A driver answered a driver call.
    Heard(Entry),
    /// The pool moved a connection.
    Pool(Move),
    /// A call began to wait for a connection.
    Waits(u32),
    /// The clock was set to this moment, in nanoseconds.
    Ticked(u64),
    /// A limit was set to this number.
    SetLimit(Setting, i64),
    /// The layer replied to a call.
    Replied { n: u32, reply: Reply },
    /// The run ended.
    Ended,
}
