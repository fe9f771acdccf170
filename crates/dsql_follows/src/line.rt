use dsql_history::{Control, Op, Planned};

/// An instruction of a script: what one line asks for.
#[derive(Drop)]
pub enum Line {
    /// Nothing: the line is empty or a comment, or it concerns what comes before the run.
    Skip,
    /// Sets a limit or the present moment.
    Control(Control),
    /// Plans a fault in place of the answer to a connection's nth driver call.
    Fault { conn: u32, nth: u32, what: Planned },
    /// Makes a call of a client.
    Client { client: u8, op: Op },
    /// Makes a call of a client and holds it: the call goes on by single steps alone until the script ends.
    Start { client: u8, op: Op },
    /// Makes one step of a client.
    Step { client: u8 },
    /// Makes one driver call of the layer's own.
    StepHouse,
}
