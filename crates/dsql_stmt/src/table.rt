ghost use Rattle.std.specs.Prelude.{◌≡◌, ◌+◌, ◌<◌, ◌≤◌, ◌==◌, ◌&&◌, not, [], ◌∷◌, ◌++◌, length, None, Some, true, false, OnOk, OnErr, IfOk, IfSome, vec_capacity};
ghost use Rattle.std.specs.Option.{option_map};
ghost use Rattle.dsql_stmt.specs.Statements.{handles_of};

use crate::fault::StmtClosed;
use crate::lists::{Lists, Pairs};
use crate::stmt::{Home, Prepared, Stmt};
use dsql_value::{Items, Memory, Txt};
use indexmap::IndexMap;
use std::alloc::Global;
use std::marker::Model;

/// Connections, each with a handle that is live there.
pub type Handles = Items<(u32, u32)>;

/// The statements that were added, and their live handles. Contracts see the statements by their numbers in the order
/// in which they were added. They see the live handles in the order in which they were prepared. They also see for how
/// many calls there is memory.
#[derive(Drop)]
pub struct Stmts {
    alloc: Global,
    stmts: IndexMap<u32, Stmt>,
    // By statement and connection.
    live: IndexMap<(u32, u32), Prepared>,
    lists: Lists,
}

impl Model for Stmts {
    ghost use Rattle.std.specs.Prelude.{◌-◌, length, min};
    ghost use Rattle.indexmap.specs.IndexMap.{spare};
    ghost use Rattle.dsql_stmt.specs.Statements.{Statements, IsOneEach};

    ghost Value = { Statements };

    ghost view = { λ s. record {
      stmts = s.stmts.entries;
      live = s.live.entries;
      spare = min (min (spare s.stmts) (spare s.live)) (min s.lists.count (s.lists.size - length s.live.entries));
    } };

    ghost invariant = { λ s. IsOneEach s.live.entries };
}

impl Stmts {
    ghost use Rattle.dsql_value_numbered.specs.Numbered.{changed};
    ghost use Rattle.dsql_stmt.specs.Statements.{stmt_of, was_added, unclosed, closed_by, is_open, answer_of, handle_on, is_live, live_handle, handed_out, without_handle, without_conn, IsOneEach};

    /// Returns a table without statements. It takes no memory.
    pub fn new(alloc: Global) -> Stmts
        ensures stmts { result.stmts ≡ [] }
        ensures live { result.live ≡ [] }
    {
        Stmts {
            alloc,
            stmts: IndexMap::new(alloc),
            live: IndexMap::new(alloc),
            lists: Lists::new(alloc),
        }
    }

    /// Takes memory for this many more calls, including the lists that they return.
    pub fn reserve(&mut self, calls: u32) -> Result<(), Memory>
        ensures ok { OnOk result (calls ≤ self.new.spare) }
        ensures stmts { self.new.stmts ≡ self.old.stmts }
        ensures live { self.new.live ≡ self.old.live }
        ensures spare { self.old.spare ≤ self.new.spare }
    {
        let calls = calls as usize;
        self.stmts.reserve(calls)?;
        self.live.reserve(calls)?;
        self.lists.reserve(calls, self.live.len() + calls)
    }

    /// Does nothing. Its contract shows its callers that a statement has at most one live handle on a connection. A
    /// handle's number there belongs to one statement.
    pub fn vouch(&self)
        ensures { IsOneEach self.now.live }
    {
        let _count = self.live.len();
    }

    /// Returns the number of statements that were added plus the number of live handles.
    pub fn held(&self) -> u64
        ensures { result ≡ length self.now.stmts + length self.now.live }
    {
        self.stmts.len() as u64 + self.live.len() as u64
    }

    /// Returns true if a statement was added under this number.
    pub fn was_added(&self, n: u32) -> bool
        ensures { result ≡ was_added n self.now.stmts }
    {
        self.stmts.contains_key(&n)
    }

    /// Adds a statement, which nothing has closed and which has no live handle.
    pub fn add(&mut self, n: u32, text: Txt, home: Home) -> Result<(), Memory>
        requires { was_added n self.old.stmts ≡ false }
        ensures ok { OnOk result (self.new.stmts ≡ self.old.stmts ++ (n, unclosed text home) ∷ []) }
        ensures full { OnErr result (self.old.spare ≡ 0) }
        ensures err { OnErr result (self.new.stmts ≡ self.old.stmts) }
        ensures live { self.new.live ≡ self.old.live }
        ensures spare { self.old.spare ≤ self.new.spare + 1 }
    {
        let stmt = Stmt {
            text,
            home,
            closed: None,
        };
        self.stmts.insert(n, stmt)?;
        Ok(())
    }

    /// Returns what a run of the statement on a connection may use: its live handle there, if it has one, with
    /// the number of arguments. Fails with `StmtClosed` if the statement was closed, and names the call that
    /// closed it first.
    pub fn on_conn(&self, n: u32, conn: u32) -> Result<Option<(u32, i32)>, StmtClosed>
        requires { was_added n self.now.stmts ≡ true }
        ensures { IfSome (stmt_of n self.now.stmts) (λ stmt. result ≡ answer_of (handle_on n conn self.now.live) stmt) }
    {
        self.stmt(n).answer(self.live(n, conn))
    }

    /// Returns the live handle of the statement on a connection, if it has one, with the number of arguments.
    /// It doesn't matter whether the statement was closed.
    pub fn live(&self, n: u32, conn: u32) -> Option<(u32, i32)>
        ensures { result ≡ handle_on n conn self.now.live }
    {
        let prepared = self.live.get(&(n, conn))?;
        Some((prepared.handle, prepared.inputs))
    }

    /// Returns true if a statement has a live handle with this number on a connection.
    pub fn is_live(&self, conn: u32, handle: u32) -> bool
        ensures { result ≡ is_live conn handle self.now.live }
    {
        self.live.iter().any(|(place, prepared)| conn == place.1 && handle == prepared.handle)
    }

    /// Records that a driver prepared the statement on a connection. From then on the handle is live.
    pub fn note_prepared(
        &mut self,
        n: u32,
        conn: u32,
        handle: u32,
        inputs: i32,
    ) -> Result<(), Memory>
        requires added { was_added n self.old.stmts ≡ true }
        requires none { handle_on n conn self.old.live ≡ None }
        requires unused { is_live conn handle self.old.live ≡ false }
        ensures ok { OnOk result (self.new.live ≡ self.old.live ++ live_handle n conn handle inputs ∷ []) }
        ensures full { OnErr result (self.old.spare ≡ 0) }
        ensures err { OnErr result (self.new.live ≡ self.old.live) }
        ensures stmts { self.new.stmts ≡ self.old.stmts }
        ensures spare { self.old.spare ≤ self.new.spare + 1 }
    {
        self.live.insert((n, conn), Prepared { handle, inputs })?;
        Ok(())
    }

    /// Closes the statement, if nothing has, and returns its live handles with their connections. A second close
    /// returns none and takes no memory. `call` is 0 if no client's call closes the statement. The handles stay live
    /// until they are dropped or their connection is forgotten. A run that was entered before the close may still use
    /// them.
    pub fn close(&mut self, n: u32, call: u32) -> Result<Handles, Memory>
        requires { was_added n self.old.stmts ≡ true }
        ensures ok { OnOk result (self.new.stmts ≡ changed (closed_by call) n self.old.stmts) }
        ensures handles { IfOk result (λ handles. Some handles
            ≡ option_map (handed_out n self.old.live) (stmt_of n self.old.stmts)) }
        ensures first { OnErr result (option_map is_open (stmt_of n self.old.stmts) ≡ Some true) }
        ensures full { OnErr result (self.old.spare ≡ 0) }
        ensures err { OnErr result (self.new.stmts ≡ self.old.stmts) }
        ensures live { self.new.live ≡ self.old.live }
        ensures spare { self.old.spare ≤ self.new.spare + 1 }
        ensures again { option_map is_open (stmt_of n self.old.stmts) ≡ Some false → self.old.spare ≤ self.new.spare }
    {
        if self.stmt(n).closed.is_some() {
            return Ok(Items::none(self.alloc));
        }
        let list = self.lists.take();
        let handles = pairs_of(n, &self.live, list)?;
        match self.stmts.get_mut(&n) {
            Some(stmt) => stmt.close(call),
            None => unreachable!(),
        }
        Ok(Items::new(handles))
    }

    /// Records that a handle was closed on its connection, so that it isn't live any more. Neither this nor
    /// `forget_conn` takes memory. Both look at each live handle.
    pub fn dropped(&mut self, conn: u32, handle: u32)
        ensures live { self.new.live ≡ without_handle conn handle self.old.live }
        ensures stmts { self.new.stmts ≡ self.old.stmts }
        ensures spare { self.old.spare ≤ self.new.spare }
    {
        self.live.retain(
            |place: &(u32, u32), prepared: &mut Prepared| -> bool
                ensures { (result ≡ not ((conn == place.now.1) && (handle == prepared.old.handle)))
                    × (prepared.new ≡ prepared.old) }
            { !(conn == place.1 && handle == prepared.handle) },
        );
    }

    /// Records that a connection is lost, so that none of its handles is live any more.
    pub fn forget_conn(&mut self, conn: u32)
        ensures live { self.new.live ≡ without_conn conn self.old.live }
        ensures stmts { self.new.stmts ≡ self.old.stmts }
        ensures spare { self.old.spare ≤ self.new.spare }
    {
        self.live.retain(
            |place: &(u32, u32), prepared: &mut Prepared| -> bool
                ensures { (result ≡ not (conn == place.now.1)) × (prepared.new ≡ prepared.old) }
            { conn != place.1 },
        );
    }

    /// Returns the text of the statement.
    pub fn text(&self, n: u32) -> &Txt
        requires { was_added n self.now.stmts ≡ true }
        ensures { Some result.now ≡ option_map (λ stmt. stmt.text) (stmt_of n self.now.stmts) }
    {
        &self.stmt(n).text
    }

    /// Returns what the statement was prepared on.
    pub fn home(&self, n: u32) -> Home
        requires { was_added n self.now.stmts ≡ true }
        ensures { Some result ≡ option_map (λ stmt. stmt.home) (stmt_of n self.now.stmts) }
    {
        self.stmt(n).home
    }

    fn stmt(&self, n: u32) -> &Stmt
        requires { was_added n self.now.stmts ≡ true }
        ensures { Some result.now ≡ stmt_of n self.now.stmts }
    {
        self.stmts.get(&n).unwrap()
    }
}

/// Returns the list, filled with the live handles of a statement and their connections. Fails with `Memory`
/// only if the list has less room than there are live handles.
fn pairs_of(n: u32, live: &IndexMap<(u32, u32), Prepared>, list: Pairs) -> Result<Pairs, Memory>
    requires { list.items ≡ [] }
    ensures ok { IfOk result (λ pairs. pairs.items ≡ handles_of n live.now.entries) }
    ensures full { OnErr result (vec_capacity list < length live.now.entries) }
{
    let mut pairs = list;
    for ((stmt, conn), prepared) in live {
        if n == *stmt {
            pairs.push((*conn, prepared.handle))?;
        }
    }
    Ok(pairs)
}
