ghost use Rattle.std.specs.Prelude.{◌≡◌, ◌≤◌, ℕ, List, [], Option, true, false, is_some, IfOk, IfErr, IfSome, OnOk, OnErr};
ghost use Rattle.dsql_driver.specs.Fits.{fits_of, is_fault};
ghost use Rattle.dsql_driver.specs.Streams.{HasRisen};
ghost use Rattle.dsql_driver.specs.Wires.{LiveCursor, WireTold, FleetTold, Preferred, newly_told, told_after, planned_after, answer_of, connected_after, plans_after, retired_after, preferred_after, KeepsHandles, KeepsCursors, is_fault_of};
ghost use Rattle.dsql_driver.specs.declared.caps.Caps.{Caps};

use crate::answer::DriverAnswer;
use crate::call::DriverCall;
use crate::caps::Caps;
use dsql_value::{Memory, Txt};

/// A fault that is planned in place of a driver's answer.
#[derive(Drop)]
pub enum Planned {
    Bad,
    Fail(Txt),
    Invalid,
}

/// Why a connection couldn't be opened.
#[derive(Debug, Drop)]
pub enum Refused {
    Bad,
    Fail(Txt),
    Memory,
}

/// A driver's answer, given twice, so that the layer has nothing to copy after a driver call.
#[derive(Drop)]
pub struct Answered {
    pub answer: DriverAnswer,
    pub copy: DriverAnswer,
}

/// One open connection to a database: Go's `driver.Conn` with its statements, rows and transactions.
pub trait Wire {
    /// What the wire reports, if it reports at all. It reports its number, its calls with their answers, and the faults
    /// that were planned on it. The calls that it answered Memory stand apart. Each planned fault stands with the
    /// number of calls that the wire had heard by then.
    ghost told: { Self → Option WireTold };
    /// How often the wire answered Bad, Fail or Invalid.
    ghost faults: { Self → ℕ };
    /// The handles of the statements that are live on the wire.
    ghost handles: { Self → List ℕ };
    /// The cursors that are live on the wire, each with the number of its columns.
    ghost cursors: { Self → List LiveCursor };

    /// Makes one call to the driver. After the answer Memory the wire's handles and cursors are unchanged, and its
    /// report has the call among those that wanted memory.
    fn call(&mut self, call: &DriverCall) -> Answered
        ensures copied { result.copy ≡ result.answer }
        ensures fitting { fits_of call.now result.answer ≡ true }
        ensures told { told self.new ≡ told_after call.now result.answer (told self.old) }
        ensures handles { KeepsHandles call.now result.answer (handles self.old) (handles self.new) }
        ensures cursors { KeepsCursors call.now result.answer (cursors self.old) (cursors self.new) }
        ensures counted { faults self.old ≤ faults self.new }
        ensures caused { is_fault result.answer ≡ true → HasRisen (faults self.old) (faults self.new) }
        ensures faultless { is_fault result.answer ≡ false → faults self.new ≡ faults self.old };

    /// Plans a fault in place of the answer to the nth call on this wire. The wire's Connect is the first call.
    /// The wire's report places the plan after the calls that were heard so far.
    fn plan(&mut self, nth: u32, what: Planned) -> Result<(), Memory>
        ensures told { OnOk result (told self.new ≡ planned_after (nth, what) (told self.old)) }
        ensures err { OnErr result (told self.new ≡ told self.old) }
        ensures handles { handles self.new ≡ handles self.old }
        ensures cursors { cursors self.new ≡ cursors self.old }
        ensures faultless { faults self.new ≡ faults self.old };
}

/// A maker of connections to one database, as Go's `driver.Connector`. It also takes a wire back after its last call.
pub trait Fleet {
    type Wire: Wire + Send;

    /// What the fleet's driver can do.
    ghost ability: { Self → Caps };
    /// The capabilities that were asked for last, if any were, and how often capabilities were asked for.
    ghost preferred: { Self → Preferred };
    /// What the fleet reports, if it reports at all. It reports its Connects with their answers, the planned faults,
    /// and the wires that it was given back. The Connects that it answered Memory stand apart. Each planned fault
    /// stands with the number of Connects that the fleet had heard by then.
    ghost told: { Self → Option FleetTold };
    /// How often the fleet refused a Connect as Bad or Fail.
    ghost faults: { Self → ℕ };

    /// Returns what the fleet's driver can do.
    fn caps(&self) -> Caps
        ensures { result ≡ ability self.now };

    /// Asks for a driver that has exactly these capabilities.
    fn prefer(&mut self, caps: Caps)
        ensures preferred { preferred self.new ≡ preferred_after caps (preferred self.old) }
        ensures told { told self.new ≡ told self.old }
        ensures faultless { faults self.new ≡ faults self.old };

    /// Plans a fault in place of the answer to the nth call on a wire that isn't connected yet. The wire's
    /// Connect is the first call. The fleet's report places the plan after the Connects that were heard so far.
    fn plan(&mut self, wire: u32, nth: u32, what: Planned) -> Result<(), Memory>
        ensures told { OnOk result (told self.new ≡ plans_after (wire, (nth, what)) (told self.old)) }
        ensures err { OnErr result (told self.new ≡ told self.old) }
        ensures ability { ability self.new ≡ ability self.old }
        ensures preferred { preferred self.new ≡ preferred self.old }
        ensures faultless { faults self.new ≡ faults self.old };

    /// Opens a connection. If its wire reports, it reports this number, its Connect answered Done as the only
    /// call, no plan, and no call that wanted memory. If the fleet reports, the wire reports too. After the answer
    /// Memory the fleet's report has the Connect among those that wanted memory.
    fn connect(&mut self, number: u32) -> Result<Self::Wire, Refused>
        ensures asked { told self.new ≡ connected_after number (answer_of result) (told self.old) }
        ensures new { IfOk result (λ w. IfSome (Self.Wire.told w) (λ told. told ≡ newly_told number)) }
        ensures telling { IfOk result (λ w. is_some (told self.old) ≡ true → is_some (Self.Wire.told w) ≡ true) }
        ensures handles { IfOk result (λ w. Self.Wire.handles w ≡ []) }
        ensures cursors { IfOk result (λ w. Self.Wire.cursors w ≡ []) }
        ensures ability { ability self.new ≡ ability self.old }
        ensures preferred { preferred self.new ≡ preferred self.old }
        ensures counted { faults self.old ≤ faults self.new }
        ensures caused { IfErr result (λ r. is_fault_of r ≡ true → HasRisen (faults self.old) (faults self.new)) }
        ensures faultless { is_fault (answer_of result) ≡ false → faults self.new ≡ faults self.old };

    /// Takes back a wire after its last call. The room for it was reserved when it was connected.
    fn retire(&mut self, number: u32, wire: Self::Wire)
        ensures told { told self.new ≡ retired_after number (Self.Wire.told wire) (told self.old) }
        ensures ability { ability self.new ≡ ability self.old }
        ensures preferred { preferred self.new ≡ preferred self.old }
        ensures faultless { faults self.new ≡ faults self.old };
}
