//! Laws of histories. Each is the contract of a function that does nothing. A history is read newest first.
ghost use Rattle.std.specs.Prelude.{◌≡◌, ◌≢◌, ◌↔◌, ◌≤◌, ◌++◌, [], ◌∷◌, ℕ, true, false, List, Some, is_some};
ghost use Rattle.dsql_history.specs.journal.declared.entry.Entry.{Entry};
ghost use Rattle.dsql_history.specs.wait.Requests.{waits};
ghost use Rattle.dsql_history.specs.pool.Calls.{wants};
ghost use Rattle.dsql_history.specs.pool.Places.{is_for};
ghost use Rattle.dsql_history.specs.pool.Moved.{made};
ghost use Rattle.dsql_history.specs.pool.Rest.{AtRest};
ghost use Rattle.dsql_history.specs.pool.declared.moves.Move.{Move};
ghost use Rattle.dsql_history.specs.declared.record.Stand.TheVariants.{Waits, Opens, Sends};
ghost use Rattle.dsql_history.specs.Readers.Pool.{smallest, place, pool};
ghost use Rattle.dsql_history.specs.declared.event.Event.{Event};
ghost use Rattle.dsql_history.specs.declared.event.Event.TheVariants.{Pool};
ghost use Rattle.dsql_history.specs.Readers.Owed.{given_back, owed};
ghost use Rattle.dsql_history.specs.Readers.Works.{asks, work};
ghost use Rattle.dsql_history.specs.Readers.Calls.{site};
ghost use Rattle.dsql_history.specs.Readers.Unfinished.{is_unfinished};
ghost use Rattle.dsql_history.specs.Rules.Asking.{may_ask, ask_outcome};
ghost use Rattle.dsql_history.specs.Rules.Line.{due_for, is_due_at, may_come, parts};
ghost use Rattle.dsql_history.specs.Rules.Stands.{stand};
ghost use Rattle.dsql_history.specs.Rules.Settled.{is_settled_but, Settled, owes_nothing};
ghost use Rattle.dsql_history.specs.Legal.{Allowed, Calm, KeepsJournals, Lawful, Legal};
ghost use Rattle.dsql_history.specs.Computed.{is_allowed, is_calm, is_lawful, is_legal, is_settled};
ghost use Rattle.dsql_laws.specs.Holdings.{holdings};
ghost use Rattle.dsql_laws.specs.Asked.{with_asked};
ghost use Rattle.dsql_laws.specs.Leaving.{MayLeave};
ghost use Rattle.dsql_laws.specs.OwedMade.{with_moves};
ghost use Rattle.dsql_laws.specs.Splits.{AllowedAtEachEvent};

/// The rules are computed: each test is true exactly if what it tests holds.
pub fn rules_are_computed()
    ensures allowed { (before : List Event) (e : Event) → (is_allowed before e ≡ true) ↔ Allowed before e }
    ensures settled { (before : List Event) → (is_settled before ≡ true) ↔ Settled before }
    ensures lawful { (history : List Event) → (is_lawful history ≡ true) ↔ Lawful history }
    ensures calm { (history : List Event) → (is_calm history ≡ true) ↔ Calm history }
    ensures legal { (history : List Event) → (is_legal history ≡ true) ↔ Legal history }
{}

/// A beginning of a lawful history is lawful. It was settled before each event from outside if the whole
/// history was.
pub fn beginnings_are_lawful()
    ensures lawful { (older newer : List Event) → Lawful (newer ++ older) → Lawful older }
    ensures calm { (older newer : List Event) → Calm (newer ++ older) → Calm older }
{}

/// A history is lawful exactly if each of its events may follow the events before it.
pub fn lawful_is_allowed_at_each_event()
    ensures { (history : List Event) → Lawful history ↔ AllowedAtEachEvent history }
{}

/// The pool is at rest, as its own laws say, after it has made the moves that it owes. So it is at rest
/// whenever it owes none.
pub fn pools_of_lawful_histories()
    ensures then { (history : List Event) → Lawful history → AtRest (made (owed history) (pool history)) }
    ensures now { (history : List Event) → Lawful history → owes_nothing history ≡ true → AtRest (pool history) }
{}

/// The move that the pool owes first may come after any history, and then the others are owed. So all of them
/// may come one after another. After them none is owed, and the pool has made them.
pub fn owed_moves_are_allowed()
    ensures next { (history : List Event) (due : Move) (later : List Move) → Lawful history → owed history ≡ due ∷ later
        → Allowed history (Pool due) }
    ensures later { (history : List Event) (due : Move) (later : List Move) → owed history ≡ due ∷ later
        → owed (Pool due ∷ history) ≡ later }
    ensures all { (history : List Event) → Lawful history → Lawful (with_moves (owed history) history) }
    ensures none { (history : List Event) → owed (with_moves (owed history) history) ≡ [] }
    ensures pool { (history : List Event) → pool (with_moves (owed history) history)
        ≡ made (owed history) (pool history) }
{}

/// The moves of a connection that may leave its call or its transaction are allowed one after another. After
/// them none is owed, and the pool has made them.
pub fn what_is_given_back_is_allowed()
    ensures all { (history : List Event) (conn : ℕ) → Lawful history → MayLeave history conn
        → Lawful (with_moves (given_back history conn) history) }
    ensures none { (history : List Event) (conn : ℕ) → MayLeave history conn
        → owed (with_moves (given_back history conn) history) ≡ [] }
    ensures pool { (history : List Event) (conn : ℕ) → pool (with_moves (given_back history conn) history)
        ≡ made (given_back history conn) (pool history) }
{}

/// If nothing is owed, all is settled except for a call, and the call may ask, then what its asking leads to is
/// allowed. That is a lending, an opening, or a wait.
pub fn what_is_asked_for_is_allowed()
    ensures { (history : List Event) (n : ℕ) → Lawful history → owed history ≡ [] → may_ask history n ≡ true
        → is_settled_but n history ≡ true → Lawful (with_asked n (ask_outcome history n) history) }
{}

/// Each connection's journal is a prefix of a whole one, and is whole after the connection has left.
pub fn journals_of_lawful_histories()
    ensures { (history : List Event) → Lawful history → KeepsJournals history }
{}

/// No unfinished call is call 0. A call has at most one thing in the pool: a request that waits, an opening, or a
/// connection. The connection is its own or that of the transaction that it began. A call that wants a connection works
/// on one of its own, and has nothing to send.
pub fn calls_of_lawful_histories()
    ensures numbered { (history : List Event) (n : ℕ) → Lawful history → is_unfinished history n ≡ true → n ≢ 0 }
    ensures one { (history : List Event) (n : ℕ) → Lawful history → n ≢ 0 → holdings n (pool history) ≤ 1 }
    ensures own { (history : List Event) (n : ℕ) → Lawful history → n ≢ 0 → wants n (pool history) ≡ true
        → asks (work history n) ≡ true }
    ensures silent { (history : List Event) (n : ℕ) → Lawful history → n ≢ 0 → is_some (due_for history n) ≡ true
        → wants n (pool history) ≡ false }
{}

/// A call stands in one place only if it waits, if a connection is being opened for it, or if its driver call is due.
pub fn a_call_stands_in_one_place()
    ensures waits { (history : List Event) (n : ℕ) → waits n (pool history).waiting ≡ true
        → stand history n ≡ Some Waits }
    ensures opens { (history : List Event) (n c : ℕ) → Lawful history → n ≢ 0 → smallest (is_for n) (pool history)
        ≡ Some c
        → stand history n ≡ Some (Opens c) }
    ensures sends { (history : List Event) (n : ℕ) → Lawful history → n ≢ 0 → is_some (due_for history n) ≡ true
        → stand history n ≡ Some (Sends (site history n)) }
{}

/// An answer that is due may come. It stays welcome until the driver answers on its connection or its call has
/// its reply.
pub fn answers_stay_welcome()
    ensures due { (history : List Event) (e : Entry) → is_due_at history (place history e.conn) e ≡ true
        → may_come history e ≡ true }
    ensures meanwhile { (history : List Event) (last : Event) (e : Entry) → parts last e ≡ false
        → may_come history e ≡ true
        → may_come (last ∷ history) e ≡ true }
{}
