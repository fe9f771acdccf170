//! Laws about what the layer records of what was heard, for lawful histories. A history is read newest first.
ghost use Rattle.std.specs.Prelude.{◌≡◌, ℕ, true, List, Some};
ghost use Rattle.dsql_engine_exchanged.specs.Exchanged.{exchanged_in};
ghost use Rattle.dsql_laws_calls.specs.journal.declared.entry.Owner.{Owner};
ghost use Rattle.dsql_laws_calls.specs.journal.declared.entry.Owner.TheVariants.{Tx};
ghost use Rattle.dsql_laws_calls.specs.journal.Readers.{went_bad};
ghost use Rattle.dsql_laws_calls.specs.pool.declared.conn.Place.TheVariants.{Lent};
ghost use Rattle.dsql_engine_exchanged.specs.Beginning.{beginning_in};
ghost use Rattle.dsql_engine_exchanged.specs.Ending.{ending_in};
ghost use Rattle.dsql_engine_exchanged.specs.Heard.{heard_line};
ghost use Rattle.dsql_laws_calls.specs.history.declared.event.Event.{Event};
ghost use Rattle.dsql_laws_calls.specs.history.declared.work.Scope.TheVariants.{Held as InTx};
ghost use Rattle.dsql_laws_calls.specs.history.Readers.Journals.{heard_in, journal};
ghost use Rattle.dsql_laws_calls.specs.history.Readers.Lines.{line_among};
ghost use Rattle.dsql_laws_calls.specs.history.Readers.Pool.{place};
ghost use Rattle.dsql_laws_calls.specs.history.Readers.Works.{scope, work};
ghost use Rattle.dsql_laws_calls.specs.history.Legal.{Lawful};
ghost use Rattle.dsql_engine_lines.specs.Once.{none_twice, stands_in};
ghost use Rattle.dsql_engine_lines.specs.Inside.{is_open, line_at, lines};
ghost use Rattle.dsql_engine_lines.specs.There.{heard_on};

/// The record of a lent connection is what was heard there in its tenure. A connection that is known to be bad
/// isn't lent, so it went bad in that tenure, if at all.
pub fn what_is_kept_of_a_connection_is_what_was_heard_there()
    ensures made { (history : List Event) (c t : ℕ) (owner : Owner) → Lawful history
        → place history c ≡ Some (Lent t owner)
        → (heard_on history c).made ≡ exchanged_in (heard_in history c t) }
    ensures ending { (history : List Event) (c t : ℕ) (owner : Owner) → Lawful history
        → place history c ≡ Some (Lent t owner)
        → (heard_on history c).ending ≡ ending_in (heard_in history c t) }
    ensures bad { (history : List Event) (c t : ℕ) (owner : Owner) → Lawful history
        → place history c ≡ Some (Lent t owner)
        → (heard_on history c).ending.bad ≡ went_bad (journal history c) }
    ensures beginning { (history : List Event) (c t n : ℕ) → Lawful history → place history c ≡ Some (Lent t (Tx n))
        → (heard_on history c).beginning ≡ beginning_in (line_among n (heard_in history c t)) }
{}

/// The record of a call in a transaction is what was heard in its line, as long as the connection is lent to
/// that transaction.
pub fn what_is_kept_of_a_call_is_what_was_heard_in_its_line()
    ensures { (history : List Event) (c t n k : ℕ) → Lawful history → scope (work history n) ≡ InTx k
        → place history c ≡ Some (Lent t (Tx k)) → line_at (lines history).calls n
        ≡ heard_line (line_among n (heard_in history c t)) }
{}

/// Exactly the calls with an open cursor or handle listen, each once.
pub fn who_listens_has_something_open()
    ensures listens { (history : List Event) (n : ℕ) → stands_in n (lines history).open
        ≡ is_open (line_at (lines history).calls n) }
    ensures once { (history : List Event) → none_twice (lines history).open ≡ true }
{}
