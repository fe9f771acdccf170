//! What may be heard next on a connection, and when the connection may be given back. A history lists its
//! events newest first.
ghost use Rattle.std.specs.Prelude.{◌≡◌, ℕ, true, false, List, [], Some};
ghost use Rattle.dsql_laws_calls.specs.driver.Fits.{fits_of, is_memory};
ghost use Rattle.dsql_laws_calls.specs.driver.declared.answer.DriverAnswer.{DriverAnswer};
ghost use Rattle.dsql_laws_calls.specs.driver.declared.call.DriverCall.TheVariants.{Shut};
ghost use Rattle.dsql_laws_calls.specs.journal.declared.entry.Entry.{Entry};
ghost use Rattle.dsql_laws_calls.specs.journal.declared.entry.Owner.{Owner};
ghost use Rattle.dsql_laws_calls.specs.journal.Entries.{shut_entry};
ghost use Rattle.dsql_laws_calls.specs.journal.HandlesAndCursors.{fits_at_its_place};
ghost use Rattle.dsql_laws_calls.specs.journal.Journal.{may_follow};
ghost use Rattle.dsql_laws_calls.specs.journal.Kinds.{number_of};
ghost use Rattle.dsql_laws_calls.specs.journal.Tenure.{is_whole_tenure};
ghost use Rattle.dsql_laws_calls.specs.pool.declared.conn.Place.TheVariants.{Closing, Lent};
ghost use Rattle.dsql_laws_calls.specs.pool.Pooled.{next_tenure};
ghost use Rattle.dsql_laws_calls.specs.history.declared.event.Event.{Event};
ghost use Rattle.dsql_laws_calls.specs.history.Readers.Journals.{journal};
ghost use Rattle.dsql_laws_calls.specs.history.Readers.Owed.{owed};
ghost use Rattle.dsql_laws_calls.specs.history.Readers.Pool.{place, pool};
ghost use Rattle.dsql_laws_calls.specs.history.Rules.Causes.{goes_in_turn};
ghost use Rattle.dsql_laws_calls.specs.history.Rules.Line.{is_used, may_come};
ghost use Rattle.dsql_laws_calls.specs.history.Legal.{Lawful};
ghost use Rattle.dsql_laws_calls.specs.laws.Leaving.{MayLeave};
ghost use Rattle.dsql_laws_due.specs.Carried.{carried};

/// If a driver call is under way, its entry may follow in the journal, whatever the driver answers. This holds
/// in a tenure of a call or of a transaction, whichever call sent it. The entry has to carry the transaction to
/// which it belongs, and the answer has to fit at its place.
///
/// On a connection that is being closed, a Shut may follow if the pool owes no move. Any answer that fits may
/// come, except want of memory.
pub fn every_answer_may_follow()
    ensures due { (history : List Event) (e : Entry) → Lawful history → may_come history e ≡ true → place history e.conn
        ≡ Some (Lent e.tenure e.owner) → e.tx ≡ carried e.owner e.call e.answer
        → fits_at_its_place (journal history e.conn) e ≡ true → may_follow (journal history e.conn) e ≡ true }
    ensures shut { (history : List Event) (c : ℕ) (answer : DriverAnswer) → Lawful history → owed history ≡ []
        → place history c ≡ Some Closing → fits_of Shut answer ≡ true → is_memory answer ≡ false
        → may_follow (journal history c) (shut_entry c (next_tenure (pool history) c) answer) ≡ true }
{}

/// A lent connection that isn't in use has a whole tenure, whether it is lent to a call or to a transaction. So
/// it may be given back as the rules ask, if the pool owes no move and it is the connection's turn.
pub fn what_is_not_used_may_be_given_back()
    ensures whole { (history : List Event) (c t : ℕ) (owner : Owner) → Lawful history
        → place history c ≡ Some (Lent t owner)
        → is_used history (number_of owner) ≡ false → is_whole_tenure t (journal history c) ≡ true }
    ensures leaves { (history : List Event) (c t : ℕ) (owner : Owner) → Lawful history → owed history ≡ []
        → place history c ≡ Some (Lent t owner) → goes_in_turn history (place history c) ≡ true
        → is_used history (number_of owner) ≡ false → MayLeave history c }
{}
