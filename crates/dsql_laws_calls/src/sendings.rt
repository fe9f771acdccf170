//! Laws of what is sent and heard on lent connections. A history lists its events newest first.
ghost use Rattle.std.specs.Prelude.{◌≡◌, ◌+◌, ℕ, true, false, List, [], Option, Some, None, is_some};
ghost use Rattle.dsql_laws.specs.driver.Fits.{fits_of, is_memory};
ghost use Rattle.dsql_laws.specs.value.declared.value.Param.{Param};
ghost use Rattle.dsql_laws.specs.driver.declared.answer.DriverAnswer.{DriverAnswer};
ghost use Rattle.dsql_laws.specs.driver.declared.call.DriverCall.TheVariants.{Connect, Query};
ghost use Rattle.dsql_laws.specs.driver.declared.call.Input.{Input};
ghost use Rattle.dsql_laws.specs.course.declared.course.Wish.{Wish};
ghost use Rattle.dsql_laws.specs.journal.declared.entry.Entry.{Entry};
ghost use Rattle.dsql_laws.specs.journal.declared.entry.Owner.{Owner};
ghost use Rattle.dsql_laws.specs.journal.Kinds.{is_call, number_of};
ghost use Rattle.dsql_laws.specs.journal.Entries.{connect_entry};
ghost use Rattle.dsql_laws.specs.journal.Journal.{may_follow};
ghost use Rattle.dsql_laws.specs.journal.Readers.{went_bad};
ghost use Rattle.dsql_laws.specs.pool.declared.conn.Place.TheVariants.{Lent, Opening};
ghost use Rattle.dsql_laws.specs.pool.Places.{lends_of};
ghost use Rattle.dsql_laws.specs.rows.declared.rows.Rows.{Rows};
ghost use Rattle.dsql_laws.specs.rows.OpenRows.{is_live};
ghost use Rattle.dsql_laws.specs.works.Exchanges.{exchanges};
ghost use Rattle.dsql_laws.specs.works.Journals.{ends_invalid};
ghost use Rattle.dsql_laws_calls.specs.Made.{sent_next, made};
ghost use Rattle.dsql_laws.specs.history.declared.event.Event.{Event};
ghost use Rattle.dsql_laws.specs.history.declared.work.Work.TheVariants.{Fetch};
ghost use Rattle.dsql_laws.specs.history.Readers.Course.{caps};
ghost use Rattle.dsql_laws.specs.history.Readers.HandedOut.{rows_by};
ghost use Rattle.dsql_laws.specs.history.Readers.Journals.{heard_in, journal};
ghost use Rattle.dsql_laws.specs.history.Readers.Owed.{owed};
ghost use Rattle.dsql_laws.specs.history.Readers.Pool.{pool, place};
ghost use Rattle.dsql_laws.specs.history.Readers.Works.{work};
ghost use Rattle.dsql_laws.specs.history.Rules.Line.{may_come};
ghost use Rattle.dsql_laws.specs.history.Rules.Sent.{asked_by, is_reset_due, line_of};
ghost use Rattle.dsql_laws.specs.history.Legal.{Lawful};
ghost use Rattle.dsql_laws_calls.specs.Kept.{KeepsItsConnection};
ghost use Rattle.dsql_laws_calls.specs.UnderWay.{StaysWithItsCall};

/// The tenure of a lent connection is one more than the number of its lendings.
pub fn tenures_of_lawful_histories()
    ensures tenure { (history : List Event) (c t : ℕ) (owner : Owner) → Lawful history
        → place history c ≡ Some (Lent t owner)
        → t ≡ lends_of c (pool history).conns + 1 }
{}

/// While an answer is under way, its connection stays lent in the answer's tenure. The owner is the call or the
/// transaction whose connection the answer's call uses, and that call is unfinished. If the owner is a call on
/// the database, nothing went bad on the connection, and its newest answer didn't find it invalid. In a
/// transaction, calls go on after a bad answer.
pub fn what_is_under_way_keeps_its_connection()
    ensures kept { (history : List Event) (e : Entry) → Lawful history → may_come history e ≡ true
        → StaysWithItsCall history e }
    ensures good { (history : List Event) (e : Entry) (owner : Owner) → Lawful history → may_come history e ≡ true
        → place history e.conn ≡ Some (Lent e.tenure owner) → is_call owner ≡ true
        → went_bad (journal history e.conn) ≡ false }
    ensures valid { (history : List Event) (e : Entry) (owner : Owner) → Lawful history → may_come history e ≡ true
        → place history e.conn ≡ Some (Lent e.tenure owner) → is_call owner ≡ true
        → ends_invalid (journal history e.conn) ≡ false }
{}

/// If the pool owes no move, the journal of a connection that is being opened may go on with its Connect. Any
/// answer that fits may come, except want of memory.
pub fn every_connect_may_follow()
    ensures connect { (history : List Event) (c : ℕ) (wanted : Option Owner) (answer : DriverAnswer) → Lawful history
        → owed history ≡ [] → place history c ≡ Some (Opening wanted) → fits_of Connect answer ≡ true
        → is_memory answer ≡ false → may_follow (journal history c) (connect_entry c answer) ≡ true }
{}

/// A query on the database makes its rows once. A fetch is for rows that were made. Live rows keep the
/// connection that their query uses: it is lent to the query, or to the transaction in which the query runs.
pub fn rows_of_lawful_histories()
    ensures new { (history : List Event) (e : Entry) (owner : Owner) (input : Input) (params : List Param)
        → Lawful history
        → may_come history e ≡ true → place history e.conn ≡ Some (Lent e.tenure owner) → is_call owner ≡ true
        → e.call ≡ Query input params → rows_by history e.call_no ≡ None }
    ensures fetched { (history : List Event) (e : Entry) (k : ℕ) → Lawful history → may_come history e ≡ true
        → work history e.call_no ≡ Fetch k → is_some (rows_by history k) ≡ true }
    ensures kept { (history : List Event) (n : ℕ) (rows : Rows) → Lawful history → rows_by history n ≡ Some rows
        → is_live rows ≡ true → KeepsItsConnection history n }
{}

/// The exchanges kept for a lent connection, by its number, are those heard in its tenure. So these exchanges
/// and the newest entry of the connection's journal decide what a call on the database sends next there.
pub fn exchanges_of_lawful_histories()
    ensures kept { (history : List Event) (c t : ℕ) (owner : Owner) → Lawful history
        → place history c ≡ Some (Lent t owner)
        → made history c ≡ exchanges (heard_in history c t) }
    ensures next { (history : List Event) (c t : ℕ) (owner : Owner) (wish : Wish) → Lawful history
        → place history c ≡ Some (Lent t owner) → is_call owner ≡ true → line_of history (number_of owner) wish
        ≡ sent_next (caps history) (is_reset_due history c) (asked_by history (number_of owner)) wish t
        (journal history c) (made history c) }
{}
