//! The layer's own driver calls. A history is read newest first.
ghost use Rattle.std.specs.Prelude.{◌≡◌, ◌≢◌, ◌++◌, ◌∷◌, [], ℕ, true, false, List, Some, is_some};
ghost use Rattle.std.specs.List.{list_all};
ghost use Rattle.dsql_engine_hearing.specs.driver.Kinds.{is_connect, is_shut};
ghost use Rattle.dsql_engine_hearing.specs.journal.declared.entry.Entry.{Entry};
ghost use Rattle.dsql_engine_hearing.specs.journal.declared.entry.Owner.{Owner};
ghost use Rattle.dsql_engine_hearing.specs.journal.declared.entry.Permit.{Permit};
ghost use Rattle.dsql_engine_hearing.specs.journal.Kinds.{number_of};
ghost use Rattle.dsql_engine_hearing.specs.pool.declared.conn.Place.TheVariants.{Lent};
ghost use Rattle.dsql_engine_hearing.specs.pool.Places.{is_closing, is_lent, is_opening};
ghost use Rattle.dsql_engine_hearing.specs.history.declared.event.Event.{Event};
ghost use Rattle.dsql_engine_hearing.specs.history.Readers.Course.{has_ended};
ghost use Rattle.dsql_engine_hearing.specs.history.Readers.Journals.{journal};
ghost use Rattle.dsql_engine_hearing.specs.history.Readers.Pool.{place};
ghost use Rattle.dsql_engine_hearing.specs.history.Rules.Line.{may_come, tidying};
ghost use Rattle.dsql_engine_hearing.specs.history.Rules.Settled.{owes_nothing};
ghost use Rattle.dsql_engine_hearing.specs.history.Legal.{Lawful};
ghost use Rattle.dsql_engine_hearing.specs.going.Permits.{chore_permit};
ghost use Rattle.dsql_engine_hearing.specs.laws_steps.Groups.{is_later_of};
ghost use Rattle.dsql_engine_laws.specs.Chores.{MayBeMade, hears_on};

/// Rows or a transaction that no call ended have ended with the run, if a connection is still lent to their
/// call or to it. So the layer tidies up only after the run has ended.
pub fn what_is_tidied_up_ended_with_the_run()
    ensures { (history : List Event) (c t : ℕ) (owner : Owner) → Lawful history → place history c ≡ Some (Lent t owner)
        → is_some (tidying history (number_of owner)) ≡ true → has_ended history ≡ true }
{}

/// If nothing is owed, the layer's own driver call may be made on its connection, and each answer that fits is
/// welcome. It has no statement. It carries the transaction to which the connection is lent, if it is lent to
/// one and the driver call is no test.
pub fn the_layers_own_calls_may_be_made()
    ensures { (history : List Event) (c : ℕ) (permit : Permit) → Lawful history → owes_nothing history ≡ true
        → chore_permit history c ≡ Some permit → MayBeMade history c permit }
{}

/// No answer to a client's call may come on a connection on which the layer has a driver call of its own to
/// make.
pub fn the_layers_own_calls_meet_no_others()
    ensures { (history : List Event) (c : ℕ) (permit : Permit) (e : Entry) → Lawful history → chore_permit history c
        ≡ Some permit → e.call_no ≢ 0 → may_come history e ≡ true → e.conn ≢ c }
{}

/// The layer connects what is being opened, shuts what is closing, and tidies up what is lent to a call or to a
/// transaction.
pub fn chores_are_told_by_kind()
    ensures connect { (history : List Event) (c : ℕ) (permit : Permit) → chore_permit history c ≡ Some permit
        → is_connect permit.call ≡ true → is_opening (place history c) ≡ true }
    ensures shut { (history : List Event) (c : ℕ) (permit : Permit) → chore_permit history c ≡ Some permit
        → is_shut permit.call ≡ true → is_closing (place history c) ≡ true }
    ensures tidy { (history : List Event) (c : ℕ) (permit : Permit) → chore_permit history c ≡ Some permit
        → is_connect permit.call ≡ false → is_shut permit.call ≡ false → is_lent (place history c) ≡ true }
{}

/// The layer's own driver call on a connection that isn't lent is a Connect or a Shut. It stays due through each step,
/// unless the driver answers on that connection. The connection isn't lent after the step either, and its journal is
/// the same.
pub fn openings_and_shuttings_stay_due()
    ensures due { (past events more : List Event) (first : Event) (n c : ℕ) (permit : Permit) → Lawful (events ++ past)
        → owes_nothing past ≡ true → chore_permit past c ≡ Some permit → is_lent (place past c) ≡ false
        → events ≡ more ++ first ∷ [] → list_all (is_later_of n) more ≡ true → hears_on c first ≡ false
        → chore_permit (events ++ past) c ≡ Some permit }
    ensures unlent { (past events more : List Event) (first : Event) (n c : ℕ) (permit : Permit)
        → Lawful (events ++ past)
        → owes_nothing past ≡ true → chore_permit past c ≡ Some permit → is_lent (place past c) ≡ false
        → events ≡ more ++ first ∷ [] → list_all (is_later_of n) more ≡ true → hears_on c first ≡ false
        → is_lent (place (events ++ past) c) ≡ false }
    ensures journal { (past events more : List Event) (first : Event) (n c : ℕ) → events ≡ more ++ first ∷ []
        → list_all (is_later_of n) more ≡ true → hears_on c first ≡ false
        → journal (events ++ past) c ≡ journal past c }
{}
