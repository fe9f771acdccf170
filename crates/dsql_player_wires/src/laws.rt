//! How wires fit a history that goes on, and what their fleet records then. Each law is the contract of a
//! function that does nothing. A history is read newest first. If it goes on with an answer, `more` is what
//! came after the answer and isn't heard.
ghost use Rattle.std.specs.Prelude.{◌≡◌, ◌∷◌, ◌++◌, [], ℕ, Bool, true, false, List, Option, None, is_some, IfSome, IsSome, IsSomeAnd, slice_set};
ghost use Rattle.std.specs.List.{list_all};
ghost use Rattle.dsql_history.specs.driver.Fits.{is_memory};
ghost use Rattle.dsql_history.specs.driver.Kinds.{is_connect, is_shut};
ghost use Rattle.dsql_history.specs.driver.Wires.{FleetTold, Plan, connected_after};
ghost use Rattle.dsql_history.specs.journal.HandlesAndCursors.{fits_at_its_place};
ghost use Rattle.dsql_history.specs.journal.declared.entry.Entry.{Entry};
ghost use Rattle.dsql_history.specs.journal.declared.entry.Permit.{Permit};
ghost use Rattle.dsql_tenure.specs.Judged.{answered};
ghost use Rattle.dsql_wire.specs.Journaled.{Journaled, MayBeSent};
ghost use Rattle.dsql_wire.specs.Told.{TellsOf};
ghost use Rattle.dsql_history.specs.declared.event.Event.{Event};
ghost use Rattle.dsql_history.specs.declared.event.Event.TheVariants.{Heard};
ghost use Rattle.dsql_history.specs.Readers.Journals.{journal};
ghost use Rattle.dsql_player_wires.specs.Asked.{Answers, Connects, Performs, Plans};
ghost use Rattle.dsql_player_wires.specs.Extends.{Extends};
ghost use Rattle.dsql_player_wires.specs.Made.{Made};
ghost use Rattle.dsql_player_wires.specs.Told.{FleetTells, fleet_told, hears_nothing, retired_slot};
ghost use Rattle.dsql_player_wires.specs.WiresFit.{KeepsFit, WiresFit, is_wired, made_at, slot};

use dsql_history::Wire;

/// What isn't heard changes no journal, no wire, and nothing that a fleet records.
pub fn what_is_not_heard_changes_no_wire<W: Wire>()
    ensures journal { (e : Event) (past : List Event) (c : ℕ) → hears_nothing e ≡ true → journal (e ∷ past) c
        ≡ journal past c }
    ensures wires { (telling : Bool) (e : Event) (past : List Event) (slots : List (Option (Journaled W)))
        → hears_nothing e ≡ true → WiresFit W.told telling past slots → WiresFit W.told telling (e ∷ past) slots }
    ensures told { (made : List Made) (e : Event) (past : List Event) → hears_nothing e ≡ true
        → fleet_told made (e ∷ past)
        ≡ fleet_told made past }
    ensures all_journals { (more past : List Event) (c : ℕ)
        → list_all hears_nothing more ≡ true → journal (more ++ past) c ≡ journal past c }
    ensures all_wires { (telling : Bool) (more past : List Event) (slots : List (Option (Journaled W)))
        → list_all hears_nothing more ≡ true → WiresFit W.told telling past slots
        → WiresFit W.told telling (more ++ past) slots }
    ensures all_told { (made : List Made) (more past : List Event) → list_all hears_nothing more ≡ true
        → fleet_told made (more ++ past) ≡ fleet_told made past }
    ensures tells { (fleet : Option FleetTold) (more past : List Event) (slots : List (Option (Journaled W)))
        → list_all hears_nothing more ≡ true → FleetTells W.told [] fleet fleet past (more ++ past) slots slots }
{}

/// If a journal lets a call other than Connect be sent, its connection has a wire, and that wire takes the
/// call.
pub fn who_may_send_has_a_wire<W: Wire>()
    ensures wired { (c : ℕ) (entries : List Entry) (permit : Permit)
        → MayBeSent c entries permit → is_connect permit.call ≡ false → is_wired entries ≡ true }
    ensures takes { (telling : Bool) (past : List Event) (permit : Permit) (slots : List (Option (Journaled W)))
        → WiresFit W.told telling past slots → MayBeSent permit.conn (journal past permit.conn) permit
        → is_connect permit.call ≡ false
        → IsSomeAnd (slot slots permit.conn) (λ w. MayBeSent w.conn w.journal permit) }
{}

/// If a journal lets a Connect be sent, the journal is empty and its connection has no wire.
pub fn who_may_connect_has_no_wire<W: Wire>()
    ensures unheard { (c : ℕ) (entries : List Entry) (permit : Permit)
        → MayBeSent c entries permit → is_connect permit.call ≡ true → entries ≡ [] }
    ensures none { (telling : Bool) (past : List Event) (c : ℕ) (slots : List (Option (Journaled W)))
        → WiresFit W.told telling past slots → journal past c ≡ [] → slot slots c ≡ None }
{}

/// A call that is neither Connect nor Shut was answered on its wire. What fits at its place on the wire fits in
/// the history. The wires fit the history that has the answer, and the fleet has nothing to record of it.
pub fn an_answer_keeps_the_wires<W: Wire>()
    ensures fits { (telling : Bool) (permit : Permit) (e : Entry) (past : List Event)
        (slots : List (Option (Journaled W)))
        → e ≡ answered permit e.answer → WiresFit W.told telling past slots
        → IsSomeAnd (slot slots permit.conn) (λ w. fits_at_its_place w.journal e ≡ true)
        → fits_at_its_place (journal past e.conn) e ≡ true }
    ensures wires { (telling : Bool) (permit : Permit) (e : Entry) (more past : List Event)
        (before after : List (Option (Journaled W)))
        → Performs W.told permit e before after → is_connect permit.call ≡ false → is_shut permit.call ≡ false
        → list_all hears_nothing more ≡ true → WiresFit W.told telling past before
        → WiresFit W.told telling (more ++ Heard e ∷ past) after }
    ensures told { (made : List Made) (permit : Permit) (e : Entry) (more past : List Event)
        → e ≡ answered permit e.answer → is_connect permit.call ≡ false → is_shut permit.call ≡ false
        → list_all hears_nothing more ≡ true → fleet_told made (more ++ Heard e ∷ past) ≡ fleet_told made past }
    ensures tells { (permit : Permit) (e : Entry) (more past : List Event)
        (before after : List (Option (Journaled W))) (fleet : Option FleetTold)
        → Performs W.told permit e before after → is_connect permit.call ≡ false → is_shut permit.call ≡ false
        → list_all hears_nothing more ≡ true
        → FleetTells W.told [] fleet fleet past (more ++ Heard e ∷ past) before after }
{}

/// A Shut was answered on its wire, which is then given back, whatever the answer was. The wires that are left
/// fit the history that has the answer, and the fleet records it.
pub fn a_shut_gives_the_wire_back<W: Wire>()
    ensures there { (permit : Permit) (e : Entry) (before mid : List (Option (Journaled W)))
        → Performs W.told permit e before mid → IsSome (slot mid permit.conn) }
    ensures wires { (telling : Bool) (permit : Permit) (e : Entry) (more past : List Event)
        (before mid after : List (Option (Journaled W)))
        → Performs W.told permit e before mid → is_shut permit.call ≡ true → after ≡ slice_set mid permit.conn None
        → list_all hears_nothing more ≡ true → WiresFit W.told telling past before
        → WiresFit W.told telling (more ++ Heard e ∷ past) after }
    ensures tells { (permit : Permit) (e : Entry) (more past : List Event)
        (before mid after : List (Option (Journaled W))) (fleet : Option FleetTold)
        → Performs W.told permit e before mid → is_shut permit.call ≡ true → after ≡ slice_set mid permit.conn None
        → IfSome (slot mid permit.conn) (λ w. IfSome (W.told w.wire) (TellsOf w.conn w.journal))
        → list_all hears_nothing more ≡ true → WiresFit W.told (is_some fleet) past before
        → FleetTells W.told [] fleet (retired_slot W.told permit.conn (slot mid permit.conn) fleet) past (more
        ++ Heard e ∷ past) before after }
{}

/// A Connect was answered, and if the answer was Done, its wire is in its slot. The wires fit the history that
/// has the answer, and the fleet records it.
pub fn a_connect_opens_a_wire<W: Wire>()
    ensures fits { (permit : Permit) (e : Entry) (past : List Event)
        → journal past permit.conn ≡ [] → Answers permit [] e → fits_at_its_place (journal past e.conn) e ≡ true }
    ensures wires { (telling : Bool) (permit : Permit) (e : Entry) (more past : List Event)
        (before after : List (Option (Journaled W)))
        → Connects W.told telling permit e before after → is_connect permit.call ≡ true → journal past permit.conn ≡ []
        → list_all hears_nothing more ≡ true → WiresFit W.told telling past before
        → WiresFit W.told telling (more ++ Heard e ∷ past) after }
    ensures tells { (telling : Bool) (permit : Permit) (e : Entry) (more past : List Event)
        (before after : List (Option (Journaled W))) (fleet : Option FleetTold)
        → Connects W.told telling permit e before after → is_memory e.answer ≡ false → is_connect permit.call
        ≡ true → journal past permit.conn ≡ []
        → list_all hears_nothing more ≡ true
        → FleetTells W.told [] fleet (connected_after permit.conn e.answer fleet) past (more
        ++ Heard e ∷ past) before after }
{}

/// A fault was planned for a connection. The wires fit the history as before. If the connection has a wire,
/// that wire records the plan; otherwise the fleet does.
pub fn a_plan_is_told<W: Wire>()
    ensures wires { (c : ℕ) (plan : Plan) (fleet after : Option FleetTold) (past : List Event)
        (slots now : List (Option (Journaled W)))
        → Plans W.told c plan fleet after slots now → KeepsFit W.told past past slots now }
    ensures tells { (telling : Bool) (c : ℕ) (plan : Plan) (fleet after : Option FleetTold) (past : List Event)
        (slots now : List (Option (Journaled W)))
        → WiresFit W.told telling past slots → Plans W.told c plan fleet after slots now
        → FleetTells W.told (made_at c plan past ∷ []) fleet after past past slots now }
{}

/// What a fleet records of a history adds up.
pub fn what_a_fleet_tells_adds_up<W: Wire>()
    ensures then { (more : List Made) (before between after : Option FleetTold) (old mid new : List Event)
        (slots halfway now : List (Option (Journaled W)))
        → FleetTells W.told more before between old mid slots halfway
        → FleetTells W.told [] between after mid new halfway now
        → FleetTells W.told more before after old new slots now }
{}

/// A history goes on from itself, with an event more, and from any history that an earlier one goes on to.
pub fn histories_go_on()
    ensures same { (past : List Event) → Extends past past }
    ensures event { (old now : List Event) (e : Event) → Extends old now → Extends old (e ∷ now) }
    ensures then { (old mid new : List Event) → Extends old mid → Extends mid new → Extends old new }
{}
