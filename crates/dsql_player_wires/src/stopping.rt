//! What wires and a fleet record if an act has to stop. They record the run's history, with at most one of two things
//! more. One is an answer that may come next by every rule, but couldn't be taken in. The other is the want of a call
//! that was due. Each law is the contract of a function that does nothing. A history is read newest first.
ghost use Rattle.std.specs.Prelude.{◌≡◌, [], ℕ, Bool, List, Option, None, true, false, is_some, reverse, slice_set};
ghost use Rattle.dsql_history.specs.driver.Fits.{is_memory};
ghost use Rattle.dsql_history.specs.driver.Kinds.{is_connect, is_shut};
ghost use Rattle.dsql_history.specs.driver.Wires.{FleetTold, connected_after};
ghost use Rattle.dsql_history.specs.journal.declared.entry.Entry.{Entry};
ghost use Rattle.dsql_history.specs.journal.declared.entry.Permit.{Permit};
ghost use Rattle.dsql_history.specs.declared.event.Event.{Event};
ghost use Rattle.dsql_history.specs.Readers.Journals.{journal};
ghost use Rattle.dsql_wire.specs.Calling.{WantsConnect};
ghost use Rattle.dsql_wire.specs.Journaled.{Journaled};
ghost use Rattle.dsql_player_wires.specs.Asked.{Connects, LacksMemory, Performs};
ghost use Rattle.dsql_player_wires.specs.Made.{Made};
ghost use Rattle.dsql_player_wires.specs.Stopped.{GivesAllBack, GotAllBack, HearsAtMost, MayCome, RecordsAtMost, RecordsJournal, Untaken, WantedMemory};
ghost use Rattle.dsql_player_wires.specs.Told.{FleetTells, TellsJust, retired_from, retired_slot, with_told};
ghost use Rattle.dsql_player_wires.specs.WiresFit.{SameWires, WiresFit, is_wired, slot};

use dsql_history::Wire;

/// An act had to stop in which no connection was opened or shut. If all wires are as before, nothing more was heard. If
/// a call was answered, at most that answer wasn't taken in. If memory was wanting for a call, at most that want came.
/// A fleet that wasn't asked has nothing to record. If the wires are as before too, a fault that was to be planned may
/// be left out.
pub fn wires_hear_at_most_one_call_more<W: Wire>()
    ensures nothing { (past : List Event) (slots now : List (Option (Journaled W)))
        → SameWires W.told slots now → HearsAtMost W.told past past slots now }
    ensures untaken { (permit : Permit) (e : Entry) (past : List Event) (slots now : List (Option (Journaled W)))
        → Performs W.told permit e slots now → is_connect permit.call ≡ false → is_shut permit.call ≡ false
        → MayCome past (Untaken e) → HearsAtMost W.told past past slots now }
    ensures lacking { (telling : Bool) (permit : Permit) (past : List Event) (slots now : List (Option (Journaled W)))
        → WiresFit W.told telling past slots → LacksMemory W.told permit slots now → is_connect permit.call ≡ false
        → MayCome past (WantedMemory permit) → HearsAtMost W.told past past slots now }
    ensures unasked { (fleet : Option FleetTold) (old new : List Event) (slots now : List (Option (Journaled W)))
        → WiresFit W.told (is_some fleet) old slots → HearsAtMost W.told old new slots now
        → RecordsAtMost W.told [] fleet fleet old new slots now }
    ensures unplanned { (planning : List Made) (fleet : Option FleetTold) (past : List Event)
        (slots now : List (Option (Journaled W)))
        → WiresFit W.told (is_some fleet) past slots → SameWires W.told slots now
        → RecordsAtMost W.told planning fleet fleet past past slots now }
{}

/// A connection was opened, or it was shut and its wire given back, and then the act had to stop. At most that answer
/// wasn't taken in. If memory was wanting for a Connect, at most that want came. Only of an act that had been carried
/// out was each answer taken in.
pub fn a_fleet_records_at_most_one_call_more<W: Wire>()
    ensures opened { (permit : Permit) (e : Entry) (past : List Event) (slots now : List (Option (Journaled W)))
        (fleet : Option FleetTold)
        → Connects W.told (is_some fleet) permit e slots now → is_memory e.answer ≡ false
        → is_connect permit.call ≡ true → journal past permit.conn ≡ [] → MayCome past (Untaken e)
        → WiresFit W.told (is_some fleet) past slots
        → RecordsAtMost W.told [] fleet (connected_after permit.conn e.answer fleet) past past slots now }
    ensures lacking { (permit : Permit) (past : List Event) (slots now : List (Option (Journaled W)))
        (fleet after : Option FleetTold)
        → WiresFit W.told (is_some fleet) past slots → ((c : ℕ) → slot now c ≡ slot slots c)
        → WantsConnect permit.conn fleet after → is_connect permit.call ≡ true → MayCome past (WantedMemory permit)
        → RecordsAtMost W.told [] fleet after past past slots now }
    ensures shut { (permit : Permit) (e : Entry) (past : List Event) (slots mid now : List (Option (Journaled W)))
        (fleet : Option FleetTold)
        → Performs W.told permit e slots mid → is_shut permit.call ≡ true → now ≡ slice_set mid permit.conn None
        → RecordsJournal W.told (slot mid permit.conn) → MayCome past (Untaken e)
        → WiresFit W.told (is_some fleet) past slots
        → RecordsAtMost W.told [] fleet (retired_slot W.told permit.conn (slot mid permit.conn) fleet) past past slots
        now }
    ensures taken { (planning : List Made) (before after : Option FleetTold) (old new : List Event)
        (slots now : List (Option (Journaled W)))
        → FleetTells W.told planning before after old new slots now → WiresFit W.told (is_some after) new now
        → RecordsAtMost W.told planning before after old new slots now }
{}

/// A part of a run that had to stop adds up with the part before it. If every wire is given back then, the fleet
/// records exactly that.
pub fn what_a_stopped_run_records_adds_up<W: Wire>()
    ensures then { (planning : List Made) (before between after : Option FleetTold) (old mid new : List Event)
        (slots halfway now : List (Option (Journaled W)))
        → FleetTells W.told planning before between old mid slots halfway
        → RecordsAtMost W.told [] between after mid new halfway now
        → RecordsAtMost W.told planning before after old new slots now }
    ensures back { (before between : Option FleetTold) (old new : List Event)
        (slots now : List (Option (Journaled W)))
        → RecordsAtMost W.told [] before between old new slots now
        → ((c : ℕ) → RecordsJournal W.told (slot now c))
        → GivesAllBack W.told before (retired_from W.told (reverse now) between) old new slots }
    ensures all { (made : List Made) (told between : Option FleetTold) (past : List Event)
        (now : List (Option (Journaled W)))
        → TellsJust W.told made told between past now → WiresFit W.told (is_some between) past now
        → ((c : ℕ) → RecordsJournal W.told (slot now c))
        → GotAllBack made told (retired_from W.told (reverse now) between) past }
    ensures none { (made : List Made) (told now : Option FleetTold) (past : List Event)
        → now ≡ with_told made told past → ((c : ℕ) → is_wired (journal past c) ≡ false)
        → GotAllBack made told now past }
{}
