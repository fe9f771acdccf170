//! What follows from the definitions of runs. Each law is the contract of a function that does nothing. A
//! history is read newest first.
ghost use Rattle.std.specs.Prelude.{◌≡◌, ◌⊎◌, ◌≤◌, ◌∷◌, ◌++◌, ◌||◌, [], ℕ, List, Option, Bool, true, false, Result, Ok, Err, length};
ghost use Rattle.dsql_hall.specs.driver.Streams.{HasRisen};
ghost use Rattle.dsql_hall.specs.driver.declared.caps.Caps.{Caps};
ghost use Rattle.dsql_hall.specs.history.declared.event.Event.{Event};
ghost use Rattle.dsql_hall.specs.history.declared.event.Event.TheVariants.{Run};
ghost use Rattle.dsql_hall.specs.follows.declared.line.Line.{Line};
ghost use Rattle.dsql_hall.specs.follows.Follows.{after};
ghost use Rattle.dsql_hall.specs.follows.Sentences.{Part};
ghost use Rattle.dsql_script_forms.specs.declared.fault.LineFault.{LineFault};
ghost use Rattle.dsql_script_show.specs.Report.{Shows, with_text};
ghost use Rattle.dsql_script_source.specs.Plays.{PlaysBy};
ghost use Rattle.dsql_script_source.specs.Script.{Said, SaysFirstBy};
ghost use Rattle.dsql_script_source.specs.Stops.{no_read_failed};
ghost use Rattle.dsql_script_source.specs.declared.stop.Stop.{Stop as Stopped};
ghost use Rattle.dsql_script_source.specs.declared.stop.Stop.TheVariants.{Read, Write, Refused, Full};
ghost use Rattle.dsql_hall.specs.player_wires.Extends.{Extends};
ghost use Rattle.dsql_hall.specs.player_wires.Made.{Made};
ghost use Rattle.dsql_hall.specs.player.Carried.{Carries, StopsInEnd, StopsInLine, part};
ghost use Rattle.dsql_hall.specs.player.Planned.{plans_made, plans_of};
ghost use Rattle.dsql_hall.specs.player.Playing.{Playing};
ghost use Rattle.dsql_run_outcome.specs.Followed.{FollowsAll, FollowsSoFar, StopsShort};
ghost use Rattle.dsql_hall.specs.player_wires.Stopped.{PlansAllOrNothing, Surplus};
ghost use Rattle.dsql_run_outcome.specs.Lent.{StopsPlanning};
ghost use Rattle.dsql_run_outcome.specs.Headline.{RunsAndTells, RunsWhole, Seen, SeenNotes, report};
ghost use Rattle.dsql_run_outcome.specs.Notes.{note_of, is_status, Tells};
ghost use Rattle.dsql_run_outcome.specs.Runs.{Finishes, IsLinesEnd, IsPlayStop, Writes, Wrote, is_cut, is_write_fault, no_write_failed, ran_out};

/// The status and the notes show what stopped a run.
pub fn a_status_tells_what_stopped()
    ensures done { (stopped : Result (Unit {0}) Stopped) (risen : Bool) (w now : Option (List ℕ))
        → Tells stopped risen w now 0 → (stopped ≡ Ok tt) × (now ≡ w) }
    ensures read { (stopped : Result (Unit {0}) Stopped) (risen : Bool) (w now : Option (List ℕ))
        → Tells stopped risen w now 3 → (stopped ≡ Err Read) × (now ≡ with_text w (note_of Read)) }
    ensures written { (stopped : Result (Unit {0}) Stopped) (risen : Bool) (w now : Option (List ℕ))
        → Tells stopped risen w now 4 → (stopped ≡ Err Write) ⊎ (risen ≡ true) }
    ensures refused { (stopped : Result (Unit {0}) Stopped) (risen : Bool) (w now : Option (List ℕ))
        → Tells stopped risen w now 7 →
        (number : ℕ) × (fault : LineFault) × (stopped ≡ Err (Refused number fault))
        × (now ≡ with_text w (note_of (Refused number fault))) }
    ensures full { (stopped : Result (Unit {0}) Stopped) (risen : Bool) (w now : Option (List ℕ))
        → Tells stopped risen w now 10 → stopped ≡ Err Full }
{}

/// A run with status 0 was played or raced whole. Each run has a known status, and the statuses 3 and 4 come from a
/// fault of a stream.
pub fn a_status_tells_what_was_done()
    ensures whole { (race : Bool) (before after : Seen) (one two : SeenNotes) (status : ℕ) → status ≡ 0
        → RunsAndTells race before after one two status → RunsWhole race report before after one two }
    ensures known { (race : Bool) (before after : Seen) (one two : SeenNotes) (status : ℕ)
        → RunsAndTells race before after one two status → is_status status ≡ true }
    ensures read_fault { (race : Bool) (before after : Seen) (one two : SeenNotes) (status : ℕ) → status ≡ 3
        → RunsAndTells race before after one two status → HasRisen before.read_faults after.read_faults }
    ensures write_fault { (race : Bool) (before after : Seen) (one two : SeenNotes) (status : ℕ) → status ≡ 4
        → RunsAndTells race before after one two status → HasRisen before.write_faults after.write_faults
        ⊎ HasRisen one.faults two.faults }
{}

/// A history that follows the lines so far also follows one more line that is carried out. If the run stops in
/// a line, between two lines or in the script's end, what came is whole steps. The same holds of a whole run.
/// If the run stops in a line, the fault of that line was planned, unless nothing came of the line.
pub fn lines_follow_one_after_another()
    ensures line { (run : Event) (lines : List Line) (parts : List Part) (line : Line) (old new : Playing)
        → FollowsSoFar run lines parts old.past → (c : Carries (after run parts) line old new)
        → FollowsSoFar run (lines ++ line ∷ []) (part line c.events ∷ parts) new.past }
    ensures stops { (run : Event) (lines : List Line) (parts : List Part) (line : Line) (old new : List Event)
        → FollowsSoFar run lines parts old → StopsInLine (after run parts) line old new
        → StopsShort run (lines ++ line ∷ []) new }
    ensures rests { (caps : Caps) (lines : List Line) (parts : List Part) (past : List Event)
        → FollowsSoFar (Run 1 caps) lines parts past → StopsShort (Run 1 caps) lines past }
    ensures ends { (run : Event) (lines : List Line) (parts : List Part) (old new : List Event)
        → FollowsSoFar run lines parts old → StopsInEnd (after run parts) old new → StopsShort run lines new }
    ensures all { (run : Event) (lines : List Line) (past : List Event) → FollowsAll run lines past
        → StopsShort run lines past }
    ensures plans { (run : Event) (lines : List Line) (parts : List Part) (line : Line) (old new : List Event)
        (surplus : Surplus) (planned : List Made) → FollowsSoFar run lines parts old
        → StopsInLine (after run parts) line old new → PlansAllOrNothing (plans_of line old) surplus planned old new
        → StopsPlanning run (lines ++ line ∷ []) new surplus (planned ++ plans_made run parts) }
{}

/// Whatever stopped a run, its script says first what the run has of it. This stays true however the run is
/// finished.
pub fn what_a_run_has_of_its_script()
    ensures first { (race : Bool) (r : Result (Unit {0}) Stopped) (left rest : Option (List ℕ)) (says : Said)
        → PlaysBy race r left rest says → SaysFirstBy race left says }
    ensures stopped { (race : Bool) (stop : Stopped) (left rest : Option (List ℕ)) (says : Said) → IsPlayStop stop
        → SaysFirstBy race left says
        → PlaysBy race (Err stop) left rest says }
    ensures finished { (race : Bool) (played ended final : Result (Unit {0}) Stopped) (bytes rest : Option (List ℕ))
        (says : Said) → (ran_out ended ≡ true → ended ≡ played) → Finishes ended final
        → PlaysBy race played bytes rest says → PlaysBy race final bytes rest says }
{}

/// What was written of a run that is finished, and which streams didn't fail.
pub fn what_was_written_and_read()
    ensures cut { (played ended : Result (Unit {0}) Stopped) (w now : Option (List ℕ)) (n : ℕ) (past : List Event)
        (risen : Bool) → (ran_out ended ≡ true → ended ≡ played) → is_cut played ended ≡ true
        → Wrote played w n past now → Writes ended (is_write_fault played || risen) w past now }
    ensures shown { (played ended final : Result (Unit {0}) Stopped) (w mid : Option (List ℕ)) (n : ℕ)
        (rest past : List Event)
        → (ran_out ended ≡ true → ended ≡ played) → Finishes ended final → final ≡ Err Write
        → is_write_fault played ≡ false → Extends rest past → n ≤ length rest → Wrote played w n rest mid
        → Shows w n past mid }
    ensures read { (played ended final : Result (Unit {0}) Stopped) → (ran_out ended ≡ true → ended ≡ played)
        → Finishes ended final → no_read_failed final ≡ true → no_read_failed played ≡ true }
    ensures written { (played ended final : Result (Unit {0}) Stopped) → (ran_out ended ≡ true → ended ≡ played)
        → Finishes ended final → no_write_failed final ≡ true → no_write_failed played ≡ true }
{}

/// No stop of a line is an end of the lines.
pub fn no_line_that_stops_ends_the_script()
    ensures { (stop : Stopped) → IsPlayStop stop → IsLinesEnd (Err stop) → ⊥ }
{}
