//! Laws of a race, in which steps of different clients follow each other in any order. A history is read newest first.
ghost use Rattle.std.specs.Prelude.{◌≡◌, ◌∷◌, ◌++◌, [], ℕ, Bool, true, false, List, reverse};
ghost use Rattle.dsql_engine_laws.specs.history.declared.event.Event.{Event};
ghost use Rattle.dsql_engine_laws.specs.history.declared.event.Control.{Control};
ghost use Rattle.dsql_engine_laws.specs.history.Readers.Clients.{made_by};
ghost use Rattle.dsql_engine_laws.specs.history.Legal.{Lawful};
ghost use Rattle.dsql_engine_laws.specs.follows.declared.line.Line.{Line};
ghost use Rattle.dsql_engine_laws.specs.follows.Moments.{Moment, lines_of, met};
ghost use Rattle.dsql_player_wires.specs.Seats.{seat};
ghost use Rattle.dsql_player.specs.Carried.{CarriesEnd, StopsInEnd};
ghost use Rattle.dsql_player.specs.Playing.{IsAt, Playing, lines_kept};
ghost use Rattle.dsql_player.specs.Stepping.{IsTold, TakesStep, Wakes};
ghost use Rattle.dsql_hall_steps.specs.Racing.{IsAnyStep, Races, RacesAll, resting};

/// A run that has just begun is the beginning of a race, and limits may be set in it before its lines are kept. A
/// player that has read all lines and has released the held calls stands at the resting moment. One more line may be
/// kept.
pub fn a_race_begins()
    ensures first { (run : Event) (lines : List Line) → Races run lines (run ∷ []) }
    ensures told { (run : Event) (lines : List Line) (m : Moment) (before after : Playing) (control : Control)
        → TakesStep m before after (IsTold before.past control)
        → Races run lines before.past → Races run lines after.past }
    ensures rests { (lines : List Line) (m : Moment) (p : Playing) → IsAt m p → m.lines ≡ reverse lines
        → m.released ≡ true → Lawful p.past → IsAt (resting lines p) p }
    ensures keeps { (lines : List Line) (line : Line) (before after : Playing) → IsAt (resting lines before) before
        → ((m : Moment) → IsAt m before → IsAt (met line m) after) → Lawful after.past
        → IsAt (resting (lines ++ line ∷ []) after) after }
    ensures kept { (lines : List Line) (p : Playing) → Lawful p.past → p.released ≡ true
        → ((client : ℕ) → made_by p.past client ≡ 0)
        → ((client : ℕ) → lines_of (reverse lines) client ≡ lines_kept client (seat p.seats client).kept)
        → ((client : ℕ) → (seat p.seats client).held ≡ false) → IsAt (resting lines p) p }
{}

/// After each step of a race the player stands at the resting moment, and the entries stay in the order of the lines.
/// The same holds if a woken call only takes a permit.
pub fn a_race_goes_on()
    ensures rests { (lines : List Line) (before after : Playing)
        → TakesStep (resting lines before) before after IsAnyStep → Lawful after.past
        → IsAt (resting lines after) after }
    ensures races { (run : Event) (lines : List Line) (before after : Playing) → Races run lines before.past
        → TakesStep (resting lines before) before after IsAnyStep → Races run lines after.past }
    ensures wakes { (shows : Bool) (lines : List Line) (n : ℕ) (before after : Playing)
        → Wakes shows (resting lines before) n before after → Lawful after.past → IsAt (resting lines after) after }
    ensures woken { (shows : Bool) (run : Event) (lines : List Line) (n : ℕ) (before after : Playing)
        → Races run lines before.past → Wakes shows (resting lines before) n before after
        → Races run lines after.past }
{}

/// After the end of the script every line was entered in its order, and each call has its reply. If the end couldn't be
/// carried out, the entries are in the order of the lines all the same.
pub fn a_race_ends()
    ensures carried { (run : Event) (lines : List Line) (p : Playing) (after : List Event) → Races run lines p.past
        → CarriesEnd (resting lines p) p.past after → RacesAll run lines after }
    ensures stopped { (run : Event) (lines : List Line) (p : Playing) (after : List Event) → Races run lines p.past
        → StopsInEnd (resting lines p) p.past after → Races run lines after }
{}
