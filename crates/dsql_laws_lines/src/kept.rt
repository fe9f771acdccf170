//! Kept lines and held calls.
ghost use Rattle.std.specs.Prelude.{◌≡◌, ◌≢◌, ◌≤◌, ◌++◌, ◌&&◌, [], ◌∷◌, ℕ, Bool, true, false, not, cond, List};
ghost use Rattle.dsql_laws_calls.specs.history.declared.event.Event.{Event};
ghost use Rattle.dsql_laws_calls.specs.history.declared.event.Event.TheVariants.{Entered};
ghost use Rattle.dsql_laws_calls.specs.history.declared.event.Op.{Op};
ghost use Rattle.dsql_laws_calls.specs.history.Legal.{Lawful};
ghost use Rattle.dsql_laws_calls.specs.history.Readers.Clients.{is_free, made_by};
ghost use Rattle.dsql_follows.specs.declared.line.Line.{Line};
ghost use Rattle.dsql_follows.specs.declared.line.Line.TheVariants.{Client, Start};
ghost use Rattle.dsql_follows.specs.Moments.{Moment, at_end, is_held, is_line_of, is_start, kept, met, takes_permit};
ghost use Rattle.dsql_follows.specs.Sentences.{enters_now, may_enter};
ghost use Rattle.dsql_laws_steps.specs.Steps.{goes_by_itself, stepped};
ghost use Rattle.dsql_laws_steps.specs.Groups.{IsGroup};
ghost use Rattle.dsql_laws_lines.specs.Entries.{is_entry};
ghost use Rattle.dsql_laws_lines.specs.Running.{AllMade};

/// A line that is read is kept after the other kept lines of its client. It is kept alone if its client would
/// enter it at once. Each client still has at least as many lines as it has made calls.
pub fn a_line_is_kept()
    ensures made { (m : Moment) (line : Line) → AllMade m → AllMade (met line m) }
    ensures behind { (m : Moment) (line : Line) (client : ℕ) → AllMade m → is_line_of client line ≡ true
        → kept (met line m) client ≡ kept m client ++ line ∷ [] }
    ensures alone { (m : Moment) (line : Line) (client : ℕ) → AllMade m → is_line_of client line ≡ true
        → enters_now m client ≡ true → kept (met line m) client ≡ line ∷ [] }
    ensures others { (m : Moment) (line : Line) (client : ℕ) → is_line_of client line ≡ false → kept (met line m) client
        ≡ kept m client }
{}

/// Reading a line doesn't change whether a call is held, if its client has made a call or the line isn't its
/// client's. So it changes nothing for a client that isn't free.
pub fn a_line_holds_no_earlier_call()
    ensures made { (m : Moment) (line : Line) (client : ℕ) → AllMade m → 1 ≤ made_by m.past client
        → is_held (met line m) client ≡ is_held m client }
    ensures busy { (m : Moment) (line : Line) (client : ℕ) → AllMade m → Lawful m.past → is_free m.past client ≡ false
        → is_held (met line m) client ≡ is_held m client }
    ensures others { (m : Moment) (line : Line) (client : ℕ) → is_line_of client line ≡ false
        → is_held (met line m) client
        ≡ is_held m client }
{}

/// A step in which no call enters changes neither the kept lines nor the held calls.
pub fn a_step_keeps_lines()
    ensures kept { (m : Moment) (first : Event) (n : ℕ) (events : List Event) (client : ℕ) → IsGroup first n events
        → is_entry first ≡ false → kept (stepped m first n events) client ≡ kept m client }
    ensures held { (m : Moment) (first : Event) (n : ℕ) (events : List Event) (client : ℕ) → IsGroup first n events
        → is_entry first ≡ false → is_held (stepped m first n events) client ≡ is_held m client }
    ensures made { (m : Moment) (first : Event) (n : ℕ) (events : List Event) → IsGroup first n events
        → is_entry first ≡ false → AllMade m → AllMade (stepped m first n events) }
    ensures itself { (n : ℕ) (first : Event) → goes_by_itself n first ≡ true → is_entry first ≡ false }
{}

/// A call that enters takes its client's first kept line, and is held if that line holds it and the script
/// isn't at its end. The other clients' lines and calls stay as they are.
pub fn an_entry_takes_a_line()
    ensures kept { (m : Moment) (client n : ℕ) (op : Op) (events : List Event) (line : Line) (rest : List Line)
        → IsGroup (Entered client n op) n events → kept m client ≡ line ∷ rest
        → kept (stepped m (Entered client n op) n events) client ≡ rest }
    ensures held { (m : Moment) (client n : ℕ) (op : Op) (events : List Event) (line : Line) (rest : List Line)
        → IsGroup (Entered client n op) n events → kept m client ≡ line ∷ rest
        → is_held (stepped m (Entered client n op) n events) client ≡ (not m.released && is_start line) }
    ensures made { (m : Moment) (client n : ℕ) (op : Op) (events : List Event) (line : Line) (rest : List Line)
        → IsGroup (Entered client n op) n events → kept m client ≡ line ∷ rest → AllMade m
        → AllMade (stepped m (Entered client n op) n events) }
    ensures kept_by_others { (m : Moment) (client n : ℕ) (op : Op) (events : List Event) (other : ℕ)
        → IsGroup (Entered client n op) n events → other ≢ client
        → kept (stepped m (Entered client n op) n events) other ≡ kept m other }
    ensures held_others { (m : Moment) (client n : ℕ) (op : Op) (events : List Event) (other : ℕ)
        → IsGroup (Entered client n op) n events → other ≢ client
        → is_held (stepped m (Entered client n op) n events) other ≡ is_held m other }
{}

/// A free client may enter its first kept line, whether that line holds its call or not.
pub fn a_kept_line_may_enter()
    ensures call { (m : Moment) (client n : ℕ) (op : Op) (rest : List Line) → is_free m.past client ≡ true
        → kept m client ≡ Client client op ∷ rest → may_enter m (Entered client n op) ≡ true }
    ensures start { (m : Moment) (client n : ℕ) (op : Op) (rest : List Line) → is_free m.past client ≡ true
        → kept m client ≡ Start client op ∷ rest → may_enter m (Entered client n op) ≡ true }
    ensures either { (m : Moment) (client n : ℕ) (op : Op) (holds : Bool) (rest : List Line)
        → is_free m.past client ≡ true
        → kept m client ≡ cond holds (Start client op) (Client client op) ∷ rest
        → may_enter m (Entered client n op) ≡ true }
{}

/// The script's end leaves the kept lines and releases all held calls.
pub fn the_end_holds_no_call()
    ensures kept { (m : Moment) (client : ℕ) → kept (at_end m) client ≡ kept m client }
    ensures held { (m : Moment) (client : ℕ) → is_held (at_end m) client ≡ false }
    ensures made { (m : Moment) → AllMade m → AllMade (at_end m) }
{}

/// Taking a permit changes neither the kept lines nor the held calls.
pub fn a_permit_keeps_lines()
    ensures kept { (m : Moment) (n client : ℕ) → kept (takes_permit n m) client ≡ kept m client }
    ensures held { (m : Moment) (n client : ℕ) → is_held (takes_permit n m) client ≡ is_held m client }
    ensures made { (m : Moment) (n : ℕ) → AllMade m → AllMade (takes_permit n m) }
{}
