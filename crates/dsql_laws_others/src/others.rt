//! Events that touch no other call. A history is read newest first.
ghost use Rattle.std.specs.Prelude.{◌≡◌, ◌≢◌, ◌∷◌, ℕ, true, List, Some};
ghost use Rattle.dsql_laws_calls.specs.pool.declared.moves.Move.TheVariants.{CloseStart, OpenStart};
ghost use Rattle.dsql_laws_calls.specs.pool.declared.conn.Place.TheVariants.{Idle};
ghost use Rattle.dsql_laws_calls.specs.pool.declared.moves.CloseCause.{CloseCause};
ghost use Rattle.dsql_laws_calls.specs.history.declared.event.Control.{Control};
ghost use Rattle.dsql_laws_calls.specs.history.declared.event.Event.{Event};
ghost use Rattle.dsql_laws_calls.specs.history.declared.event.Event.TheVariants.{Entered, Pool, Replied, Waits};
ghost use Rattle.dsql_laws_calls.specs.history.declared.event.Op.{Op};
ghost use Rattle.dsql_laws_calls.specs.history.declared.reply.Reply.{Reply};
ghost use Rattle.dsql_laws_calls.specs.history.Readers.Controls.{told};
ghost use Rattle.dsql_laws_calls.specs.history.Readers.Owed.{owed};
ghost use Rattle.dsql_laws_calls.specs.history.Readers.Pool.{place};
ghost use Rattle.dsql_laws_calls.specs.history.Rules.Line.{due_for};
ghost use Rattle.dsql_laws_calls.specs.history.Rules.Replies.{gave_back};
ghost use Rattle.dsql_laws_calls.specs.history.Rules.Settled.{calls_stand, calls_stand_but, uses_what_is_lent};
ghost use Rattle.dsql_laws_calls.specs.history.Legal.{Lawful};
ghost use Rattle.dsql_laws_calls.specs.laws.OwedMade.{with_moves};
ghost use Rattle.dsql_laws_others.specs.Entries.{is_plain};

/// A reply leaves what is due for each other call. Lent connections are in use as before if the call rests with
/// none. If each other call stood somewhere before, each call does so afterwards.
pub fn a_reply_touches_no_other_call()
    ensures due { (history : List Event) (n m : ℕ) (reply : Reply) → m ≢ n → due_for (Replied n reply ∷ history) m
        ≡ due_for history m }
    ensures used { (history : List Event) (n : ℕ) (reply : Reply) → gave_back history n ≡ true
        → uses_what_is_lent (Replied n reply ∷ history) ≡ uses_what_is_lent history }
    ensures others { (history : List Event) (n : ℕ) (reply : Reply) → calls_stand_but n history ≡ true
        → calls_stand (Replied n reply ∷ history) ≡ true }
{}

/// A wait leaves what is due for each call, and lent connections are in use as before. If each other call stood
/// somewhere before, each call does so afterwards.
pub fn a_wait_touches_no_other_call()
    ensures due { (history : List Event) (n m : ℕ) → due_for (Waits n ∷ history) m ≡ due_for history m }
    ensures used { (history : List Event) (n : ℕ) → uses_what_is_lent (Waits n ∷ history) ≡ uses_what_is_lent history }
    ensures others { (history : List Event) (n : ℕ) → calls_stand_but n history ≡ true → calls_stand (Waits n ∷ history)
        ≡ true }
{}

/// A moment or a limit, with the moves that it makes due, leaves what is due for each call and which
/// connections are in use. Each call that stood somewhere still does.
pub fn a_control_touches_no_call()
    ensures due { (history : List Event) (control : Control) (m : ℕ) → Lawful (told control ∷ history)
        → due_for (with_moves (owed (told control ∷ history)) (told control ∷ history)) m ≡ due_for history m }
    ensures used { (history : List Event) (control : Control) → Lawful (told control ∷ history)
        → uses_what_is_lent (with_moves (owed (told control ∷ history)) (told control ∷ history))
        ≡ uses_what_is_lent history }
    ensures others { (history : List Event) (control : Control) (n : ℕ) → Lawful (told control ∷ history)
        → calls_stand_but n history ≡ true
        → calls_stand_but n (with_moves (owed (told control ∷ history)) (told control ∷ history)) ≡ true }
{}

/// The beginning of an opening leaves what is due for each call, and lent connections are in use as before. If
/// each call except the one that it is for stood somewhere before, each call does so afterwards.
pub fn an_opening_touches_no_other_call()
    ensures due { (history : List Event) (c n m : ℕ) → due_for (Pool (OpenStart c n) ∷ history) m ≡ due_for history m }
    ensures used { (history : List Event) (c n : ℕ) → uses_what_is_lent (Pool (OpenStart c n) ∷ history)
        ≡ uses_what_is_lent history }
    ensures others { (history : List Event) (c n : ℕ) → Lawful history → calls_stand_but n history ≡ true
        → calls_stand (Pool (OpenStart c n) ∷ history) ≡ true }
{}

/// An idle connection that begins to close leaves what is due for each call and which connections are in use.
/// Each call that stood somewhere still does.
pub fn an_idle_closing_touches_no_call()
    ensures due { (history : List Event) (c m : ℕ) (cause : CloseCause) → place history c ≡ Some Idle
        → due_for (Pool (CloseStart c cause) ∷ history) m ≡ due_for history m }
    ensures used { (history : List Event) (c : ℕ) (cause : CloseCause) → place history c ≡ Some Idle
        → uses_what_is_lent (Pool (CloseStart c cause) ∷ history) ≡ uses_what_is_lent history }
    ensures others { (history : List Event) (c n : ℕ) (cause : CloseCause) → place history c ≡ Some Idle
        → calls_stand_but n history
        ≡ true → calls_stand_but n (Pool (CloseStart c cause) ∷ history) ≡ true }
{}

/// A call that enters leaves what is due for each other call and which connections are in use. Each other call
/// that stood somewhere still does. Not covered is a call that closes rows or the database, or ends a
/// transaction.
pub fn an_entry_touches_no_other_call()
    ensures due { (history : List Event) (client n m : ℕ) (op : Op) → Lawful (Entered client n op ∷ history)
        → is_plain op ≡ true → m ≢ n → due_for (Entered client n op ∷ history) m ≡ due_for history m }
    ensures used { (history : List Event) (client n : ℕ) (op : Op) → Lawful (Entered client n op ∷ history)
        → is_plain op ≡ true → uses_what_is_lent (Entered client n op ∷ history) ≡ uses_what_is_lent history }
    ensures others { (history : List Event) (client n : ℕ) (op : Op) → Lawful (Entered client n op ∷ history)
        → is_plain op ≡ true → calls_stand_but n history ≡ true → calls_stand_but n (Entered client n op ∷ history)
        ≡ true }
{}
