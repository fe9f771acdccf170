//! Bounds on how many connections are open and idle, and on how many moves one event makes due. A history lists
//! its events newest first.
ghost use Rattle.std.specs.Prelude.{◌≡◌, ◌≤◌, ◌∷◌, ℕ, true, List, length};
ghost use Rattle.dsql_laws.specs.pool.Pooled.{most_open, open_count};
ghost use Rattle.dsql_laws_calls.specs.Bounds.{most_moves, most_given_back};
ghost use Rattle.dsql_laws.specs.history.declared.event.Event.{Event};
ghost use Rattle.dsql_laws.specs.history.Readers.Owed.{given_back, owed};
ghost use Rattle.dsql_laws.specs.history.Readers.Pool.{pool};
ghost use Rattle.dsql_laws.specs.history.Rules.Settled.{owes_nothing};
ghost use Rattle.dsql_laws.specs.history.Legal.{Lawful};

/// At most a thousand connections are open. If the pool owes no move, at most as many connections are idle as
/// are open.
pub fn few_are_open()
    ensures open { (history : List Event) → Lawful history → open_count (pool history) ≤ most_open }
    ensures idle { (history : List Event) → Lawful history → owes_nothing history ≡ true → length (pool history).idle
        ≤ open_count (pool history) }
{}

/// If the pool owes no move, any event makes at most `most_moves` moves due, so the pool never owes more. A
/// connection that is given back makes at most two moves due.
pub fn few_moves_are_owed()
    ensures next { (history : List Event) (e : Event) → Lawful history → owes_nothing history ≡ true
        → length (owed (e ∷ history)) ≤ most_moves }
    ensures now { (history : List Event) → Lawful history → length (owed history) ≤ most_moves }
    ensures given_back { (history : List Event) (conn : ℕ) → length (given_back history conn) ≤ most_given_back }
{}
