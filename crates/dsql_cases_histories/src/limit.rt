//! How many connections may be open, whatever the history. The function does nothing: its contract is the
//! statement.
ghost use Rattle.std.specs.Prelude.{◌≡◌, ◌≤◌, ◌<◌, ℕ, true, List};
ghost use Rattle.dsql_history.specs.pool.declared.moves.Move.TheVariants.{OpenStart};
ghost use Rattle.dsql_history.specs.pool.Pooled.{most_allowed, open_count, most_open};
ghost use Rattle.dsql_history.specs.declared.event.Event.{Event};
ghost use Rattle.dsql_history.specs.declared.event.Event.TheVariants.{Pool};
ghost use Rattle.dsql_history.specs.Readers.Pool.{pool};
ghost use Rattle.dsql_history.specs.Rules.Limit.{keeps_limit};
ghost use Rattle.dsql_history.specs.Legal.{Allowed};

/// States that the limit permits an opening exactly if fewer connections are open than it allows, whatever the
/// history before. The limit never allows more than `most_open` connections.
pub fn openings_up_to_the_limit_may_start()
    ensures most { (before : List Event) → most_allowed (pool before) ≤ most_open }
    ensures full { (before : List Event) (c n : ℕ) → most_allowed (pool before) ≤ open_count (pool before)
        → Allowed before (Pool (OpenStart c n)) → ⊥ }
    ensures below { (before : List Event) (c n : ℕ) → open_count (pool before) < most_allowed (pool before)
        → keeps_limit before (Pool (OpenStart c n)) ≡ true }
{}
