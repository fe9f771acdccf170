//! Clients and their calls, step by step. A history is read newest first.
ghost use Rattle.std.specs.Prelude.{◌≡◌, ◌≢◌, ◌↔◌, ◌<◌, ◌+◌, ◌==◌, ◌∷◌, ◌++◌, ℕ, true, false, not, cond, List};
ghost use Rattle.dsql_laws_calls.specs.history.declared.event.Event.{Event};
ghost use Rattle.dsql_laws_calls.specs.history.declared.event.Event.TheVariants.{Entered};
ghost use Rattle.dsql_laws_calls.specs.history.declared.event.Op.{Op};
ghost use Rattle.dsql_laws_calls.specs.history.Readers.Calls.{is_busy, next_call};
ghost use Rattle.dsql_laws_calls.specs.history.Readers.Clients.{call_of, client_of, is_free, made_by};
ghost use Rattle.dsql_laws_calls.specs.history.Readers.Course.{has_ended};
ghost use Rattle.dsql_laws_calls.specs.history.Readers.Unfinished.{is_unfinished};
ghost use Rattle.dsql_laws_calls.specs.history.Legal.{Lawful};
ghost use Rattle.dsql_laws_ends.specs.Steps.{begins_step_of, IsStep};

/// A client is busy exactly if it has an unfinished call, which is its own. It is free exactly if it isn't
/// busy.
pub fn a_busy_client_has_a_call()
    ensures busy { (past : List Event) (client : ℕ) → Lawful past → (is_busy client past ≡ true)
        ↔ ((call_of past client == 0) ≡ false) }
    ensures unfinished { (past : List Event) (client : ℕ) → is_busy client past ≡ true
        → is_unfinished past (call_of past client) ≡ true }
    ensures own { (past : List Event) (client : ℕ) → is_busy client past ≡ true
        → client_of past (call_of past client) ≡ client }
    ensures free { (past : List Event) (client : ℕ) → Lawful past → is_free past client ≡ not (is_busy client past) }
{}

/// A client has at most one unfinished call.
pub fn a_client_has_one_call()
    ensures { (past : List Event) (n : ℕ) → Lawful past → is_unfinished past n ≡ true
        → call_of past (client_of past n) ≡ n }
{}

/// A call that has entered keeps its client, whatever follows. Each unfinished call has entered, so it does
/// too.
pub fn a_call_keeps_its_client()
    ensures keeps { (past events : List Event) (n : ℕ) → n < next_call past → client_of (events ++ past) n
        ≡ client_of past n }
    ensures entered { (past : List Event) (n : ℕ) → Lawful past → is_unfinished past n ≡ true → n < next_call past }
{}

/// A step of a call in which no call enters leaves every other client its call, and leaves how many calls each
/// client has made. The call stays its client's call until it has its reply; then that client has none. The
/// step ends the run exactly if its first event does.
pub fn a_step_touches_no_other_client()
    ensures others { (past events : List Event) (first : Event) (n client : ℕ) → IsStep past events first n
        → begins_step_of n first ≡ true → call_of past client ≢ n → call_of (events ++ past) client
        ≡ call_of past client }
    ensures its { (past events : List Event) (first : Event) (n : ℕ) → IsStep past events first n
        → begins_step_of n first
        ≡ true → is_unfinished past n ≡ true → call_of (events ++ past) (client_of past n)
        ≡ cond (is_unfinished (events ++ past) n) n 0 }
    ensures made { (past events : List Event) (first : Event) (n client : ℕ) → IsStep past events first n
        → begins_step_of n first ≡ true → made_by (events ++ past) client ≡ made_by past client }
    ensures ended { (past events : List Event) (first : Event) (n : ℕ) → IsStep past events first n
        → has_ended (events ++ past) ≡ has_ended (first ∷ past) }
{}

/// A step in which a call enters leaves every other client its call, and how many calls it has made. Its own
/// client has made one more. That client has this call until the call has its reply.
pub fn an_entry_touches_no_other_client()
    ensures others { (past events : List Event) (client n other : ℕ) (op : Op)
        → IsStep past events (Entered client n op) n
        → other ≢ client → call_of (events ++ past) other ≡ call_of past other }
    ensures its { (past events : List Event) (client n : ℕ) (op : Op) → IsStep past events (Entered client n op) n
        → call_of (events ++ past) client ≡ cond (is_unfinished (events ++ past) n) n 0 }
    ensures client { (past events : List Event) (client n : ℕ) (op : Op) → IsStep past events (Entered client n op) n
        → client_of (events ++ past) n ≡ client }
    ensures made { (past events : List Event) (client n : ℕ) (op : Op) → IsStep past events (Entered client n op) n
        → made_by (events ++ past) client ≡ made_by past client + 1 }
    ensures made_by_others { (past events : List Event) (client n other : ℕ) (op : Op)
        → IsStep past events (Entered client n op) n
        → other ≢ client → made_by (events ++ past) other ≡ made_by past other }
    ensures ended { (past events : List Event) (client n : ℕ) (op : Op) → IsStep past events (Entered client n op) n
        → has_ended (events ++ past) ≡ has_ended past }
{}
