//! Where calls in transactions have sent their driver calls, in lawful histories. A history is read newest
//! first.
ghost use Rattle.std.specs.Prelude.{◌≡◌, ◌≢◌, ◌==◌, ◌&&◌, ℕ, true, not, List};
ghost use Rattle.dsql_laws_calls.specs.history.declared.event.Event.{Event};
ghost use Rattle.dsql_laws_calls.specs.history.Readers.Calls.{has_begun_to_send, site};
ghost use Rattle.dsql_laws_calls.specs.history.Legal.{Lawful};
ghost use Rattle.dsql_engine_lines.specs.Inside.{works_inside};
ghost use Rattle.dsql_engine_lines.specs.Sent.{sent_on};

/// A call that works in a transaction runs a text there, works over its rows, or ends it. Such a call has sent
/// something on the connection that it uses exactly if it sent its newest driver call there. All that it sent
/// is on one connection, that of its transaction.
pub fn what_a_call_has_sent()
    ensures { (history : List Event) (n : ℕ) → Lawful history → n ≢ 0 → works_inside history n ≡ true
        → has_begun_to_send history n ≡ (not (site history n == 0) && (sent_on history n == site history n)) }
{}
