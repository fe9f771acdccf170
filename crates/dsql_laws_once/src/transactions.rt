//! What a server may have carried out for transactions. A history is read newest first.
ghost use Rattle.std.specs.Prelude.{◌≡◌, ◌≤◌, ℕ, true, reverse, List, ◌∷◌};
ghost use Rattle.dsql_laws_calls.specs.driver.Kinds.{is_begin, is_ending};
ghost use Rattle.dsql_laws_calls.specs.journal.declared.entry.Entry.{Entry};
ghost use Rattle.dsql_laws_calls.specs.journal.Kinds.{number_of};
ghost use Rattle.dsql_laws_calls.specs.history.Legal.{Lawful};
ghost use Rattle.dsql_laws_calls.specs.history.declared.event.Event.{Event};
ghost use Rattle.dsql_laws_calls.specs.history.declared.event.Event.TheVariants.{Heard};
ghost use Rattle.dsql_cases_histories.specs.Damaged.{a_commit_is_sent_twice};
ghost use Rattle.dsql_cases_histories.specs.Ended.{it_is_ended_once, the_end_of_the_run_rolls_back};
ghost use Rattle.dsql_cases_histories.specs.Kept.{a_begin_is_tried_again};
ghost use Rattle.dsql_laws_once.specs.Transactions.{begun_by, endings};

/// A `Begin` that a server may have carried out is never sent again. After a call's `Begin` is answered
/// otherwise than that its connection is bad, the call sends no other one. So at most one is answered so,
/// however often the call is tried.
pub fn a_transaction_is_begun_once()
    ensures once { (history : List Event) (n : ℕ) → Lawful history → begun_by history n ≤ 1 }
    ensures again { (history : List Event) (e : Entry) → Lawful (Heard e ∷ history) → is_begin e.call ≡ true
        → begun_by history e.call_no ≡ 0 }
{}

/// At most one `Commit` or `Rollback` is sent for a transaction, whatever its answer. This holds whether the
/// call that ended the transaction or the layer sends it.
pub fn a_transaction_is_ended_once()
    ensures once { (history : List Event) (k : ℕ) → Lawful history → endings history k ≤ 1 }
    ensures again { (history : List Event) (e : Entry) → Lawful (Heard e ∷ history) → is_ending e.call ≡ true
        → endings history (number_of e.owner) ≡ 0 }
{}

/// States the counts of worked histories. A begin that found its first connection bad has begun once, and a
/// transaction that a call or the layer ended was ended once. A history that counts two is refused.
pub fn worked_transactions()
    ensures begun { begun_by (reverse a_begin_is_tried_again) 1 ≡ 1 }
    ensures committed { endings (reverse it_is_ended_once) 1 ≡ 1 }
    ensures rolled_back { endings (reverse the_end_of_the_run_rolls_back) 1 ≡ 1 }
    ensures committed_twice { endings (reverse a_commit_is_sent_twice) 1 ≡ 2 }
{}
