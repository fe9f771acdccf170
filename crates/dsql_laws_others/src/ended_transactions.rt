//! What a call that ends a transaction on entry leaves of the other calls. A history is read newest first.
ghost use Rattle.std.specs.Prelude.{◌≡◌, ◌≢◌, ◌∷◌, ℕ, true, false, List, Some, None};
ghost use Rattle.dsql_laws_calls.specs.history.declared.record.Stand.TheVariants.{Replies};
ghost use Rattle.dsql_laws_calls.specs.history.declared.event.Event.{Event};
ghost use Rattle.dsql_laws_calls.specs.history.declared.event.Event.TheVariants.{Entered};
ghost use Rattle.dsql_laws_calls.specs.history.declared.event.Op.{Op};
ghost use Rattle.dsql_laws_calls.specs.history.declared.reply.Reply.TheVariants.{TxDone};
ghost use Rattle.dsql_laws_calls.specs.history.declared.work.Scope.TheVariants.{Held};
ghost use Rattle.dsql_laws_calls.specs.history.Readers.Calls.{decided, has_begun_to_send, reply_due};
ghost use Rattle.dsql_laws_calls.specs.history.Readers.HandedOut.{are_live};
ghost use Rattle.dsql_laws_calls.specs.history.Readers.Unfinished.{is_unfinished};
ghost use Rattle.dsql_laws_calls.specs.history.Readers.Works.{borrower, hands_out_in, scope, work};
ghost use Rattle.dsql_laws_calls.specs.history.Rules.Line.{due_for};
ghost use Rattle.dsql_laws_calls.specs.history.Rules.Settled.{calls_stand, calls_stand_but, uses_what_is_lent};
ghost use Rattle.dsql_laws_calls.specs.history.Rules.Stands.{stand};
ghost use Rattle.dsql_laws_calls.specs.history.Legal.{Lawful};
ghost use Rattle.dsql_laws_others.specs.Ends.{end_by, ends_now, ends_transaction};

/// If each call stood somewhere before a call that ends a transaction entered, each other call does so
/// afterwards. Lent connections are in use as before. What is due for each other call stays the same, unless
/// that call uses the connection of the transaction.
pub fn ending_a_transaction_leaves_each_call_somewhere()
    ensures others { (history : List Event) (client n : ℕ) (op : Op) → Lawful (Entered client n op ∷ history)
        → ends_transaction op ≡ true → calls_stand history ≡ true → calls_stand_but n (Entered client n op ∷ history)
        ≡ true }
    ensures used { (history : List Event) (client n : ℕ) (op : Op) → Lawful (Entered client n op ∷ history)
        → ends_transaction op ≡ true → uses_what_is_lent (Entered client n op ∷ history)
        ≡ uses_what_is_lent history }
    ensures due { (history : List Event) (client n m : ℕ) (op : Op) → Lawful (Entered client n op ∷ history)
        → ends_transaction op ≡ true → m ≢ n → ((k : ℕ) → ends_now history (Entered client n op) k ≡ true
        → borrower history m ≢ k) → due_for (Entered client n op ∷ history) m ≡ due_for history m }
{}

/// Another call in the transaction, which has sent nothing and settled nothing, is to reply how the transaction
/// ended, and stands where it replies. The rows of the transaction are over.
pub fn who_sent_nothing_is_told_of_the_end()
    ensures told { (history : List Event) (client n m k : ℕ) (op : Op) → Lawful (Entered client n op ∷ history)
        → ends_transaction op ≡ true → ends_now history (Entered client n op) k ≡ true → m ≢ n
        → is_unfinished history m ≡ true → scope (work history m) ≡ Held k → has_begun_to_send history m ≡ false
        → decided history m ≡ None → reply_due (Entered client n op ∷ history) m ≡ Some (TxDone (end_by op)) }
    ensures stands { (history : List Event) (client n m k : ℕ) (op : Op) → Lawful (Entered client n op ∷ history)
        → ends_transaction op ≡ true → ends_now history (Entered client n op) k ≡ true → m ≢ n
        → is_unfinished history m ≡ true → scope (work history m) ≡ Held k → has_begun_to_send history m ≡ false
        → decided history m ≡ None → stand (Entered client n op ∷ history) m ≡ Some Replies }
    ensures rows { (history : List Event) (client n j k : ℕ) (op : Op) → Lawful (Entered client n op ∷ history)
        → ends_transaction op ≡ true → ends_now history (Entered client n op) k ≡ true
        → hands_out_in k (work history j) ≡ true → are_live (Entered client n op ∷ history) j ≡ false }
{}
