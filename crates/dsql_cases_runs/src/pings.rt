//! Runs in which pings rest with their connections: one follows its script, the others stray. The functions do
//! nothing: their contracts are the examples.
ghost use Rattle.std.specs.Prelude.{◌≡◌, true};
ghost use Rattle.dsql_history.specs.Computed.{is_legal};
ghost use Rattle.dsql_follows.specs.Sentences.{makes_whole_steps, steps_once, tidies_once};
ghost use Rattle.dsql_follows.specs.Follows.{follows, history};
ghost use Rattle.dsql_cases_runs.specs.CallEdits.{once_read, parts_found, strays_at};
ghost use Rattle.dsql_cases_runs.specs.Pings.{pings_rest, gives_back_in_the_step_of_the_layer, rests_a_step_longer, gives_back_for_another, rests_where_it_asked};

/// States that this run follows its script and that its history is legal. A ping that another's step lends a
/// connection rests with it until a step of its own. A ping that is lent a connection when it asks gives it
/// back at once.
pub fn runs_in_which_pings_rest()
    ensures pings_rest { follows pings_rest ≡ true }
    ensures legal { is_legal (history pings_rest) ≡ true }
    ensures found { parts_found pings_rest ≡ pings_rest }
{}

/// States where these runs stray. A ping rests too long, or gives its connection back in another step.
pub fn runs_of_pings_that_stray()
    ensures gives_back_in_the_step_of_the_layer { strays_at 4 tidies_once gives_back_in_the_step_of_the_layer ≡ true }
    ensures rests_a_step_longer { strays_at 5 steps_once rests_a_step_longer ≡ true }
    ensures gives_back_for_another { strays_at 5 steps_once gives_back_for_another ≡ true }
    ensures rests_where_it_asked { strays_at 7 (once_read makes_whole_steps) rests_where_it_asked ≡ true }
{}
