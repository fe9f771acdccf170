//! Laws of runs and their scripts. Each law is the contract of a function that does nothing.
ghost use Rattle.std.specs.Prelude.{◌≡◌, ◌↔◌, ◌++◌, true, List};
ghost use Rattle.dsql_history.specs.declared.event.Event.{Event};
ghost use Rattle.dsql_follows.specs.Moments.{Moment, walk};
ghost use Rattle.dsql_follows.specs.Sentences.{Part};
ghost use Rattle.dsql_follows.specs.Follows.{Played, FollowsLine, FollowsEnd, Follows, script, history, follows_line, follows_end, follows};

/// The sentences are computed: each test is true exactly if what it tests holds.
pub fn sentences_are_computed()
    ensures line { (m : Moment) (part : Part) → (follows_line m part ≡ true) ↔ FollowsLine m part }
    ensures end { (m : Moment) (events : List Event) → (follows_end m events ≡ true) ↔ FollowsEnd m events }
    ensures run { (it : Played) → (follows it ≡ true) ↔ Follows it }
{}

/// A walk over events can be made in two stages: the second starts at the moment to which the first leads. A
/// list is newest first.
pub fn a_walk_goes_on()
    ensures now { (m : Moment) (newer older : List Event) → (walk m (newer ++ older)).now
        ≡ (walk (walk m older).now newer).now }
    ensures passed { (m : Moment) (newer older : List Event) → (walk m (newer ++ older)).passed
        ≡ (walk (walk m older).now newer).passed ++ (walk m older).passed }
{}

/// Two runs that follow are the same if their scripts and histories are. The events before a line settle its
/// part.
pub fn a_history_follows_in_one_way()
    ensures { (a b : Played) → Follows a → Follows b → script a ≡ script b → history a ≡ history b → a ≡ b }
{}
