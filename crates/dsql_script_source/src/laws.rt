//! What follows from the definitions of reading. Each law is the contract of a function that does nothing.
ghost use Rattle.std.specs.Prelude.{Bool, ℕ, List, Option};
ghost use Rattle.dsql_script_source.specs.Script.{Said, script_by, BeginsSaying, SaysFirstBy};
ghost use Rattle.dsql_script_source.specs.Plays.{ReadsUpToBy};
ghost use Rattle.dsql_script_source.specs.Position.{Position};
ghost use Rattle.dsql_script_source.specs.Reading.{HasReadBy};

/// A script begins with what its lines that were read whole say.
pub fn lines_read_whole_come_first()
    ensures { (race : Bool) (bytes : List ℕ) (after : Option (List ℕ)) (says : Said)
        → ReadsUpToBy race bytes after says → BeginsSaying says (script_by race bytes).says }
{}

/// A script begins with what its lines that were read so far say, wherever a reader stands.
pub fn lines_read_so_far_come_first()
    ensures { (race : Bool) (before : Option (List ℕ)) (reader : Position) (left : Option (List ℕ)) (says : Said)
        → HasReadBy race before reader left says → SaysFirstBy race before says }
{}
