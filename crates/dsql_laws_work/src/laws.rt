//! Laws of a call's tenure. Each is the contract of a function that does nothing.
ghost use Rattle.std.specs.Prelude.{◌≡◌, ◌∷◌, Bool, false, true, List, Option, Some, option_map};
ghost use Rattle.dsql_history_work.specs.course.declared.course.Wish.{Wish};
ghost use Rattle.dsql_history_work.specs.driver.declared.call.DriverCall.{DriverCall};
ghost use Rattle.dsql_history_work.specs.driver.declared.caps.Caps.{Caps};
ghost use Rattle.dsql_history_work.specs.journal.declared.entry.Entry.{Entry};
ghost use Rattle.dsql_history_work.specs.rows.OpenRows.{ended_by, is_live};
ghost use Rattle.dsql_history_work.specs.rows.declared.end.RowsEnd.{RowsEnd};
ghost use Rattle.dsql_history_work.specs.rows.declared.rows.Rows.{Rows as OpenRows};
ghost use Rattle.dsql_history_work.specs.Exchanges.{exchanges};
ghost use Rattle.dsql_history_work.specs.Line.{Asked, body_after, is_due_in_line, line_after};

/// If a tenure has an entry, what is due in it is what the call's course has next.
pub fn what_is_due_comes_next()
    ensures { (can : Caps) (reset : Bool) (asked : Asked) (wish : Wish) (e : Entry) (earlier : List Entry)
        (call : DriverCall) → is_due_in_line (line_after can reset asked wish (e ∷ earlier)) call ≡ true
        → is_due_in_line (body_after can false asked wish (exchanges (e ∷ earlier))) call ≡ true }
{}

/// Rows that were ended aren't live.
pub fn ended_rows_are_not_live()
    ensures { (by : RowsEnd) (some : Option OpenRows) (rows : OpenRows) → option_map (ended_by by) some ≡ Some rows
        → is_live rows ≡ true → ⊥ }
{}
