//! Whole reports that are legal histories. The function does nothing: its contract is the list of examples.
ghost use Rattle.std.specs.Prelude.{◌≡◌, true, reverse};
ghost use Rattle.dsql_history.specs.Computed.{is_legal};
ghost use Rattle.dsql_cases_histories.specs.Reports.{nothing_asked, one_exec, two_execs, idle_limit_zero, rows_hold_the_connection, four_clients, limit_lowered_under_rows};
ghost use Rattle.dsql_cases_histories.specs.ReportsOfRows.{reads_one_row, reads_rows};

/// States that these reports are legal. They have no call at all, one exec, two execs, limits that are set,
/// four clients, or calls that read rows. In one, rows hold the connection that another call waits for.
pub fn legal_reports()
    ensures nothing_asked { is_legal (reverse nothing_asked) ≡ true }
    ensures one_exec { is_legal (reverse one_exec) ≡ true }
    ensures two_execs { is_legal (reverse two_execs) ≡ true }
    ensures idle_limit_zero { is_legal (reverse idle_limit_zero) ≡ true }
    ensures rows_hold_the_connection { is_legal (reverse rows_hold_the_connection) ≡ true }
    ensures four_clients { is_legal (reverse four_clients) ≡ true }
    ensures limit_lowered_under_rows { is_legal (reverse limit_lowered_under_rows) ≡ true }
    ensures reads_one_row { is_legal (reverse reads_one_row) ≡ true }
    ensures reads_rows { is_legal (reverse reads_rows) ≡ true }
{}
