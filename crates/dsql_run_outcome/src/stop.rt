//! What stops a run that couldn't be carried out or shown.
ghost use Rattle.std.specs.Prelude.{◌≡◌};
ghost use Rattle.dsql_run_outcome.specs.Runs.{stop_of_halt, stop_of_show};

use dsql_hall::Halt;
use dsql_script_show::ShowFault;
use dsql_script_source::Stop;

/// Returns what stops a run that can't be carried on.
pub fn stop_of_halt(halt: Halt) -> Stop
    ensures { result ≡ stop_of_halt halt }
{
    match halt {
        Halt::Memory => Stop::Memory,
        Halt::Full => Stop::Full,
    }
}

/// Returns what stops a run whose events can't be shown.
pub fn stop_of_show(fault: ShowFault) -> Stop
    ensures { result ≡ stop_of_show fault }
{
    match fault {
        ShowFault::Failed => Stop::Write,
        ShowFault::Memory => Stop::Memory,
    }
}
