ghost use Rattle.std.specs.Prelude.{◌≡◌, ◌≤◌};
ghost use Rattle.dsql_mem_plans.specs.Faults.{faults_after};

use dsql_driver::DriverAnswer;

/// Returns a count of faults after an answer. The count stays at its largest value after reaching it.
pub(crate) fn faults_after(faults: u64, answer: &DriverAnswer) -> u64
    ensures count { result ≡ faults_after faults answer.now }
    ensures counted { faults ≤ result }
{
    let is_fault = matches!(
        answer,
        DriverAnswer::Invalid | DriverAnswer::Bad | DriverAnswer::Fail(_)
    );
    if is_fault {
        faults.saturating_add(1)
    } else {
        faults
    }
}
