//! Faults that are planned in place of the answers to driver calls.
ghost use Rattle.std.specs.Prelude.{◌≡◌, IfOk, IfSome, option_map};
ghost use Rattle.std.specs.Option.{option_copied};
ghost use Rattle.dsql_driver.specs.Fits.{fits_of};
ghost use Rattle.dsql_driver.specs.Wires.{answer_of};
ghost use Rattle.dsql_mem_plans.specs.Plans.{answer_planned, planned_at, fault_at, plans_for};

use dsql_driver::{DriverAnswer, DriverCall, Planned, Refused};
use dsql_value::Memory;
use std::alloc::Global;

/// A fault in place of the answer to a wire's driver call of this number.
pub type Plan = (u32, Planned);

/// A fault that was planned on a wire, with the count of driver calls that the wire had heard by then.
pub type PlanMade = (usize, Plan);

/// A fault that was planned with a fleet for the wire of this number. It records how many Connects the fleet had
/// reported by then.
pub type WirePlanMade = (usize, (u32, Plan));

/// Returns a copy of a planned fault. The only error, here and below, is a lack of memory.
pub fn copied(what: &Planned) -> Result<Planned, Memory>
    ensures { IfOk result (λ copy. copy ≡ what.now) }
{
    Ok(match what {
        Planned::Bad => Planned::Bad,
        Planned::Fail(text) => Planned::Fail(text.clone()?),
        Planned::Invalid => Planned::Invalid,
    })
}

/// Returns a fleet's plans for the wire of this number, oldest first.
pub fn plans_for(alloc: Global, number: u32, plans: &[WirePlanMade]) -> Result<Vec<Plan>, Memory>
    ensures { IfOk result (λ own. own.items ≡ plans_for number plans.now) }
{
    let mut own = Vec::new(alloc);
    for (_, (wire, (nth, what))) in plans {
        if *wire == number {
            own.push((*nth, copied(what)?))?;
        }
    }
    Ok(own)
}

/// Returns what was planned last for driver call number `nth`.
fn planned_at(nth: usize, plans: &[Plan]) -> Option<&Planned>
    ensures { option_copied result ≡ planned_at nth plans.now }
{
    let (_, what) = plans.iter().rev().find(|(call, _)| *call as usize == nth)?;
    Some(what)
}

/// Returns whether the fault may be the answer to this driver call.
fn may_answer(what: &Planned, call: &DriverCall) -> bool
    ensures { result ≡ fits_of call.now (answer_planned what.now) }
{
    let is_test = matches!(call, DriverCall::Valid);
    match what {
        Planned::Bad | Planned::Fail(_) => !is_test,
        Planned::Invalid => is_test,
    }
}

/// Returns the answer of a planned fault.
fn answer_planned(what: &Planned) -> Result<DriverAnswer, Memory>
    ensures { IfOk result (λ answer. answer ≡ answer_planned what.now) }
{
    Ok(match what {
        Planned::Bad => DriverAnswer::Bad,
        Planned::Fail(text) => DriverAnswer::Fail(text.clone()?),
        Planned::Invalid => DriverAnswer::Invalid,
    })
}

/// Returns the fault that takes the place of driver call number `nth`, if one was planned for it that fits it.
pub fn fault_at(
    nth: usize,
    call: &DriverCall,
    plans: &[Plan],
) -> Result<Option<DriverAnswer>, Memory>
    ensures { IfOk result (λ fault. fault ≡ fault_at nth call.now plans.now) }
{
    let Some(what) = planned_at(nth, plans) else {
        return Ok(None);
    };
    if may_answer(what, call) {
        Ok(Some(answer_planned(what)?))
    } else {
        Ok(None)
    }
}

/// Why a `Connect` is refused, and the answer that says so.
pub struct Refusal {
    pub refused: Refused,
    pub answer: DriverAnswer,
}

/// Returns the refusal that was planned in place of a wire's `Connect`, if one was planned that fits it.
pub fn connect_refusal(plans: &[Plan]) -> Result<Option<Refusal>, Memory>
    ensures planned { IfOk result (λ refusal. option_map (λ r. r.answer) refusal
        ≡ fault_at 1 DriverCall.Connect plans.now) }
    ensures told { IfOk result (λ refusal. IfSome refusal (λ r. answer_of {W = Unit {0}} (Err r.refused) ≡ r.answer)) }
{
    match planned_at(1, plans) {
        Some(Planned::Bad) => Ok(Some(Refusal {
            refused: Refused::Bad,
            answer: DriverAnswer::Bad,
        })),
        Some(Planned::Fail(text)) => Ok(Some(Refusal {
            refused: Refused::Fail(text.clone()?),
            answer: DriverAnswer::Fail(text.clone()?),
        })),
        Some(Planned::Invalid) | None => Ok(None),
    }
}
