//! Events from outside that no call asks for: a limit, the present moment, and the end of the run.
ghost use Rattle.std.specs.Prelude.{◌≡◌, true, false};
ghost use Rattle.dsql_engine_hearing.specs.journal.Readers.{is_empty};
ghost use Rattle.dsql_engine_hearing.specs.history.Readers.Course.{has_ended};
ghost use Rattle.dsql_engine_hearing.specs.history.Rules.House.{is_quiet};
ghost use Rattle.dsql_engine_hearing.specs.history.Rules.Settled.{Settled};
ghost use Rattle.dsql_engine_hearing.specs.desk.Desk.{trimmed, past, Stands};
ghost use Rattle.dsql_engine_hearing.specs.going.Reaching.{CanPay, Reaches};
ghost use Rattle.dsql_engine_hearing.specs.going.Stepping.{events_of_a_step};
ghost use Rattle.dsql_engine_hearing.specs.laws_steps.Groups.{after_control, after_end};

use dsql_engine_hearing::{Control, Desk};

/// Sets a limit or the present moment. The pool then keeps to it.
pub fn control(desk: &mut Desk, control: Control)
    requires pays { CanPay desk.old events_of_a_step }
    requires settled { Settled (past desk.old) }
    requires begun { is_empty (past desk.old) ≡ false }
    ensures stands { Stands desk.new }
    ensures group { past desk.new ≡ after_control (past desk.old) control }
    ensures trimmed { trimmed desk.new ≡ trimmed desk.old }
{
    desk.control(control);
}

/// Ends the run and closes the pool.
pub fn end_run(desk: &mut Desk)
    requires pays { CanPay desk.old events_of_a_step }
    requires settled { Settled (past desk.old) }
    requires begun { is_empty (past desk.old) ≡ false }
    requires quiet { is_quiet (past desk.old) ≡ true }
    requires running { has_ended (past desk.old) ≡ false }
    ensures reaches { Reaches desk.new (after_end (past desk.old)) }
    ensures trimmed { trimmed desk.new ≡ trimmed desk.old }
{
    desk.end();
}
