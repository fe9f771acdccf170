//! Uses of the pool with the memory already taken, so that they can't fail.
ghost use Rattle.std.specs.Prelude.{◌≡◌, ◌+◌, ◌<◌, ◌≤◌, true};
ghost use Rattle.dsql_engine_pooling.specs.UnderWay.{is_under_way};
ghost use Rattle.dsql_laws.specs.pool.Places.{is_lent};
ghost use Rattle.dsql_laws.specs.pool.Pooled.{place_at, most_drawn};
ghost use Rattle.dsql_laws.specs.pool.Moved.{made, shut};
ghost use Rattle.dsql_laws.specs.pool.Calls.{moves_closed, moves_given_back};
ghost use Rattle.dsql_laws.specs.history.Readers.Owed.{answered, controlled};
ghost use Rattle.dsql_laws.specs.history.Readers.Pool.{with_control};

use dsql_laws::{Control, DriverAnswer, Fate, Place, Pool, Setting};

/// Closes the pool.
pub fn close(pool: &mut Pool)
    requires { 0 < pool.old.spare }
    ensures moves { pool.new.moves ≡ moves_closed pool.old.pooled }
    ensures pooled { pool.new.pooled ≡ made (moves_closed pool.old.pooled) (shut pool.old.pooled) }
    ensures spare { pool.old.spare ≤ pool.new.spare + 1 }
{
    match pool.close() {
        Ok(()) => {}
        Err(_) => unreachable!(),
    }
}

/// Sets a limit or the present moment.
pub fn control_pool(pool: &mut Pool, control: Control)
    requires room { 0 < pool.old.spare }
    requires drawn { pool.old.pooled.drawn ≤ most_drawn }
    ensures moves { pool.new.moves ≡ controlled control pool.old.pooled }
    ensures pooled { pool.new.pooled
        ≡ made (controlled control pool.old.pooled) (with_control control pool.old.pooled) }
    ensures spare { pool.old.spare ≤ pool.new.spare + 1 }
{
    let done = match control {
        Control::Tick(now) => pool.tick(now),
        Control::Set(Setting::MaxOpen, n) => pool.set_open(n),
        Control::Set(Setting::MaxIdle, n) => pool.set_idle(n),
        Control::Set(Setting::MaxLife, n) => pool.set_lifetime(n),
        Control::Set(Setting::MaxIdleTime, n) => pool.set_idle_time(n),
    };
    match done {
        Ok(()) => {}
        Err(_) => unreachable!(),
    }
}

/// Gives a lent connection back to the pool.
pub fn give_back(pool: &mut Pool, conn: u32, fate: Fate)
    requires room { 0 < pool.old.spare }
    requires lent { is_lent (place_at pool.old.pooled conn) ≡ true }
    requires drawn { pool.old.pooled.drawn ≤ most_drawn }
    ensures moves { pool.new.moves ≡ moves_given_back fate conn pool.old.pooled }
    ensures pooled { pool.new.pooled ≡ made (moves_given_back fate conn pool.old.pooled) pool.old.pooled }
    ensures spare { pool.old.spare ≤ pool.new.spare + 1 }
{
    match pool.give_back(conn, fate) {
        Ok(()) => {}
        Err(_) => unreachable!(),
    }
}

/// Takes in the driver's answer on a connection that is being opened or closed. The connection is then open, or
/// couldn't be opened, or is gone.
pub fn answer(pool: &mut Pool, conn: u32, answer: &DriverAnswer)
    requires room { 0 < pool.old.spare }
    requires under_way { is_under_way (place_at pool.old.pooled conn) ≡ true }
    requires drawn { pool.old.pooled.drawn ≤ most_drawn }
    ensures moves { pool.new.moves ≡ answered answer.now conn pool.old.pooled (place_at pool.old.pooled conn) }
    ensures pooled { pool.new.pooled ≡ made
        (answered answer.now conn pool.old.pooled (place_at pool.old.pooled conn)) pool.old.pooled }
    ensures spare { pool.old.spare ≤ pool.new.spare + 1 }
{
    let moved = match pool.place(conn) {
        Some(Place::Opening(_)) => {
            if matches!(answer, DriverAnswer::Done) {
                pool.opened(conn)
            } else {
                pool.open_failed(conn)
            }
        }
        Some(Place::Closing) => pool.gone(conn),
        _ => unreachable!(),
    };
    match moved {
        Ok(()) => {}
        Err(_) => unreachable!(),
    }
}
