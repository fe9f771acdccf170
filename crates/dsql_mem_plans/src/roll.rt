ghost use Rattle.std.specs.Prelude.{◌≡◌, ◌∷◌, [], ◌++◌};
ghost use Rattle.dsql_mem_plans.specs.Log.{told_of};
ghost use Rattle.dsql_mem_plans.specs.Roll.{retired_of};

use crate::log::Log;

/// The wires that were retired, newest first. Each brings the room for its own entry.
pub(crate) enum Roll {
    Empty,
    Wire {
        number: u32,
        log: Log,
        before: Box<Roll>,
    },
}

impl Roll {
    /// Enters a wire in the room that it brought.
    pub(crate) fn enter(self, number: u32, log: Log, room: Box<Roll>) -> Roll
        ensures { retired_of result ≡ retired_of self ++ (number, told_of log) ∷ [] }
    {
        let mut before = room;
        *before = self;
        Roll::Wire {
            number,
            log,
            before,
        }
    }
}

impl Drop for Roll {
    // A loop, since recursion would take as many calls as a long roll has wires.
    fn drop(mut self) {
        loop {
            match self {
                Roll::Empty => return,
                Roll::Wire {
                    number: _,
                    log,
                    before,
                } => {
                    drop(log);
                    self = Box::into_inner(before);
                }
            }
        }
    }
}
