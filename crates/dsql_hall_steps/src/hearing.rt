//! What clients bring back into the hall.
ghost use Rattle.std.specs.Prelude.{◌≡◌, ◌≢◌, ◌≤◌, Err, None, length, true, is_some, OnErr, OnOk};
ghost use Rattle.dsql_engine_laws.specs.history.Legal.{Legal};
ghost use Rattle.dsql_engine_laws.specs.history.Readers.Clients.{call_of};
ghost use Rattle.dsql_engine_laws.specs.laws_steps.Groups.{after_heard, most_events};
ghost use Rattle.dsql_player.specs.Acts.{SamePermitsBut};
ghost use Rattle.dsql_player.specs.Apart.{AnswersLeave};
ghost use Rattle.dsql_player.specs.Keeping.{SameCourse};
ghost use Rattle.dsql_player.specs.Playing.{IsReady};
ghost use Rattle.dsql_player.specs.Stepping.{HearsAnswer};
ghost use Rattle.dsql_hall_steps.specs.Hearing.{DropsAnswer, TakesAnswerIn, brought_home, without_memory};

use crate::errand::{Back, Unheard};
use crate::hall::Hall;
use crate::race::Race;
use dsql_engine_laws::{Heard, Wire};
use dsql_hall_bonds::Cell;
use dsql_player::{Halt, Player};

/// Takes in the answer to a client's driver call, if the run has room for its events.
fn take_in(player: &mut Player, client: u8, heard: Heard) -> Result<(), Halt>
    requires ready { IsReady player.old }
    requires answers { AnswersLeave player.old client heard }
    ensures past { OnOk result (player.new.past ≡ after_heard player.old.past heard) }
    ensures hears { OnOk result (HearsAnswer (call_of player.old.past client) player.old player.new) }
    ensures handed { OnOk result (SamePermitsBut client player.old.seats player.new.seats) }
    ensures ready { OnOk result (IsReady player.new) }
    ensures course { OnOk result (SameCourse player.old player.new) }
    ensures legal { Legal player.new.past }
    ensures trimmed { player.new.trimmed ≡ player.old.trimmed }
    ensures kept { OnErr result (player.new ≡ player.old) }
    ensures full { result ≡ Err Halt.Full → most_events ≤ length player.new.past }
{
    player.check_room()?;
    player.hear(client, heard)
}

impl<K: Race, W: Wire> Hall<K, W> {
    /// Takes in the answer to a client's driver call, and puts its wire home. The client's call goes on with the
    /// answer. If the run has stopped, or stops now, the answer is dropped.
    pub fn hear(&mut self, cell: &Cell, back: Back<K, W>)
        requires cell { cell.now ≡ K.cell }
        requires of_a_call { back.work.permit.call_no ≢ 0 }
        ensures heard { self.new.stopped ≡ None
            → TakesAnswerIn back.entry (brought_home back.work back.wire self.old) self.new }
        ensures dropped { self.new.stopped ≢ None
            → DropsAnswer (brought_home back.work back.wire self.old) self.new }
    {
        let Back {
            heard,
            client,
            wire,
            bond,
        } = back;
        let conn = heard.entry().conn;
        self.keeper.untie(cell, bond);
        self.away -= 1;
        self.wires.put(conn, wire);
        if self.stopped.is_some() {
            drop(heard);
            return;
        }
        match take_in(&mut self.player, client, heard) {
            Ok(()) => {}
            Err(halt) => self.stopped = Some(halt),
        }
    }

    /// Puts the wire of an errand home that came back without an answer, and stops the run for want of memory.
    pub fn hear_nothing(&mut self, cell: &Cell, unheard: Unheard<K, W>)
        requires cell { cell.now ≡ K.cell }
        ensures stopped { is_some self.new.stopped ≡ true }
        ensures home { self.new ≡ without_memory (brought_home unheard.work unheard.wire self.old) }
    {
        let Unheard {
            conn,
            client: _,
            wire,
            bond,
        } = unheard;
        self.keeper.untie(cell, bond);
        self.away -= 1;
        self.wires.put(conn, wire);
        if self.stopped.is_some() {
            return;
        }
        self.stopped = Some(Halt::Memory);
    }
}
