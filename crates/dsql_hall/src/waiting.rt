//! Which threads of a race wait, and which of them to wake.
use dsql_hall_steps::{Hall, Race, Wire};

/// How many clients there may be.
pub(crate) const CLIENTS: usize = 256;

/// What a client's thread does.
#[derive(Clone, Copy, Drop, PartialEq, Eq)]
enum Doing {
    /// It takes steps, or makes a driver call.
    Steps,
    /// It waits until its client may go on.
    Waits,
    /// It is over, or there is no thread.
    Nothing,
}

/// Whether the house waits, and for what.
#[derive(Clone, Copy, Drop, PartialEq, Eq)]
pub(crate) enum HouseWait {
    /// It doesn't wait.
    No,
    /// It waits until it may take a step of the layer, or no client's thread takes steps.
    ForStep,
    /// It waits until any thread has changed the hall.
    ForChange,
}

/// The thread that is woken next.
#[derive(Drop)]
pub(crate) enum Woken {
    Nobody,
    House,
    Client(u8),
}

/// What each thread of a race does. A thread that is to be woken counts as one that takes steps from then on.
#[derive(Drop)]
pub(crate) struct Waiting {
    clients: [Doing; CLIENTS],
    /// The last client that has a line.
    last: u8,
    /// The client from which the next look for one that may go on begins.
    turn: u8,
    house: HouseWait,
    /// How many events the history had when no thread that waited could go on.
    seen: usize,
}

impl Waiting {
    /// Returns what the threads do as a race of these clients begins. All of them take steps. The clients are in the
    /// order of their numbers.
    pub(crate) fn new(clients: &[u8]) -> Waiting {
        let mut doing = [Doing::Nothing; CLIENTS];
        for client in clients {
            doing[*client as usize] = Doing::Steps;
        }
        Waiting {
            clients: doing,
            last: clients.last().copied().unwrap_or(0),
            turn: 0,
            house: HouseWait::No,
            seen: 0,
        }
    }

    /// Picks a thread that waits although it may go on, and records that it no longer waits. The house comes before the
    /// clients. If no client's thread takes steps, picks the house too, because its part may be over then.
    pub(crate) fn pick<K: Race, W: Wire>(&mut self, hall: &mut Hall<K, W>) -> Woken {
        if self.is_house_wanted(hall) {
            self.house = HouseWait::No;
            return Woken::House;
        }
        if let Some(client) = self.first_wanted(hall) {
            self.set_steps(client);
            self.turn = client.wrapping_add(1);
            return Woken::Client(client);
        }
        if self.house == HouseWait::ForStep && !self.is_any_stepping() {
            self.house = HouseWait::No;
            return Woken::House;
        }
        self.seen = hall.event_count();
        Woken::Nobody
    }

    /// Picks a thread as `pick` does, unless there were only entries and answers since that found none. These hardly
    /// ever let another go on.
    pub(crate) fn pick_if_moved<K: Race, W: Wire>(&mut self, hall: &mut Hall<K, W>) -> Woken {
        if hall.has_moved(self.seen) {
            self.pick(hall)
        } else {
            Woken::Nobody
        }
    }

    /// Is true if the house waits although it may go on.
    fn is_house_wanted<K: Race, W: Wire>(&self, hall: &mut Hall<K, W>) -> bool {
        match self.house {
            HouseWait::No => false,
            HouseWait::ForStep => hall.house_may_go_on(),
            HouseWait::ForChange => true,
        }
    }

    /// Returns the first client, from the one whose turn it is, whose thread waits although the client may go on.
    fn first_wanted<K: Race, W: Wire>(&self, hall: &Hall<K, W>) -> Option<u8> {
        match self.first_between(hall, self.turn, self.last) {
            None => self.first_between(hall, 0, self.turn.min(self.last)),
            found => found,
        }
    }

    /// Returns the first of these clients whose thread waits although the client may go on.
    fn first_between<K: Race, W: Wire>(
        &self,
        hall: &Hall<K, W>,
        first: u8,
        last: u8,
    ) -> Option<u8> {
        for client in first..=last {
            if self.clients[client as usize] == Doing::Waits && hall.client_may_go_on(client) {
                return Some(client);
            }
        }
        None
    }

    /// Is true if a client's thread takes steps.
    fn is_any_stepping(&self) -> bool {
        self.clients.iter().any(|doing| *doing == Doing::Steps)
    }

    /// Records that the client's thread takes steps.
    pub(crate) fn set_steps(&mut self, client: u8) {
        self.clients[client as usize] = Doing::Steps;
    }

    /// Records that the client's thread waits.
    pub(crate) fn set_waits(&mut self, client: u8) {
        self.clients[client as usize] = Doing::Waits;
    }

    /// Records that the client's thread takes no more steps.
    pub(crate) fn set_over(&mut self, client: u8) {
        self.clients[client as usize] = Doing::Nothing;
    }

    /// Records whether the house waits, and for what.
    pub(crate) fn set_house(&mut self, house: HouseWait) {
        self.house = house;
    }
}
