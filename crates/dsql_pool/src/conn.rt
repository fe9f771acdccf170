ghost use Rattle.std.specs.Prelude.{◌≡◌, ◌<◌, Some};
ghost use Rattle.dsql_pool.specs.Changes.{opened_at, opening, lent, back, closing, unwanted, unwanted_by};
ghost use Rattle.dsql_pool.specs.Places.{is_for, is_free};

use dsql_tenure_journal::Owner;

/// The place of an open connection: one of the four sets.
#[derive(Clone, Copy)]
pub enum Place {
    /// The connection waits for a request.
    Idle,
    /// The connection is lent to this owner, in this tenure.
    Lent(u32, Owner),
    /// The connection is being opened, for the request of this owner or for no request of its own.
    Opening(Option<Owner>),
    /// The connection is being closed.
    Closing,
}

impl Place {
    /// Returns whether the connection is being opened for the request of this call.
    pub fn is_for(&self, call: u32) -> bool
        ensures { result ≡ is_for call self.now }
    {
        match self {
            Place::Opening(Some(owner)) => owner.number() == call,
            _ => false,
        }
    }

    /// Returns whether the connection is being opened for no request of its own.
    pub fn is_free(&self) -> bool
        ensures { result ≡ is_free self.now }
    {
        matches!(self, Place::Opening(None))
    }
}

/// An open connection.
///
/// It records its number, its place, how often it was lent, and how often to an owner other than the house. It
/// also records the moments at which it was opened and last given back, in nanoseconds.
#[derive(Clone, Copy)]
pub struct Conn {
    pub number: u32,
    pub place: Place,
    pub lends: u32,
    pub uses: u32,
    pub created: u64,
    pub returned: u64,
}

impl Conn {
    /// Returns a connection of this number that begins to be opened, for the request of an owner or for no
    /// request of its own.
    pub fn opening(number: u32, wanted: Option<Owner>) -> Conn
        ensures { result ≡ opening number wanted }
    {
        Conn {
            number,
            place: Place::Opening(wanted),
            lends: 0,
            uses: 0,
            created: 0,
            returned: 0,
        }
    }

    /// Returns the connection, being opened for no request if it was being opened for the request of this call.
    pub fn unwanted_by(self, call: u32) -> Conn
        ensures { result ≡ unwanted_by call self }
    {
        if self.place.is_for(call) {
            self.opening_for_none()
        } else {
            self
        }
    }

    /// Returns the connection, being opened for no request of its own if it was being opened.
    pub fn unwanted(self) -> Conn
        ensures { result ≡ unwanted self }
    {
        match self.place {
            Place::Opening(_) => self.opening_for_none(),
            _ => self,
        }
    }

    fn opening_for_none(self) -> Conn
        ensures { result ≡ record self { place = Place.Opening None } }
    {
        Conn {
            place: Place::Opening(None),
            ..self
        }
    }

    fn opened_at(&self, moment: u64) -> u64
        ensures { result ≡ opened_at moment self.now }
    {
        match self.place {
            Place::Opening(_) => moment,
            _ => self.created,
        }
    }

    /// Returns the connection, lent at this moment.
    pub fn lent(self, tenure: u32, owner: Owner, moment: u64) -> Conn
        requires lends { self.lends < 4294967295 }
        requires uses { self.uses < 4294967295 }
        ensures { result ≡ lent tenure owner moment self }
    {
        let uses = match owner {
            Owner::House => self.uses,
            _ => self.uses + 1,
        };
        Conn {
            number: self.number,
            place: Place::Lent(tenure, owner),
            lends: self.lends + 1,
            uses,
            created: self.opened_at(moment),
            returned: self.returned,
        }
    }

    /// Returns the connection, given back at this moment.
    pub fn back(self, moment: u64) -> Conn
        ensures { result ≡ back moment self }
    {
        Conn {
            place: Place::Idle,
            created: self.opened_at(moment),
            returned: moment,
            ..self
        }
    }

    /// Returns the connection, about to be shut.
    pub fn closing(self) -> Conn
        ensures { result ≡ closing self }
    {
        Conn {
            place: Place::Closing,
            ..self
        }
    }
}
