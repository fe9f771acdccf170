//! What the house does next.
use crate::errand::Errand;
use crate::opening::Opening;
use crate::race::Race;
use dsql_engine_laws::Wire;

/// What the house does next.
pub enum Chore<K: Race, W: Wire> {
    /// It asks the fleet for this connection, and brings back what came of it.
    Connect(Opening<K>),
    /// It shuts this connection, brings back what it heard, and gives the wire back to the fleet.
    Shut(Errand<K, W>),
    /// It asks again, because it made a step.
    Again,
    /// It waits until another thread has changed the hall.
    Wait,
    /// It ends its part, because nothing is left for it to do.
    Over,
}
