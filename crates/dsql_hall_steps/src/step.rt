//! What a client's thread does next.
use crate::errand::Errand;
use crate::race::Race;
use dsql_engine_laws::Wire;

/// What a client's thread does next.
pub enum Step<K: Race, W: Wire> {
    /// It makes this driver call, and brings back what it heard.
    Go(Errand<K, W>),
    /// It asks again, because its client took a step.
    Again,
    /// It waits until another thread has changed the hall.
    Wait,
    /// It ends, because nothing is left for its client to do.
    Over,
}
