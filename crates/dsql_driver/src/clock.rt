/// A clock that counts nanoseconds from the run's start.
pub trait Clock {
    /// Returns the present moment.
    fn now(&mut self) -> u64;
}

/// A gate that each client's worker passes before each driver call. The worker holds no lock there.
pub trait Gate: Sync {
    /// Lets the client's call pass.
    fn before(&self, client: u8, call: u32);
}
