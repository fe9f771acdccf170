//! A list of past things, for proofs alone. It takes no memory.
#![tactic(auto)]

ghost use Rattle.std.specs.Prelude.{◌≡◌, [], ◌∷◌, ◌++◌, reverse, List};
ghost use Rattle.std.specs.Borrow.{ftrue};

use std::marker::{Model, PhantomData};

/// Past things, the newest first, that only proofs read. The list takes no memory, and its methods do nothing
/// at run time.
#[derive(Drop)]
pub struct Past<T> {
    of: PhantomData<T>,
    pub ghost items: { List T },
}

impl<T> Model for Past<T> {
    ghost also_owns = { λ _. ftrue };
}

impl<T> Past<T> {
    /// Returns a list without things.
    pub fn new() -> Past<T>
        ensures { result.items ≡ [] }
    {
        Past { of: PhantomData }
    }

    /// Returns the list with one more thing.
    pub fn then(&self, _next: &T) -> Past<T>
        ensures { result.items ≡ _next.now ∷ self.now.items }
    {
        Past { of: PhantomData }
    }

    /// Returns the list with the things of a slice added one after another.
    pub fn then_all(&self, _next: &[T]) -> Past<T>
        ensures { result.items ≡ reverse _next.now ++ self.now.items }
    {
        Past { of: PhantomData }
    }
}

impl<A, B> Past<(A, B)> {
    /// Returns the list with one more pair.
    pub fn then_pair(&self, _first: &A, _second: &B) -> Past<(A, B)>
        ensures { result.items ≡ (_first.now, _second.now) ∷ self.now.items }
    {
        Past { of: PhantomData }
    }
}

// A list for proofs owns nothing.
unsafe impl<T> Send for Past<T> {}
