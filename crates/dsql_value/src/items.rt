ghost use Rattle.std.specs.Prelude.{◌≡◌, List, []};

use std::alloc::{AllocError, Global};
use std::marker::Model;

/// A type whose clones equal their originals.
pub trait Faithful: Clone {
    ghost same: { (x y : Self) → Self.is_clone x y → y ≡ x };
}

/// A list of items. Contracts see it as the plain list. A vector becomes one, and one becomes a vector, without
/// taking memory.
#[derive(Debug)]
pub struct Items<T> {
    items: Vec<T>,
}

impl<T> Model for Items<T> {
    ghost Value = { List T };

    ghost view = { λ i. i.items.items };
}

impl<T> Items<T> {
    /// Returns an empty list. It takes no memory.
    pub fn none(alloc: Global) -> Items<T>
        ensures { result ≡ [] }
    {
        Items {
            items: Vec::new(alloc),
        }
    }

    /// Returns the items of a vector.
    pub fn new(items: Vec<T>) -> Items<T>
        ensures { result ≡ items.items }
    {
        Items { items }
    }

    /// Returns the items in their order.
    pub fn as_slice(&self) -> &[T]
        ensures { result.now ≡ self.now }
    {
        &self.items
    }

    /// Returns the vector of the items.
    pub fn into_vec(self) -> Vec<T>
        ensures { result.items ≡ self }
    {
        let Items { items } = self;
        items
    }
}

// Implemented by hand, so that dropping a list is one call for its caller.
impl<T: Drop> Drop for Items<T> {
    fn drop(self) {
        let Items { items } = self;
        drop(items);
    }
}

impl<T: Faithful> Clone for Items<T> {
    ghost is_clone = { λ x y. y ≡ x };

    fn clone(&self) -> Result<Items<T>, AllocError> {
        let items = self.items.clone()?;
        Ok(Items { items })
    }
}
