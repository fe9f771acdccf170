ghost use Rattle.std.specs.Prelude.{◌≡◌, List, ℕ, string_bytes, IfOk};

use crate::items::Faithful;
use crate::memory::Memory;
use std::alloc::{AllocError, Global};
use std::marker::Model;

/// A text in UTF-8, as Go's `string` holds one. Contracts see it as the list of its bytes.
#[derive(Debug, Drop)]
pub struct Txt {
    text: String,
}

impl Model for Txt {
    ghost Value = { List ℕ };

    ghost view = { λ t. string_bytes t.text };
}

impl Txt {
    /// Returns the text of a string. It takes no memory.
    pub fn new(text: String) -> Txt
        ensures { result ≡ string_bytes text }
    {
        Txt { text }
    }

    /// Returns a copy of a text. Fails with `Memory` if there is no memory for it.
    pub fn copy_of(alloc: Global, text: &str) -> Result<Txt, Memory>
        ensures { IfOk result (λ t. t ≡ text.now) }
    {
        let text = String::from_str(alloc, text)?;
        Ok(Txt { text })
    }

    /// Returns a copy of this text. Fails with `Memory` if there is no memory for it.
    pub fn copy(&self) -> Result<Txt, Memory>
        ensures { IfOk result (λ t. t ≡ self.now) }
    {
        let copy = self.clone()?;
        Ok(copy)
    }

    /// Returns the text as a string slice.
    pub fn as_str(&self) -> &str
        ensures { result.now ≡ self.now }
    {
        self.text.as_str()
    }

    /// Returns the string of the text. It takes no memory.
    pub fn into_string(self) -> String
        ensures { string_bytes result ≡ self }
    {
        let Txt { text } = self;
        text
    }
}

impl Clone for Txt {
    ghost is_clone = { λ x y. y ≡ x };

    fn clone(&self) -> Result<Txt, AllocError> {
        let text = self.text.clone()?;
        Ok(Txt { text })
    }
}

impl Faithful for Txt {
    ghost same = { λ _ _ is. is };
}

pub(crate) fn copy_of_optional(text: &Option<Txt>) -> Result<Option<Txt>, AllocError>
    ensures { IfOk result (λ t. t ≡ text.now) }
{
    match text {
        Some(text) => Ok(Some(text.clone()?)),
        None => Ok(None),
    }
}

/// Bytes that need not be text, as Go's `[]byte` holds them. Contracts see them as a list.
#[derive(Debug, Drop)]
pub struct Bin {
    bytes: Vec<u8>,
}

impl Model for Bin {
    ghost Value = { List ℕ };

    ghost view = { λ b. b.bytes.items };
}

impl Bin {
    /// Returns the bytes of a vector. It takes no memory.
    pub fn new(bytes: Vec<u8>) -> Bin
        ensures { result ≡ bytes.items }
    {
        Bin { bytes }
    }

    /// Returns the bytes as a slice.
    pub fn as_slice(&self) -> &[u8]
        ensures { result.now ≡ self.now }
    {
        &self.bytes
    }

    /// Returns the vector of the bytes. It takes no memory.
    pub fn into_vec(self) -> Vec<u8>
        ensures { result.items ≡ self }
    {
        let Bin { bytes } = self;
        bytes
    }
}

impl Clone for Bin {
    ghost is_clone = { λ x y. y ≡ x };

    fn clone(&self) -> Result<Bin, AllocError> {
        let bytes = self.bytes.clone()?;
        Ok(Bin { bytes })
    }
}
