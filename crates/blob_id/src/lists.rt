//! Lists that contracts see as lists, whatever keeps them.

ghost use Rattle.std.specs.Prelude.{◌≡◌, ◌++◌, ◌∷◌, [], length, OnOk, OnErr, IfOk, IsNone, ◌↔◌, ◌≤◌, slice_get};
ghost use Rattle.std.specs.Option.{option_copied};

use crate::id::BlobId;
use crate::memory::Memory;
use std::alloc::Global;
use std::marker::Model;

/// A list.
#[derive(Debug, Drop)]
pub struct Listed<T> {
    items: Vec<T>,
}

/// A list of bytes.
pub type Bytes = Listed<u8>;

/// A list of ids.
pub type Ids = Listed<BlobId>;

impl<T> Model for Listed<T> {
    ghost use Rattle.std.specs.Prelude.{List};

    ghost Value = { List T };

    ghost view = { λ b. b.items.items };
}

impl<T> Listed<T> {
    pub fn new(alloc: Global) -> Self
        ensures { result ≡ [] }
    {
        Listed {
            items: Vec::new(alloc),
        }
    }

    /// The list that a `Vec` has. It takes no memory.
    pub fn from_vec(items: Vec<T>) -> Self
        ensures { result ≡ items.items }
    {
        Listed { items }
    }

    pub fn len(&self) -> usize
        ensures { result ≡ length self.now }
    {
        self.items.len()
    }

    pub fn as_slice(&self) -> &[T]
        ensures { result.now ≡ self.now }
    {
        self.items.as_slice()
    }

    /// The item at a place.
    pub fn at(&self, place: usize) -> Option<&T>
        ensures item { option_copied result ≡ slice_get self.now place }
        ensures none { IsNone result ↔ (length self.now ≤ place) }
    {
        self.items.get(place)
    }
}

impl<T: Drop> Listed<T> {
    pub fn push(&mut self, item: T) -> Result<(), Memory>
        ensures ok { OnOk result (self.new ≡ self.old ++ item ∷ []) }
        ensures err { OnErr result (self.new ≡ self.old) }
    {
        self.items.push(item)?;
        Ok(())
    }

    /// Moves the items of another list to the end, and leaves that one empty.
    pub fn append(&mut self, other: &mut Listed<T>) -> Result<(), Memory>
        ensures ok { OnOk result (self.new ≡ self.old ++ other.old) }
        ensures emptied { OnOk result (other.new ≡ []) }
        ensures err { OnErr result (self.new ≡ self.old) }
        ensures kept { OnErr result (other.new ≡ other.old) }
    {
        self.items.append(&mut other.items)?;
        Ok(())
    }
}

impl Listed<u8> {
    pub fn copy_of(alloc: Global, items: &[u8]) -> Result<Self, Memory>
        ensures { IfOk result (λ bytes. bytes ≡ items.now) }
    {
        Ok(Listed {
            items: Vec::from_slice(alloc, items)?,
        })
    }

    /// Adds the items at the end.
    pub fn extend(&mut self, items: &[u8]) -> Result<(), Memory>
        ensures ok { OnOk result (self.new ≡ self.old ++ items.now) }
        ensures err { OnErr result (self.new ≡ self.old) }
    {
        self.items.extend_from_slice(items)?;
        Ok(())
    }

    /// The same bytes again.
    pub fn copy(&self, alloc: Global) -> Result<Bytes, Memory>
        ensures { IfOk result (λ bytes. bytes ≡ self.now) }
    {
        Bytes::copy_of(alloc, self.items.as_slice())
    }
}
