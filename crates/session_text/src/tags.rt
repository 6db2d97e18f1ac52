//! The tags of a script's operations, and what a line may name.

ghost use Rattle.std.specs.Prelude.{◌≡◌, ◌≤◌, ◌<◌, ◌-◌, ◌^◌, ◌++◌, ◌∷◌, [], length, None, Some, OnOk, OnErr};
ghost use Rattle.session_text.specs.Tags.{tag_number, is_put_at, name_of, is_used_tag, is_put_tag};

use blob_id::{Bytes, Memory};
use std::alloc::Global;
use std::collections::BTreeMap;
use std::marker::Model;
use world_model::Shape;

/// What a line may name: nodes and partitions of a shape, and the tags of the good operation lines before it.
#[derive(Drop)]
pub struct Scope {
    pub shape: Shape,
    pub tags: Tags,
}

/// The tag of an operation line, and whether the line is a put.
#[derive(Debug, Drop)]
pub struct Tag {
    pub name: Bytes,
    pub is_put: bool,
}

/// The tags of the operation lines so far, in order and no two with one name. Operations are numbered from 1.
#[derive(Drop)]
pub struct Tags {
    tags: Vec<Tag>,
    /// The number that each name has.
    numbers: BTreeMap<Vec<u8>, u32>,
}

impl Model for Tags {
    ghost use Rattle.std.specs.Prelude.{List};
    ghost use Rattle.std.specs.Ordering.{nat_cmp};
    ghost use Rattle.std.specs.Cmp.Lexicographic.{slice_cmp};
    ghost use Rattle.std.specs.BTreeMap.{get_by};
    ghost use Rattle.session_text.specs.declared.tags.Tag.{Tag};
    ghost use Rattle.session_text.specs.Tags.{IsIndexed};

    ghost Value = { List Tag };

    ghost view = { λ t. t.tags.items };

    ghost invariant = { λ t. IsIndexed t.tags.items (λ name. get_by (λ key. slice_cmp nat_cmp name key.items) t.numbers) };
}

impl Tags {
    /// No tags. It takes no memory.
    pub fn new(alloc: Global) -> Self
        ensures { result ≡ [] }
    {
        Tags {
            tags: Vec::new(alloc),
            numbers: BTreeMap::new(alloc),
        }
    }

    /// How many tags there are, which is the number of the last one.
    pub fn len(&self) -> usize
        ensures { result ≡ length self.now }
    {
        self.tags.len()
    }

    /// Adds a tag at the end. A refusal leaves the tags as they are.
    pub fn push(&mut self, alloc: Global, name: Bytes, is_put: bool) -> Result<(), Memory>
        requires new { tag_number self.old name ≡ None }
        requires room { length self.old < 2 ^ 32 - 1 }
        ensures ok { OnOk result (self.new ≡ self.old ++ record { name = name; is_put = is_put } ∷ []) }
        ensures err { OnErr result (self.new ≡ self.old) }
    {
        let count = self.tags.len();
        let key = Vec::from_slice(alloc, name.as_slice())?;
        self.tags.push(Tag { name, is_put })?;
        match self.numbers.insert(key, count as u32 + 1) {
            Ok(_) => Ok(()),
            Err(_) => {
                self.tags.truncate(count);
                Err(Memory)
            }
        }
    }

    /// The number of the tag with this name, where there is one.
    pub fn number_of(&self, name: &[u8]) -> Option<u32>
        ensures { result ≡ tag_number self.now name.now }
    {
        self.numbers.get(name).copied()
    }

    /// Whether the line of the tag with this number is a put. False where no tag has it.
    pub fn is_put(&self, number: u32) -> bool
        ensures { result ≡ is_put_at self.now number }
    {
        match self.tags.get((number as usize).saturating_sub(1)) {
            Some(tag) => tag.is_put,
            None => false,
        }
    }

    /// The name of the tag with this number, empty where no tag has it.
    pub fn name_of(&self, number: u32) -> &[u8]
        ensures { result.now ≡ name_of self.now number }
    {
        match self.tags.get((number as usize).saturating_sub(1)) {
            Some(tag) => tag.name.as_slice(),
            None => b"",
        }
    }

    /// Whether an operation line before has this tag.
    pub fn is_used(&self, name: &[u8]) -> bool
        ensures { result ≡ is_used_tag self.now name.now }
    {
        self.number_of(name).is_some()
    }

    /// Whether a put line before has this tag.
    pub fn is_put_tag(&self, name: &[u8]) -> bool
        ensures { result ≡ is_put_tag self.now name.now }
    {
        match self.number_of(name) {
            Some(number) => self.is_put(number),
            None => false,
        }
    }
}
