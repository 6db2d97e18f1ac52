//! The word at a place of a line. Each of these answers what it is read as, or that it isn't what has to stand
//! there.

ghost use Rattle.std.specs.Prelude.{◌≡◌, IfOk, map};
ghost use Rattle.std.specs.Option.{option_copied};
ghost use Rattle.world_model.specs.Shape.{IsShape};
ghost use Rattle.session_text.specs.declared.fault.Wanted.TheVariants as wanted;
ghost use Rattle.session_text.specs.Texts.{number_at, id_of_digits};
ghost use Rattle.session_text.specs.Names.{name_at};
ghost use Rattle.session_text.specs.Holders.{node_of, partition_of, holds, are_peers};
ghost use Rattle.session_text.specs.Reading.{Gives, read_at, has_word, new_tag_of, used_tag_of, behind_dollar, id_word_of, id_word_by, bytes_of_digits, metadata_of, file_name_of, type_of, ended};

use crate::command::{Command, IdWord};
use crate::fault::{LineFault, Wanted};
use crate::names::Name;
use crate::tags::Tags;
use crate::texts::{bytes_of_digits, id_of_digits, is_same, is_tag, is_type, word_at};
use blob_id::{Bytes, Memory};
use run_words::{Pathname, WordsFault, number_of};
use std::alloc::Global;
use world_model::{Shape, node_of};

/// Whether this word stands at a place.
pub fn has_word(words: &[&[u8]], place: usize, text: &[u8]) -> bool
    ensures { result ≡ has_word (map (λ word. word.now) words.now) place text.now }
{
    match word_at(words, place) {
        Some(word) => is_same(word, text),
        None => false,
    }
}

/// The command, where the line has no word at the place.
pub fn ended(words: &[&[u8]], place: usize, command: Command) -> Result<Command, LineFault>
    ensures { result ≡ ended (map (λ word. word.now) words.now) place command }
{
    if words.len() <= place {
        Ok(command)
    } else {
        Err(LineFault::Word(place, Wanted::End))
    }
}

pub fn name_in(words: &[&[u8]], place: usize) -> Result<Name, LineFault>
    ensures { result ≡ read_at name_at wanted.CommandName (map (λ word. word.now) words.now) place }
{
    let Some(word) = word_at(words, place) else {
        return Err(LineFault::Word(place, Wanted::CommandName));
    };
    match Name::of(word) {
        Some(name) => Ok(name),
        None => Err(LineFault::Word(place, Wanted::CommandName)),
    }
}

pub fn number_in(words: &[&[u8]], place: usize) -> Result<u64, LineFault>
    ensures { result ≡ read_at number_at wanted.Number (map (λ word. word.now) words.now) place }
{
    let Some(word) = word_at(words, place) else {
        return Err(LineFault::Word(place, Wanted::Number));
    };
    match number_of(word) {
        Some(number) => Ok(number),
        None => Err(LineFault::Word(place, Wanted::Number)),
    }
}

pub fn node_in(shape: &Shape, words: &[&[u8]], place: usize) -> Result<u32, LineFault>
    ensures { result ≡ read_at (node_of shape.now) wanted.Node (map (λ word. word.now) words.now) place }
{
    let Some(word) = word_at(words, place) else {
        return Err(LineFault::Word(place, Wanted::Node));
    };
    match read_node(shape, word) {
        Some(node) => Ok(node),
        None => Err(LineFault::Word(place, Wanted::Node)),
    }
}

fn read_node(shape: &Shape, word: &[u8]) -> Option<u32>
    ensures { result ≡ node_of shape.now word.now }
{
    let number = number_of(word)?;
    if 1 <= number && number <= u64::from(shape.nodes) {
        Some(number as u32)
    } else {
        None
    }
}

pub fn partition_in(shape: &Shape, words: &[&[u8]], place: usize) -> Result<u32, LineFault>
    ensures { result ≡ read_at (partition_of shape.now) wanted.Partition (map (λ word. word.now) words.now) place }
{
    let Some(word) = word_at(words, place) else {
        return Err(LineFault::Word(place, Wanted::Partition));
    };
    match read_partition(shape, word) {
        Some(partition) => Ok(partition),
        None => Err(LineFault::Word(place, Wanted::Partition)),
    }
}

fn read_partition(shape: &Shape, word: &[u8]) -> Option<u32>
    ensures { result ≡ partition_of shape.now word.now }
{
    let number = number_of(word)?;
    if number < u64::from(shape.partitions) {
        Some(number as u32)
    } else {
        None
    }
}

/// Whether a replica of the partition stands on the node.
pub fn holds(shape: &Shape, partition: u32, node: u32) -> bool
    requires { IsShape shape.now }
    ensures { result ≡ holds shape.now partition node }
{
    (0..shape.replicas).any(|replica| node_of(shape, partition, replica) == node)
}

/// Whether the nodes differ and hold the partition.
pub fn are_peers(shape: &Shape, partition: u32, a: u32, b: u32) -> bool
    requires { IsShape shape.now }
    ensures { result ≡ are_peers shape.now partition a b }
{
    a != b && holds(shape, partition, a) && holds(shape, partition, b)
}

pub fn new_tag_in(
    alloc: Global,
    tags: &Tags,
    words: &[&[u8]],
    place: usize,
) -> Result<Bytes, LineFault>
    ensures { Gives result (read_at (new_tag_of tags.now) wanted.NewTag (map (λ word. word.now) words.now) place) }
{
    let Some(word) = word_at(words, place) else {
        return Err(LineFault::Word(place, Wanted::NewTag));
    };
    if is_tag(word) && !tags.is_used(word) {
        Ok(Bytes::copy_of(alloc, word)?)
    } else {
        Err(LineFault::Word(place, Wanted::NewTag))
    }
}

pub fn used_tag_in(
    alloc: Global,
    tags: &Tags,
    words: &[&[u8]],
    place: usize,
) -> Result<Bytes, LineFault>
    ensures { Gives result (read_at (used_tag_of tags.now) wanted.UsedTag (map (λ word. word.now) words.now) place) }
{
    let Some(word) = word_at(words, place) else {
        return Err(LineFault::Word(place, Wanted::UsedTag));
    };
    if tags.is_used(word) {
        Ok(Bytes::copy_of(alloc, word)?)
    } else {
        Err(LineFault::Word(place, Wanted::UsedTag))
    }
}

pub fn id_in(alloc: Global, tags: &Tags, words: &[&[u8]], place: usize) -> Result<IdWord, LineFault>
    ensures { Gives result (read_at (id_word_of tags.now) wanted.Id (map (λ word. word.now) words.now) place) }
{
    let Some(word) = word_at(words, place) else {
        return Err(LineFault::Word(place, Wanted::Id));
    };
    match read_id_word(alloc, tags, word)? {
        Some(id) => Ok(id),
        None => Err(LineFault::Word(place, Wanted::Id)),
    }
}

/// What a word names: `$` and the tag of a put line before, or an id.
fn read_id_word(alloc: Global, tags: &Tags, word: &[u8]) -> Result<Option<IdWord>, Memory>
    ensures { IfOk result (λ id. id ≡ id_word_of tags.now word.now) }
{
    let Some(tag) = behind_dollar(word) else {
        return Ok(read_id(word));
    };
    if tags.is_put_tag(tag) {
        let tag = Bytes::copy_of(alloc, tag)?;
        Ok(Some(IdWord::Tag(tag)))
    } else {
        Ok(None)
    }
}

/// What stands behind the `$` that a word begins with.
fn behind_dollar(word: &[u8]) -> Option<&[u8]>
    ensures { option_copied result ≡ behind_dollar word.now }
{
    match word {
        [b'$', tag @ ..] => Some(tag),
        _ => None,
    }
}

fn read_id(word: &[u8]) -> Option<IdWord>
    ensures { result ≡ id_word_by (id_of_digits word.now) }
{
    let id = id_of_digits(word)?;
    Some(IdWord::Id(id))
}

pub fn digits_in(alloc: Global, words: &[&[u8]], place: usize) -> Result<Bytes, LineFault>
    ensures { Gives result (read_at bytes_of_digits wanted.Digits (map (λ word. word.now) words.now) place) }
{
    let Some(word) = word_at(words, place) else {
        return Err(LineFault::Word(place, Wanted::Digits));
    };
    match bytes_of_digits(alloc, word)? {
        Some(bytes) => Ok(bytes),
        None => Err(LineFault::Word(place, Wanted::Digits)),
    }
}

pub fn metadata_in(alloc: Global, words: &[&[u8]], place: usize) -> Result<Bytes, LineFault>
    ensures { Gives result (read_at metadata_of wanted.Metadata (map (λ word. word.now) words.now) place) }
{
    let Some(word) = word_at(words, place) else {
        return Err(LineFault::Word(place, Wanted::Metadata));
    };
    match bytes_of_digits(alloc, word)? {
        Some(bytes) if bytes.len() <= 1024 => Ok(bytes),
        _ => Err(LineFault::Word(place, Wanted::Metadata)),
    }
}

pub fn file_name_in(alloc: Global, words: &[&[u8]], place: usize) -> Result<Pathname, LineFault>
    ensures { Gives result (read_at file_name_of wanted.FileName (map (λ word. word.now) words.now) place) }
{
    let Some(word) = word_at(words, place) else {
        return Err(LineFault::Word(place, Wanted::FileName));
    };
    match Pathname::read(alloc, word) {
        Ok(name) => Ok(name),
        Err(WordsFault::Memory) => Err(LineFault::Memory),
        Err(WordsFault::Usage) => Err(LineFault::Word(place, Wanted::FileName)),
    }
}

pub fn type_in(alloc: Global, words: &[&[u8]], place: usize) -> Result<Bytes, LineFault>
    ensures { Gives result (read_at type_of wanted.BlobType (map (λ word. word.now) words.now) place) }
{
    let Some(word) = word_at(words, place) else {
        return Err(LineFault::Word(place, Wanted::BlobType));
    };
    if is_type(word) {
        Ok(Bytes::copy_of(alloc, word)?)
    } else {
        Err(LineFault::Word(place, Wanted::BlobType))
    }
}
