//! Reading the lines of puts, gets, infos and deletes.

ghost use Rattle.std.specs.Prelude.{◌≡◌, ◌<◌, ◌^◌, map};
ghost use Rattle.session_text.specs.Reading.{Gives, source_in, type_option, metadata_option, file_option, range_in, behind_option, behind_range, put_in, get_in, info_in, delete_in};

use crate::command::{BlobSource, Command};
use crate::fault::{LineFault, Wanted};
use crate::placed_words::{
    digits_in, ended, file_name_in, has_word, id_in, metadata_in, new_tag_in, number_in, type_in,
};
use crate::tags::Tags;
use blob_id::Bytes;
use run_words::Pathname;
use std::alloc::Global;

#[tactic(auto, unfolding(crate::specs::Reading::put_in))]
pub fn read_put(alloc: Global, tags: &Tags, words: &[&[u8]]) -> Result<Command, LineFault>
    ensures { Gives result (put_in tags.now (map (λ word. word.now) words.now)) }
{
    let tag = new_tag_in(alloc, tags, words, 1)?;
    let source = read_source(alloc, words, 2)?;
    let ctype = read_type(alloc, words, 4)?;
    let place = behind_option(words, 4, b"type");
    let meta = read_metadata(alloc, words, place)?;
    let command = Command::Put {
        tag,
        source,
        ctype,
        meta,
    };
    ended(words, behind_option(words, place, b"meta"), command)
}

/// Where the bytes of a put come from: `hex` and digits, or `file` and a name.
#[tactic(auto, unfolding(crate::specs::Reading::source_in))]
fn read_source(alloc: Global, words: &[&[u8]], place: usize) -> Result<BlobSource, LineFault>
    requires { place < 2 ^ 16 }
    ensures { Gives result (source_in (map (λ word. word.now) words.now) place) }
{
    if has_word(words, place, b"hex") {
        let bytes = digits_in(alloc, words, place + 1)?;
        return Ok(BlobSource::Line(bytes));
    }
    if has_word(words, place, b"file") {
        let name = file_name_in(alloc, words, place + 1)?;
        return Ok(BlobSource::File(name));
    }
    Err(LineFault::Word(place, Wanted::SourceForm))
}

/// `type` and a type, or no type.
#[tactic(auto, unfolding(crate::specs::Reading::type_option))]
fn read_type(alloc: Global, words: &[&[u8]], place: usize) -> Result<Bytes, LineFault>
    requires { place < 2 ^ 16 }
    ensures { Gives result (type_option (map (λ word. word.now) words.now) place) }
{
    if has_word(words, place, b"type") {
        type_in(alloc, words, place + 1)
    } else {
        Ok(Bytes::new(alloc))
    }
}

/// `meta` and metadata, or no metadata.
#[tactic(auto, unfolding(crate::specs::Reading::metadata_option))]
fn read_metadata(alloc: Global, words: &[&[u8]], place: usize) -> Result<Bytes, LineFault>
    requires { place < 2 ^ 16 }
    ensures { Gives result (metadata_option (map (λ word. word.now) words.now) place) }
{
    if has_word(words, place, b"meta") {
        metadata_in(alloc, words, place + 1)
    } else {
        Ok(Bytes::new(alloc))
    }
}

/// `file` and a name, or no name.
#[tactic(auto, unfolding(crate::specs::Reading::file_option))]
fn read_file(alloc: Global, words: &[&[u8]], place: usize) -> Result<Option<Pathname>, LineFault>
    requires { place < 2 ^ 16 }
    ensures { Gives result (file_option (map (λ word. word.now) words.now) place) }
{
    if has_word(words, place, b"file") {
        let name = file_name_in(alloc, words, place + 1)?;
        Ok(Some(name))
    } else {
        Ok(None)
    }
}

/// The place behind an optional word and the one that belongs to it, where the word stands at the place.
fn behind_option(words: &[&[u8]], place: usize, text: &[u8]) -> usize
    requires { place < 2 ^ 16 }
    ensures { result ≡ behind_option (map (λ word. word.now) words.now) place text.now }
{
    if has_word(words, place, text) {
        place + 2
    } else {
        place
    }
}

#[tactic(auto, unfolding(crate::specs::Reading::get_in))]
pub fn read_get(alloc: Global, tags: &Tags, words: &[&[u8]]) -> Result<Command, LineFault>
    ensures { Gives result (get_in tags.now (map (λ word. word.now) words.now)) }
{
    let tag = new_tag_in(alloc, tags, words, 1)?;
    let id = id_in(alloc, tags, words, 2)?;
    let range = read_range(words, 3)?;
    let place = behind_range(range, 3);
    let file = read_file(alloc, words, place)?;
    let command = Command::Get {
        tag,
        id,
        range,
        file,
    };
    ended(words, behind_option(words, place, b"file"), command)
}

/// Where a range begins, and how many bytes it has; or no range, at the end of a line or before `file`.
#[tactic(auto, unfolding(crate::specs::Reading::range_in))]
fn read_range(words: &[&[u8]], place: usize) -> Result<Option<(u64, u64)>, LineFault>
    requires { place < 2 ^ 16 }
    ensures { result ≡ range_in (map (λ word. word.now) words.now) place }
{
    if words.len() <= place || has_word(words, place, b"file") {
        return Ok(None);
    }
    let from = number_in(words, place)?;
    let len = number_in(words, place + 1)?;
    Ok(Some((from, len)))
}

/// The place behind a range, where there is one.
fn behind_range(range: Option<(u64, u64)>, place: usize) -> usize
    requires { place < 2 ^ 16 }
    ensures { result ≡ behind_range range place }
{
    match range {
        Some(_) => place + 2,
        None => place,
    }
}

#[tactic(auto, unfolding(crate::specs::Reading::info_in))]
pub fn read_info(alloc: Global, tags: &Tags, words: &[&[u8]]) -> Result<Command, LineFault>
    ensures { Gives result (info_in tags.now (map (λ word. word.now) words.now)) }
{
    let tag = new_tag_in(alloc, tags, words, 1)?;
    let id = id_in(alloc, tags, words, 2)?;
    ended(words, 3, Command::Info { tag, id })
}

#[tactic(auto, unfolding(crate::specs::Reading::delete_in))]
pub fn read_delete(alloc: Global, tags: &Tags, words: &[&[u8]]) -> Result<Command, LineFault>
    ensures { Gives result (delete_in tags.now (map (λ word. word.now) words.now)) }
{
    let tag = new_tag_in(alloc, tags, words, 1)?;
    let id = id_in(alloc, tags, words, 2)?;
    ended(words, 3, Command::Delete { tag, id })
}
