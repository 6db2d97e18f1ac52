//! The words of a line, and what a word may be.

ghost use Rattle.std.specs.Prelude.{◌≡◌, IfOk, map, slice_get};
ghost use Rattle.std.specs.List.{list_all};
ghost use Rattle.std.specs.Option.{option_copied};
ghost use Rattle.std.specs.Str.{bytes_eq};
ghost use Rattle.blob_id.specs.Blob.{is_type_byte};
ghost use Rattle.session_text.specs.Texts.{is_blank, words_of, is_comment, is_letter, is_tag_byte, is_tag, is_type, bytes_of_digits, id_of_digits};

use blob_id::{BlobId, Bytes, Memory};
use hex::FromHexError;
use std::alloc::{AllocError, Global};
use std::str;

/// The words of a line: what spaces and tabs divide.
pub fn words_of(alloc: Global, line: &[u8]) -> Result<Vec<&[u8]>, AllocError>
    ensures { IfOk result (λ words. map (λ word. word.now) words.items ≡ words_of line.now) }
{
    line.split(|byte| is_blank(*byte))
        .filter(|word| !word.is_empty())
        .collect(alloc)
}

fn is_blank(byte: u8) -> bool
    ensures { result ≡ is_blank byte }
{
    byte == b' ' || byte == b'\t'
}

/// The word at a place.
pub fn word_at<'a>(words: &[&'a [u8]], place: usize) -> Option<&'a [u8]>
    ensures { option_copied result ≡ slice_get (map (λ word. word.now) words.now) place }
{
    match words.get(place) {
        Some(word) => Some(*word),
        None => None,
    }
}

/// Whether two texts are the same.
pub fn is_same(word: &[u8], text: &[u8]) -> bool
    ensures { result ≡ bytes_eq word.now text.now }
{
    word == text
}

/// Whether a line whose first word this is is a comment.
pub fn is_comment(word: &[u8]) -> bool
    ensures { result ≡ is_comment word.now }
{
    match word {
        [first, ..] => *first == b'#',
        [] => false,
    }
}

fn is_letter(byte: u8) -> bool
    ensures { result ≡ is_letter byte }
{
    byte.is_ascii_alphabetic()
}

fn is_tag_byte(byte: u8) -> bool
    ensures { result ≡ is_tag_byte byte }
{
    is_letter(byte) || byte.is_ascii_digit() || byte == b'_'
}

fn are_tag_bytes(bytes: &[u8]) -> bool
    ensures { result ≡ list_all is_tag_byte bytes.now }
{
    bytes.iter().all(|byte| is_tag_byte(*byte))
}

/// Whether the word is a letter and up to 31 letters, digits or `_` behind it.
pub fn is_tag(word: &[u8]) -> bool
    ensures { result ≡ is_tag word.now }
{
    match word {
        [first, rest @ ..] => { is_letter(*first) && rest.len() <= 31 && are_tag_bytes(rest) }
        [] => false,
    }
}

fn are_type_bytes(bytes: &[u8]) -> bool
    ensures { result ≡ list_all is_type_byte bytes.now }
{
    bytes.iter().all(|byte| 33 <= *byte && *byte <= 126)
}

/// Whether the word is 1 to 64 printable bytes, and no `-` alone.
pub fn is_type(word: &[u8]) -> bool
    ensures { result ≡ is_type word.now }
{
    1 <= word.len() && word.len() <= 64 && are_type_bytes(word) && !is_same(word, b"-")
}

/// The bytes that the digits spell: `-` for none, else two digits for each byte.
pub fn bytes_of_digits(alloc: Global, digits: &[u8]) -> Result<Option<Bytes>, Memory>
    ensures { IfOk result (λ bytes. bytes ≡ bytes_of_digits digits.now) }
{
    if is_same(digits, b"-") {
        return Ok(Some(Bytes::new(alloc)));
    }
    if digits.is_empty() {
        return Ok(None);
    }
    match hex::decode(alloc, digits) {
        Ok(bytes) => Ok(Some(Bytes::from_vec(bytes))),
        Err(FromHexError::OutOfMemory) => Err(Memory),
        Err(_) => Ok(None),
    }
}

/// The id that 40 digits spell, in lower case.
pub fn id_of_digits(digits: &[u8]) -> Option<BlobId>
    ensures { result ≡ id_of_digits digits.now }
{
    match str::from_utf8(digits) {
        Ok(text) => BlobId::parse_hex(text).ok(),
        Err(_) => None,
    }
}
