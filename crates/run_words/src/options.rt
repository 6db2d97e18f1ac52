//! The options behind the first word.

ghost use Rattle.std.specs.Prelude.{◌≡◌, ◌<◌, ◌≤◌, IfOk, IfSome, MatchResult, Some, None, Err, List, drop, length};
ghost use Rattle.std.specs.Option.{option_copied};
ghost use Rattle.run_words.specs.Options.{text_of, is_same, takes_path, value_for, number_for, path_for, AreOptions, AreOnce};
ghost use Rattle.run_words.specs.Reading.{name_at, body_of, name_part, value_part, word_at, value_at, given_at, first_option};
ghost use Rattle.run_words.specs.declared.options.Given.{Given as GivenValue};
ghost use Rattle.run_words.specs.declared.fault.WordsFault.TheVariants as fault;

use crate::fault::WordsFault;
use crate::numerals::number_of;
use crate::pathnames::Pathname;
use blob_id::Words;
use std::alloc::Global;

/// An option's name.
#[derive(Clone, Copy, Debug, PartialEq, Eq)]
pub enum Name {
    Nodes,
    Replicas,
    Partitions,
    Put,
    Get,
    Delete,
    Segment,
    Segments,
    Index,
    Ids,
    Folder,
    Seed,
}

impl Name {
    fn text(self) -> &'static [u8]
        ensures { result.now ≡ text_of self }
    {
        match self {
            Name::Nodes => b"nodes".as_slice(),
            Name::Replicas => b"replicas".as_slice(),
            Name::Partitions => b"partitions".as_slice(),
            Name::Put => b"put".as_slice(),
            Name::Get => b"get".as_slice(),
            Name::Delete => b"delete".as_slice(),
            Name::Segment => b"segment".as_slice(),
            Name::Segments => b"segments".as_slice(),
            Name::Index => b"index".as_slice(),
            Name::Ids => b"ids".as_slice(),
            Name::Folder => b"folder".as_slice(),
            Name::Seed => b"seed".as_slice(),
        }
    }

    fn of(text: &[u8]) -> Option<Name>
        ensures { result ≡ name_at text.now }
    {
        if text == b"nodes".as_slice() {
            Some(Name::Nodes)
        } else if text == b"replicas".as_slice() {
            Some(Name::Replicas)
        } else if text == b"partitions".as_slice() {
            Some(Name::Partitions)
        } else if text == b"put".as_slice() {
            Some(Name::Put)
        } else if text == b"get".as_slice() {
            Some(Name::Get)
        } else if text == b"delete".as_slice() {
            Some(Name::Delete)
        } else if text == b"segment".as_slice() {
            Some(Name::Segment)
        } else if text == b"segments".as_slice() {
            Some(Name::Segments)
        } else if text == b"index".as_slice() {
            Some(Name::Index)
        } else if text == b"ids".as_slice() {
            Some(Name::Ids)
        } else if text == b"folder".as_slice() {
            Some(Name::Folder)
        } else if text == b"seed".as_slice() {
            Some(Name::Seed)
        } else {
            None
        }
    }

    // Names are the same exactly where their texts are.
    fn is_same(self, other: Name) -> bool
        ensures { result ≡ is_same self other }
    {
        self.text() == other.text()
    }

    /// Whether the option's value is a pathname, and no number.
    fn takes_path(self) -> bool
        ensures { result ≡ takes_path self }
    {
        self.is_same(Name::Folder)
    }
}

/// What an option is given.
#[derive(Debug, Drop)]
pub enum Value {
    Number(u64),
    Path(Pathname),
}

/// An option with its value.
#[derive(Debug, Drop)]
pub struct Given {
    pub name: Name,
    pub value: Value,
}

/// The value that the options give for the name, where they give one.
fn value_for(options: &[Given], name: Name) -> Option<&Value>
    ensures { option_copied result ≡ value_for options.now name }
{
    match options.iter().find(|given| given.name.is_same(name)) {
        Some(given) => Some(&given.value),
        None => None,
    }
}

/// The number that the options give for the name, where they give one.
pub fn number_for(options: &[Given], name: Name) -> Option<u64>
    ensures { result ≡ number_for options.now name }
{
    match value_for(options, name) {
        Some(Value::Number(number)) => Some(*number),
        Some(Value::Path(_)) => None,
        None => None,
    }
}

/// The pathname that the options give for the name, where they give one.
pub fn path_for(options: &[Given], name: Name) -> Option<&Pathname>
    ensures { option_copied result ≡ path_for options.now name }
{
    match value_for(options, name) {
        Some(Value::Path(path)) => Some(path),
        Some(Value::Number(_)) => None,
        None => None,
    }
}

/// The first word of an option: its name, and its value where the word has one.
#[derive(Clone, Copy)]
struct Head<'a> {
    name: Name,
    value: Option<&'a [u8]>,
}

/// What stands behind the `--` that a word begins with.
fn body_of(word: &[u8]) -> Option<&[u8]>
    ensures { option_copied result ≡ body_of word.now }
{
    match word {
        [b'-', b'-', body @ ..] => Some(body),
        _ => None,
    }
}

/// What stands before the first `=`, and what stands behind it, where there is one.
fn parts_of(body: &[u8]) -> (&[u8], Option<&[u8]>)
    ensures name { result.0.now ≡ name_part body.now }
    ensures value { option_copied result.1 ≡ value_part body.now }
{
    match body.iter().position(|byte| *byte == b'=') {
        Some(place) => (&body[..place], Some(&body[place + 1..])),
        None => (body, None),
    }
}

fn head_of(word: &[u8]) -> Option<Head<'_>>
    ensures some { IfSome result (λ head. word_at word.now ≡ Some (head.name, option_copied head.value)) }
    ensures none { result ≡ None → word_at word.now ≡ None }
{
    let body = body_of(word)?;
    let (name, value) = parts_of(body);
    let name = Name::of(name)?;
    Some(Head { name, value })
}

/// The value of the option that a text spells.
fn value_of(alloc: Global, name: Name, text: &[u8]) -> Result<Value, WordsFault>
    ensures found { IfOk result (λ value. value_at name text.now ≡ Some value) }
    ensures usage { result ≡ Err fault.Usage → value_at name text.now ≡ None }
{
    if name.takes_path() {
        let path = Pathname::read(alloc, text)?;
        return Ok(Value::Path(path));
    }
    match number_of(text) {
        Some(number) => Ok(Value::Number(number)),
        None => Err(WordsFault::Usage),
    }
}

fn given_of(alloc: Global, name: Name, text: &[u8]) -> Result<Given, WordsFault>
    ensures found { IfOk result (λ given. given_at name text.now ≡ Some given) }
    ensures usage { result ≡ Err fault.Usage → given_at name text.now ≡ None }
{
    let value = value_of(alloc, name, text)?;
    Ok(Given { name, value })
}

/// An option that was read, and the place of the word behind it.
#[derive(Drop)]
struct Read {
    given: Given,
    next: usize,
}

/// The option whose words begin at the place.
fn read_option(alloc: Global, words: &Words, place: usize) -> Result<Read, WordsFault>
    ensures found { IfOk result (λ read. first_option (drop place words.now) ≡ Some (read.given, drop read.next words.now)) }
    ensures next { IfOk result (λ read. (place < read.next) × (read.next ≤ length words.now)) }
    ensures usage { result ≡ Err fault.Usage → first_option (drop place words.now) ≡ None }
{
    if place >= words.len() {
        return Err(WordsFault::Usage);
    }
    let next = place + 1;
    let Some(word) = words.at(place) else {
        return Err(WordsFault::Usage);
    };
    let Some(head) = head_of(word.as_bytes()) else {
        return Err(WordsFault::Usage);
    };
    match head.value {
        Some(value) => {
            let given = given_of(alloc, head.name, value)?;
            Ok(Read { given, next })
        }
        None => {
            let Some(value) = words.at(next) else {
                return Err(WordsFault::Usage);
            };
            let given = given_of(alloc, head.name, value.as_bytes())?;
            Ok(Read {
                given,
                next: next + 1,
            })
        }
    }
}

/// The options that the words behind the first one spell, each given at most once.
pub fn read_options(alloc: Global, words: &Words) -> Result<Vec<Given>, WordsFault>
    ensures found { IfOk result (λ options. AreOptions options.items (drop 1 words.now) × AreOnce options.items) }
    ensures only { (options : List GivenValue) → AreOptions options (drop 1 words.now) → AreOnce options
        → MatchResult result (λ read. read.items ≡ options) (λ reason. reason ≡ fault.Memory) }
{
    let mut options: Vec<Given> = Vec::new(alloc);
    let mut place = 1;
    while place < words.len() {
        let read = read_option(alloc, words, place)?;
        if value_for(options.as_slice(), read.given.name).is_some() {
            return Err(WordsFault::Usage);
        }
        options.push(read.given)?;
        place = read.next;
    }
    Ok(options)
}
