//! The settings that words give.

ghost use Rattle.std.specs.Prelude.{◌≡◌, ◌≤◌, IfOk, IfErr, IfSome, MatchResult, MatchOption, MatchBool, Some, None, List, ◌∷◌, Err, drop, codes, ℕ};
ghost use Rattle.std.specs.Prelude.{◌^◌, ◌-◌};
ghost use Rattle.world_model.specs.Shape.{IsShape};
ghost use Rattle.world_model.specs.declared.shape.LogNumbers.{LogNumbers as LogValue};
ghost use Rattle.world_model.specs.declared.shape.Shape.{Shape as ShapeValue};
ghost use Rattle.run_words.specs.Options.{number_for, path_for};
ghost use Rattle.run_words.specs.Pathnames.{Text};
ghost use Rattle.run_words.specs.Settings.{IsNumber, majority, least_segment, path_or, GivesLog, GivesShape, GivesSettings, Spells};
ghost use Rattle.run_words.specs.declared.options.Name.TheVariants as name;
ghost use Rattle.run_words.specs.declared.settings.Settings.{Settings as SettingsValue};
ghost use Rattle.run_words.specs.declared.fault.WordsFault.TheVariants as fault;

use crate::fault::WordsFault;
use crate::options::{Given, Name, number_for, path_for, read_options};
use crate::pathnames::Pathname;
use blob_id::Words;
use std::alloc::Global;
use world_model::{LogNumbers, Shape};

/// What a run is asked for: the cluster's shape, the nonce of counted ids, where ids are counted, the seed of the schedule,
/// and the folder of the disks.
#[derive(Debug, Drop)]
pub struct Settings {
    pub shape: Shape,
    pub ids: Option<u64>,
    pub seed: u64,
    pub folder: Pathname,
}

/// The settings that the words of a command line, the first of them `run`, spell.
pub fn read_words(alloc: Global, words: &Words) -> Result<Settings, WordsFault>
    // What is read is spelled by the words.
    ensures found { IfOk result (λ settings. Spells settings words.now) }
    // Whatever the words spell is read, unless memory runs out.
    ensures only { (settings : SettingsValue) → Spells settings words.now
        → MatchResult result (λ read. read ≡ settings) (λ reason. reason ≡ fault.Memory) }
    // Usage is answered only where the words spell nothing.
    ensures usage { result ≡ Err fault.Usage → (settings : SettingsValue) → Spells settings words.now → ⊥ }
    ensures shape { IfOk result (λ settings. IsShape settings.shape) }
{
    if !begins_with_run(words) {
        return Err(WordsFault::Usage);
    }
    let options = read_options(alloc, words)?;
    settings_of(alloc, options.as_slice())
}

/// The law of the words of command lines.
pub fn words_laws()
    // Words spell the settings of one run at most.
    ensures unique { (first second : SettingsValue) (words : List Text) → Spells first words → Spells second words → first ≡ second }
{}

/// Whether the first word is `run`.
fn begins_with_run(words: &Words) -> bool
    ensures { MatchBool result (words.now ≡ codes "run" ∷ drop 1 words.now) ((rest : List Text) → words.now ≡ codes "run" ∷ rest → ⊥) }
{
    match words.at(0) {
        Some(word) => word == "run",
        None => false,
    }
}

/// The settings that the options give, where each number lies in its range.
fn settings_of(alloc: Global, options: &[Given]) -> Result<Settings, WordsFault>
    ensures found { IfOk result (λ settings. GivesSettings options.now settings) }
    ensures only { (settings : SettingsValue) → GivesSettings options.now settings
        → MatchResult result (λ read. read ≡ settings) (λ reason. reason ≡ fault.Memory) }
{
    let Some(shape) = shape_of(options) else {
        return Err(WordsFault::Usage);
    };
    let seed = match number_for(options, Name::Seed) {
        Some(seed) => seed,
        None => 0,
    };
    let folder = folder_of(alloc, options)?;
    Ok(Settings {
        shape,
        ids: number_for(options, Name::Ids),
        seed,
        folder,
    })
}

/// The folder that the options give, or `ambry-data`.
fn folder_of(alloc: Global, options: &[Given]) -> Result<Pathname, WordsFault>
    ensures folder { IfOk result (λ folder. folder ≡ path_or (path_for options.now name.Folder) (codes "ambry-data")) }
    ensures memory { IfErr result (λ reason. reason ≡ fault.Memory) }
{
    match path_for(options, Name::Folder) {
        Some(path) => {
            let path = path.copy(alloc)?;
            Ok(path)
        }
        None => Pathname::read(alloc, b"ambry-data".as_slice()),
    }
}

/// The shape that the options give, where each number lies in its range.
fn shape_of(options: &[Given]) -> Option<Shape>
    ensures some { IfSome result (λ shape. GivesShape options.now shape) }
    ensures only { (shape : ShapeValue) → GivesShape options.now shape → result ≡ Some shape }
{
    let nodes = number_in(options, Name::Nodes, 3, 1, 9)?;
    let replicas = number_in(options, Name::Replicas, nodes.min(3), 1, nodes)?;
    let partitions = number_in(options, Name::Partitions, 4, 1, 64)?;
    let put = need_in(options, Name::Put, replicas)?;
    let get = need_in(options, Name::Get, replicas)?;
    let delete = need_in(options, Name::Delete, replicas)?;
    let chunk = 65_536;
    let log = log_of(options, chunk)?;
    Some(Shape {
        nodes,
        replicas,
        partitions,
        put,
        get,
        delete,
        chunk,
        log,
    })
}

/// The numbers that the options give for the logs of a cluster with chunks of this size, where each lies in its range.
fn log_of(options: &[Given], chunk: u32) -> Option<LogNumbers>
    requires chunk { chunk ≤ 4194304 }
    ensures some { IfSome result (λ log. GivesLog options.now chunk log) }
    ensures only { (log : LogValue) → GivesLog options.now chunk log → result ≡ Some log }
{
    let least = least_segment(chunk);
    let segment = number_in(options, Name::Segment, 1_048_576, least, 16_777_216)?;
    let segments = number_in(options, Name::Segments, 8, 2, 64)?;
    let index = number_in(options, Name::Index, 256, 2, 4_096)?;
    Some(LogNumbers {
        segment,
        segments: segments as u16,
        index: index as u16,
    })
}

/// The least bytes of a segment, which has room for a chunk and its record.
fn least_segment(chunk: u32) -> u32
    requires chunk { chunk ≤ 4194304 }
    ensures { result ≡ least_segment chunk }
{
    (chunk + 1_200).max(4_096)
}

/// How many of these replicas an operation needs, where the options' number, or more than half, lies in its range.
fn need_in(options: &[Given], name: Name, replicas: u32) -> Option<u32>
    ensures some { IfSome result (λ need. IsNumber (number_for options.now name) (majority replicas) 1 replicas need) }
    ensures only { (need : ℕ) → IsNumber (number_for options.now name) (majority replicas) 1 replicas need → result ≡ Some need }
{
    number_in(options, name, majority(replicas), 1, replicas)
}

fn majority(replicas: u32) -> u32
    ensures { result ≡ majority replicas }
{
    replicas / 2 + 1
}

/// The number that the options give for the name, or the default where they give none, where it lies in its range.
fn number_in(options: &[Given], name: Name, default: u32, least: u32, most: u32) -> Option<u32>
    ensures some { IfSome result (λ number. IsNumber (number_for options.now name) default least most number) }
    ensures only { (number : ℕ) → IsNumber (number_for options.now name) default least most number → result ≡ Some number }
{
    let number = match number_for(options, name) {
        Some(number) => number,
        None => u64::from(default),
    };
    if u64::from(least) <= number && number <= u64::from(most) {
        Some(number as u32)
    } else {
        None
    }
}
