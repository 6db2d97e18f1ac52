//! Reading a line of a script.

ghost use Rattle.std.specs.Prelude.{◌≡◌, IfOk, IfErr, MatchResult, map};
ghost use Rattle.world_model.specs.Shape.{IsShape};
ghost use Rattle.session_text.specs.declared.command.Command.{Command as Asks};
ghost use Rattle.session_text.specs.declared.fault.LineFault.TheVariants as fault;
ghost use Rattle.session_text.specs.Spelling.{Spells, IsRefusal};
ghost use Rattle.session_text.specs.Texts.{is_nothing};
ghost use Rattle.session_text.specs.Reading.{Gives, cancel_in, wait_in, command_behind, command_in, line_in};

use crate::command::Command;
use crate::fault::LineFault;
use crate::names::Name;
use crate::operations::{read_delete, read_get, read_info, read_put};
use crate::orders::{read_compact, read_drain, read_level, read_pull, read_restart, read_stop};
use crate::placed_words::{ended, name_in, used_tag_in};
use crate::tags::{Scope, Tags};
use crate::texts::{is_comment, words_of};
use std::alloc::Global;

/// The bytes that a line has at most, without its end.
const LONGEST_LINE: usize = 1_048_576;

/// The command that a line spells, the line without its end. Where it spells none, the first word is answered that isn't what
/// has to stand at its place.
pub fn read_line(alloc: Global, line: &[u8], scope: &Scope) -> Result<Command, LineFault>
    requires { IsShape scope.now.shape }
    // What is read is spelled by the line.
    ensures spelled { IfOk result (λ command. Spells scope.now command line.now) }
    // Whatever the line spells is read, unless memory runs out: so no good line is refused.
    ensures only { (command : Asks) → Spells scope.now command line.now → MatchResult result (λ read. read ≡ command) (λ refusal. refusal ≡ fault.Memory) }
    // No good line begins with the same words as a line that is refused at a word, up to this one.
    ensures refused { IfErr result (λ refusal. IsRefusal scope.now line.now refusal) }
    // A refusal is at the first word that reading from left to right doesn't take, and says what has to stand there.
    ensures read { Gives result (line_in scope.now line.now) }
{
    read_command(alloc, line, scope)
}

#[tactic(auto, unfolding(crate::specs::Reading::line_in))]
fn read_command(alloc: Global, line: &[u8], scope: &Scope) -> Result<Command, LineFault>
    requires { IsShape scope.now.shape }
    ensures { Gives result (line_in scope.now line.now) }
{
    if line.len() > LONGEST_LINE {
        return Err(LineFault::TooLong);
    }
    let words = words_of(alloc, line)?;
    read_words(alloc, words.as_slice(), scope)
}

#[tactic(auto, unfolding(crate::specs::Reading::command_in))]
fn read_words(alloc: Global, words: &[&[u8]], scope: &Scope) -> Result<Command, LineFault>
    requires { IsShape scope.now.shape }
    ensures { Gives result (command_in scope.now (map (λ word. word.now) words.now)) }
{
    if is_nothing(words) {
        return Ok(Command::Skip);
    }
    let name = name_in(words, 0)?;
    read_behind(alloc, scope, name, words)
}

/// Whether the line has no words, or is a comment.
fn is_nothing(words: &[&[u8]]) -> bool
    ensures { result ≡ is_nothing (map (λ word. word.now) words.now) }
{
    match words {
        [first, ..] => is_comment(first),
        [] => true,
    }
}

/// Reads what stands behind the name of a command.
#[tactic(auto, unfolding(crate::specs::Reading::command_behind))]
fn read_behind(
    alloc: Global,
    scope: &Scope,
    name: Name,
    words: &[&[u8]],
) -> Result<Command, LineFault>
    requires { IsShape scope.now.shape }
    ensures { Gives result (command_behind scope.now name (map (λ word. word.now) words.now)) }
{
    match name {
        Name::Put => read_put(alloc, &scope.tags, words),
        Name::Get => read_get(alloc, &scope.tags, words),
        Name::Info => read_info(alloc, &scope.tags, words),
        Name::Delete => read_delete(alloc, &scope.tags, words),
        Name::Cancel => read_cancel(alloc, &scope.tags, words),
        Name::Wait => read_wait(alloc, &scope.tags, words),
        Name::Drain => read_drain(&scope.shape, true, words),
        Name::Undrain => read_drain(&scope.shape, false, words),
        Name::Stop => read_stop(&scope.shape, words),
        Name::Restart => read_restart(&scope.shape, words),
        Name::Pull => read_pull(&scope.shape, words),
        Name::Compact => read_compact(&scope.shape, words),
        Name::Level => read_level(&scope.shape, words),
        Name::End => ended(words, 1, Command::End),
    }
}

#[tactic(auto, unfolding(crate::specs::Reading::cancel_in))]
fn read_cancel(alloc: Global, tags: &Tags, words: &[&[u8]]) -> Result<Command, LineFault>
    ensures { Gives result (cancel_in tags.now (map (λ word. word.now) words.now)) }
{
    let tag = used_tag_in(alloc, tags, words, 1)?;
    ended(words, 2, Command::Cancel { tag })
}

#[tactic(auto, unfolding(crate::specs::Reading::wait_in))]
fn read_wait(alloc: Global, tags: &Tags, words: &[&[u8]]) -> Result<Command, LineFault>
    ensures { Gives result (wait_in tags.now (map (λ word. word.now) words.now)) }
{
    if words.len() <= 1 {
        return Ok(Command::Wait { tag: None });
    }
    let tag = used_tag_in(alloc, tags, words, 1)?;
    ended(words, 2, Command::Wait { tag: Some(tag) })
}
