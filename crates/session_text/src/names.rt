//! The names of commands.

ghost use Rattle.std.specs.Prelude.{◌≡◌};
ghost use Rattle.session_text.specs.Names.{name_at};

/// The name of a command.
#[derive(Clone, Copy, Debug, PartialEq, Eq)]
pub enum Name {
    Put,
    Get,
    Info,
    Delete,
    Cancel,
    Wait,
    Drain,
    Undrain,
    Stop,
    Restart,
    Pull,
    Compact,
    Level,
    End,
}

impl Name {
    /// The name that a word is, where it is one.
    pub fn of(word: &[u8]) -> Option<Name>
        ensures { result ≡ name_at word.now }
    {
        if word == b"put".as_slice() {
            Some(Name::Put)
        } else if word == b"get".as_slice() {
            Some(Name::Get)
        } else if word == b"info".as_slice() {
            Some(Name::Info)
        } else if word == b"del".as_slice() {
            Some(Name::Delete)
        } else if word == b"cancel".as_slice() {
            Some(Name::Cancel)
        } else if word == b"wait".as_slice() {
            Some(Name::Wait)
        } else if word == b"drain".as_slice() {
            Some(Name::Drain)
        } else if word == b"undrain".as_slice() {
            Some(Name::Undrain)
        } else if word == b"stop".as_slice() {
            Some(Name::Stop)
        } else if word == b"restart".as_slice() {
            Some(Name::Restart)
        } else if word == b"pull".as_slice() {
            Some(Name::Pull)
        } else if word == b"compact".as_slice() {
            Some(Name::Compact)
        } else if word == b"level".as_slice() {
            Some(Name::Level)
        } else if word == b"end".as_slice() {
            Some(Name::End)
        } else {
            None
        }
    }
}
