//! What requests ask for.

/// What a request asks for, without what it carries.
#[derive(Clone, Copy, Debug, PartialEq, Eq)]
pub enum Asking {
    Put,
    Get,
    Peek,
    Delete,
    /// What no router asks a replica.
    Other,
}
