//! What a disk keeps, and the calls of the system that a disk in a file makes.

mod files;
mod host;
mod kept;
