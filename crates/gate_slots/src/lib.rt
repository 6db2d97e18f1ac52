//! A cell of a disk that a stop of the machine leaves with its old or its new value, of up to 1,011 bytes.
//!
//! # Values
//!
//! A cell is two slots of 1,024 bytes, each with a gate, a sequence, a length and bytes. It stands for the bytes of the open
//! slot with the greater sequence, or for none. `Slots` keeps where the cell begins, the sequence, and which slot is current.
//!
//! # Public calls
//!
//! `Slots::load` reads a cell, `Slots::restart` does so behind a stop, `Slots::replace` gives it another value. `close_gate`
//! and `write_gated` are the same steps for any bytes behind a gate byte, `OPEN` is the byte of an open gate.
//!
//! # Proved
//!
//! Over disks that tell their bytes:
//! - at every moment of `replace` a crash leaves the cell with its old value, or the new one under the next sequence, and all
//!   other bytes of the disk as they were (`during`, `crash`); behind Ok the new value stands and is stable (`value`, `only`);
//!   behind a failure reads elsewhere give what they gave (`outside`), and what is kept in memory stays (`kept`);
//! - `load` gives exactly what the bytes stand for, and `restart` the old or the new value;
//! - `write_gated` opens the gate only behind bytes that are stable (`during`), and `close_gate` writes no closed gate (`during`) and
//!   a 0 over an open one (`zero`).
//!
//! Over every disk `TooLong` comes exactly above 1,011 bytes, and `Failed` only where the disk's count of faults rose.
//!
//! # Tested
//!
//! The bytes that a replacement writes. `part_log` cuts replacements off in each call of the disk.
//!
//! # Trusted
//!
//! That a real disk keeps the disk's model: it doesn't tear a sector around the bytes that are written.
#![tactic(auto)]

mod fault;
mod gate;
mod replacing;
mod slot;
mod slots;

pub use fault::SlotFault;
pub use gate::{OPEN, close_gate, write_gated};
pub use slot::LONGEST_VALUE;
pub use slots::Slots;

#[cfg(test)]
mod tests;
