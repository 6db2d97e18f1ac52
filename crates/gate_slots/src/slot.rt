//! The bytes of a slot: a gate (1), a sequence (8), a length (4), and that many bytes. Numbers are big-endian.

ghost use Rattle.std.specs.Prelude.{◌≡◌, ◌+◌, ◌≤◌, ◌++◌, length, take};
ghost use Rattle.gate_slots.specs.Cell.{is_open, slot_rest, slot_sequence, slot_value};

use crate::OPEN;

/// How many bytes a slot has.
pub const SLOT: usize = 1024;

/// How many of them stand behind its gate.
pub const REST: usize = 1023;

/// How many of these say which sequence the slot has and how long its value is.
pub const HEAD: usize = 12;

/// How many bytes a cell can hold.
pub const LONGEST_VALUE: usize = 1011;

/// The sequence that a slot names.
pub fn sequence_of(slot: &[u8]) -> u64
    requires { length slot.now ≡ SLOT }
    ensures { result ≡ slot_sequence slot.now }
{
    u64::from_be_bytes([
        slot[1], slot[2], slot[3], slot[4], slot[5], slot[6], slot[7], slot[8],
    ])
}

/// Whether a slot counts. A sequence of 2^63 or more closes it, whatever its gate.
pub fn is_open(slot: &[u8]) -> bool
    requires { length slot.now ≡ SLOT }
    ensures { result ≡ is_open slot.now }
{
    slot[0] == OPEN && sequence_of(slot) < 1 << 63
}

/// The bytes that a slot holds, the first 1,011 where it names a greater length.
pub fn value_of(slot: &[u8]) -> &[u8]
    requires { length slot.now ≡ SLOT }
    ensures value { result.now ≡ slot_value slot.now }
    ensures short { length result.now ≤ LONGEST_VALUE }
{
    let length = u32::from_be_bytes([slot[9], slot[10], slot[11], slot[12]]) as usize;
    &slot[13..13 + length.min(LONGEST_VALUE)]
}

/// Puts the bytes of a slot behind its gate into a buffer, from its start on.
pub fn put_rest(buf: &mut [u8], sequence: u64, bytes: &[u8])
    requires fits { length bytes.now ≤ LONGEST_VALUE }
    requires room { length buf.old ≡ REST }
    ensures { take (HEAD + length bytes.now) buf.new ≡ slot_rest sequence bytes.now }
{
    put_behind(buf, 0, &sequence.to_be_bytes());
    put_behind(buf, 8, &(bytes.len() as u32).to_be_bytes());
    put_behind(buf, HEAD, bytes);
}

// Puts bytes behind the first ones.
fn put_behind(buf: &mut [u8], at: usize, bytes: &[u8])
    requires { at + length bytes.now ≤ length buf.old }
    ensures { take (at + length bytes.now) buf.new ≡ take at buf.old ++ bytes.now }
{
    buf[at..at + bytes.len()].copy_from_slice(bytes);
}
