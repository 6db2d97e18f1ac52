//! What each of many operations hears of an event.

ghost use Rattle.std.specs.Prelude.{◌≡◌, ℕ, true, false};
ghost use Rattle.op_table.specs.Addressed.{event_in, heard_by};
ghost use Rattle.op_table.specs.declared.heard.Heard.TheVariants as variant;

use crate::heard::Heard;
use std::mem;

/// What an operation hears of an event. A reply to it is taken out, and what the others hear stays.
pub fn take_for(heard: &mut Heard, operation: u32) -> Heard
    ensures mine { result ≡ heard_by operation heard.old }
    ensures others { (other : ℕ) → (operation ≡ other → ⊥) → heard_by other heard.new ≡ heard_by other heard.old }
{
    if is_for(heard, operation) {
        mem::replace(heard, Heard::Quiet)
    } else {
        event_of(heard)
    }
}

/// What was heard is for an operation alone.
fn is_for(heard: &Heard, operation: u32) -> bool
    ensures mine { result ≡ true → heard_by operation heard.now ≡ heard.now }
    ensures others { result ≡ true → (other : ℕ) → (operation ≡ other → ⊥) → heard_by other heard.now ≡ variant.Quiet }
    ensures none { result ≡ false → heard_by operation heard.now ≡ event_in heard.now }
{
    match heard {
        Heard::Answer { correlation, .. } | Heard::Stray { correlation, .. } => {
            *correlation / (1 << 32) == u64::from(operation)
        }
        Heard::Broken { .. } | Heard::Now { .. } | Heard::Quiet => false,
    }
}

/// What all operations hear: a reply is just an event.
fn event_of(heard: &Heard) -> Heard
    ensures { result ≡ event_in heard.now }
{
    match heard {
        Heard::Broken { node } => Heard::Broken { node: *node },
        Heard::Now { ms } => Heard::Now { ms: *ms },
        Heard::Answer { .. } | Heard::Stray { .. } | Heard::Quiet => Heard::Quiet,
    }
}
