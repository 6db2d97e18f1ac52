//! What takes the records that an opening finds.

ghost use Rattle.std.specs.Prelude.{◌≡◌, ◌++◌, ◌∷◌, [], OnOk};
ghost use Rattle.part_log.specs.declared.segment.Found.{Found};

use crate::segment::Found;
use blob_id::Memory;

/// What takes the records of a log as they are found, one after the other, in log order.
pub trait Collect {
    /// Whether taking a record can make the second one of the first.
    ghost takes: { Self → Found → Self → Type 0 };

    /// Takes the record that was found next. After `Memory` nothing is known of what was taken.
    fn take(&mut self, found: Found) -> Result<(), Memory>
        ensures taken { OnOk result (takes self.old found self.new) };
}

/// A list takes all of them.
impl Collect for Vec<Found> {
    ghost takes = { λ old found new. new.items ≡ old.items ++ found ∷ [] };

    fn take(&mut self, found: Found) -> Result<(), Memory>
        ensures taken { OnOk result (self.new.items ≡ self.old.items ++ found ∷ []) }
    {
        self.push(found)?;
        Ok(())
    }
}
