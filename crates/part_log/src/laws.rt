//! Laws of what bytes stand for, and of what is wrong with them.

ghost use Rattle.std.specs.Prelude.{◌≡◌, ℕ, List};
ghost use Rattle.log_manifest.specs.declared.manifest.LogSettings.{LogSettings};
ghost use Rattle.msg_format.specs.declared.record.Record.{Record};
ghost use Rattle.part_log.specs.Images.{IsDamaged, IsLaidOut, NamesOther, StandsFor};
ghost use Rattle.part_log.specs.Layout.{Layout};

/// The laws of the logs that bytes stand for, and of bytes that stand for none.
pub fn log_laws()
    // Bytes stand for one list of records, and one end lsn.
    ensures records { (settings : LogSettings) (bytes : List ℕ) (xs ys : List Record) (m n : ℕ) → StandsFor settings bytes xs m → StandsFor settings bytes ys n → xs ≡ ys }
    ensures end { (settings : LogSettings) (bytes : List ℕ) (xs ys : List Record) (m n : ℕ) → StandsFor settings bytes xs m → StandsFor settings bytes ys n → m ≡ n }
    // They have one layout.
    ensures layout { (settings : LogSettings) (bytes : List ℕ) (k l : Layout) → IsLaidOut settings bytes k → IsLaidOut settings bytes l → k ≡ l }
    ensures some_layout { (settings : LogSettings) (bytes : List ℕ) (xs : List Record) (n : ℕ) → StandsFor settings bytes xs n → (layout : Layout) × IsLaidOut settings bytes layout }
    // They are neither damaged nor those of other settings.
    ensures undamaged { (settings : LogSettings) (bytes : List ℕ) (xs : List Record) (n at : ℕ) → StandsFor settings bytes xs n → IsDamaged settings bytes at → ⊥ }
    ensures names_its_own { (settings other : LogSettings) (bytes : List ℕ) (xs : List Record) (n : ℕ) → StandsFor settings bytes xs n → NamesOther settings other bytes → ⊥ }
    // Damage has one place.
    ensures one_damage { (settings : LogSettings) (bytes : List ℕ) (a b : ℕ) → IsDamaged settings bytes a → IsDamaged settings bytes b → a ≡ b }
{}
