//! Laws of the definitions. This function does nothing: its contract is a theorem.
ghost use Rattle.std.specs.Prelude.{◌≡◌, List, ℕ};
ghost use Rattle.ae_separator.specs.Separators.{IsParted};

/// An input is parted in at most one way.
pub fn one_parting()
    ensures { (input b a c d : List ℕ) → IsParted input b a → IsParted input c d → (b ≡ c) × (a ≡ d) }
{}
