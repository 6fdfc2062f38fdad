//! Laws of the definitions. These functions do nothing: each one's contract is a theorem.
ghost use Rattle.std.specs.Prelude.{◌≡◌, ◌*ℤ◌, ◌<ℤ◌, ℕ, ℤ, pos, None};
ghost use Rattle.ae_num.specs.declared.forms.Lin.{Lin};
ghost use Rattle.ae_num.specs.Forms.{IsNormal, first_wide, factor_of};
ghost use Rattle.ae_num.specs.Limits.{FitsLimits};
ghost use Rattle.ae_num.specs.Forms.{combine_steps};

/// The numbers of the line that sums two rows are within the limits where their combination could be computed.
pub fn line_numbers_fit()
    ensures times { (n : ℕ) (p q : Lin) (d m : ℤ) → first_wide (combine_steps p n q) ≡ None → pos 0 <ℤ d → pos 0 <ℤ m → d *ℤ m ≡ p.den *ℤ q.den → FitsLimits d }
    ensures factors { (p : Lin) (n : ℕ) → IsNormal p → FitsLimits (factor_of p.parts n) }
{}
