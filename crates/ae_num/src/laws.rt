//! Laws of the definitions. This function does nothing: its contract is a theorem.
ghost use Rattle.std.specs.Prelude.{◌≡◌};
ghost use Rattle.ae_num.specs.Forms.{meaning, SameMeaning, IsNormal};
ghost use Rattle.ae_num.specs.declared.forms.Lin.{Lin};

/// Normal forms with one meaning are equal.
pub fn normal_forms_are_unique()
    ensures { (p q : Lin) → IsNormal p → IsNormal q → SameMeaning (meaning p) (meaning q) → p ≡ q }
{}
