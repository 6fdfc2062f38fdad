//! Common divisors.
ghost use Rattle.std.specs.Prelude.{◌≡◌, ◌≤◌, ◌∷◌, []};
ghost use Rattle.std.specs.Int.{IsGcd};
ghost use Rattle.ae_valuetext.specs.Parts.{is_lowest};

/// The greatest common divisor, by Euclid's steps.
pub fn gcd(left: u128, right: u128) -> u128
    ensures { IsGcd left right result }
{
    let mut a = left;
    let mut b = right;
    while b != 0 {
        let rest = a % b;
        a = b;
        b = rest;
    }
    a
}

/// Whether no number above 1 divides both.
pub fn is_coprime(left: u128, right: u128) -> bool
    requires { 1 ≤ left }
    ensures { result ≡ is_lowest left (right ∷ []) }
{
    gcd(left, right) == 1
}
