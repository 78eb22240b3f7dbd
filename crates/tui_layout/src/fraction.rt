//! Fractions.

ghost use Rattle.std.specs.Prelude.{◌≡◌};

/// A fraction as it is written. Two are equal if both numbers are, so 1/2 is not 2/4.
#[derive(Clone, Copy, Debug, PartialEq, Eq)]
pub struct Fraction {
    pub num: u64,
    /// May be 0. Whatever takes a fraction then rejects it.
    pub den: u64,
}

impl Fraction {
    /// `num` over `den`.
    pub fn new(num: u64, den: u64) -> Fraction
        ensures { result ≡ record { num = num; den = den } }
    {
        Fraction { num, den }
    }
}
