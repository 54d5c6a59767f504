//! Numbers of linear forms.

ghost use Rattle.std.specs.Prelude.{◌≡◌, ℤ, IsTrue, FitsSigned};
ghost use Rattle.std.specs.Int.{w128};
ghost use Rattle.std.specs.Option.{SomeIff};
ghost use Rattle.num_theory.specs.Number as spec;

/// A number of a linear form: exact in 128 bits, and lost beyond. What is made of a lost number is lost, but 0 times it is
/// 0.
#[derive(Clone, Copy, Debug, PartialEq, Eq)]
pub enum Number {
    Exact(i128),
    Lost,
}

impl Number {
    pub fn plus(self, other: Number) -> Number
        ensures { result ≡ spec.sum self other }
    {
        match self {
            Number::Exact(a) => match other {
                Number::Exact(b) => kept(a.checked_add(b)),
                Number::Lost => Number::Lost,
            },
            Number::Lost => Number::Lost,
        }
    }

    pub fn times(self, other: Number) -> Number
        ensures { result ≡ spec.product self other }
    {
        match self {
            Number::Exact(a) => match other {
                Number::Exact(b) => kept(a.checked_mul(b)),
                Number::Lost => times_lost(a),
            },
            Number::Lost => match other {
                Number::Exact(b) => times_lost(b),
                Number::Lost => Number::Lost,
            },
        }
    }

    pub fn is_zero(self) -> bool
        ensures { result ≡ spec.is_zero self }
    {
        match self {
            Number::Exact(number) => number == 0,
            Number::Lost => false,
        }
    }

    /// Whether the magnitude is below 2^31.
    pub fn is_narrow(self) -> bool
        ensures { result ≡ spec.is_narrow self }
    {
        match self {
            Number::Exact(number) => number > -WIDE && number < WIDE,
            Number::Lost => false,
        }
    }

    /// The integer that a narrow number is.
    pub fn exact(self) -> i32
        requires { IsTrue (spec.is_narrow self) }
        ensures { result ≡ spec.exact self }
    {
        match self {
            Number::Exact(number) => number as i32,
            Number::Lost => 0,
        }
    }
}

// The least magnitude of a wide number.
const WIDE: i128 = 1 << 31;

/// The number that fits, or else a lost one.
fn kept(number: Option<i128>) -> Number
    ensures { (z : ℤ) → SomeIff number (FitsSigned w128 z) z → result ≡ spec.kept z }
{
    match number {
        Some(number) => Number::Exact(number),
        None => Number::Lost,
    }
}

fn times_lost(number: i128) -> Number
    ensures { result ≡ spec.times_lost number }
{
    if number == 0 {
        Number::Exact(0)
    } else {
        Number::Lost
    }
}
