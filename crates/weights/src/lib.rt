// What is asked of one weight: of every f64 its half, its magnitude and whether it is finite; of a finite one its bits without the sign, and from them the units of which it is a whole number.
#![tactic(auto)]

ghost use Rattle.std.specs.Prelude.{◌≡◌, T};
ghost use Rattle.std.specs.Float.{binary64};
ghost use Rattle.std.specs.Float.Ieee.{mul};
ghost use Rattle.std.specs.Float.Ieee.Scale.{finite};
ghost use Rattle.weights.specs.Worth.{half64, magnitude as magnitude_of};
ghost use Rattle.weights.specs.Pattern.{pattern as pattern_of, beyond as beyond_of, at_zero as at_zero_of};

// 2^52, the weight of a significand's leading digit and of the exponent's field
const LEADING: u64 = 4503599627370496;

// 2^63, the weight of the sign
const SIGN: u64 = 9223372036854775808;

// Half of q in f64: the coefficient of an entry in the rows of its two ends.
pub fn half(q: f64) -> f64
    ensures { result ≡ mul binary64 half64 q }
{
    0.5 * q
}

// x with its sign cleared; a zero of either sign becomes 0.0, and a NaN stays.
pub fn magnitude(x: f64) -> f64
    ensures { result ≡ magnitude_of x }
{
    if x < 0.0 {
        return -x;
    }
    if x == 0.0 {
        return 0.0;
    }
    x
}

// Whether x is a finite f64, and so neither a NaN nor an infinity.
pub fn is_finite(x: f64) -> bool
    ensures { result ≡ finite x }
{
    let top = f64::from_bits(0x7ff0_0000_0000_0000);
    let bottom = f64::from_bits(0xfff0_0000_0000_0000);
    (bottom < x) & (x < top)
}

// The bits of |x|.
pub fn pattern(x: f64) -> u64
    requires { T (finite x) }
    ensures { result ≡ pattern_of x }
{
    f64::to_bits(x) % SIGN
}

// 4096 at a zero, which is whole in every unit; a sum with it, in place of a return, leaves no branch.
fn at_zero(b: u64) -> u64
    ensures { result ≡ at_zero_of b }
{
    if b == 0 { 4096 } else { 0 }
}

// The weight with these bits is whole in the units below this number: one more than its grain, where it is not too small for the grade to care.
pub fn beyond(b: u64) -> u64
    ensures { result ≡ beyond_of b }
{
    b / LEADING + (u64::trailing_zeros(b % LEADING + LEADING) as u64) + at_zero(b)
}
