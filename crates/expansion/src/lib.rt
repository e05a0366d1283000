// The error-free sum of f64 numbers, whose parts stand at the front of a lent slice: the sum is how many parts there are, or None once one of its sums has overflowed.
#![tactic(auto)]

ghost use Rattle.std.specs.Prelude.{◌≡◌, ◌<◌, length};
ghost use Rattle.expansion.specs.Sum.{split_of, is_zero, count_of, Keeps, Carried, Adds};

// A rounded sum, and what rounding left over.
#[derive(Clone, Copy)]
struct Split {
    high: f64,
    low: f64,
}

fn two_sum(x: f64, y: f64) -> Split
    ensures { result ≡ split_of x y }
{
    if weights::magnitude(x) < weights::magnitude(y) {
        let high = y + x;
        return Split {
            high,
            low: x - (high - y),
        };
    }
    let high = x + y;
    Split {
        high,
        low: y - (high - x),
    }
}

// Puts x behind the parts that are kept, unless it is 0.
fn keep(parts: &mut [f64], kept: usize, x: f64) -> usize
    requires { kept < length parts.old }
    ensures { Keeps x kept parts.old parts.new result }
{
    if x != 0.0 {
        parts[kept] = x;
        return kept + 1;
    }
    kept
}

// Carries x through the first `count` parts.
fn carry(parts: &mut [f64], count: usize, x: f64) -> Option<usize>
    requires { count < length parts.old }
    ensures { Carried x count parts.old parts.new result }
{
    let mut kept = 0;
    let mut high = x;
    for i in 0..count {
        let split = two_sum(high, parts[i]);
        high = split.high;
        if !weights::is_finite(high) {
            return None;
        }
        kept = keep(parts, kept, split.low);
    }
    Some(keep(parts, kept, high))
}

// Adds x without error; the sum has then at most one part more than before.
pub fn add(sum: Option<usize>, parts: &mut [f64], x: f64) -> Option<usize>
    requires { count_of sum < length parts.old }
    ensures { Adds x sum parts.old parts.new result }
{
    let count = sum?;
    if weights::is_finite(x) {
        return carry(parts, count, x);
    }
    None
}

// Whether what was added comes to 0: no part is left, and no sum has overflowed.
pub fn is_zero(sum: Option<usize>) -> bool
    ensures { result ≡ is_zero sum }
{
    sum == Some(0)
}
