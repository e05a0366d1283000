// The four bounds of a pair, and what they say against a tolerance.
ghost use Rattle.std.specs.Prelude.{◌≡◌};
ghost use Rattle.margins.specs.Model.{below_zero as below_zero_of, above_zero_of, at_least_one_of, widen, start_from, tolerance_from, kept as kept_of, sign_of, between as between_of, hopeless as hopeless_at};

// f at 11 less f at 00, and f at 10 less f at 01: the least and the greatest of each.
#[derive(Clone, Copy)]
pub struct Bounds {
    pub sumLow: f64,
    pub sumHigh: f64,
    pub diffLow: f64,
    pub diffHigh: f64,
}

// Where two bounds lie: always above the tolerance, always below its negative, or neither.
#[derive(Clone, Copy)]
pub enum Sign {
    Above,
    Below,
    Neither,
}

// min(x, 0), where 0.0 stands for both zeros: f64::min leaves open which of two zeros it gives.
fn below_zero(x: f64) -> f64
    ensures { result ≡ below_zero_of x }
{
    if x < 0.0 { x } else { 0.0 }
}

// max(x, 0), where 0.0 stands for both zeros: f64::max leaves open which of two zeros it gives.
fn above_zero(x: f64) -> f64
    ensures { result ≡ above_zero_of x }
{
    if 0.0 < x { x } else { 0.0 }
}

// max(x, 1)
fn at_least_one(x: f64) -> f64
    ensures { result ≡ at_least_one_of x }
{
    if 1.0 < x { x } else { 1.0 }
}

// A merged weight that is a zero is 0.0.
pub fn kept(x: f64) -> f64
    ensures { result ≡ kept_of x }
{
    if x == 0.0 { 0.0 } else { x }
}

// 1e-10 times max(mass + mass, 1).
pub fn tolerance(mass: f64, mass2: f64) -> f64
    ensures { result ≡ tolerance_from mass mass2 }
{
    0.0000000001 * at_least_one(mass + mass2)
}

impl Bounds {
    // From the linear parts of the pair and the merged weight between its variables.
    pub fn start(linear: f64, linear2: f64, edge: f64) -> Bounds
        ensures { result ≡ start_from linear linear2 edge }
    {
        let sum = linear + linear2 + edge;
        let diff = linear - linear2;
        Bounds {
            sumLow: sum,
            sumHigh: sum,
            diffLow: diff,
            diffHigh: diff,
        }
    }

    // A neighbour's weights at the two variables: they are added before their signs are asked for.
    pub fn widened(self, wi: f64, wj: f64) -> Bounds
        ensures { result ≡ widen self wi wj }
    {
        let both = wi + wj;
        let apart = wi - wj;
        Bounds {
            sumLow: self.sumLow + below_zero(both),
            sumHigh: self.sumHigh + above_zero(both),
            diffLow: self.diffLow + below_zero(apart),
            diffHigh: self.diffHigh + above_zero(apart),
        }
    }
}

// A bound equal to the tolerance gives nothing.
pub fn judged(low: f64, high: f64, t: f64) -> Sign
    ensures { result ≡ sign_of t low high }
{
    if low > t {
        Sign::Above
    } else if high < -t {
        Sign::Below
    } else {
        Sign::Neither
    }
}

// Whether two bounds say neither.
fn between(low: f64, high: f64, t: f64) -> bool
    ensures { result ≡ between_of t low high }
{
    low <= t && -t <= high
}

// Whether no bound can give a constraint any more.
pub fn hopeless(b: Bounds, t: f64) -> bool
    ensures { result ≡ hopeless_at t b }
{
    between(b.sumLow, b.sumHigh, t) && between(b.diffLow, b.diffHigh, t)
}
