// Tests at every weight of a list.
ghost use Rattle.std.specs.Prelude.{◌≡◌, true, length};
ghost use Rattle.field.specs.Tests.{all_finite as all_finite_of};
ghost use Rattle.field.specs.Measure.{Measured};

// What the grade reads of a list of weights: all are whole in the units below `beyond`, and the largest has the bits `size`.
#[derive(Clone, Copy)]
pub struct Measure {
    pub beyond: u64,
    pub size: u64,
}

// Whether every weight of the slice is finite; all are looked at, whatever the first ones are.
pub fn all_finite(w: &[f64]) -> bool
    ensures { result ≡ all_finite_of w.now }
{
    let mut fine = true;
    for &x in w {
        fine = fine & weights::is_finite(x);
    }
    fine
}

// One pass, with no branch on a weight's sign or on a zero. It stops at a weight that is whole in no unit of the 41.
pub fn measured(w: &[f64]) -> Measure
    requires { all_finite_of w.now ≡ true }
    ensures { Measured w.now (length w.now) result.beyond result.size }
{
    let mut beyond: u64 = 4096;
    let mut size: u64 = 0;
    for &x in w {
        let b = weights::pattern(x);
        beyond = beyond.min(weights::beyond(b));
        size = size.max(b);
        if beyond <= 1053 {
            return Measure { beyond, size };
        }
    }
    Measure { beyond, size }
}
