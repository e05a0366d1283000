// Lists of values: counted, and laid over one another.
ghost use Rattle.std.specs.Prelude.{◌≡◌, ◌+◌, ◌≤◌, length};
ghost use Rattle.meaning.specs.Free.{frees};
ghost use Rattle.scratch.specs.Region.{region};
ghost use Rattle.heavy.specs.Rounds.{laid_at, laid_over};

use ranking::listing::step;

// How many values are free.
pub fn count_free(values: &[u8]) -> usize
    ensures { result ≡ frees values.now }
{
    let mut count = 0;
    for value in values {
        count += step(*value);
    }
    count
}

// w where it is a value, and v where it is not.
fn laid(w: u32, v: u8) -> u8
    ensures { result ≡ laid_at w v }
{
    if w == 0 {
        return 0;
    }
    if w == 1 {
        return 1;
    }
    v
}

// The values that stand in the words from `at` on go over the values.
pub fn lay(values: &mut [u8], u: &[u32], at: usize)
    requires { at + length values.old ≤ length u.now }
    ensures { values.new ≡ laid_over (region at (length values.old) u.now) values.old }
{
    for (j, value) in values.iter_mut().enumerate() {
        *value = laid(u[at + j], *value);
    }
}
