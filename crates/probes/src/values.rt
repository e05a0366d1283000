// The probe values in the words: none at first, and taken from there.
ghost use Rattle.std.specs.Prelude.{◌≡◌, ◌+◌, ◌≤◌, length};
ghost use Rattle.scratch.specs.Region.{region};
ghost use Rattle.probes.specs.Standing.{Noned, Bytes};

// 2 goes into n words from `at` on.
pub fn set_none(u: &mut [u32], at: usize, n: usize)
    requires { at + n ≤ length u.old }
    ensures { Noned at n u.old u.new }
{
    u[at..at + n].fill(2);
}

// The words from `at` on go into the values.
pub fn take_values(values: &mut [u8], u: &[u32], at: usize)
    requires { Bytes at (length values.old) u.now }
    ensures { values.new ≡ region at (length values.old) u.now }
{
    for (j, value) in values.iter_mut().enumerate() {
        *value = u[at + j] as u8;
    }
}
