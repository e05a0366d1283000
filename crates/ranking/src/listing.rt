// The free variables, listed in the u32 scratch.
ghost use Rattle.std.specs.Prelude.{◌≡◌, ◌+◌, ◌≤◌, length};
ghost use Rattle.ranking.specs.Listed.{step_of, Listed};

// How far a start value moves the end of the list: 1 for a free variable, 0 for another.
pub fn step(value: u8) -> usize
    ensures value { result ≡ step_of value }
    ensures upper_bound { result ≤ 1 }
{
    if value == 2 { 1 } else { 0 }
}

// The free variables go into the words from `at` on, rising; how many they are.
pub fn list_free(start: &[u8], u: &mut [u32], at: usize) -> usize
    requires start_len_bound { length start.now ≤ 4096 }
    requires start_in_bounds { at + length start.now ≤ length u.old }
    ensures { Listed start.now at (length start.now) u.old u.new result }
{
    let mut count = 0;
    for j in 0..start.len() {
        u[at + count] = j as u32;
        count += step(start[j]);
    }
    count
}
