// What is read off the rows of what each literal reaches.
ghost use Rattle.std.specs.Prelude.{◌≡◌, ◌+◌, ◌*◌, ◌<◌, ◌≤◌, length, MatchOption};
ghost use Rattle.scratch.specs.Over.{over};
ghost use Rattle.reaching.specs.Via.{picked, contradicts as contradicts_by, first_contradictory as first_contradictory_of};
ghost use Rattle.bit_rows.specs.Rows.{bit_in};
ghost use Rattle.arrows.specs.Marks.{Wide};
ghost use Rattle.allow.specs.Answer.{counts_to};
ghost use Rattle.allow.specs.Choice.{Blank, wants};

// Whether each literal of variable i leads to the other.
fn contradicts(w: &[u64], i: usize) -> bool
    requires i_bound { i < 1024 }
    requires i_in_bounds { i * 64 + 64 ≤ length w.now }
    ensures { result ≡ contradicts_by (bit_in w.now) i }
{
    bit_rows::has(w, 2 * i + 0, 2 * i + 1) && bit_rows::has(w, 2 * i + 1, 2 * i + 0)
}

// The lowest of n variables each of whose literals leads to the other.
pub fn first_contradictory(w: &[u64], n: usize) -> Option<usize>
    requires { Wide n w.now }
    ensures { MatchOption result (first_contradictory_of (bit_in w.now) n ≡ n) (λ i. (i < n) × (i ≡ first_contradictory_of (bit_in w.now) n)) }
{
    for i in 0..n {
        if contradicts(w, i) {
            return Some(i);
        }
    }
    None
}

// The choice for variable i: 1 only if it must be.
fn choice(w: &[u64], n: usize, i: usize) -> bool
    requires wide { Wide n w.now }
    requires i_lt_n { i < n }
    ensures { result ≡ wants w.now n i }
{
    bit_rows::has(w, 2 * i + 0, 2 * i + 1) || bit_rows::has(w, 2 * n, 2 * i + 1)
}

// The choices, in rising order; row 2n gathers what they lead to.
pub fn choose(w: &mut [u64], n: usize, assignment: &mut [u8])
    requires wide { Wide n w.old }
    requires blank { Blank n w.old }
    requires n_in_bounds { n ≤ length assignment.old }
    ensures { assignment.new ≡ over (picked (bit_in w.old) n) assignment.old }
{
    for i in 0..n {
        let v = choice(w, n, i);
        assignment[i] = u8::from(v);
        bit_rows::join(w, 2 * n, 2 * i + usize::from(v));
    }
}

// How many numbers each of the first m literals leads to.
pub fn count_all(w: &[u64], m: usize, counts: &mut [u16])
    requires m_bound { m ≤ 2048 }
    requires m_in_bounds { m * 32 ≤ length w.now }
    requires m_in_bounds_2 { m ≤ length counts.old }
    ensures { counts.new ≡ over (counts_to (bit_in w.now) 2048 m) counts.old }
{
    for a in 0..m {
        counts[a] = bit_rows::ones(w, a) as u16;
    }
}
