// Rows of 32 words of 64 bits, in which bit b of row a says that literal a leads to literal b: set, read, closed and counted.
#![tactic(auto)]

ghost use Rattle.std.specs.Prelude.{◌≡◌, ◌+◌, ◌*◌, ◌<◌, ◌≤◌, length};
ghost use Rattle.reaching.specs.Via.{count_below};
ghost use Rattle.bit_rows.specs.Rows.{bit_in, Rows, Holding, marked, joined, stepped, stage, closed};

// Sets bit b of row a.
pub fn mark(w: &mut [u64], a: usize, b: usize)
    requires b_bound { b < 2048 }
    requires a_in_bounds { a * 32 + 32 ≤ length w.old }
    ensures { Holding (marked (bit_in w.old) a b) w.old w.new }
{
    let at = a * 32 + b / 64;
    w[at] |= 1 << (b % 64);
}

// Whether bit b of row a is set.
pub fn has(w: &[u64], a: usize, b: usize) -> bool
    requires b_bound { b < 2048 }
    requires a_in_bounds { a * 32 + 32 ≤ length w.now }
    ensures { result ≡ bit_in w.now a b }
{
    (w[a * 32 + b / 64] >> (b % 64)) & 1 == 1
}

// Sets in row a the bits of row k too.
pub fn join(w: &mut [u64], a: usize, k: usize)
    requires a_in_bounds { a * 32 + 32 ≤ length w.old }
    requires k_in_bounds { k * 32 + 32 ≤ length w.old }
    ensures { Holding (joined (bit_in w.old) a k) w.old w.new }
{
    let own = a * 32;
    let its = k * 32;
    for t in 0..32 {
        w[own + t] |= w[its + t];
    }
}

// Row a, if it has bit k, joined to row k.
fn step(w: &mut [u64], a: usize, k: usize)
    requires k_bound { k < 2048 }
    requires a_in_bounds { a * 32 + 32 ≤ length w.old }
    requires k_in_bounds { k * 32 + 32 ≤ length w.old }
    ensures { Holding (stepped (bit_in w.old) k a) w.old w.new }
{
    if has(w, a, k) {
        join(w, a, k);
    }
}

// Stage k: every row below n that has bit k is joined to row k.
fn pass(w: &mut [u64], n: usize, k: usize)
    requires rows { Rows n w.old }
    requires k_lt_n { k < n }
    ensures { Holding (stage (bit_in w.old) k n) w.old w.new }
{
    for a in 0..n {
        step(w, a, k);
    }
}

// All stages: the rows below n are Warshall's closure.
pub fn close(w: &mut [u64], n: usize)
    requires { Rows n w.old }
    ensures { Holding (closed (bit_in w.old) n n) w.old w.new }
{
    for k in 0..n {
        pass(w, n, k);
    }
}

// How many bits of row a are set, over all of its 32 words.
pub fn ones(w: &[u64], a: usize) -> usize
    requires { a * 32 + 32 ≤ length w.now }
    ensures { result ≡ count_below (bit_in w.now a) 2048 }
{
    let own = a * 32;
    let mut sum = 0;
    for x in &w[own..own + 32] {
        sum += x.count_ones() as usize;
    }
    sum
}
