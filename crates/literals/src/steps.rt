// The steps of propagation: a value is forced, an end is served, the ends of a variable are served.
ghost use Rattle.std.specs.Prelude.{◌≡◌, ◌+◌, ◌*◌, ◌<◌, ◌≤◌, length, get_or, set};
ghost use Rattle.constraints.specs.Record.{room};
ghost use Rattle.literals.specs.Listed.{Listed};
ghost use Rattle.literals.specs.Ends.{mine as mine_of};
ghost use Rattle.literals.specs.Going.{Valued, Going, Outcome};

use crate::ends::{mine, other, says};

// The value of variable i.
fn value(u: &[u32], i: usize) -> u8
    requires i_in_bounds { i < length u.now }
    requires i_bound { get_or u.now i 0 ≤ 2 }
    ensures { result ≡ get_or u.now i 0 }
{
    u[i] as u8
}

// Variable i takes the value v and goes to the end of the queue; the queue's new end.
pub fn force(u: &mut [u32], n: usize, tail: usize, i: usize, v: u8) -> usize
    requires i_lt_n { i < n }
    requires n_bound { n ≤ 4096 }
    requires tail_in_bounds { n + tail < length u.old }
    ensures value { result ≡ tail + 1 }
    ensures u_value { u.new ≡ set (set u.old i v) (n + tail) i }
{
    let at = n + tail;
    u[i] = u32::from(v);
    u[at] = i as u32;
    tail + 1
}

// What end x says of the other end: nothing, both values, what it has, the opposite, or a value for a free variable. Answers the queue's new end, or None where a variable is held both ways.
fn serve_end(start: &[u8], list: &[u16], u: &mut [u32], tail: usize, x: usize) -> Option<usize>
    requires listed { Listed (length start.now) list.now }
    requires start_len_bound { length start.now ≤ 4096 }
    requires going { Going list.now start.now u.old tail }
    requires x_bound { x < 2 * room list.now }
    requires valued { Valued (length start.now) u.old (mine_of list.now x) }
    ensures { Outcome list.now start.now (λ y. y ≡ x) u.old tail u.new result }
{
    let n = start.len();
    let w = says(list, x, value(u, mine(list, x)));
    if w == 2 {
        return Some(tail);
    }
    if w == 3 {
        return None;
    }
    let j = other(list, x);
    let have = value(u, j);
    if have == w {
        return Some(tail);
    }
    if have != 2 {
        return None;
    }
    Some(force(u, n, tail, j, w))
}

// Serves every end of variable i: what its value gives is forced at the other end, or clashes there. Answers as an end does.
pub fn serve(start: &[u8], list: &[u16], u: &mut [u32], tail: usize, i: usize) -> Option<usize>
    requires listed { Listed (length start.now) list.now }
    requires start_len_bound { length start.now ≤ 4096 }
    requires going { Going list.now start.now u.old tail }
    requires valued { Valued (length start.now) u.old i }
    ensures { Outcome list.now start.now (λ y. mine_of list.now y ≡ i) u.old tail u.new result }
{
    let n = start.len();
    let mut last = tail;
    let mut p = u[2 * n + i] as usize;
    // Each end names the one before it in the chain of its variable.
    while p > 0 {
        let x = p - 1;
        last = serve_end(start, list, u, last, x)?;
        p = u[3 * n + x] as usize;
    }
    Some(last)
}
