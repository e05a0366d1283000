// Literal closure of start values: given values go to the queue, and the queue is served until nothing is left or a variable is held both ways.
#![tactic(auto)]

mod ends;
mod steps;

ghost use Rattle.std.specs.Prelude.{◌≡◌, ◌+◌, ◌<◌, ◌≤◌, length, take};
ghost use Rattle.meaning.specs.Steps.{Valid};
ghost use Rattle.meaning.specs.Literal as meaning;
ghost use Rattle.literals.specs.Listed.{Listed, Ready};
ghost use Rattle.literals.specs.Ends.{rules};
ghost use Rattle.literals.specs.Going.{Freed, Entering, found};

use crate::ends::link;
use crate::steps::{force, serve};

// The start value of variable i.
fn enter_at(start: &[u8], list: &[u16], u: &mut [u32], tail: usize, i: usize) -> usize
    requires start_len_bound { length start.now ≤ 4096 }
    requires valid { Valid start.now }
    requires i_in_bounds { i < length start.now }
    requires entering { Entering list.now start.now u.old tail i }
    ensures { Entering list.now start.now u.new result (i + 1) }
{
    let v = start[i];
    if v == 2 {
        return tail;
    }
    let n = start.len();
    force(u, n, tail, i, v)
}

// Every start value; the queue's end.
fn enter(start: &[u8], list: &[u16], u: &mut [u32]) -> usize
    requires start_len_bound { length start.now ≤ 4096 }
    requires valid { Valid start.now }
    requires entering { Entering list.now start.now u.old 0 0 }
    ensures { Entering list.now start.now u.new result (length start.now) }
{
    let mut tail = 0;
    for i in 0..start.len() {
        tail = enter_at(start, list, u, tail, i);
    }
    tail
}

// The queue, until nothing is left to serve; false where a variable is held both ways.
fn work(start: &[u8], list: &[u16], u: &mut [u32], tail: usize) -> bool
    requires listed { Listed (length start.now) list.now }
    requires start_len_bound { length start.now ≤ 4096 }
    requires valid { Valid start.now }
    requires entering { Entering list.now start.now u.old tail (length start.now) }
    ensures { found result (take (length start.now) u.new) ≡ meaning.propagate (rules list.now) start.now }
{
    let n = start.len();
    let mut last = tail;
    let mut head = 0;
    // The queue grows while it is served, so no range ends where it does.
    while head < last {
        let i = u[n + head] as usize;
        let Some(next) = serve(start, list, u, last, i) else {
            return false;
        };
        last = next;
        head += 1;
    }
    true
}

// Literal closure of the start values, at the front of u. Each variable enters the queue once, so each end is served once at most: O(n + k).
pub fn run(start: &[u8], list: &[u16], u: &mut [u32]) -> bool
    requires { Ready start.now list.now (length u.old) }
    ensures { found result (take (length start.now) u.new) ≡ meaning.propagate (rules list.now) start.now }
{
    let n = start.len();
    u.fill(0);
    link(list, u, n);
    u[..n].fill(2);
    let tail = enter(start, list, u);
    work(start, list, u, tail)
}
