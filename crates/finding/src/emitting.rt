// What is found goes into the u32 scratch: probe values into a region, numbers of constraints behind those gathered.
ghost use Rattle.std.specs.Prelude.{◌≡◌, ◌+◌, ◌<◌, ◌≤◌, length, get_or};
ghost use Rattle.std.proofs.Math.Seq.{paste};
ghost use Rattle.scratch.specs.Region.{region};
ghost use Rattle.finding.specs.Emit.{lay_to, Layable, bench, entered, emit_at, emit_of, emit_to, Emits, Emittable};
ghost use Rattle.probe.specs.Found.{found};

use crate::rule::{counts, gives, number, winner};

// The list of `count` words at `from` is kept at `kept`.
pub fn keep(u: &mut [u32], from: usize, count: usize, kept: usize)
    requires count_bound { from + count ≤ kept }
    requires count_in_bounds { kept + count ≤ length u.old }
    ensures { u.new ≡ paste u.old kept (region from count u.old) count }
{
    u.copy_within(from..from + count, kept);
}

// The values of the variables of a list go into the words from `first` on.
pub fn lay(values: &[u8], u: &mut [u32], from: usize, count: usize, first: usize)
    requires { Layable values.now u.old from count first }
    ensures { u.new ≡ lay_to values.now from first u.old count }
{
    for p in 0..count {
        let j = u[from + p] as usize;
        u[first + j] = u32::from(values[j]);
    }
}

// What the two values v and w give goes into the words.
fn enter(u: &mut [u32], i: u16, j: u16, v: u32, w: u32, place: usize, end: usize) -> usize
    requires i_bound { i < 4096 }
    requires j_bound { j < 4096 }
    requires place_in_bounds { place < length u.old }
    requires end_in_bounds { end < length u.old }
    ensures { bench u.new result ≡ entered (found i j v w) place (bench u.old end) }
{
    let key = number(i, j, v, w);
    u[place] = winner(i, j, v, w, u[place]);
    u[end] = key;
    end + counts(key)
}

// Enters what two probes find of variable j: a probe value in its place, or a number behind those gathered.
pub fn emit(
    start: &[u8],
    values: &[u8],
    u: &mut [u32],
    i: usize,
    j: usize,
    first: usize,
    at: usize,
    end: usize,
) -> usize
    requires emits { Emits start.now values.now u.old i j first at }
    requires end_in_bounds { end < length u.old }
    ensures { bench u.new result ≡ emit_at start.now values.now i first at (bench u.old end) j }
{
    let probed = i as u16;
    let other = j as u16;
    let v = gives(probed, other, start[j], u[first + j]);
    let w = gives(probed, other, start[j], u32::from(values[j]));
    enter(u, probed, other, v, w, at + j, end)
}

// A variable whose value is below `least` is passed over.
fn emit_from(
    start: &[u8],
    values: &[u8],
    u: &mut [u32],
    i: usize,
    j: usize,
    least: u8,
    first: usize,
    at: usize,
    end: usize,
) -> usize
    requires emits { Emits start.now values.now u.old i j first at }
    requires end_in_bounds { least ≤ get_or values.now j 0 → end < length u.old }
    ensures { bench u.new result ≡ emit_of start.now values.now i least first at (bench u.old end) j }
{
    if values[j] < least {
        return end;
    }
    emit(start, values, u, i, j, first, at, end)
}

// What is found of the variables of a list, where what the probe at 0 gave stands from `first` on; where the gathered numbers end now.
pub fn emit_list(
    start: &[u8],
    values: &[u8],
    u: &mut [u32],
    i: usize,
    from: usize,
    count: usize,
    least: u8,
    first: usize,
    at: usize,
    end: usize,
) -> usize
    requires { Emittable start.now values.now u.old i from count least first at end }
    ensures { bench u.new result ≡ emit_to start.now values.now i from least first at (bench u.old end) count }
{
    let mut last = end;
    for p in 0..count {
        let j = u[from + p] as usize;
        last = emit_from(start, values, u, i, j, least, first, at, last);
    }
    last
}
