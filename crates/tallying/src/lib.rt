// The tally of an input that is read in parts into a bounded buffer: all but the read itself.
#![tactic(auto)]

ghost use Rattle.std.specs.Prelude.{◌≡◌, ◌+◌, ◌-◌, ◌^◌, ◌<◌, ◌≤◌, length, take, drop};
ghost use Rattle.scratch.specs.Over.{over};
ghost use Rattle.records.specs.Parsing.{told_by, Room};
ghost use Rattle.records.specs.WellFormed.{longest_input};
ghost use Rattle.tally.specs.Counting.{Few};
ghost use Rattle.tally.specs.Tally.{tally_on, Small};
ghost use Rattle.tallying.specs.Reads.{Turns, Goes};
ghost use Rattle.tallying.specs.Taking.{is_enough as is_enough_of, Takes};

use records::parsing::Lists;
use std::ops::ControlFlow;
use tally::{Ending, Reached, Tally, Totals, Turn, step};

// Whether the next field, or its first fault, lies in so many bytes.
fn is_enough(last: bool, left: usize) -> bool
    ensures { result ≡ is_enough_of last left }
{
    if last { left > 0 } else { left > 18178 }
}

// The fields that lie whole in the bytes, and the index behind them; with `last` no bytes are to come.
fn take_in(
    bytes: &[u8],
    lists: &mut Lists,
    values: &mut [u8],
    f: &mut [f64],
    u: &mut [u32],
    last: bool,
    t: Totals,
    most: u64,
) -> Turn
    requires room { Room (told_by lists.old) }
    requires few { Few (length values.old) (length f.old) (length u.old) }
    requires small { Small t }
    requires most_bound { most ≤ 2 ^ 53 }
    ensures { Takes last most t bytes.now result }
{
    let mut totals = t;
    let mut at: usize = 0;
    // A field says where the next one begins.
    while is_enough(last, bytes.len() - at) {
        let next = step(&bytes[at..], lists, values, f, u, totals, most)?;
        totals = next.totals;
        at += next.at;
    }
    ControlFlow::Continue(Reached { totals, at })
}

fn take_fields(bytes: &[u8], last: bool, t: Totals, most: u64) -> Turn
    requires small { Small t }
    requires most_bound { most ≤ 2 ^ 53 }
    ensures { Takes last most t bytes.now result }
{
    let mut c = [0.0; 256];
    let mut rows = [0u16; 1024];
    let mut cols = [0u16; 1024];
    let mut q = [0.0; 1024];
    let mut start = [0u8; 256];
    let mut values = [0u8; 256];
    let mut f = [0.0; 6160];
    let mut u = [0u32; 12304];
    let mut lists = Lists {
        c: &mut c,
        rows: &mut rows,
        cols: &mut cols,
        q: &mut q,
        start: &mut start,
    };
    take_in(
        bytes,
        &mut lists,
        &mut values,
        &mut f,
        &mut u,
        last,
        t,
        most,
    )
}

// The bytes from `at` on, of those that are held, move to the front; how many they are.
fn move_front(buffer: &mut [u8], at: usize, held: usize) -> usize
    requires at_le_held { at ≤ held }
    requires held_in_bounds { held ≤ length buffer.old }
    ensures value { result ≡ held - at }
    ensures buffer_value { buffer.new ≡ over (drop at (take held buffer.old)) buffer.old }
{
    buffer.copy_within(at..held, 0);
    held - at
}

// The tally, with the fields that are left where no bytes are to come.
fn end(bytes: &[u8], t: Totals, most: u64) -> Tally
    requires small { Small t }
    requires most_bound { most ≤ 2 ^ 53 }
    ensures value { result ≡ tally_on most t bytes.now }
    ensures small_2 { Small result.totals }
{
    match take_fields(bytes, true, t, most) {
        ControlFlow::Continue(reached) => Tally {
            ending: Ending::Whole,
            totals: reached.totals,
        },
        ControlFlow::Break(tally) => tally,
    }
}

// After a read of n bytes behind those that are held: the totals and how many bytes are held then, or the tally. A read of none is the end of the input.
// Fields are taken once the buffer is full.
pub fn turn(buffer: &mut [u8], from: Reached, n: usize, most: u64) -> Turn
    requires longest_input_in_bounds { longest_input < length buffer.old }
    requires n_in_bounds { from.at + n ≤ length buffer.old }
    requires small { Small from.totals }
    requires most_bound { most ≤ 2 ^ 53 }
    ensures turns { Turns most from.totals (take from.at buffer.old) (take n (drop from.at buffer.old)) result buffer.new }
    ensures goes { Goes (length buffer.old) from.totals from.at result }
{
    if n == 0 {
        return ControlFlow::Break(end(&buffer[..from.at], from.totals, most));
    }
    let size = from.at + n;
    if size < buffer.len() {
        return ControlFlow::Continue(Reached {
            totals: from.totals,
            at: size,
        });
    }
    let taken = take_fields(&buffer[..size], false, from.totals, most)?;
    ControlFlow::Continue(Reached {
        totals: taken.totals,
        at: move_front(buffer, taken.at, size),
    })
}
