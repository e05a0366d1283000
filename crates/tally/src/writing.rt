// The text of a tally, written into lent bytes.
ghost use Rattle.std.specs.Prelude.{◌+◌, ◌*◌, ◌^◌, ◌≤◌, [], ◌∷◌, ◌++◌, length};
ghost use Rattle.text.specs.Text.{decimal, space, Wrote, Written};
ghost use Rattle.tally.specs.Tally.{Small};
ghost use Rattle.tally.specs.Text.{each_text, rate_text, line_of, ending_text, tally_text};

use crate::{Ending, Tally, Totals};
use text::{put_bytes, put_decimal, write_refused};

// A total and a space.
fn put_total(out: &mut [u8], at: usize, n: u64) -> usize
    requires n_bound { n ≤ 2 ^ 53 }
    requires at_in_bounds { at + 17 ≤ length out.old }
    ensures wrote { Wrote (decimal n ++ space) out.old at out.new result }
    ensures upper_bound { result ≤ at + 17 }
{
    let next = put_decimal(out, at, n);
    put_bytes(out, next, b" ")
}

fn put_four(out: &mut [u8], at: usize, a: u64, b: u64, c: u64, d: u64) -> usize
    requires a_bound { a ≤ 2 ^ 53 }
    requires b_bound { b ≤ 2 ^ 53 }
    requires c_bound { c ≤ 2 ^ 53 }
    requires d_bound { d ≤ 2 ^ 53 }
    requires at_in_bounds { at + 68 ≤ length out.old }
    ensures wrote { Wrote (each_text (a ∷ b ∷ c ∷ d ∷ [])) out.old at out.new result }
    ensures upper_bound { result ≤ at + 68 }
{
    let first = put_total(out, at, a);
    let second = put_total(out, first, b);
    let third = put_total(out, second, c);
    put_total(out, third, d)
}

// The forced per thousand of `rest`, and what remains; a dash where there are none.
fn put_rate(out: &mut [u8], at: usize, forced: u64, rest: u64) -> usize
    requires forced_bound { forced ≤ 2 * 2 ^ 53 }
    requires forced_le_rest { forced ≤ rest }
    requires rest_bound { rest ≤ 3 * 2 ^ 53 }
    requires at_in_bounds { at + 22 ≤ length out.old }
    ensures wrote { Wrote (rate_text forced rest) out.old at out.new result }
    ensures upper_bound { result ≤ at + 22 }
{
    if rest == 0 {
        return put_bytes(out, at, b"-");
    }
    let first = put_decimal(out, at, 1000 * forced / rest);
    let second = put_bytes(out, first, b" ");
    put_decimal(out, second, 1000 * forced % rest)
}

fn put_line(out: &mut [u8], at: usize, t: Totals) -> usize
    requires small { Small t }
    requires at_in_bounds { at + 159 ≤ length out.old }
    ensures wrote { Wrote (line_of t) out.old at out.new result }
    ensures upper_bound { result ≤ at + 159 }
{
    let fields = put_four(out, at, t.read, t.exact, t.inexact, t.refused);
    let variables = put_four(out, fields, t.given, t.zero, t.one, t.free);
    let forced = t.zero + t.one;
    let rate = put_rate(out, variables, forced, forced + t.free);
    put_bytes(out, rate, b"\n")
}

// The line of a refusal, or nothing.
fn put_ending(ending: Ending, out: &mut [u8]) -> usize
    requires { 12 ≤ length out.old }
    ensures wrote { Wrote (ending_text ending) out.old 0 out.new result }
    ensures upper_bound { result ≤ 12 }
{
    match ending {
        Ending::Whole => 0,
        Ending::Malformed => write_refused(11, out),
        Ending::Full => write_refused(19, out),
    }
}

fn write_in(tally: Tally, out: &mut [u8]) -> usize
    requires small { Small tally.totals }
    requires in_bounds { 171 ≤ length out.old }
    ensures { Written (tally_text tally) out.old out.new result }
{
    let at = put_ending(tally.ending, out);
    put_line(out, at, tally.totals)
}

// The text of a tally, at the front of `out`, which has room for the longest: twelve bytes for a refusal, seventeen for each total, and the rate.
pub fn write(tally: Tally, out: &mut [u8; 192]) -> usize
    requires { Small tally.totals }
    ensures { Written (tally_text tally) out.old out.new result }
{
    write_in(tally, out)
}
